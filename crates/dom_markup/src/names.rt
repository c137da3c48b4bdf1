//! The names of the elements that the parser and the serializer treat specially.

ghost use Rattle.std.specs.Prelude.{◌≡◌};
ghost use Rattle.std.specs.List.{list_any};
ghost use Rattle.std.specs.Str.{bytes_eq};
ghost use Rattle.dom_nodes.specs.Words.{is_among};
ghost use Rattle.dom_markup.specs.Names.{raw_names, void_names};

use dom_nodes::name::LocalRef;

/// The void elements, which have a start tag alone.
pub(crate) const VOID_NAMES: [&str; 18] = [
    "area", "base", "basefont", "bgsound", "br", "col", "embed", "frame", "hr", "img", "input",
    "keygen", "link", "meta", "param", "source", "track", "wbr",
];

/// The raw text elements, whose text is read and written without escaping.
pub(crate) const RAW_NAMES: [&str; 7] = [
    "style",
    "script",
    "xmp",
    "iframe",
    "noembed",
    "noframes",
    "plaintext",
];

/// The escapable raw text elements, whose content is one text in which references are resolved.
pub(crate) const TEXT_NAMES: [&str; 2] = ["title", "textarea"];

/// How each known element name is treated, indexed by the name's index in the table of known names;
/// 0 for most elements.
#[rattlefmt::skip]
static TREATED: [u8; 247] = [
    0, 0, 0, 0, 0, 0, 0, 0, 0, 1, 0, 0, 0, 0, 0, 0, 0, 0, 0, 0, 1, 0, 0, 0, 0, 0, 0, 0, 0, 0,
    0, 0, 0, 0, 0, 1, 0, 0, 0, 0, 0, 1, 0, 0, 0, 0, 0, 0, 0, 0, 0, 0, 0, 0, 0, 0, 0, 1, 2, 0,
    1, 1, 0, 0, 0, 0, 0, 0, 0, 0, 0, 0, 0, 0, 1, 0, 0, 0, 0, 1, 0, 0, 0, 0, 0, 0, 0, 0, 0, 0,
    0, 0, 0, 0, 0, 0, 0, 0, 0, 0, 0, 0, 0, 1, 1, 1, 0, 0, 0, 0, 0, 0, 1, 0, 0, 0, 0, 0, 2, 0,
    0, 0, 0, 0, 1, 0, 0, 0, 0, 0, 0, 0, 0, 0, 0, 0, 0, 0, 0, 0, 0, 0, 0, 0, 2, 0, 1, 0, 0, 0,
    0, 0, 0, 0, 2, 0, 0, 1, 0, 0, 0, 0, 0, 0, 0, 0, 0, 0, 0, 0, 1, 0, 0, 0, 0, 0, 0, 0, 0, 0,
    0, 0, 2, 0, 0, 0, 0, 0, 0, 0, 0, 0, 0, 1, 0, 0, 0, 0, 0, 0, 0, 0, 0, 0, 0, 0, 0, 0, 0, 2,
    0, 0, 0, 0, 0, 0, 0, 0, 0, 0, 0, 0, 0, 0, 0, 0, 2, 0, 0, 0, 0, 0, 0, 0, 0, 0, 0, 0, 0, 0,
    0, 0, 0, 0, 0, 0, 0,
];

/// The entry in `TREATED` of each name in `VOID_NAMES`.
const IS_VOID: u8 = 1;

/// The entry in `TREATED` of each name in `RAW_NAMES`.
const IS_RAW: u8 = 2;

/// Returns whether an element with this name is void. A known name is looked up by its index in the
/// table of known names.
pub(crate) fn is_void_name(name: &LocalRef<'_>) -> bool
    ensures { result ≡ is_among name.now void_names }
{
    match name.number() {
        Some(number) => TREATED[number as usize] == IS_VOID,
        None => is_void_text(name.as_str()),
    }
}

/// Returns whether an element with this name is a raw text element.
pub(crate) fn is_raw_name(name: &LocalRef<'_>) -> bool
    ensures { result ≡ is_among name.now raw_names }
{
    match name.number() {
        Some(number) => TREATED[number as usize] == IS_RAW,
        None => is_raw_text(name.as_str()),
    }
}

#[tactic(auto, unfolding(crate::specs::Names::void_names))]
fn is_void_text(name: &str) -> bool
    ensures { result ≡ is_among name.now void_names }
{
    is_one_of(&VOID_NAMES, name)
}

#[tactic(auto, unfolding(crate::specs::Names::raw_names))]
fn is_raw_text(name: &str) -> bool
    ensures { result ≡ is_among name.now raw_names }
{
    is_one_of(&RAW_NAMES, name)
}

fn is_one_of(names: &[&str], name: &str) -> bool
    ensures { result ≡ list_any (λ n. bytes_eq n.now name.now) names.now }
{
    names.iter().any(|n| *n == name)
}
