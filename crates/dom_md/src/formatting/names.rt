//! The kinds of elements that formatted text distinguishes, by their names.

ghost use Rattle.std.specs.Prelude.{◌≡◌, codes};
ghost use Rattle.std.specs.Str.{bytes_eq};
ghost use Rattle.dom_nodes.specs.Words.{is_among};
ghost use Rattle.dom_md.specs.Formatted.{block_names, cell_names, line_names};

use dom_nodes::name::LocalRef;

/// The kind of each known name, by its index in the table of known names: 1 for a block, 2 for an
/// element that ends a line, 3 for a table cell, 0 for all others.
#[rattlefmt::skip]
static KINDS: [u8; 247] = [
    0, 0, 0, 0, 0, 1, 0, 0, 0, 2, 0, 1, 0, 0, 1, 1, 1, 1, 1, 1, 2, 0, 2, 1, 0, 0, 3, 3, 2, 0, 1,
    0, 0, 0, 0, 0, 0, 0, 0, 1, 0, 0, 0, 0, 0, 0, 0, 0, 0, 1, 0, 0, 0, 0, 0, 0, 0, 0, 0, 0, 0, 0,
    0, 0, 0, 0, 0, 0, 0, 0, 0, 0, 0, 0, 0, 0, 0, 0, 0, 0, 0, 0, 0, 0, 0, 0, 0, 0, 0, 0, 0, 0, 0,
    0, 0, 0, 0, 0, 0, 0, 0, 0, 0, 0, 0, 0, 0, 0, 0, 0, 0, 0, 0, 0, 0, 0, 0, 0, 0, 1, 0, 0, 0, 0,
    0, 0, 0, 0, 0, 0, 0, 0, 0, 0, 0, 0, 0, 0, 0, 0, 0, 0, 0, 0, 0, 0, 0, 0, 0, 0, 0, 0, 0, 0, 0,
    0, 0, 0, 0, 0, 0, 0, 0, 0, 0, 0, 0, 0, 1, 0, 0, 0, 0, 0, 0, 0, 0, 0, 0, 0, 0, 0, 0, 0, 0, 0,
    0, 0, 0, 1, 0, 0, 0, 0, 0, 0, 0, 0, 0, 0, 0, 0, 0, 0, 0, 0, 0, 0, 0, 0, 0, 0, 0, 0, 0, 0, 0,
    0, 0, 0, 0, 0, 0, 0, 0, 0, 0, 0, 0, 1, 0, 0, 0, 0, 0, 0, 0, 0, 0, 0, 0, 0, 0, 0, 0, 0, 0,
];

/// The index of `pre` in the table of known names.
const PRE: u8 = 49;

/// Returns whether the element keeps its text unchanged.
#[inline(always)]
pub(super) fn is_pre(name: &LocalRef<'_>) -> bool
    ensures { result ≡ bytes_eq name.now (codes "pre") }
{
    match name.number() {
        Some(number) => number == PRE,
        None => name.as_str() == "pre",
    }
}

/// Returns whether the element is a block: it begins on a new line and ends with a blank line.
pub(super) fn is_block(name: &LocalRef<'_>) -> bool
    ensures { result ≡ is_among name.now block_names }
{
    match name.number() {
        Some(number) => KINDS[number as usize] == 1,
        None => is_block_text(name.as_str()),
    }
}

/// Returns whether the element ends a line.
pub(super) fn is_line(name: &LocalRef<'_>) -> bool
    ensures { result ≡ is_among name.now line_names }
{
    match name.number() {
        Some(number) => KINDS[number as usize] == 2,
        None => is_line_text(name.as_str()),
    }
}

/// Returns whether the element is a table cell, which ends with a space.
pub(super) fn is_cell(name: &LocalRef<'_>) -> bool
    ensures { result ≡ is_among name.now cell_names }
{
    match name.number() {
        Some(number) => KINDS[number as usize] == 3,
        None => is_cell_text(name.as_str()),
    }
}

#[tactic(auto, unfolding(crate::specs::Formatted::block_names))]
fn is_block_text(name: &str) -> bool
    ensures { result ≡ is_among name.now block_names }
{
    matches!(
        name,
        "article"
            | "blockquote"
            | "section"
            | "div"
            | "p"
            | "pre"
            | "h1"
            | "h2"
            | "h3"
            | "h4"
            | "h5"
            | "h6"
            | "ul"
            | "ol"
            | "dl"
            | "table"
    )
}

#[tactic(auto, unfolding(crate::specs::Formatted::line_names))]
fn is_line_text(name: &str) -> bool
    ensures { result ≡ is_among name.now line_names }
{
    matches!(name, "br" | "hr" | "li" | "tr")
}

#[tactic(auto, unfolding(crate::specs::Formatted::cell_names))]
fn is_cell_text(name: &str) -> bool
    ensures { result ≡ is_among name.now cell_names }
{
    matches!(name, "td" | "th")
}
