//! The modes in which the text after a token is read.

ghost use Rattle.std.specs.Prelude.{◌≡◌};
ghost use Rattle.dom_markup.specs.Bytes.{folded};
ghost use Rattle.dom_markup.specs.Names.{mode_in};
ghost use Rattle.dom_markup.specs.Token.{mode_of};

use crate::document::names::{holds_text, is_raw};
use crate::names::is_raw_name;
use dom_nodes::name::LocalRef;

/// The mode in which the next text is read: as markup, or as the text of an element, whose name is
/// as in its start tag. Character references are resolved in a `Text` and not in a `RawText`.
#[derive(Clone, Copy)]
pub enum ContentModel<'a> {
    Markup,
    Text(&'a str),
    RawText(&'a str),
}

/// Returns the mode in which the content of an element is read.
pub fn within_element(name: &str) -> ContentModel<'_>
    ensures { mode_of result ≡ mode_in (folded name.now) }
{
    if is_raw(name) {
        return ContentModel::RawText(name);
    }
    if holds_text(name) {
        return ContentModel::Text(name);
    }
    ContentModel::Markup
}

/// Returns the mode in which the content of an element is read, whose local name is known too.
pub fn within_named<'a>(written: &'a str, name: &LocalRef<'_>) -> ContentModel<'a>
    requires { name.now ≡ folded written.now }
    ensures { mode_of result ≡ mode_in name.now }
{
    if is_raw_name(name) {
        return ContentModel::RawText(written);
    }
    if holds_text(written) {
        return ContentModel::Text(written);
    }
    ContentModel::Markup
}
