//! Texts that end at the end tag of their element.

ghost use Rattle.std.specs.Prelude.{IfNone, IfSome};
ghost use Rattle.dom_markup.specs.Taking.{Leaves};
ghost use Rattle.dom_markup.specs.Bytes.{folded};
ghost use Rattle.dom_markup.specs.Markup.{BeginsEnd, EndsAtTag, LacksEnd};

use crate::document::scan::{bytes_from, strip_all};
use crate::document::tags::end_tag_end;
use memchr::memchr;

/// Returns what follows the end tag of this name, if the text starts with it; otherwise `None`.
pub fn after_end<'a>(text: &'a str, name: &str) -> Option<&'a str>
    ensures { Leaves (BeginsEnd text.now (folded name.now)) result }
{
    let tag = strip_all(text, "</")?;
    let (written, rest) = end_tag_end(tag)?;
    if !written.eq_ignore_ascii_case(name) {
        return None;
    }
    Some(rest)
}

/// Splits the text before the first end tag of this name, and returns the two parts; `None` if
/// there is no such end tag.
pub fn split_raw<'a>(text: &'a str, name: &str) -> Option<(&'a str, &'a str)>
    ensures some { IfSome result (λ f. EndsAtTag (folded name.now) text.now f.0.now f.1.now) }
    ensures none { IfNone result (LacksEnd (folded name.now) text.now) }
{
    let mut at = 0;
    while let Some(found) = memchr(b'<', bytes_from(text.as_bytes(), at)) {
        let start = at + found;
        let (front, rest) = text.split_at(start);
        if let Some(_) = after_end(rest, name) {
            return Some((front, rest));
        }
        at = start + 1;
    }
    None
}
