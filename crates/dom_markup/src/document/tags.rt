//! The ends of tags.

ghost use Rattle.std.specs.Prelude.{◌++◌, codes, IfNone, IfSome, MatchResult};
ghost use Rattle.dom_markup.specs.Bytes.{folded};
ghost use Rattle.dom_markup.specs.Markup.{BeginsEnd, Closes, BeginsNoEnd};
ghost use Rattle.dom_markup.specs.ByteClasses.{ClosesNothing};
ghost use Rattle.dom_markup.specs.Lexeme.{TakesStart};
ghost use Rattle.dom_markup.specs.Names.{void_names};
ghost use Rattle.dom_nodes.specs.Words.{is_among};

use crate::document::names::{is_void, names_element};
use crate::document::scan::{ByteClass, attributes_end, close_at, split_front, strip};
use dom_nodes::fault::MarkupFaultKind;

/// Returns the text after the end of a start tag, whose attributes are already read. The tag of a
/// void element may end in `/>`. Fails with `SlashOnOpen` or `BadTag`.
#[inline(always)]
pub fn close_tag(close: &str, void: bool) -> Result<&str, MarkupFaultKind>
    ensures { MatchResult result (λ r. Closes void close.now r.now) (ClosesNothing void close.now) }
{
    if let Some(rest) = close_at(close, void) {
        return Ok(rest);
    }
    if let Some(_) = close_at(close, true) {
        return Err(MarkupFaultKind::SlashOnOpen);
    }
    Err(MarkupFaultKind::BadTag)
}

/// Returns the text after the end of a start tag with this name, whose attributes are already read.
/// Whether the element is void is looked up only if the tag ends in `/>`.
#[inline(always)]
fn close_named<'a>(name: &str, close: &'a str) -> Result<&'a str, MarkupFaultKind>
    ensures { let void = is_among (folded name.now) void_names in
        MatchResult result (λ r. Closes void close.now r.now) (ClosesNothing void close.now) }
{
    if let Some(rest) = close_at(close, false) {
        return Ok(rest);
    }
    close_tag(close, is_void(name))
}

/// Returns the name of a start tag as in the source, and the text after the tag. The `<` is already
/// read. Fails with `SlashOnOpen` or `BadTag`.
pub fn start_tag_end(tag: &str) -> Result<(&str, &str), MarkupFaultKind>
    ensures { TakesStart (codes "<" ++ tag.now) result }
{
    let (name, behind) = split_front(ByteClass::Name, tag);
    if !names_element(name) {
        return Err(MarkupFaultKind::BadTag);
    }
    let rest = close_named(name, attributes_end(behind))?;
    Ok((name, rest))
}

/// Returns the name of an end tag as in the source, and the text after the tag; `None` if it is
/// malformed. The `</` is already read.
#[inline(always)]
pub fn end_tag_end(tag: &str) -> Option<(&str, &str)>
    ensures some { IfSome result (λ f. BeginsEnd (codes "</" ++ tag.now) (folded f.0.now) f.1.now) }
    ensures none { IfNone result (BeginsNoEnd (codes "</" ++ tag.now)) }
{
    let (name, behind) = split_front(ByteClass::Name, tag);
    let (_, behind) = split_front(ByteClass::Whitespace, behind);
    if !names_element(name) {
        return None;
    }
    let rest = strip(behind, '>')?;
    Some((name, rest))
}
