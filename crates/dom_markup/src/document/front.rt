//! The token at the start of a text, as slices of the source.

ghost use Rattle.std.specs.Prelude.{◌≢◌, ◌++◌, [], codes, IfSome};
ghost use Rattle.dom_markup.specs.Bytes.{folded};
ghost use Rattle.dom_markup.specs.Lexeme.{IsLexeme, IsNoComment, OpensTag, TakesDoctype, TakesLexeme};
ghost use Rattle.dom_markup.specs.Names.{markup};
ghost use Rattle.dom_markup.specs.Taking.{Leaves};
ghost use Rattle.dom_markup.specs.Token.{IsTextIn, mode_of};

use crate::document::doctypes::{Doctype, doctype_at};
use crate::document::names::is_letter;
use crate::document::raw::{after_end, split_raw};
use crate::document::scan::{begins_markup, comment_at, split_plain, split_text, strip, strip_all};
use crate::document::tags::end_tag_end;
use crate::document::within::ContentModel;
use dom_nodes::fault::MarkupFaultKind;

/// A token as it is in the source: a text, a text without character references (`Plain`), the name
/// of an end tag, or the contents of a comment. For a start tag only its `<` is read, and for a
/// declaration only its `<!`; the caller reads the rest while it scans.
#[derive(Clone, Copy)]
pub enum Lexeme<'a> {
    StartTag,
    Text(&'a str),
    Plain(&'a str),
    EndTag(&'a str),
    Comment(&'a str),
    Declaration,
}

/// Returns the text after the `<` of a start tag, if a letter follows the `<`.
#[inline(always)]
fn opened_tag(text: &str) -> Option<&str>
    ensures { Leaves (OpensTag text.now) result }
{
    let tag = strip(text, '<')?;
    let [first, ..] = tag.as_bytes() else {
        return None;
    };
    if !is_letter(*first) {
        return None;
    }
    Some(tag)
}

/// Returns the token at the start of markup, and the text after it.
fn markup_lexeme(text: &str) -> Result<(Lexeme<'_>, &str), MarkupFaultKind>
    requires { text.now ≢ [] }
    ensures { TakesLexeme markup text.now result }
{
    if let Some(tag) = opened_tag(text) {
        return Ok((Lexeme::StartTag, tag));
    }
    if !begins_markup(text.as_bytes()) {
        let (contents, rest) = split_text(text);
        return Ok((Lexeme::Text(contents), rest));
    }
    if let Some(tag) = strip_all(text, "</") {
        let Some((name, rest)) = end_tag_end(tag) else {
            return Err(MarkupFaultKind::BadTag);
        };
        return Ok((Lexeme::EndTag(name), rest));
    }
    if let Some(comment) = strip_all(text, "<!--") {
        let Some((contents, rest)) = comment_at(comment) else {
            return Err(MarkupFaultKind::BadComment);
        };
        return Ok((Lexeme::Comment(contents), rest));
    }
    if let Some(tag) = strip_all(text, "<!") {
        return Ok((Lexeme::Declaration, tag));
    }
    Err(MarkupFaultKind::Instruction)
}

/// Returns the doctype of a declaration, whose `<!` is already read, and the text after it. Fails
/// with `BadDeclaration` if the declaration is no doctype.
pub fn declared_doctype(tag: &str) -> Result<(Doctype<'_>, &str), MarkupFaultKind>
    requires { IsNoComment tag.now }
    ensures { TakesDoctype (codes "<!" ++ tag.now) result }
{
    match doctype_at(tag) {
        Some(found) => Ok(found),
        None => Err(MarkupFaultKind::BadDeclaration),
    }
}

/// Returns the token at the start of the text inside an element of this name: the text, or the end
/// tag if no text is left. Fails with `Unclosed` if the end tag is missing.
fn front_in_text<'a>(
    text: &'a str,
    name: &'a str,
    within: ContentModel<'a>,
) -> Result<(Lexeme<'a>, &'a str), MarkupFaultKind>
    requires { IsTextIn (mode_of within) (folded name.now) }
    ensures { TakesLexeme (mode_of within.entry) text.now result }
{
    if let Some(rest) = after_end(text, name) {
        return Ok((Lexeme::EndTag(name), rest));
    }
    let Some((contents, rest)) = split_raw(text, name) else {
        return Err(MarkupFaultKind::Unclosed);
    };
    Ok((Lexeme::Text(contents), rest))
}

/// Returns the token at the start of the text in any mode, and the text after it.
#[inline(never)]
fn any_lexeme<'a>(
    text: &'a str,
    within: ContentModel<'a>,
) -> Result<(Lexeme<'a>, &'a str), MarkupFaultKind>
    requires { text.now ≢ [] }
    ensures { TakesLexeme (mode_of within.entry) text.now result }
{
    match within {
        ContentModel::Markup => markup_lexeme(text),
        ContentModel::Text(name) => front_in_text(text, name, within),
        ContentModel::RawText(name) => front_in_text(text, name, within),
    }
}

/// Calls `any_lexeme`. The result of that call needs a place in memory, which is set up here, so a
/// token that is found without the call doesn't pay for it.
#[inline(always)]
fn other_front<'a>(
    text: &'a str,
    within: ContentModel<'a>,
) -> Result<(Lexeme<'a>, &'a str), MarkupFaultKind>
    requires { text.now ≢ [] }
    ensures { TakesLexeme (mode_of within.entry) text.now result }
{
    let (front, rest) = any_lexeme(text, within)?;
    Ok((front, rest))
}

/// Returns the start tag, the text without character references or the end tag at the start of
/// markup, if it is one that can be read quickly.
#[inline(always)]
fn common_lexeme(text: &str) -> Option<(Lexeme<'_>, &str)>
    requires { text.now ≢ [] }
    ensures { IfSome result (λ found. IsLexeme markup text.now found.0 found.1.now) }
{
    if let Some(tag) = opened_tag(text) {
        return Some((Lexeme::StartTag, tag));
    }
    let Some(behind) = strip(text, '<') else {
        let (contents, rest) = split_plain(text)?;
        return Some((Lexeme::Plain(contents), rest));
    };
    let tag = strip(behind, '/')?;
    let (name, rest) = end_tag_end(tag)?;
    Some((Lexeme::EndTag(name), rest))
}

/// Returns the token at the start of the text, and the text after it. Fails with the kind of the
/// fault if no token starts there. Common tokens are read without a call.
#[inline(always)]
pub fn front_at<'a>(
    text: &'a str,
    within: ContentModel<'a>,
) -> Result<(Lexeme<'a>, &'a str), MarkupFaultKind>
    requires { text.now ≢ [] }
    ensures { TakesLexeme (mode_of within.entry) text.now result }
{
    if let ContentModel::Markup = within {
        if let Some((front, rest)) = common_lexeme(text) {
            return Ok((front, rest));
        }
    }
    other_front(text, within)
}
