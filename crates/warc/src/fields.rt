//! Fields of a head: `Name: value`.

ghost use Rattle.std.specs.Prelude.{◌≡◌, option_copied};
ghost use Rattle.warc.specs.Fields.{begins_with_word, is_end, value_of};

use httparse::Header;

/// How many fields a head can have.
pub const FIELDS: usize = 128;

/// Returns the value of the first field with this name, or `None` if there is none. The case of
/// the name's letters doesn't matter.
pub fn value_of<'a>(fields: &[Header<'a>], name: &str) -> Option<&'a [u8]>
    ensures { option_copied result ≡ value_of fields.now name.now }
{
    let field = fields
        .iter()
        .find(|field| field.name.eq_ignore_ascii_case(name))?;
    Some(field.value)
}

/// Returns whether a value is this word, apart from the case of letters, or has it in front of
/// parameters: `text/html; charset=utf-8` begins with the word `text/html`.
pub fn begins_with_word(value: &[u8], word: &str) -> bool
    ensures { result ≡ begins_with_word value.now word.now }
{
    if value.len() < word.len() {
        return false;
    }
    let (front, rest) = value.split_at(word.len());
    if !front.eq_ignore_ascii_case(word.as_bytes()) {
        return false;
    }
    is_end(rest)
}

/// Returns whether a word can end before these bytes.
fn is_end(rest: &[u8]) -> bool
    ensures { result ≡ is_end rest.now }
{
    match rest.split_first() {
        None => true,
        Some((byte, _)) => matches!(*byte, b';' | b' ' | b'\t' | b','),
    }
}
