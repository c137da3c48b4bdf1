//! Names that nodes and attributes may get: those that the tokenizer of the HTML Standard can read,
//! so that what is written is read as it was.

ghost use Rattle.std.specs.Prelude.{◌≡◌, IfOk, true};
ghost use Rattle.std.specs.List.{list_all};
ghost use Rattle.c_state.specs.Names.{begins_with_letter, ends_name, is_attribute_byte};
ghost use Rattle.c_state.specs.Names.{is_attribute_name, is_element_byte, is_element_name};
ghost use Rattle.c_state.specs.Names.{is_letter};

use crate::bytes::as_text;
use crate::fault::Fault;

/// The bytes as the name of an element. Refused as `NotUtf8`, and as `Name` where the tokenizer
/// can't read it as one: it begins with a letter of ASCII, and has no ASCII whitespace, no U+0000,
/// no `/` and no `>`.
pub fn element_name(bytes: &[u8]) -> Result<&str, Fault>
    ensures text { IfOk result (λ name. name.now ≡ bytes.now) }
    ensures readable { IfOk result (λ _. is_element_name bytes.now ≡ true) }
{
    let name = as_text(bytes)?;
    if is_element_name(bytes) {
        Ok(name)
    } else {
        Err(Fault::Name)
    }
}

/// The bytes as the name of an attribute. Refused as `NotUtf8`, and as `Name` where the tokenizer
/// can't read it as one: it isn't empty, and has no ASCII whitespace, no U+0000, no `/`, no `>` and
/// no `=`.
pub fn attribute_name(bytes: &[u8]) -> Result<&str, Fault>
    ensures text { IfOk result (λ name. name.now ≡ bytes.now) }
    ensures readable { IfOk result (λ _. is_attribute_name bytes.now ≡ true) }
{
    let name = as_text(bytes)?;
    if is_attribute_name(bytes) {
        Ok(name)
    } else {
        Err(Fault::Name)
    }
}

fn is_element_name(name: &[u8]) -> bool
    ensures { result ≡ is_element_name name.now }
{
    if !begins_with_letter(name) {
        return false;
    }
    are_element_bytes(name)
}

fn begins_with_letter(name: &[u8]) -> bool
    ensures { result ≡ begins_with_letter name.now }
{
    match name.split_first() {
        Some((first, _)) => is_letter(*first),
        None => false,
    }
}

fn is_letter(byte: u8) -> bool
    ensures { result ≡ is_letter byte }
{
    matches!(byte, b'A'..=b'Z' | b'a'..=b'z')
}

fn are_element_bytes(name: &[u8]) -> bool
    ensures { result ≡ list_all is_element_byte name.now }
{
    name.iter().all(|byte| is_element_byte(*byte))
}

fn is_element_byte(byte: u8) -> bool
    ensures { result ≡ is_element_byte byte }
{
    !ends_name(byte)
}

fn is_attribute_name(name: &[u8]) -> bool
    ensures { result ≡ is_attribute_name name.now }
{
    if name.is_empty() {
        return false;
    }
    are_attribute_bytes(name)
}

fn are_attribute_bytes(name: &[u8]) -> bool
    ensures { result ≡ list_all is_attribute_byte name.now }
{
    name.iter().all(|byte| is_attribute_byte(*byte))
}

fn is_attribute_byte(byte: u8) -> bool
    ensures { result ≡ is_attribute_byte byte }
{
    if byte == b'=' {
        return false;
    }
    !ends_name(byte)
}

fn ends_name(byte: u8) -> bool
    ensures { result ≡ ends_name byte }
{
    matches!(byte, 9 | 10 | 12 | 13 | 32 | 0 | 47 | 62)
}
