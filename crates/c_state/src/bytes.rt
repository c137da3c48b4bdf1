//! What comes from the caller as bytes, and what is written into the caller's room.

ghost use Rattle.std.specs.Prelude.{◌≡◌, IfOk, length, map, take};
ghost use Rattle.dom_nodes.specs.Words.{words_of};

use crate::fault::Fault;
use std::alloc::Global;

/// The bytes as a text. Refused as `NotUtf8`.
pub fn as_text(bytes: &[u8]) -> Result<&str, Fault>
    ensures { IfOk result (λ text. text.now ≡ bytes.now) }
{
    match std::str::from_utf8(bytes) {
        Ok(text) => Ok(text),
        Err(_) => Err(Fault::NotUtf8),
    }
}

/// The names in a text, which are separated by ASCII whitespace.
pub fn names_in(alloc: Global, text: &str) -> Result<Vec<&str>, Fault>
    ensures { IfOk result (λ names. map (λ name. name.now) names.items ≡ words_of text.now) }
{
    let mut names = Vec::new(alloc);
    for name in text.split_ascii_whitespace() {
        names.push(name)?;
    }
    Ok(names)
}

/// Copies as many bytes as there is room for.
pub fn copy_bytes(from: &[u8], to: &mut [u8])
    ensures { take (length from.now) to.new ≡ take (length to.old) from.now }
{
    let count = if from.len() < to.len() {
        from.len()
    } else {
        to.len()
    };
    to[..count].copy_from_slice(&from[..count]);
}

/// Copies as many numbers as there is room for.
pub fn copy_numbers(from: &[u32], to: &mut [u32])
    ensures { take (length from.now) to.new ≡ take (length to.old) from.now }
{
    let count = if from.len() < to.len() {
        from.len()
    } else {
        to.len()
    };
    to[..count].copy_from_slice(&from[..count]);
}
