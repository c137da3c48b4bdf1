//! What becomes of addresses, judged by the scheme that the URL Standard finds in front of them.

ghost use Rattle.std.specs.Prelude.{◌≡◌, ◌≤◌, IfOk, None, Some, if◌then◌else◌};
ghost use Rattle.std.specs.Prelude.{length, map, string_bytes};
ghost use Rattle.std.specs.Char.{to_ascii_lowercase};
ghost use Rattle.dom_nodes.specs.Words.{is_among};
ghost use Rattle.url.specs.Input.{is_tab_or_new_line, split_once, strip_tabs_and_new_lines};
ghost use Rattle.url.specs.Input.{is_c0_control_or_space, trim_c0_control_and_space, trim_end};
ghost use Rattle.std.specs.List.{prefix_len};
ghost use Rattle.url.specs.Parser.{split_scheme};
ghost use Rattle.url.specs.Scheme.{is_scheme_byte, scheme_len};
ghost use Rattle.std.specs.Option.{option_map};
ghost use Rattle.dom_clean.specs.Fates.{allowed_address, cleaned_address, joined_address};
ghost use Rattle.dom_clean.specs.Fates.{relative_address, spellable};
ghost use Rattle.dom_clean.specs.Addresses.{scheme_of};
ghost use Rattle.dom_clean.specs.Policies.{policy_of, relative_of};
ghost use Rattle.url.specs.Parser.{parse_url};
ghost use Rattle.dom_clean.specs.Policy.Relative.{resolved};

use crate::lists::{Lists, Relative};
use crate::values::spellable;
use dom_nodes::fault::OutOfMemory;
use dom_nodes::words::is_same_word;
use memchr::memchr;
use std::alloc::Global;
use url::{ParseError, Url};

/// Returns what is left of an address, or `None` if it is removed.
pub(crate) fn cleaned_address(
    alloc: Global,
    lists: &Lists,
    address: String,
) -> Result<Option<String>, OutOfMemory>
    ensures { IfOk result (λ left. option_map string_bytes left
        ≡ cleaned_address (policy_of lists.now) (string_bytes address)) }
{
    match scheme_of(alloc, address.as_str())? {
        Some(scheme) => Ok(of_scheme(lists, scheme.as_slice(), address)),
        None => relative_address(alloc, lists, address),
    }
}

/// Returns the address, if its scheme is allowed.
fn of_scheme(lists: &Lists, scheme: &[u8], address: String) -> Option<String>
    ensures { option_map string_bytes result ≡ (if is_among scheme.now
        (policy_of lists.now).schemes then Some (string_bytes address) else None) }
{
    if has_scheme(&lists.schemes, scheme) {
        return Some(address);
    }
    None
}

/// Returns whether the scheme is one of these.
fn has_scheme(schemes: &[String], scheme: &[u8]) -> bool
    ensures { result ≡ is_among scheme.now (map string_bytes schemes.now) }
{
    for one in schemes {
        if is_same_word(one.as_bytes(), scheme) {
            return true;
        }
    }
    false
}

/// Returns what is left of an address without a scheme.
fn relative_address(
    alloc: Global,
    lists: &Lists,
    address: String,
) -> Result<Option<String>, OutOfMemory>
    ensures { IfOk result (λ left. option_map string_bytes left
        ≡ relative_address (policy_of lists.now) (relative_of lists.now.relative)
        (string_bytes address)) }
{
    match &lists.relative {
        Relative::Kept => Ok(Some(address)),
        Relative::Dropped => Ok(None),
        Relative::Resolved(base) => resolved_address(alloc, lists, base, address.as_str()),
    }
}

/// Returns an address resolved against a base, if that gives a URL with an allowed scheme.
fn resolved_address(
    alloc: Global,
    lists: &Lists,
    base: &Url,
    address: &str,
) -> Result<Option<String>, OutOfMemory>
    ensures { IfOk result (λ left. option_map string_bytes left
        ≡ relative_address (policy_of lists.now) (resolved base.now) address.now) }
{
    match joined(alloc, base, address)? {
        Some(url) => allowed_address(alloc, lists, url),
        None => Ok(None),
    }
}

/// Returns the address, if it has an allowed scheme.
fn allowed_address(
    alloc: Global,
    lists: &Lists,
    address: String,
) -> Result<Option<String>, OutOfMemory>
    ensures { IfOk result (λ left. option_map string_bytes left
        ≡ allowed_address (policy_of lists.now).schemes (string_bytes address)) }
{
    match scheme_of(alloc, address.as_str())? {
        Some(scheme) => Ok(of_scheme(lists, scheme.as_slice(), address)),
        None => Ok(None),
    }
}

/// Returns the URL of an address that is resolved against a base, or `None` if it isn't one.
fn joined(alloc: Global, base: &Url, address: &str) -> Result<Option<String>, OutOfMemory>
    ensures { IfOk result (λ made. option_map string_bytes made
        ≡ option_map spellable (joined_address (parse_url (Some base.now) address.now))) }
{
    match base.join(address) {
        Ok(url) => Ok(Some(spellable(alloc, url.as_str())?)),
        Err(ParseError::OutOfMemory) => Err(OutOfMemory),
        Err(ParseError::Overflow) => Err(OutOfMemory),
        Err(_) => Ok(None),
    }
}

/// Returns the scheme in front of an address, in lower case, or `None` if it has none.
fn scheme_of(alloc: Global, address: &str) -> Result<Option<Vec<u8>>, OutOfMemory>
    ensures { IfOk result (λ found. option_map (λ made. made.items) found
        ≡ scheme_of address.now) }
{
    let bytes = trimmed(address.as_bytes());
    let bytes = stripped(alloc, bytes)?;
    let body = before(before(bytes.as_slice(), b'#'), b'?');
    match scheme_in(body) {
        Some(scheme) => Ok(Some(lowered(alloc, scheme)?)),
        None => Ok(None),
    }
}

/// Returns the bytes without C0 controls and spaces at either end.
fn trimmed(bytes: &[u8]) -> &[u8]
    ensures { result.now ≡ trim_c0_control_and_space bytes.now }
{
    let mut rest = bytes;
    while let Some((first, later)) = rest.split_first() {
        if *first > b' ' {
            return trimmed_end(rest);
        }
        rest = later;
    }
    rest
}

/// Returns the bytes without C0 controls and spaces at the end.
fn trimmed_end(bytes: &[u8]) -> &[u8]
    ensures { result.now ≡ trim_end is_c0_control_or_space bytes.now }
{
    let mut rest = bytes;
    while let Some((last, earlier)) = rest.split_last() {
        if *last > b' ' {
            return rest;
        }
        rest = earlier;
    }
    rest
}

/// Returns the bytes without tabs, line feeds and carriage returns.
fn stripped(alloc: Global, bytes: &[u8]) -> Result<Vec<u8>, OutOfMemory>
    ensures { IfOk result (λ made. made.items ≡ strip_tabs_and_new_lines bytes.now) }
{
    let mut made = Vec::new(alloc);
    for byte in bytes {
        if is_tab_or_new_line(*byte) {
            continue;
        }
        made.push(*byte)?;
    }
    Ok(made)
}

fn is_tab_or_new_line(byte: u8) -> bool
    ensures { result ≡ is_tab_or_new_line byte }
{
    matches!(byte, b'\t' | b'\n' | b'\r')
}

/// Returns the bytes before the first byte of that value, or all of them.
fn before(bytes: &[u8], byte: u8) -> &[u8]
    ensures { result.now ≡ (split_once byte bytes.now).0 }
{
    match memchr(byte, bytes) {
        Some(at) => &bytes[..at],
        None => bytes,
    }
}

/// Returns the scheme in front of a colon at the front of the bytes.
fn scheme_in(bytes: &[u8]) -> Option<&[u8]>
    ensures { option_map (λ scheme. scheme.now) result
        ≡ option_map (λ split. split.0) (split_scheme bytes.now) }
{
    let count = scheme_len(bytes);
    if count == 0 {
        return None;
    }
    if count >= bytes.len() {
        return None;
    }
    if bytes[count] != b':' {
        return None;
    }
    Some(&bytes[..count])
}

/// Returns how many bytes at the front can be a scheme.
fn scheme_len(bytes: &[u8]) -> usize
    ensures value { result ≡ scheme_len bytes.now }
    ensures within { result ≤ length bytes.now }
{
    if bytes.is_empty() {
        return 0;
    }
    if !bytes[0].is_ascii_alphabetic() {
        return 0;
    }
    scheme_bytes(bytes)
}

fn scheme_bytes(bytes: &[u8]) -> usize
    ensures value { result ≡ prefix_len is_scheme_byte bytes.now }
    ensures within { result ≤ length bytes.now }
{
    for at in 0..bytes.len() {
        if !is_scheme_byte(bytes[at]) {
            return at;
        }
    }
    bytes.len()
}

fn is_scheme_byte(byte: u8) -> bool
    ensures { result ≡ is_scheme_byte byte }
{
    if byte.is_ascii_alphanumeric() {
        return true;
    }
    matches!(byte, b'+' | b'-' | b'.')
}

/// Returns the bytes of a scheme in lower case.
fn lowered(alloc: Global, bytes: &[u8]) -> Result<Vec<u8>, OutOfMemory>
    ensures { IfOk result (λ made. made.items ≡ map to_ascii_lowercase bytes.now) }
{
    let mut made = Vec::new(alloc);
    for byte in bytes {
        made.push(byte.to_ascii_lowercase())?;
    }
    Ok(made)
}
