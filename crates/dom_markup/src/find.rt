//! Search for a byte, for texts that are mostly short.

ghost use Rattle.std.specs.Prelude.{◌≡◌, ◌≤◌, ◌<◌, ◌+◌, IfSome, Some, length, map};
ghost use Rattle.std.specs.Simd.Lanes.{mask_l};
ghost use Rattle.memchr.specs.Find.{IsFirst, IsFirstByte, Nowhere, Passes, is_byte};

use std::simd::prelude::*;

/// Returns a bit mask of the bytes that equal `byte`.
#[inline(always)]
fn places_in(bytes: u8x16, byte: u8) -> u64
    ensures { result ≡ mask_l (map (is_byte byte) bytes) }
{
    bytes.simd_eq(u8x16::splat(byte)).to_bitmask()
}

/// Returns the first position of the byte among the sixteen bytes from `at` on.
#[inline(always)]
fn find_in_lanes(byte: u8, bytes: &[u8], at: usize) -> Option<usize>
    requires { at + 16 ≤ length bytes.now }
    ensures { IsFirst (Passes (is_byte byte) bytes.now) at (at + 16) result }
{
    let places = places_in(u8x16::from_slice(&bytes[at..]), byte);
    if places == 0 {
        return None;
    }
    Some(at + places.trailing_zeros() as usize)
}

/// Returns the first position of the byte, which doesn't occur before `at`. The last sixteen bytes
/// are tested at once, including some that were tested before; a text of fewer bytes is tested byte
/// by byte.
#[inline(always)]
fn find_at_end(byte: u8, bytes: &[u8], at: usize) -> Option<usize>
    requires passed { Nowhere (Passes (is_byte byte) bytes.now) 0 at }
    requires last { length bytes.now < at + 16 }
    ensures { IsFirstByte (is_byte byte) bytes.now result }
{
    if bytes.len() >= 16 {
        return find_in_lanes(byte, bytes, bytes.len() - 16);
    }
    for (index, other) in bytes.iter().enumerate() {
        if *other == byte {
            return Some(index);
        }
    }
    None
}

/// Returns the first position of the byte, or `None` if it doesn't occur. Sixteen bytes are tested
/// at once, and there is no call, so this is fast for short texts.
#[inline(always)]
pub fn find_byte(byte: u8, bytes: &[u8]) -> Option<usize>
    ensures { IsFirstByte (is_byte byte) bytes.now result }
{
    let mut at = 0;
    while bytes.len() - at >= 16 {
        if let Some(found) = find_in_lanes(byte, bytes, at) {
            return Some(found);
        }
        at += 16;
    }
    find_at_end(byte, bytes, at)
}

/// Returns the first position of the byte, if the other byte doesn't occur before it. Otherwise the
/// result is `None`. The last bytes, when fewer than sixteen are left, are not searched, so `None`
/// doesn't say that the byte is missing.
#[inline(always)]
pub fn find_before(byte: u8, other: u8, bytes: &[u8]) -> Option<usize>
    ensures first { IfSome result (λ at. IsFirstByte (is_byte byte) bytes.now (Some at)) }
    ensures other { IfSome result (λ at. Nowhere (Passes (is_byte other) bytes.now) 0 at) }
{
    let mut at = 0;
    while bytes.len() - at >= 16 {
        let found = find_in_lanes(byte, bytes, at);
        let stop = find_in_lanes(other, bytes, at);
        match (found, stop) {
            (None, None) => at += 16,
            (Some(found), None) => return Some(found),
            (Some(found), Some(stop)) if found < stop => return Some(found),
            _ => return None,
        }
    }
    None
}
