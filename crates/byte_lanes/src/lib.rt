//! Operations on 16 bytes of a text at a time, in the lanes of a vector. A marked lane has all its
//! bits set, and an unmarked one none. So the first byte of a kind is found 16 bytes at a time:
//! `unmarked_len(either(equal_to(v, b'<'), equal_to(v, b'&')))`.
#![tactic(auto)]

ghost use Rattle.std.specs.Prelude.{◌≡◌, ◌==◌, ◌||◌, ◌+◌, ◌<◌, ◌≤◌, ℕ, Bool, false, length};
ghost use Rattle.std.specs.Prelude.{nat_le, slice_index_or};
ghost use Rattle.byte_lanes.specs.Lanes.{HasLanes, Marks};

use std::simd::prelude::*;

/// Loads the 16 bytes from this index on.
#[inline(always)]
pub fn load(bytes: &[u8], at: usize) -> u8x16
    requires { at + 16 ≤ length bytes.now }
    ensures { HasLanes result (λ k. slice_index_or bytes.now (at + k) 0) }
{
    u8x16::from_slice(&bytes[at..])
}

/// Marks the lanes that contain this byte.
#[inline(always)]
pub fn equal_to(v: u8x16, byte: u8) -> u8x16
    ensures { Marks result (λ k. slice_index_or v k 0 == byte) }
{
    v.simd_eq(u8x16::splat(byte))
        .select(u8x16::splat(255), u8x16::splat(0))
}

/// Marks the lanes that contain this byte or a smaller one.
#[inline(always)]
pub fn at_most(v: u8x16, byte: u8) -> u8x16
    ensures { Marks result (λ k. nat_le (slice_index_or v k 0) byte) }
{
    v.simd_le(u8x16::splat(byte))
        .select(u8x16::splat(255), u8x16::splat(0))
}

/// Marks the lanes that are marked in at least one of the two vectors.
#[inline(always)]
pub fn either(a: u8x16, b: u8x16) -> u8x16
    ensures { (p q : ℕ → Bool) → Marks a p → Marks b q → Marks result (λ k. p k || q k) }
{
    a | b
}

/// Returns how many lanes precede the first marked one; 16 if none is marked.
#[inline(always)]
pub fn unmarked_len(v: u8x16) -> usize
    ensures within { result ≤ 16 }
    ensures unmarked { (p : ℕ → Bool) → Marks v p → (k : ℕ) → k < result → p k ≡ false }
{
    let marks = v.simd_ne(u8x16::splat(0)).to_bitmask();
    if marks == 0 {
        return 16;
    }
    marks.trailing_zeros() as usize
}
