//! The search for the first of four bytes, 16 bytes of a text at a time.

ghost use Rattle.std.specs.Prelude.{◌≡◌, ◌<◌, ◌≤◌, ℕ, false, length};
ghost use Rattle.std.specs.Prelude.{slice_index_or};
ghost use Rattle.page_tokens.specs.Lanes.{is_one_of};

use byte_lanes::{either, equal_to, unmarked_len};
use std::simd::prelude::*;

/// Returns how many bytes of the block precede the first of the four; 16 if it has none of them.
#[inline(always)]
fn block_len(block: &[u8; 16], ends: [u8; 4]) -> usize
    ensures within { result ≤ 16 }
    ensures none { (k : ℕ) → k < result →
        is_one_of ends (slice_index_or block.now k 0) ≡ false }
{
    let lanes = u8x16::from_array(*block);
    let marks = either(equal_to(lanes, ends[0]), equal_to(lanes, ends[1]));
    let marks = either(marks, equal_to(lanes, ends[2]));
    unmarked_len(either(marks, equal_to(lanes, ends[3])))
}

/// Returns how many bytes precede the first of the four. The last bytes, fewer than sixteen, are
/// not searched, so the result can be less.
#[inline(always)]
pub fn skip(bytes: &[u8], ends: [u8; 4]) -> usize
    ensures within { result ≤ length bytes.now }
    ensures none { (k : ℕ) → k < result →
        is_one_of ends (slice_index_or bytes.now k 0) ≡ false }
{
    let (blocks, _) = bytes.as_chunks::<16>();
    let mut count: usize = 0;
    for index in 0..blocks.len() {
        let len = block_len(&blocks[index], ends);
        count = count.saturating_add(len);
        if len < 16 {
            return count;
        }
    }
    count
}
