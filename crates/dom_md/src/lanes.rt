//! The bytes of a text, 16 at a time, of which spaces are passed over.

ghost use Rattle.std.specs.Prelude.{◌==◌, if◌then◌else◌, slice_index_or};
ghost use Rattle.dom_nodes.specs.Ascii.{space};
ghost use Rattle.byte_lanes.specs.Lanes.{HasLanes};

use std::simd::prelude::*;

/// Replaces each space by the byte after it; `next` are the bytes that follow those of `here`.
#[inline(always)]
pub(crate) fn past_spaces(here: u8x16, next: u8x16) -> u8x16
    ensures { HasLanes result (λ k. if slice_index_or here k 0 == space
        then slice_index_or next k 0 else slice_index_or here k 0) }
{
    here.simd_eq(u8x16::splat(b' ')).select(next, here)
}
