//! Runs of ASCII, which most encodings share.

ghost use Rattle.std.specs.Prelude.{◌≡◌, ◌≤◌, ◌++◌, length, take};
ghost use Rattle.std.specs.Str.{IsAscii};

use std::str::from_utf8_unchecked;

/// How many bytes are examined together.
const BLOCK: usize = 16;

/// Splits the bytes after the blocks of 16 ASCII bytes at their start; returns these blocks as
/// text, and the other bytes. The text is empty if one of the first 16 bytes isn't ASCII, or if
/// there are fewer than 16 bytes.
pub fn ascii_front(bytes: &[u8]) -> (&str, &[u8])
    ensures parts { bytes.now ≡ result.0.now ++ result.1.now }
    ensures ascii { IsAscii result.0.now }
{
    let (front, rest) = bytes.split_at(ascii_len(bytes));
    (unsafe { from_utf8_unchecked(front) }, rest)
}

/// Returns the length of the blocks of ASCII bytes at the start.
fn ascii_len(bytes: &[u8]) -> usize
    ensures within { result ≤ length bytes.now }
    ensures ascii { IsAscii (take result bytes.now) }
{
    let mut end = 0;
    // The first byte of a block is tested by itself: behind a character of several bytes it mostly
    // isn't ASCII, and to test the block takes longer.
    while bytes.len() - end >= BLOCK && bytes[end] < 128 && bytes[end..end + BLOCK].is_ascii() {
        end += BLOCK;
    }
    end
}
