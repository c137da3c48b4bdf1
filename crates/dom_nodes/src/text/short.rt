//! Texts of at most 30 bytes, which are stored in the value itself.

ghost use Rattle.std.specs.Prelude.{◌≡◌, ◌<◌, ◌+◌, ◌++◌, MatchOption, List, ℕ, length};

use std::marker::Model;
use std::str::from_utf8_unchecked;

/// A text of at most 30 bytes. In a contract it is the list of its bytes.
#[derive(Drop)]
pub(crate) struct ShortText {
    length: u8,
    bytes: [u8; 30],
}

impl Model for ShortText {
    ghost use Rattle.std.specs.Prelude.{◌≤◌, List, ℕ, take, IsUtf8};

    ghost Value = { List ℕ };

    ghost view = { λ text. take text.length text.bytes };

    ghost invariant = { λ text. (text.length ≤ 30) × IsUtf8 (take text.length text.bytes) };
}

impl ShortText {
    /// Returns a copy of `text`, or `None` when it has more than 30 bytes.
    #[inline(always)]
    pub(crate) fn new(text: &str) -> Option<ShortText>
        ensures { MatchOption result (30 < length text.now) (λ short. short ≡ text.now) }
    {
        let count = text.len();
        if count > 30 {
            return None;
        }
        let mut bytes = [0; 30];
        bytes[..count].copy_from_slice(text.as_bytes());
        Some(ShortText {
            length: count as u8,
            bytes,
        })
    }

    /// Returns a copy.
    #[inline(always)]
    pub(crate) fn copied(&self) -> ShortText
        ensures { result ≡ self.now }
    {
        ShortText {
            length: self.length,
            bytes: self.bytes,
        }
    }

    /// Returns the text with `more` appended, or `None` when that has more than 30 bytes.
    pub(crate) fn lengthened(&self, more: &str) -> Option<ShortText>
        ensures { MatchOption result (30 < length self.now + length more.now)
            (λ longer. longer ≡ self.now ++ more.now) }
    {
        let count = self.length as usize;
        let total = count + more.len();
        if total > 30 {
            return None;
        }
        let mut bytes = self.bytes;
        bytes[count..total].copy_from_slice(more.as_bytes());
        Some(ShortText {
            length: total as u8,
            bytes,
        })
    }

    #[inline(always)]
    pub(crate) fn as_str(&self) -> &str
        ensures { result.now ≡ self.now }
    {
        unsafe { from_utf8_unchecked(&self.bytes[..self.length as usize]) }
    }
}
