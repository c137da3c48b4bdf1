//! Comparison with or without the case of ASCII letters.

ghost use Rattle.std.specs.Prelude.{◌≡◌};

use crate::words::is_same_word;

/// How two names are compared.
#[derive(Clone, Copy, PartialEq, Eq, Debug, Drop)]
pub enum CaseSensitivity {
    /// Byte by byte.
    CaseSensitive,
    /// Byte by byte, but `A` to `Z` are equal to `a` to `z`.
    AsciiCaseInsensitive,
}

impl CaseSensitivity {
    ghost use Rattle.dom_nodes.specs.Classes.{same_bytes};

    /// Returns whether the two names are equal in this way of comparing.
    pub fn is_same(self, name: &[u8], other: &[u8]) -> bool
        ensures { result ≡ same_bytes self name.now other.now }
    {
        match self {
            CaseSensitivity::CaseSensitive => is_same_word(name, other),
            CaseSensitivity::AsciiCaseInsensitive => name.eq_ignore_ascii_case(other),
        }
    }
}
