//! Halfwidth katakana, which the three encodings have.

ghost use Rattle.std.specs.Prelude.{◌≡◌, ◌≤◌};
ghost use Rattle.japanese.specs.Shared.{katakana};

/// Returns the halfwidth katakana at this offset from the first one.
pub(crate) fn katakana(offset: u8) -> char
    requires { offset ≤ 62 }
    ensures { result ≡ katakana offset }
{
    char::from_u32(0xFF61 + u32::from(offset)).unwrap()
}
