//! The single-byte encodings: each byte is a character.

ghost use Rattle.std.specs.Prelude.{◌≡◌, List, OnOk, ℕ};
ghost use Rattle.decoded_text.specs.Characters.{Appends, IsCounted};
ghost use Rattle.encodings.specs.SingleByte.{character_of, characters, index_of};

use crate::tables::{
    IBM866, ISO_8859_2, ISO_8859_3, ISO_8859_4, ISO_8859_5, ISO_8859_6, ISO_8859_7, ISO_8859_8,
    ISO_8859_10, ISO_8859_13, ISO_8859_14, ISO_8859_15, ISO_8859_16, KOI8_R, KOI8_U, MACINTOSH,
    WINDOWS_874, WINDOWS_1250, WINDOWS_1251, WINDOWS_1252, WINDOWS_1253, WINDOWS_1254,
    WINDOWS_1255, WINDOWS_1256, WINDOWS_1257, WINDOWS_1258, X_MAC_CYRILLIC, X_USER_DEFINED,
};
use decoded_text::{Decoded, ascii_front};
use std::alloc::AllocError;

/// An encoding in which each byte is a character: bytes below 128 are ASCII, and a table has the
/// characters of the others.
#[derive(Clone, Copy, Debug, PartialEq, Eq)]
pub enum SingleByte {
    Ibm866,
    Iso8859_10,
    Iso8859_13,
    Iso8859_14,
    Iso8859_15,
    Iso8859_16,
    Iso8859_2,
    Iso8859_3,
    Iso8859_4,
    Iso8859_5,
    Iso8859_6,
    Iso8859_7,
    Iso8859_8,
    Koi8R,
    Koi8U,
    Macintosh,
    Windows1250,
    Windows1251,
    Windows1252,
    Windows1253,
    Windows1254,
    Windows1255,
    Windows1256,
    Windows1257,
    Windows1258,
    Windows874,
    XMacCyrillic,
    XUserDefined,
    Iso8859_8I,
}

impl SingleByte {
    /// Returns the characters of the bytes from 128 on.
    fn index(self) -> &'static [u16; 128]
        ensures { result.now ≡ index_of self }
    {
        match self {
            SingleByte::Ibm866 => &IBM866,
            SingleByte::Iso8859_10 => &ISO_8859_10,
            SingleByte::Iso8859_13 => &ISO_8859_13,
            SingleByte::Iso8859_14 => &ISO_8859_14,
            SingleByte::Iso8859_15 => &ISO_8859_15,
            SingleByte::Iso8859_16 => &ISO_8859_16,
            SingleByte::Iso8859_2 => &ISO_8859_2,
            SingleByte::Iso8859_3 => &ISO_8859_3,
            SingleByte::Iso8859_4 => &ISO_8859_4,
            SingleByte::Iso8859_5 => &ISO_8859_5,
            SingleByte::Iso8859_6 => &ISO_8859_6,
            SingleByte::Iso8859_7 => &ISO_8859_7,
            SingleByte::Iso8859_8 => &ISO_8859_8,
            SingleByte::Koi8R => &KOI8_R,
            SingleByte::Koi8U => &KOI8_U,
            SingleByte::Macintosh => &MACINTOSH,
            SingleByte::Windows1250 => &WINDOWS_1250,
            SingleByte::Windows1251 => &WINDOWS_1251,
            SingleByte::Windows1252 => &WINDOWS_1252,
            SingleByte::Windows1253 => &WINDOWS_1253,
            SingleByte::Windows1254 => &WINDOWS_1254,
            SingleByte::Windows1255 => &WINDOWS_1255,
            SingleByte::Windows1256 => &WINDOWS_1256,
            SingleByte::Windows1257 => &WINDOWS_1257,
            SingleByte::Windows1258 => &WINDOWS_1258,
            SingleByte::Windows874 => &WINDOWS_874,
            SingleByte::XMacCyrillic => &X_MAC_CYRILLIC,
            SingleByte::XUserDefined => &X_USER_DEFINED,
            SingleByte::Iso8859_8I => &ISO_8859_8,
        }
    }

    /// Returns the name of the encoding.
    pub fn name(self) -> &'static str {
        match self {
            SingleByte::Ibm866 => "IBM866",
            SingleByte::Iso8859_10 => "ISO-8859-10",
            SingleByte::Iso8859_13 => "ISO-8859-13",
            SingleByte::Iso8859_14 => "ISO-8859-14",
            SingleByte::Iso8859_15 => "ISO-8859-15",
            SingleByte::Iso8859_16 => "ISO-8859-16",
            SingleByte::Iso8859_2 => "ISO-8859-2",
            SingleByte::Iso8859_3 => "ISO-8859-3",
            SingleByte::Iso8859_4 => "ISO-8859-4",
            SingleByte::Iso8859_5 => "ISO-8859-5",
            SingleByte::Iso8859_6 => "ISO-8859-6",
            SingleByte::Iso8859_7 => "ISO-8859-7",
            SingleByte::Iso8859_8 => "ISO-8859-8",
            SingleByte::Koi8R => "KOI8-R",
            SingleByte::Koi8U => "KOI8-U",
            SingleByte::Macintosh => "macintosh",
            SingleByte::Windows1250 => "windows-1250",
            SingleByte::Windows1251 => "windows-1251",
            SingleByte::Windows1252 => "windows-1252",
            SingleByte::Windows1253 => "windows-1253",
            SingleByte::Windows1254 => "windows-1254",
            SingleByte::Windows1255 => "windows-1255",
            SingleByte::Windows1256 => "windows-1256",
            SingleByte::Windows1257 => "windows-1257",
            SingleByte::Windows1258 => "windows-1258",
            SingleByte::Windows874 => "windows-874",
            SingleByte::XMacCyrillic => "x-mac-cyrillic",
            SingleByte::XUserDefined => "x-user-defined",
            SingleByte::Iso8859_8I => "ISO-8859-8-I",
        }
    }

    /// Appends the characters of the bytes. A byte without a character becomes U+FFFD, which is
    /// counted.
    ///
    /// # Errors
    ///
    /// Fails with `AllocError` if memory runs out.
    pub fn decode_into(self, out: &mut Decoded, bytes: &[u8]) -> Result<(), AllocError>
        requires { IsCounted out.old }
        ensures appends { OnOk result (Appends out.old
            out.new (characters (index_of self) bytes.now)) }
        ensures counted { IsCounted out.new }
    {
        decode_by(self.index(), out, bytes)
    }
}

/// How many bytes are decoded one by one before the next search for a run of ASCII.
const FEW: usize = 16;

/// Appends the characters of the bytes, by the index of those from 128 on.
fn decode_by(index: &[u16; 128], out: &mut Decoded, bytes: &[u8]) -> Result<(), AllocError>
    requires { IsCounted out.old }
    ensures appends { OnOk result (Appends out.old out.new (characters index.now bytes.now)) }
    ensures counted { IsCounted out.new }
{
    let mut rest = bytes;
    while !rest.is_empty() {
        let (ascii, others) = ascii_front(rest);
        out.push_ascii(ascii)?;
        let (mixed, others) = others.split_at(others.len().min(FEW));
        push_each(out, index, mixed)?;
        rest = others;
    }
    Ok(())
}

/// Appends the character of each byte.
fn push_each(out: &mut Decoded, index: &[u16; 128], bytes: &[u8]) -> Result<(), AllocError>
    requires { IsCounted out.old }
    ensures appends { OnOk result (Appends out.old out.new (characters index.now bytes.now)) }
    ensures counted { IsCounted out.new }
{
    for byte in bytes {
        out.push(character_of(index, *byte))?;
    }
    Ok(())
}

/// Returns the character of a byte.
#[inline(always)]
#[tactic(auto, unfolding(crate::specs::SingleByte::character_of))]
fn character_of(index: &[u16; 128], byte: u8) -> Option<char>
    ensures { result ≡ character_of index.now byte }
{
    if byte < 128 {
        return Some(char::from(byte));
    }
    let code = index[usize::from(byte) - 128];
    if code == 0 {
        return None;
    }
    char::from_u32(u32::from(code))
}
