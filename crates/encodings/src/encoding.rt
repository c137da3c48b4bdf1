//! Encodings, their labels and names.

ghost use Rattle.std.specs.Prelude.{◌≡◌, List, bytes_eq, map, ℕ};
ghost use Rattle.std.specs.Char.{to_ascii_lowercase};
ghost use Rattle.encodings.specs.Labels.{encoding_of, for_bom, labelled, of_markup, of_xml_markup};

use crate::labels::LABELS;
use crate::single_byte::SingleByte;

/// An encoding of the Encoding Standard.
#[derive(Clone, Copy, Debug, Drop, PartialEq, Eq)]
pub enum Encoding {
    /// UTF-8.
    Utf8,
    /// UTF-16, big-endian.
    Utf16Be,
    /// UTF-16, little-endian.
    Utf16Le,
    /// GBK: simplified Chinese. It is decoded as gb18030 is.
    Gbk,
    /// gb18030: simplified Chinese.
    Gb18030,
    /// Big5: traditional Chinese.
    Big5,
    /// EUC-JP: Japanese.
    EucJp,
    /// ISO-2022-JP: Japanese.
    Iso2022Jp,
    /// Shift_JIS: Japanese.
    ShiftJis,
    /// EUC-KR: Korean.
    EucKr,
    /// The encoding of labels such as `iso-2022-kr`, whose bytes would be dangerous to decode. Any
    /// bytes are decoded as one U+FFFD.
    Replacement,
    /// An encoding in which each byte is a character.
    SingleByte(SingleByte),
}

impl Encoding {
    /// Returns the encoding that a label names, such as the value of `charset` in a `meta` element
    /// or an HTTP header, or `None` if the Encoding Standard doesn't have the label. White space
    /// around the label and the case of its letters don't matter: ` UTF-8 `, `latin1` and
    /// `ISO-8859-1` are labels, and the last two name windows-1252.
    pub fn for_label(label: &[u8]) -> Option<Encoding>
        ensures { result ≡ encoding_of label.now }
    {
        find(&LABELS, label.trim_ascii())
    }

    /// Each label in lower case, and the encoding that it names: the table that `for_label` reads.
    pub fn labels() -> &'static [(&'static str, Encoding)]
        ensures { (label : List ℕ) → labelled (λ row. row.0.now) (λ row. row.1) result.now label
            ≡ labelled (λ row. row.0.now) (λ row. row.1) LABELS label }
    {
        &LABELS
    }

    /// Returns the name of the encoding, which is one of its labels, such as `windows-1252`,
    /// `Shift_JIS` or `UTF-8`.
    pub fn name(self) -> &'static str {
        match self {
            Encoding::Utf8 => "UTF-8",
            Encoding::Utf16Be => "UTF-16BE",
            Encoding::Utf16Le => "UTF-16LE",
            Encoding::Gbk => "GBK",
            Encoding::Gb18030 => "gb18030",
            Encoding::Big5 => "Big5",
            Encoding::EucJp => "EUC-JP",
            Encoding::Iso2022Jp => "ISO-2022-JP",
            Encoding::ShiftJis => "Shift_JIS",
            Encoding::EucKr => "EUC-KR",
            Encoding::Replacement => "replacement",
            Encoding::SingleByte(single) => single.name(),
        }
    }

    /// Returns the encoding whose byte order mark is at the start of the bytes, and how many bytes
    /// the mark has; `None` if no mark is there.
    pub fn for_bom(bytes: &[u8]) -> Option<(Encoding, usize)>
        ensures { result ≡ for_bom bytes.now }
    {
        if bytes.starts_with(b"\xEF\xBB\xBF") {
            return Some((Encoding::Utf8, 3));
        }
        if bytes.starts_with(b"\xFE\xFF") {
            return Some((Encoding::Utf16Be, 2));
        }
        if bytes.starts_with(b"\xFF\xFE") {
            return Some((Encoding::Utf16Le, 2));
        }
        None
    }

    /// Returns the encoding of a page that declares this encoding in its markup. A page in UTF-16
    /// could not be read as far as its declaration, so UTF-16 means UTF-8 there; and
    /// `x-user-defined` means windows-1252.
    pub(crate) fn of_markup(self) -> Encoding
        ensures { result ≡ of_markup self }
    {
        match self {
            Encoding::Utf16Be | Encoding::Utf16Le => Encoding::Utf8,
            Encoding::SingleByte(SingleByte::XUserDefined) => {
                Encoding::SingleByte(SingleByte::Windows1252)
            }
            _ => self,
        }
    }

    /// Returns the encoding of a page that declares this encoding in an XML declaration, where
    /// UTF-16 means UTF-8 too.
    pub(crate) fn of_xml_markup(self) -> Encoding
        ensures { result ≡ of_xml_markup self }
    {
        match self {
            Encoding::Utf16Be | Encoding::Utf16Le => Encoding::Utf8,
            _ => self,
        }
    }
}

/// Returns the encoding of a label in the rows.
fn find(rows: &[(&str, Encoding)], label: &[u8]) -> Option<Encoding>
    ensures { result ≡ labelled (λ row. row.0.now) (λ row. row.1) rows.now
        (map to_ascii_lowercase label.now) }
{
    for (name, encoding) in rows {
        if is_same(name.as_bytes(), label) {
            return Some(*encoding);
        }
    }
    None
}

/// Returns whether two labels are equal, apart from the case of letters.
fn is_same(name: &[u8], label: &[u8]) -> bool
    ensures { result ≡ bytes_eq (map to_ascii_lowercase name.now)
        (map to_ascii_lowercase label.now) }
{
    name.eq_ignore_ascii_case(label)
}
