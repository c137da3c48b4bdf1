//! Places in bytes: runs of bytes of a kind, words, quotes.

ghost use Rattle.std.specs.Prelude.{◌≡◌, ◌==◌, drop, map, nat_eq, option_copied, take};
ghost use Rattle.std.specs.Char.{is_ascii_alphabetic, to_ascii_lowercase};
ghost use Rattle.std.specs.List.{starts_with};
ghost use Rattle.std.specs.Option.{option_map};
ghost use Rattle.encodings.specs.Bytes.{after_while, begins, begins_with_word, cut_at, from_first, front_while, in_quotes, is_quote, is_space_or_slash};
ghost use Rattle.encodings.specs.Runs.{in_run};

/// A kind of byte.
#[derive(Clone, Copy, Drop)]
pub(crate) enum Run {
    /// White space.
    Spaces,
    /// White space and slashes.
    SpacesAndSlashes,
    /// White space and control characters.
    Blanks,
    /// What the name of an attribute has after its first byte.
    Name,
    /// What the name of a tag and a value without quotes have.
    Value,
    /// What a label without quotes has.
    Label,
    /// Any byte but this one.
    Until(u8),
}

impl Run {
    /// Returns whether a byte is of this kind.
    fn has(self, byte: u8) -> bool
        ensures { result ≡ in_run self byte }
    {
        match self {
            Run::Spaces => byte.is_ascii_whitespace(),
            Run::SpacesAndSlashes => is_space_or_slash(byte),
            Run::Blanks => byte <= b' ',
            Run::Name => !is_space_or_slash(byte) && !(byte == b'>' || byte == b'='),
            Run::Value => !(byte.is_ascii_whitespace() || byte == b'>'),
            Run::Label => !(byte.is_ascii_whitespace() || byte == b';'),
            Run::Until(other) => byte != other,
        }
    }

    /// Returns the bytes of this kind at the front, and the bytes from the first other one on.
    pub(crate) fn split(self, bytes: &[u8]) -> (&[u8], &[u8])
        ensures front { result.0.now ≡ front_while (in_run self) bytes.now }
        ensures rest { result.1.now ≡ after_while (in_run self) bytes.now }
    {
        for (i, byte) in bytes.iter().enumerate() {
            if !self.has(*byte) {
                return bytes.split_at(i);
            }
        }
        (bytes, &[])
    }

    /// Returns the bytes from the first one on that is not of this kind.
    pub(crate) fn skip(self, bytes: &[u8]) -> &[u8]
        ensures { result.now ≡ after_while (in_run self) bytes.now }
    {
        let (_, rest) = self.split(bytes);
        rest
    }
}

fn is_space_or_slash(byte: u8) -> bool
    ensures { result ≡ is_space_or_slash byte }
{
    byte.is_ascii_whitespace() || byte == b'/'
}

/// Returns the bytes before a byte and those after it, if it is there.
pub(crate) fn cut_at(byte: u8, bytes: &[u8]) -> Option<(&[u8], &[u8])>
    ensures { option_map (λ cut. (cut.0.now, cut.1.now)) result ≡ cut_at byte bytes.now }
{
    let (front, rest) = Run::Until(byte).split(bytes);
    match rest.split_first() {
        Some((_, behind)) => Some((front, behind)),
        None => None,
    }
}

/// Returns what stands in the quotes that the bytes begin with, and the bytes after these.
pub(crate) fn in_quotes(bytes: &[u8]) -> Option<(&[u8], &[u8])>
    ensures { option_map (λ cut. (cut.0.now, cut.1.now)) result ≡ in_quotes bytes.now }
{
    let (quote, rest) = bytes.split_first()?;
    if !is_quote(*quote) {
        return None;
    }
    cut_at(*quote, rest)
}

/// Returns what stands in the quotes that the bytes begin with.
pub(crate) fn quoted(bytes: &[u8]) -> Option<&[u8]>
    ensures { option_copied result ≡ option_map (λ cut. cut.0) (in_quotes bytes.now) }
{
    match in_quotes(bytes) {
        Some(cut) => Some(cut.0),
        None => None,
    }
}

/// Returns whether the byte is an equals sign.
pub(crate) fn is_equals_sign(byte: u8) -> bool
    ensures { result ≡ (byte == 0x3D) }
{
    byte == b'='
}

/// Returns whether the byte is a quote.
fn is_quote(byte: u8) -> bool
    ensures { result ≡ is_quote byte }
{
    byte == b'"' || byte == b'\''
}

/// Returns whether the bytes begin with a quote.
pub(crate) fn begins_with_quote(bytes: &[u8]) -> bool
    ensures { result ≡ begins is_quote bytes.now }
{
    match bytes.first() {
        Some(byte) => is_quote(*byte),
        None => false,
    }
}

/// Returns whether the bytes begin with a letter.
pub(crate) fn begins_with_letter(bytes: &[u8]) -> bool
    ensures { result ≡ begins is_ascii_alphabetic bytes.now }
{
    match bytes.first() {
        Some(byte) => byte.is_ascii_alphabetic(),
        None => false,
    }
}

/// Returns whether the bytes begin with white space or a slash.
pub(crate) fn begins_with_space_or_slash(bytes: &[u8]) -> bool
    ensures { result ≡ begins is_space_or_slash bytes.now }
{
    match bytes.first() {
        Some(byte) => is_space_or_slash(*byte),
        None => false,
    }
}

/// Returns whether the bytes begin with a word, which is in lower case, in letters of any case.
pub(crate) fn begins_with_word(word: &[u8], bytes: &[u8]) -> bool
    requires { map to_ascii_lowercase word.now ≡ word.now }
    ensures { result ≡ begins_with_word word.now bytes.now }
{
    match bytes.get(..word.len()) {
        Some(front) => front.eq_ignore_ascii_case(word),
        None => false,
    }
}

/// Returns the bytes without so many at the front.
pub(crate) fn behind(length: usize, bytes: &[u8]) -> &[u8]
    ensures { result.now ≡ drop length bytes.now }
{
    match bytes.get(length..) {
        Some(rest) => rest,
        None => &[],
    }
}

/// Returns the bytes at the front, at most so many.
pub(crate) fn front(length: usize, bytes: &[u8]) -> &[u8]
    ensures { result.now ≡ take length bytes.now }
{
    match bytes.get(..length) {
        Some(front) => front,
        None => bytes,
    }
}

/// Returns the bytes from the first place on at which they begin with a text.
pub(crate) fn from_text<'a>(text: &[u8], bytes: &'a [u8]) -> Option<&'a [u8]>
    ensures { option_copied result
        ≡ from_first (λ rest. starts_with nat_eq rest text.now) bytes.now }
{
    for (i, _) in bytes.iter().enumerate() {
        let rest = behind(i, bytes);
        if rest.starts_with(text) {
            return Some(rest);
        }
    }
    None
}
