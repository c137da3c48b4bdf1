//! Recognising compressed files by their first bytes.

/// The first bytes of compressed files, and the command that decompresses each.
static FORMATS: [(&[u8], &str); 4] = [
    (&[0x1f, 0x8b], "gzip -dc"),
    (&[0x28, 0xb5, 0x2f, 0xfd], "zstd -dc"),
    (&[0xfd, b'7', b'z', b'X', b'Z'], "xz -dc"),
    (b"BZh", "bzip2 -dc"),
];

/// Returns the command that decompresses a file with these first bytes, or `None` if they aren't
/// those of a compressed file.
pub fn command_for(front: &[u8]) -> Option<&'static str> {
    for (first, command) in &FORMATS {
        if front.starts_with(first) {
            return Some(*command);
        }
    }
    None
}
