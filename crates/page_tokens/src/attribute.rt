//! The attribute of a tag.

ghost use Rattle.std.specs.Prelude.{◌≡◌, ◌<◌, length, map, string_bytes};
ghost use Rattle.std.specs.Char.{to_ascii_lowercase};

/// An attribute of a tag. Its name is not empty and contains no ASCII upper-case letter.
#[derive(Drop)]
pub struct TagAttr {
    pub name: String,
    pub value: String,
    ghost not_empty: { 0 < length (string_bytes name) },
    ghost folded: { map to_ascii_lowercase (string_bytes name) ≡ string_bytes name },
}
