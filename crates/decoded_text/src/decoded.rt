//! Decoded text, and the number of replacements in it.

ghost use Rattle.std.specs.Prelude.{◌≡◌, ◌≤◌, [], ◌∷◌, IfOk, IsAscii, OnOk, Some, chars, map};
ghost use Rattle.decoded_text.specs.Characters.{Appends, IsCounted, IsDecoded};

use std::alloc::{AllocError, Global};

/// Text that was decoded, and how many U+FFFD in it replace bytes that couldn't be decoded. A
/// U+FFFD that the bytes themselves encode isn't counted.
#[derive(Debug, Drop)]
pub struct Decoded {
    /// The text.
    pub text: String,
    /// The number of replacements in the text.
    pub replaced: usize,
}

impl Decoded {
    /// Returns an empty text with room for `capacity` bytes.
    ///
    /// # Errors
    ///
    /// Fails with `AllocError` if memory runs out.
    pub fn with_capacity(alloc: Global, capacity: usize) -> Result<Decoded, AllocError>
        ensures { IfOk result (λ decoded. IsDecoded decoded []) }
    {
        Ok(Decoded {
            text: String::with_capacity(alloc, capacity)?,
            replaced: 0,
        })
    }

    /// Appends a character, or for `None` a U+FFFD, which is counted as a replacement.
    ///
    /// # Errors
    ///
    /// Fails with `AllocError` if memory runs out.
    pub fn push(&mut self, character: Option<char>) -> Result<(), AllocError>
        requires { IsCounted self.old }
        ensures appends { OnOk result (Appends self.old self.new (character ∷ [])) }
        ensures counted { IsCounted self.new }
    {
        match character {
            Some(character) => self.write(character),
            None => self.replace(),
        }
    }

    /// Appends a character.
    fn write(&mut self, character: char) -> Result<(), AllocError>
        requires { IsCounted self.old }
        ensures appends { OnOk result (Appends self.old self.new (Some character ∷ [])) }
        ensures counted { IsCounted self.new }
    {
        self.text.push(character)?;
        Ok(())
    }

    /// Appends U+FFFD in place of what could not be decoded.
    fn replace(&mut self) -> Result<(), AllocError>
        requires { IsCounted self.old }
        ensures appends { OnOk result (Appends self.old self.new (None ∷ [])) }
        ensures counted { IsCounted self.new }
    {
        self.text.push('\u{FFFD}')?;
        self.replaced += 1;
        Ok(())
    }

    /// Appends ASCII characters.
    ///
    /// # Errors
    ///
    /// Fails with `AllocError` if memory runs out.
    pub fn push_ascii(&mut self, ascii: &str) -> Result<(), AllocError>
        requires ascii { IsAscii ascii.now }
        requires counted { IsCounted self.old }
        ensures appends { OnOk result (Appends self.old self.new (map Some ascii.now)) }
        ensures counted { IsCounted self.new }
    {
        if ascii.is_empty() {
            return Ok(());
        }
        self.text.push_str(ascii)?;
        Ok(())
    }

    /// Appends a text.
    ///
    /// # Errors
    ///
    /// Fails with `AllocError` if memory runs out.
    pub fn push_str(&mut self, text: &str) -> Result<(), AllocError>
        requires { IsCounted self.old }
        ensures appends { OnOk result (Appends self.old self.new (map Some (chars text.now))) }
        ensures counted { IsCounted self.new }
    {
        self.text.push_str(text)?;
        Ok(())
    }
}
