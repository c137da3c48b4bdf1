//! Texts in fields that are rarely used, such as prefixes: they take one pointer in the value.

ghost use Rattle.std.specs.Prelude.{◌≡◌, IfOk, List, ℕ};

use super::Text;
use crate::fault::OutOfMemory;
use std::alloc::Global;
use std::marker::Model;

/// A text behind a pointer. In a contract it is the list of its bytes.
pub struct RareText {
    text: Box<Text>,
}

/// Destructures by hand, so that dropping such a text is one step for its owner.
impl Drop for RareText {
    #[inline(always)]
    fn drop(self) {
        let RareText { text } = self;
        drop(text);
    }
}

impl Model for RareText {
    ghost use Rattle.std.specs.Prelude.{List, ℕ};

    ghost Value = { List ℕ };

    ghost view = { λ rare. rare.text.value };
}

impl RareText {
    /// Returns a copy of `text`, or `OutOfMemory`.
    pub fn new(alloc: Global, text: &str) -> Result<RareText, OutOfMemory>
        ensures { IfOk result (λ made. made ≡ text.now) }
    {
        let text = Text::new(alloc, text)?;
        let text = Box::new(alloc, text)?;
        Ok(RareText { text })
    }

    /// Returns the text.
    pub fn as_str(&self) -> &str
        ensures { result.now ≡ self.now }
    {
        self.text.as_str()
    }

    /// Returns a copy in memory of its own, or `OutOfMemory`.
    pub fn try_clone(&self) -> Result<RareText, OutOfMemory>
        ensures { IfOk result (λ made. made ≡ self.now) }
    {
        RareText::new(self.text.allocator(), self.as_str())
    }
}
