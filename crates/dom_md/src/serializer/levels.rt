//! Texts that are part of one another, and the text before the one that is being written.

use dom_nodes::fault::OutOfMemory;
use std::alloc::Global;

/// Pieces of text, the last first.
#[derive(Drop)]
pub(super) struct Front {
    pieces: Vec<String>,
    /// Whether these pieces and the text behind them were whitespace alone when that text was put
    /// behind them.
    is_blank: bool,
}

impl Front {
    pub(super) fn new(alloc: Global) -> Front {
        Front {
            pieces: Vec::new(alloc),
            is_blank: true,
        }
    }

    pub(super) fn is_empty(&self) -> bool {
        self.pieces.is_empty()
    }

    /// Returns whether the text with these pieces before it is whitespace alone.
    pub(super) fn is_blank_before(&self, text: &str) -> bool {
        if self.is_empty() {
            return text.trim().is_empty();
        }
        self.is_blank
    }

    /// Returns the first byte of the text with these pieces before it.
    pub(super) fn first_byte_before(&self, text: &str) -> Option<u8> {
        match self.pieces.last() {
            Some(first) => first.as_str().as_bytes().first().copied(),
            None => text.as_bytes().first().copied(),
        }
    }

    /// Puts a text and the pieces before it in front of these pieces, if there are any.
    pub(super) fn put(
        &mut self,
        outer: Front,
        text: String,
        is_blank: bool,
    ) -> Result<(), OutOfMemory> {
        self.is_blank = is_blank && outer.is_blank_before(text.as_str());
        self.pieces.push(text)?;
        for piece in outer.pieces {
            self.pieces.push(piece)?;
        }
        Ok(())
    }

    /// Returns the pieces and a text behind them, as one text.
    pub(super) fn joined(self, text: String) -> Result<String, OutOfMemory> {
        let mut pieces = self.pieces;
        let Some(mut joined) = pieces.pop() else {
            return Ok(text);
        };
        for piece in pieces.as_slice().iter().rev() {
            joined.push_str(piece.as_str())?;
        }
        joined.push_str(text.as_str())?;
        Ok(joined)
    }
}

/// A text that is interrupted, while another text is written that will be part of it.
#[derive(Drop)]
pub(super) struct Level {
    pub(super) front: Front,
    pub(super) text: String,
    /// How many items of lists were being written when it began.
    pub(super) items: usize,
}

/// So many bytes at the end of a text are searched for a letter.
const NEAR: usize = 64;

/// Returns whether there is a letter near the end of the text. No step that looks at the end of a
/// text looks further back than to a letter.
pub(super) fn ends_near_letter(text: &str) -> bool {
    let bytes = text.as_bytes();
    let rest = match bytes.get(bytes.len().saturating_sub(NEAR)..) {
        Some(rest) => rest,
        None => bytes,
    };
    rest.iter().any(|byte| byte.is_ascii_alphabetic())
}
