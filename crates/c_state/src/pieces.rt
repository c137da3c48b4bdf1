//! Several texts in one answer.

ghost use Rattle.std.specs.Prelude.{◌≡◌, ◌++◌, ◌∷◌, [], IfErr, OnOk, Some, string_bytes};
ghost use Rattle.std.specs.Option.{option_copied};
ghost use Rattle.c_state.specs.Pieces.{piece_length, piece_text};
ghost use Rattle.c_state.specs.declared.fault.Fault.TheVariants.{Memory};

use crate::fault::Fault;
use std::alloc::Global;

/// Several texts: all of them, one after the other, and the length of each.
#[derive(Drop)]
pub struct Pieces {
    pub text: String,
    pub lengths: Vec<u32>,
}

/// The length that says that there is no text.
pub const NO_PIECE: u32 = 4_294_967_295;

impl Pieces {
    pub fn new(alloc: Global) -> Pieces
        ensures text { string_bytes result.text ≡ [] }
        ensures lengths { result.lengths.items ≡ [] }
    {
        Pieces {
            text: String::new(alloc),
            lengths: Vec::new(alloc),
        }
    }

    /// Adds a text. Refused as `Memory`, also where it is longer than 4,294,967,294 bytes.
    pub fn push(&mut self, piece: &str) -> Result<(), Fault>
        ensures text { OnOk result (string_bytes self.new.text
            ≡ string_bytes self.old.text ++ piece.now) }
        ensures lengths { OnOk result (self.new.lengths.items
            ≡ self.old.lengths.items ++ piece_length (Some piece.now) ∷ []) }
        ensures err { IfErr result (λ fault. fault ≡ Memory) }
    {
        if piece.len() >= NO_PIECE as usize {
            return Err(Fault::Memory);
        }
        self.text.push_str(piece)?;
        self.lengths.push(piece.len() as u32)?;
        Ok(())
    }

    /// Adds a text, or notes that there is none.
    pub fn push_some(&mut self, piece: Option<&str>) -> Result<(), Fault>
        ensures text { OnOk result (string_bytes self.new.text
            ≡ string_bytes self.old.text ++ piece_text (option_copied piece.entry)) }
        ensures lengths { OnOk result (self.new.lengths.items
            ≡ self.old.lengths.items ++ piece_length (option_copied piece.entry) ∷ []) }
        ensures err { IfErr result (λ fault. fault ≡ Memory) }
    {
        match piece {
            Some(piece) => self.push(piece),
            None => Ok(self.lengths.push(NO_PIECE)?),
        }
    }
}
