//! The errors of this crate and the crates above: no memory, bad markup, and refused edits.

ghost use Rattle.std.specs.Prelude.{◌≡◌};
ghost use Rattle.dom_nodes.specs.declared.fault.EditFault.TheVariants.{Memory};

use std::alloc::{AllocError, AllocFailed};

/// A request for memory was refused, or a reference count was full.
#[derive(Clone, Copy, PartialEq, Eq, Debug, Drop, thiserror::Error)]
#[error("out of memory")]
pub struct OutOfMemory;

impl From<AllocError> for OutOfMemory {
    fn from(_refused: AllocError) -> OutOfMemory {
        OutOfMemory
    }
}

impl<T: Drop> From<AllocFailed<T>> for OutOfMemory {
    fn from(_refused: AllocFailed<T>) -> OutOfMemory {
        OutOfMemory
    }
}

/// What is wrong with explicit markup, as `Document::parse` reports it.
#[derive(Clone, Copy, PartialEq, Eq, Debug, Drop, thiserror::Error)]
pub enum MarkupFaultKind {
    /// A tag that doesn't follow the grammar.
    #[error("bad tag")]
    BadTag,
    /// The text ends while an element is open.
    #[error("unclosed element")]
    Unclosed,
    /// An end tag that doesn't have the name of the innermost open element.
    #[error("mismatched end tag")]
    MismatchedEnd,
    /// An end tag where no element is open.
    #[error("stray end tag")]
    StrayEnd,
    /// A tag that ends in `/>` for an element that isn't void.
    #[error("slash in the tag of an element that isn't void")]
    SlashOnOpen,
    /// A comment that doesn't follow the grammar.
    #[error("bad comment")]
    BadComment,
    /// A declaration (`<!` and what follows) that is no well-formed doctype.
    #[error("bad declaration")]
    BadDeclaration,
    /// A doctype inside an element.
    #[error("misplaced doctype")]
    MisplacedDoctype,
    /// A processing instruction (`<?` and what follows), which isn't allowed.
    #[error("processing instruction")]
    Instruction,
    /// A node would get an id past the last one, 4294967294.
    #[error("too many nodes")]
    TooManyNodes,
    /// A request for memory was refused.
    #[error("out of memory")]
    Memory,
}

/// What is wrong with markup, and where: `at` is the offset in bytes from the start of the text.
#[derive(Clone, Copy, PartialEq, Eq, Debug, Drop, thiserror::Error)]
#[error("{kind} at byte {at}")]
pub struct MarkupFault {
    pub kind: MarkupFaultKind,
    pub at: usize,
}

/// Why an edit was refused. The tree is unchanged after a refusal.
#[derive(Clone, Copy, PartialEq, Eq, Debug, Drop, thiserror::Error)]
pub enum EditFault {
    /// An id that was passed isn't the id of a node of this tree.
    #[error("unknown node")]
    UnknownNode,
    /// The target is a text, a comment, a doctype or a processing instruction, which can't have
    /// children.
    #[error("no children here")]
    NoChildrenHere,
    /// The root, a document or a fragment would be moved or get siblings.
    #[error("root or fragment")]
    RootOrFragment,
    /// A moved node is the target itself, or one of its ancestors, where an element also counts as
    /// the parent of its template contents.
    #[error("cycle")]
    Cycle,
    /// A node would get an id past the last one, 4294967294.
    #[error("too many nodes")]
    TooManyNodes,
    /// A request for memory was refused.
    #[error("out of memory")]
    Memory,
    /// The id of template contents is refused: it has to be the id of a fragment that has no
    /// parent, isn't the root and isn't the contents of another element.
    #[error("bad template contents")]
    BadContents,
    /// The markup that was passed doesn't follow the grammar; the fault says why and where.
    #[error("bad markup: {0}")]
    Markup(MarkupFault),
}

impl From<AllocError> for EditFault {
    ghost from_gives = { λ _ fault. fault ≡ Memory };

    fn from(_refused: AllocError) -> EditFault {
        EditFault::Memory
    }
}

impl<T: Drop> From<AllocFailed<T>> for EditFault {
    ghost from_gives = { λ _ fault. fault ≡ Memory };

    fn from(_refused: AllocFailed<T>) -> EditFault {
        EditFault::Memory
    }
}

impl From<OutOfMemory> for EditFault {
    ghost from_gives = { λ _ fault. fault ≡ Memory };

    fn from(_refused: OutOfMemory) -> EditFault {
        EditFault::Memory
    }
}

impl MarkupFault {
    /// Returns the line and the column of the fault in the text that was parsed, each counted from
    /// 1. A column counts characters, not bytes. When `at` is past the end of the text, the answer
    /// is the position of the end.
    pub fn line_and_column(&self, text: &str) -> (usize, usize) {
        let bytes = text.as_bytes();
        let end = self.at.min(bytes.len());
        position_after(&bytes[..end])
    }
}

/// Returns the line and the column behind these bytes, each counted from 1.
fn position_after(bytes: &[u8]) -> (usize, usize) {
    let mut line: usize = 1;
    let mut column: usize = 1;
    for byte in bytes {
        if *byte == b'\n' {
            line = line.saturating_add(1);
            column = 1;
        } else if begins_char(*byte) {
            column = column.saturating_add(1);
        }
    }
    (line, column)
}

/// Returns whether a byte of UTF-8 begins a character.
fn begins_char(byte: u8) -> bool {
    !(byte >= 128 && byte < 192)
}
