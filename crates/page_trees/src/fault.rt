//! Why a page could not be read.

ghost use Rattle.std.specs.Prelude.{◌≡◌, Err, IfErr, MatchResult, Ok};
ghost use Rattle.page_trees.specs.Elements.{IsLimit, limit_of};
ghost use Rattle.page_trees.specs.declared.fault.PageFault.TheVariants.{Memory as NoMemory};

use dom_nodes::fault::{EditFault, OutOfMemory};
use dom_nodes::node_id::NodeId;
use std::alloc::{AllocError, AllocFailed};
use std::error::Error;
use std::fmt;

/// Why a page could not be read. By the HTML Standard every text has a document, so reading fails
/// only when memory or node ids run out.
#[derive(Clone, Copy, PartialEq, Eq, Debug, Drop)]
pub enum PageFault {
    /// Memory ran out.
    Memory,
    /// All node ids are used.
    TooManyNodes,
}

impl fmt::Display for PageFault {
    fn fmt<W: fmt::Write>(&self, f: &mut fmt::Formatter<W>) -> fmt::Result {
        match self {
            PageFault::Memory => f.write_str("out of memory"),
            PageFault::TooManyNodes => f.write_str("too many nodes"),
        }
    }
}

impl Error for PageFault {}

impl From<AllocError> for PageFault {
    ghost from_gives = { λ _ fault. fault ≡ NoMemory };

    fn from(_refused: AllocError) -> PageFault {
        PageFault::Memory
    }
}

impl<T: Drop> From<AllocFailed<T>> for PageFault {
    ghost from_gives = { λ _ fault. fault ≡ NoMemory };

    fn from(_refused: AllocFailed<T>) -> PageFault {
        PageFault::Memory
    }
}

impl From<OutOfMemory> for PageFault {
    ghost from_gives = { λ _ fault. fault ≡ NoMemory };

    fn from(_refused: OutOfMemory) -> PageFault {
        PageFault::Memory
    }
}

/// Converts the result of an edit that fails only when memory or node ids run out.
pub fn settled(done: Result<(), EditFault>) -> Result<(), PageFault>
    requires { IfErr done IsLimit }
    ensures { MatchResult result (λ _. done ≡ Ok tt) (λ fault. done ≡ Err (limit_of fault)) }
{
    match done {
        Ok(()) => Ok(()),
        Err(EditFault::Memory) => Err(PageFault::Memory),
        Err(EditFault::TooManyNodes) => Err(PageFault::TooManyNodes),
        Err(_) => unreachable!(),
    }
}

/// Converts the result of making a node, which fails only when memory or node ids run out.
pub fn made(id: Result<NodeId, EditFault>) -> Result<NodeId, PageFault>
    requires { IfErr id IsLimit }
    ensures { MatchResult result (λ n. id ≡ Ok n) (λ fault. id ≡ Err (limit_of fault)) }
{
    match id {
        Ok(id) => Ok(id),
        Err(EditFault::Memory) => Err(PageFault::Memory),
        Err(EditFault::TooManyNodes) => Err(PageFault::TooManyNodes),
        Err(_) => unreachable!(),
    }
}
