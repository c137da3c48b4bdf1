//! Why a text is not a selector.

ghost use Rattle.std.specs.Prelude.{◌≡◌};
ghost use Rattle.dom_selectors.specs.declared.fault.SelectorFault.TheVariants.{Memory};

use dom_nodes::fault::OutOfMemory;
use std::alloc::{AllocError, AllocFailed};

/// Why a text is not a selector.
#[derive(Clone, Copy, PartialEq, Eq, Debug, Drop, thiserror::Error)]
pub enum SelectorFault {
    /// The text does not follow the grammar.
    #[error("bad selector")]
    Syntax,
    /// A pseudo-class is unknown, or its arguments have the wrong form.
    #[error("unknown pseudo-class")]
    UnknownPseudoClass,
    /// A number is greater than 2147483647.
    #[error("number out of range")]
    Number,
    /// A `:has` is inside another `:has`.
    #[error("nested :has")]
    NestedHas,
    /// Parentheses are nested more than 64 levels deep.
    #[error("nested too deep")]
    TooDeep,
    /// Memory ran out.
    #[error("out of memory")]
    Memory,
}

impl From<AllocError> for SelectorFault {
    ghost from_gives = { λ _ fault. fault ≡ Memory };

    fn from(_refused: AllocError) -> SelectorFault {
        SelectorFault::Memory
    }
}

impl<T: Drop> From<AllocFailed<T>> for SelectorFault {
    ghost from_gives = { λ _ fault. fault ≡ Memory };

    fn from(_refused: AllocFailed<T>) -> SelectorFault {
        SelectorFault::Memory
    }
}

impl From<OutOfMemory> for SelectorFault {
    ghost from_gives = { λ _ fault. fault ≡ Memory };

    fn from(_refused: OutOfMemory) -> SelectorFault {
        SelectorFault::Memory
    }
}
