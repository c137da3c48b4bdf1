//! Why a text does not start with a mini selector.

use dom_nodes::fault::OutOfMemory;
use std::alloc::AllocFailed;

/// Why a text does not start with a mini selector.
#[derive(Clone, Copy, PartialEq, Eq, Debug, Drop, thiserror::Error)]
pub enum MiniFault {
    /// The text starts with no part of a mini selector.
    #[error("no mini selector")]
    NoSelector,
    /// A value that starts with a quote is empty, or the same quote does not close it.
    #[error("bad quoted value")]
    BadQuotedValue,
    /// Memory ran out.
    #[error("out of memory")]
    Memory,
}

impl<T: Drop> From<AllocFailed<T>> for MiniFault {
    ghost use Rattle.std.specs.Prelude.{◌≡◌};
    ghost use Rattle.dom_selectors.specs.declared.mini_selector.fault.MiniFault.TheVariants.{Memory};

    ghost from_gives = { λ _ fault. fault ≡ Memory };

    fn from(_refused: AllocFailed<T>) -> MiniFault {
        MiniFault::Memory
    }
}

impl From<OutOfMemory> for MiniFault {
    ghost use Rattle.std.specs.Prelude.{◌≡◌};
    ghost use Rattle.dom_selectors.specs.declared.mini_selector.fault.MiniFault.TheVariants.{Memory};

    ghost from_gives = { λ _ fault. fault ≡ Memory };

    fn from(_refused: OutOfMemory) -> MiniFault {
        MiniFault::Memory
    }
}
