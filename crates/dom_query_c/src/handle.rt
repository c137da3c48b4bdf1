//! What C holds of a document.

ghost use Rattle.std.specs.Prelude.{◌≡◌, ◌≤ℤ◌, negsuc, pos};
ghost use Rattle.std.specs.Prelude.{MatchOption, MatchResult, None, Some};
ghost use Rattle.std.specs.Option.{is_some};
ghost use Rattle.c_state.specs.declared.fault.Fault.TheVariants.{Closed};
ghost use Rattle.dom_query_c.specs.Calls.{IsAnswer};

use crate::parts::Parts;
use crate::slot::Slot;
use c_state::{Fault, State};
use std::alloc::Global;
use std::mem;

/// A document, or none; and the byte at which the last fault of markup was met. All bytes 0 is a
/// handle with no document.
#[repr(C)]
#[derive(Drop)]
pub struct Handle {
    pub slot: Slot,
    pub byte: usize,
    pub full: bool,
    ghost agrees: { full ≡ is_some slot.state },
}

impl Handle {
    /// A handle with no document.
    pub fn empty(alloc: Global) -> Handle
        ensures { result.slot.state ≡ None }
    {
        Handle {
            slot: Slot::empty(alloc),
            byte: 0,
            full: false,
        }
    }

    fn of(state: Box<State, Global>) -> Handle
        ensures { result.slot.state ≡ Some state.value }
    {
        Handle {
            slot: Slot::of(Parts::of(state)),
            byte: 0,
            full: true,
        }
    }

    /// Takes the document out, if there is one.
    pub fn take(&mut self, alloc: Global) -> Option<Box<State, Global>>
        ensures left { self.new.slot.state ≡ None }
        ensures given { MatchOption result (self.old.slot.state ≡ None)
            (λ state. self.old.slot.state ≡ Some state.value) }
    {
        let was = mem::replace(self, Handle::empty(alloc));
        let Handle { slot, full, .. } = was;
        if full {
            Some(slot.into_parts().into_box())
        } else {
            None
        }
    }

    /// Puts a document in, and frees what was there.
    pub fn put(&mut self, state: Box<State, Global>)
        ensures { self.new.slot.state ≡ Some state.value }
    {
        let Handle { slot, full, .. } = mem::replace(self, Handle::of(state));
        if full {
            drop(slot.into_parts().into_box());
        }
    }

    /// Puts what was read in, and frees what was there; a fault leaves the handle with that.
    pub fn fill(&mut self, alloc: Global, read: Result<State, Fault>) -> i64
        ensures ok { pos 0 ≤ℤ result → MatchResult read
            (λ state. self.new.slot.state ≡ Some state) (λ _. ⊥) }
        ensures err { (pos 0 ≤ℤ result → ⊥) → self.new.slot.state ≡ self.old.slot.state }
    {
        match read {
            Ok(state) => match Box::new(alloc, state) {
                Ok(state) => {
                    self.put(state);
                    0
                }
                Err(_) => self.note(Fault::Memory),
            },
            Err(fault) => self.note(fault),
        }
    }

    /// The answer as C gets it: the number, or that of a fault.
    pub fn answer(&mut self, given: Result<usize, Fault>) -> i64
        ensures kept { self.new.slot.state ≡ self.old.slot.state }
        ensures answer { IsAnswer given result }
    {
        match given {
            Ok(count) => {
                if count <= i64::MAX as usize {
                    count as i64
                } else {
                    self.note(Fault::Memory)
                }
            }
            Err(fault) => self.note(fault),
        }
    }

    /// Notes a fault: its number.
    pub fn note(&mut self, fault: Fault) -> i64
        ensures kept { self.new.slot.state ≡ self.old.slot.state }
        ensures below { pos 0 ≤ℤ result → ⊥ }
        ensures closed { fault ≡ Closed → result ≡ negsuc 1 }
    {
        self.byte = fault.byte();
        fault.code()
    }
}
