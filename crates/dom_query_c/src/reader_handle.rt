//! What C holds of a reader.

ghost use Rattle.std.specs.Prelude.{◌≡◌, ◌≤ℤ◌, negsuc, pos};
ghost use Rattle.std.specs.Prelude.{MatchOption, MatchResult, None, Some};
ghost use Rattle.std.specs.Option.{is_some};
ghost use Rattle.c_state.specs.declared.fault.Fault.TheVariants.{Closed};
ghost use Rattle.dom_query_c.specs.Calls.{IsAnswer};

use crate::parts::Parts;
use crate::reader_slot::ReaderSlot;
use c_state::{Fault, Reader};
use std::alloc::Global;
use std::mem;

/// A reader, or none. All bytes 0 is a handle with no reader.
#[repr(C)]
#[derive(Drop)]
pub struct ReaderHandle {
    pub slot: ReaderSlot,
    pub full: bool,
    ghost agrees: { full ≡ is_some slot.reader },
}

impl ReaderHandle {
    /// A handle with no reader.
    pub fn empty(alloc: Global) -> ReaderHandle
        ensures { result.slot.reader ≡ None }
    {
        ReaderHandle {
            slot: ReaderSlot::empty(alloc),
            full: false,
        }
    }

    fn of(reader: Box<Reader, Global>) -> ReaderHandle
        ensures { result.slot.reader ≡ Some reader.value }
    {
        ReaderHandle {
            slot: ReaderSlot::of(Parts::of(reader)),
            full: true,
        }
    }

    /// Takes the reader out, if there is one.
    pub fn take(&mut self, alloc: Global) -> Option<Box<Reader, Global>>
        ensures left { self.new.slot.reader ≡ None }
        ensures given { MatchOption result (self.old.slot.reader ≡ None)
            (λ reader. self.old.slot.reader ≡ Some reader.value) }
    {
        let was = mem::replace(self, ReaderHandle::empty(alloc));
        let ReaderHandle { slot, full, .. } = was;
        if full {
            Some(slot.into_parts().into_box())
        } else {
            None
        }
    }

    /// Puts a reader in, and frees what was there.
    pub fn put(&mut self, reader: Box<Reader, Global>)
        ensures { self.new.slot.reader ≡ Some reader.value }
    {
        let ReaderHandle { slot, full, .. } = mem::replace(self, ReaderHandle::of(reader));
        if full {
            drop(slot.into_parts().into_box());
        }
    }

    /// Puts what was made in, and frees what was there; a fault leaves the handle with that.
    pub fn fill(&mut self, alloc: Global, made: Result<Reader, Fault>) -> i64
        ensures ok { pos 0 ≤ℤ result → MatchResult made
            (λ reader. self.new.slot.reader ≡ Some reader) (λ _. ⊥) }
        ensures err { (pos 0 ≤ℤ result → ⊥) → self.new.slot.reader ≡ self.old.slot.reader }
    {
        match made {
            Ok(reader) => match Box::new(alloc, reader) {
                Ok(reader) => {
                    self.put(reader);
                    0
                }
                Err(_) => self.note(Fault::Memory),
            },
            Err(fault) => self.note(fault),
        }
    }

    /// The answer as C gets it: the number, or that of a fault.
    pub fn answer(&mut self, given: Result<usize, Fault>) -> i64
        ensures kept { self.new.slot.reader ≡ self.old.slot.reader }
        ensures answer { IsAnswer given result }
    {
        match given {
            Ok(count) => {
                if count <= i64::MAX as usize {
                    count as i64
                } else {
                    self.note(Fault::Memory)
                }
            }
            Err(fault) => self.note(fault),
        }
    }

    /// Notes a fault: its number.
    pub fn note(&mut self, fault: Fault) -> i64
        ensures kept { self.new.slot.reader ≡ self.old.slot.reader }
        ensures below { pos 0 ≤ℤ result → ⊥ }
        ensures closed { fault ≡ Closed → result ≡ negsuc 1 }
    {
        fault.code()
    }
}
