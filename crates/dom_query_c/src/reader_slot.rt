//! Room for one boxed reader, which C can hold.
ghost use Rattle.std.specs.Prelude.{◌≡◌, true, Option, Some, None};
ghost use Rattle.std.specs.Option.{is_some};
ghost use Rattle.c_state.specs.declared.pages.Reader.{Reader};
ghost use Rattle.dom_query_c.specs.ReaderSlots.{reader_coded, slot_owns};

use crate::parts::Parts;
use c_state::Reader;
use std::alloc::Global;
use std::marker::Model;

#[repr(C)]
#[derive(Drop)]
pub struct ReaderSlot {
    at: *mut u8,
    alloc: Global,
    pub ghost reader: { Option Reader } by { reader_coded },
}

impl Model for ReaderSlot {
    ghost also_owns = { λ s. slot_owns s.alloc s.at s.reader };
}

impl ReaderSlot {
    pub fn empty(alloc: Global) -> ReaderSlot
        ensures { result.reader ≡ None }
    {
        ReaderSlot {
            at: std::ptr::null_mut(),
            alloc,
        }
    }

    pub fn of(parts: Parts<Reader, Global>) -> ReaderSlot
        ensures { result.reader ≡ Some parts.value }
    {
        let Parts { ptr, alloc } = parts;
        ReaderSlot {
            at: ptr.cast::<u8>(),
            alloc,
        }
    }

    pub fn into_parts(self) -> Parts<Reader, Global>
        requires { is_some self.reader ≡ true }
        ensures { self.reader ≡ Some result.value }
    {
        let ReaderSlot { at, alloc } = self;
        Parts {
            ptr: at.cast::<Reader>(),
            alloc,
        }
    }
}
