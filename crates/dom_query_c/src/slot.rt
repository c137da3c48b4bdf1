//! Room for one boxed state, which C can hold.
ghost use Rattle.std.specs.Prelude.{◌≡◌, true, Option, Some, None};
ghost use Rattle.std.specs.Option.{is_some};
ghost use Rattle.c_state.specs.declared.state.State.{State};
ghost use Rattle.dom_query_c.specs.Slots.{slot_owns, state_coded};

use crate::parts::Parts;
use c_state::State;
use std::alloc::Global;
use std::marker::Model;

#[repr(C)]
#[derive(Drop)]
pub struct Slot {
    at: *mut u8,
    alloc: Global,
    pub ghost state: { Option State } by { state_coded },
}

impl Model for Slot {
    ghost also_owns = { λ s. slot_owns s.alloc s.at s.state };
}

impl Slot {
    pub fn empty(alloc: Global) -> Slot
        ensures { result.state ≡ None }
    {
        Slot {
            at: std::ptr::null_mut(),
            alloc,
        }
    }

    pub fn of(parts: Parts<State, Global>) -> Slot
        ensures { result.state ≡ Some parts.value }
    {
        let Parts { ptr, alloc } = parts;
        Slot {
            at: ptr.cast::<u8>(),
            alloc,
        }
    }

    pub fn into_parts(self) -> Parts<State, Global>
        requires { is_some self.state ≡ true }
        ensures { self.state ≡ Some result.value }
    {
        let Slot { at, alloc } = self;
        Parts {
            ptr: at.cast::<State>(),
            alloc,
        }
    }
}
