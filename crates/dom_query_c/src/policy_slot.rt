//! Room for one boxed policy, which C can hold.
ghost use Rattle.std.specs.Prelude.{◌≡◌, true, Option, Some, None};
ghost use Rattle.std.specs.Option.{is_some};
ghost use Rattle.c_state.specs.declared.policies.PolicyState.{PolicyState};
ghost use Rattle.dom_query_c.specs.PolicySlots.{policy_coded, slot_owns};

use crate::parts::Parts;
use c_state::PolicyState;
use std::alloc::Global;
use std::marker::Model;

#[repr(C)]
#[derive(Drop)]
pub struct PolicySlot {
    at: *mut u8,
    alloc: Global,
    pub ghost policy: { Option PolicyState } by { policy_coded },
}

impl Model for PolicySlot {
    ghost also_owns = { λ s. slot_owns s.alloc s.at s.policy };
}

impl PolicySlot {
    pub fn empty(alloc: Global) -> PolicySlot
        ensures { result.policy ≡ None }
    {
        PolicySlot {
            at: std::ptr::null_mut(),
            alloc,
        }
    }

    pub fn of(parts: Parts<PolicyState, Global>) -> PolicySlot
        ensures { result.policy ≡ Some parts.value }
    {
        let Parts { ptr, alloc } = parts;
        PolicySlot {
            at: ptr.cast::<u8>(),
            alloc,
        }
    }

    pub fn into_parts(self) -> Parts<PolicyState, Global>
        requires { is_some self.policy ≡ true }
        ensures { self.policy ≡ Some result.value }
    {
        let PolicySlot { at, alloc } = self;
        Parts {
            ptr: at.cast::<PolicyState>(),
            alloc,
        }
    }
}
