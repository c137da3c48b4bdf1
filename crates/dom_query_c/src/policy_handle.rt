//! What C holds of a policy.

ghost use Rattle.std.specs.Prelude.{◌≡◌, ◌≤ℤ◌, negsuc, pos};
ghost use Rattle.std.specs.Prelude.{MatchOption, MatchResult, None, Some};
ghost use Rattle.std.specs.Option.{is_some};
ghost use Rattle.c_state.specs.declared.fault.Fault.TheVariants.{Closed};
ghost use Rattle.dom_query_c.specs.Calls.{IsAnswer};

use crate::parts::Parts;
use crate::policy_slot::PolicySlot;
use c_state::{Fault, PolicyState};
use std::alloc::Global;
use std::mem;

/// A policy, or none. All bytes 0 is a handle with no policy.
#[repr(C)]
#[derive(Drop)]
pub struct PolicyHandle {
    pub slot: PolicySlot,
    pub full: bool,
    ghost agrees: { full ≡ is_some slot.policy },
}

impl PolicyHandle {
    /// A handle with no policy.
    pub fn empty(alloc: Global) -> PolicyHandle
        ensures { result.slot.policy ≡ None }
    {
        PolicyHandle {
            slot: PolicySlot::empty(alloc),
            full: false,
        }
    }

    fn of(policy: Box<PolicyState, Global>) -> PolicyHandle
        ensures { result.slot.policy ≡ Some policy.value }
    {
        PolicyHandle {
            slot: PolicySlot::of(Parts::of(policy)),
            full: true,
        }
    }

    /// Takes the policy out, if there is one.
    pub fn take(&mut self, alloc: Global) -> Option<Box<PolicyState, Global>>
        ensures left { self.new.slot.policy ≡ None }
        ensures given { MatchOption result (self.old.slot.policy ≡ None)
            (λ policy. self.old.slot.policy ≡ Some policy.value) }
    {
        let was = mem::replace(self, PolicyHandle::empty(alloc));
        let PolicyHandle { slot, full, .. } = was;
        if full {
            Some(slot.into_parts().into_box())
        } else {
            None
        }
    }

    /// Puts a policy in, and frees what was there.
    pub fn put(&mut self, policy: Box<PolicyState, Global>)
        ensures { self.new.slot.policy ≡ Some policy.value }
    {
        let PolicyHandle { slot, full, .. } = mem::replace(self, PolicyHandle::of(policy));
        if full {
            drop(slot.into_parts().into_box());
        }
    }

    /// Puts what was made in, and frees what was there; a fault leaves the handle with that.
    pub fn fill(&mut self, alloc: Global, made: Result<PolicyState, Fault>) -> i64
        ensures ok { pos 0 ≤ℤ result → MatchResult made
            (λ policy. self.new.slot.policy ≡ Some policy) (λ _. ⊥) }
        ensures err { (pos 0 ≤ℤ result → ⊥) → self.new.slot.policy ≡ self.old.slot.policy }
    {
        match made {
            Ok(policy) => match Box::new(alloc, policy) {
                Ok(policy) => {
                    self.put(policy);
                    0
                }
                Err(_) => self.note(Fault::Memory),
            },
            Err(fault) => self.note(fault),
        }
    }

    /// The answer as C gets it: the number, or that of a fault.
    pub fn answer(&mut self, given: Result<usize, Fault>) -> i64
        ensures kept { self.new.slot.policy ≡ self.old.slot.policy }
        ensures answer { IsAnswer given result }
    {
        match given {
            Ok(count) => {
                if count <= i64::MAX as usize {
                    count as i64
                } else {
                    self.note(Fault::Memory)
                }
            }
            Err(fault) => self.note(fault),
        }
    }

    /// Notes a fault: its number.
    pub fn note(&mut self, fault: Fault) -> i64
        ensures kept { self.new.slot.policy ≡ self.old.slot.policy }
        ensures below { pos 0 ≤ℤ result → ⊥ }
        ensures closed { fault ≡ Closed → result ≡ negsuc 1 }
    {
        fault.code()
    }
}
