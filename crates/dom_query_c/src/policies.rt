//! Policies, and what they leave of HTML.

ghost use Rattle.std.specs.Prelude.{◌≡◌, None, Some, string_bytes};
ghost use Rattle.dom_clean.specs.Policy.{no_rules, own_attribute};
ghost use Rattle.c_state.specs.Policies.{ChangesRules, Cleans, Finishes, ForgetsText};
ghost use Rattle.c_state.specs.Policies.{IsCleanFragment, IsCleanPage, IsCleanTree, IsDraft};
ghost use Rattle.c_state.specs.Rules.{IsResolvedBy, rule_numbered, setting_numbered, with_own};
ghost use Rattle.c_state.specs.Rules.{without_attribute_of};
ghost use Rattle.c_state.specs.declared.policies.Stage.TheVariants.{Draft};
ghost use Rattle.dom_query_c.specs.Calls.{Asks, GivesKept, Lends, Reads};

use crate::handle::Handle;
use crate::policy_handle::PolicyHandle;
use c_state::{Fault, PolicyState, State};
use std::alloc::Global;

/// Begins a policy by which only texts stay, in place of what the handle held.
#[unsafe(no_mangle)]
pub extern "C" fn dq_proved_policy_empty(alloc: Global, handle: &mut PolicyHandle) -> i64
    ensures { Reads handle.old.slot.policy handle.new.slot.policy result
        (λ state. state.stage ≡ Draft no_rules) }
{
    handle.fill(alloc, Ok(PolicyState::empty(alloc)))
}

/// Begins a policy with the rules for comments, mails and articles, in place of what the handle
/// held.
#[unsafe(no_mangle)]
pub extern "C" fn dq_proved_policy_common(alloc: Global, handle: &mut PolicyHandle) -> i64
    ensures { Reads handle.old.slot.policy handle.new.slot.policy result
        (λ state. IsDraft state.stage) }
{
    handle.fill(alloc, PolicyState::common(alloc))
}

/// Begins a policy with the rules of the preset of that number, in place of what the handle held.
#[unsafe(no_mangle)]
pub extern "C" fn dq_proved_policy_preset(
    alloc: Global,
    handle: &mut PolicyHandle,
    preset: u32,
) -> i64
    ensures { Reads handle.old.slot.policy handle.new.slot.policy result
        (λ state. IsDraft state.stage) }
{
    handle.fill(alloc, PolicyState::preset(alloc, preset))
}

/// Adds the rule of that number, which has a text.
#[unsafe(no_mangle)]
pub extern "C" fn dq_proved_policy_rule(
    alloc: Global,
    handle: &mut PolicyHandle,
    rule: u32,
    text: &[u8],
) -> i64
    ensures { Asks handle.old.slot.policy handle.new.slot.policy result
        (λ given s t. ChangesRules given s t
        (λ old new. rule_numbered rule text.now old ≡ Some new)) }
{
    ask!(alloc, handle, policy => policy.add_rule(rule, text))
}

/// Lets elements of that name have that attribute.
#[unsafe(no_mangle)]
pub extern "C" fn dq_proved_policy_attribute_of(
    alloc: Global,
    handle: &mut PolicyHandle,
    element: &[u8],
    name: &[u8],
) -> i64
    ensures { Asks handle.old.slot.policy handle.new.slot.policy result
        (λ given s t. ChangesRules given s t
        (λ old new. new ≡ with_own (own_attribute element.now name.now None) old)) }
{
    ask!(alloc, handle, policy => policy.allow_attribute_of(element, name))
}

/// Takes back what the rules say of that attribute of elements of that name, whatever its values
/// are.
#[unsafe(no_mangle)]
pub extern "C" fn dq_proved_policy_disallow_attribute_of(
    alloc: Global,
    handle: &mut PolicyHandle,
    element: &[u8],
    name: &[u8],
) -> i64
    ensures { Asks handle.old.slot.policy handle.new.slot.policy result
        (λ given s t. ChangesRules given s t
        (λ old new. new ≡ without_attribute_of element.now name.now old)) }
{
    ask!(alloc, handle, policy => policy.disallow_attribute_of(element, name))
}

/// Lets elements of that name have that attribute with that value.
#[unsafe(no_mangle)]
pub extern "C" fn dq_proved_policy_value(
    alloc: Global,
    handle: &mut PolicyHandle,
    element: &[u8],
    name: &[u8],
    value: &[u8],
) -> i64
    ensures { Asks handle.old.slot.policy handle.new.slot.policy result
        (λ given s t. ChangesRules given s t
        (λ old new. new ≡ with_own (own_attribute element.now name.now (Some value.now)) old)) }
{
    ask!(alloc, handle, policy => policy.allow_value(element, name, value))
}

/// Has addresses without a scheme resolved against that base.
#[unsafe(no_mangle)]
pub extern "C" fn dq_proved_policy_base(
    alloc: Global,
    handle: &mut PolicyHandle,
    base: &[u8],
) -> i64
    ensures { Asks handle.old.slot.policy handle.new.slot.policy result
        (λ given s t. ChangesRules given s t (IsResolvedBy base.now)) }
{
    ask!(alloc, handle, policy => policy.resolve_relative(base))
}

/// Changes the setting of that number, which has a number.
#[unsafe(no_mangle)]
pub extern "C" fn dq_proved_policy_set(
    alloc: Global,
    handle: &mut PolicyHandle,
    setting: u32,
    number: usize,
) -> i64
    ensures { Asks handle.old.slot.policy handle.new.slot.policy result
        (λ given s t. ChangesRules given s t
        (λ old new. setting_numbered setting number old ≡ Some new)) }
{
    ask!(alloc, handle, policy => policy.set(setting, number))
}

/// Makes a policy of the rules.
#[unsafe(no_mangle)]
pub extern "C" fn dq_proved_policy_finish(alloc: Global, handle: &mut PolicyHandle) -> i64
    ensures { Asks handle.old.slot.policy handle.new.slot.policy result Finishes }
{
    ask!(alloc, handle, policy => policy.finish())
}

/// The text of what the policy leaves of a fragment: its length.
#[unsafe(no_mangle)]
pub extern "C" fn dq_proved_clean(
    alloc: Global,
    handle: &mut PolicyHandle,
    html: &[u8],
    to: &mut [u8],
) -> i64
    ensures { Asks handle.old.slot.policy handle.new.slot.policy result
        (λ given s t. Cleans given s t to.old to.new
        (λ policy text. IsCleanFragment policy html.now text)) }
{
    ask!(alloc, handle, policy => policy.clean(html, to))
}

/// A page with what the policy leaves of the body of a page: its length.
#[unsafe(no_mangle)]
pub extern "C" fn dq_proved_clean_page(
    alloc: Global,
    handle: &mut PolicyHandle,
    html: &[u8],
    to: &mut [u8],
) -> i64
    ensures { Asks handle.old.slot.policy handle.new.slot.policy result
        (λ given s t. Cleans given s t to.old to.new
        (λ policy text. IsCleanPage policy html.now text)) }
{
    ask!(alloc, handle, policy => policy.clean_page(html, to))
}

/// The text of what the policy leaves of a document, which stays as it is: its length.
#[unsafe(no_mangle)]
pub extern "C" fn dq_proved_clean_document(
    alloc: Global,
    handle: &mut PolicyHandle,
    document: &mut Handle,
    to: &mut [u8],
) -> i64
    ensures { Lends document.old.slot.state document.new.slot.state result
        (λ state. Asks handle.old.slot.policy handle.new.slot.policy result
        (λ given s t. Cleans given s t to.old to.new
        (λ policy text. IsCleanTree policy state.document.tree text))) }
{
    match document.take(alloc) {
        Some(state) => {
            let answer = clean_state(alloc, handle, &state, to);
            document.put(state);
            answer
        }
        None => handle.note(Fault::Closed),
    }
}

fn clean_state(alloc: Global, handle: &mut PolicyHandle, of: &State, to: &mut [u8]) -> i64
    ensures { Asks handle.old.slot.policy handle.new.slot.policy result
        (λ given s t. Cleans given s t to.old to.new
        (λ policy text. IsCleanTree policy of.now.document.tree text)) }
{
    ask!(alloc, handle, policy => policy.clean_document(of, to))
}

/// The text that was taken last: its length.
#[unsafe(no_mangle)]
pub extern "C" fn dq_proved_policy_taken(
    alloc: Global,
    handle: &mut PolicyHandle,
    to: &mut [u8],
) -> i64
    ensures { Asks handle.old.slot.policy handle.new.slot.policy result
        (λ given s t. (t ≡ s) × GivesKept given to.old to.new (string_bytes s.text)) }
{
    ask!(alloc, handle, policy => Ok(policy.write_text(to)))
}

/// Gives back the memory of the text that was taken last.
#[unsafe(no_mangle)]
pub extern "C" fn dq_proved_policy_forget(alloc: Global, handle: &mut PolicyHandle) -> i64
    ensures { Asks handle.old.slot.policy handle.new.slot.policy result
        (λ given s t. ForgetsText given s t) }
{
    ask!(alloc, handle, policy => policy.forget())
}

/// Frees what the handle holds; it is then empty.
#[unsafe(no_mangle)]
pub extern "C" fn dq_proved_policy_free(alloc: Global, handle: &mut PolicyHandle)
    ensures { handle.new.slot.policy ≡ None }
{
    drop(handle.take(alloc));
}
