//! What the handle of a policy holds: how a policy is made of rules, and what it leaves of HTML.

ghost use Rattle.std.specs.Prelude.{◌≡◌, Err, IfErr, IfOk, MatchResult, None, Ok, OnErr, Some};
ghost use Rattle.std.specs.Prelude.{length, string_bytes, take};
ghost use Rattle.dom_clean.specs.Policy.{no_rules, own_attribute};
ghost use Rattle.c_state.specs.Policies.{ChangesRules, Cleans, Finishes, ForgetsText, IfReady};
ghost use Rattle.c_state.specs.Policies.{IsCleanFragment, IsCleanPage, IsCleanTree, IsDraft, IsFinished, IsUnsound};
ghost use Rattle.c_state.specs.Rules.{IsResolvedBy, rule_numbered, setting_numbered, with_own};
ghost use Rattle.c_state.specs.Rules.{without_attribute_of};
ghost use Rattle.c_state.specs.declared.policies.Stage.TheVariants.{Draft, Ready, Refused};

use crate::bytes::{as_text, copy_bytes};
use crate::fault::{Fault, fault_of_policy};
use crate::rules::{
    disallow_attribute_of, with_attribute_of, with_base, with_rule, with_setting, with_value,
};
use crate::state::State;
use dom_query::{Policy, Rules, clean, clean_page, clean_tree};
use std::alloc::Global;
use std::mem;

/// How far a policy is.
#[derive(Drop)]
pub enum Stage {
    /// Its rules, which may still change.
    Draft(Rules),
    /// The policy of the rules.
    Ready(Policy),
    /// None: a rule, or all of them together, was refused with this fault.
    Refused(Fault),
}

/// A policy, and the text that was taken last: what was cleaned, or why the rules were refused.
#[derive(Drop)]
pub struct PolicyState {
    pub stage: Stage,
    pub text: String,
}

/// The rules for a purpose, by the number that C gives it.
fn preset_rules(alloc: Global, preset: u32) -> Result<Rules, Fault> {
    match preset {
        0 => Ok(Rules::text(alloc)),
        1 => Ok(Rules::inline(alloc)?),
        2 => Ok(Rules::comment(alloc)?),
        3 => Ok(Rules::article(alloc)?),
        4 => Ok(Rules::email(alloc)?),
        5 => Ok(Rules::common(alloc)?),
        _ => Err(Fault::Argument),
    }
}

impl PolicyState {
    fn of(alloc: Global, rules: Rules) -> PolicyState
        ensures { result.stage ≡ Draft rules }
    {
        PolicyState {
            stage: Stage::Draft(rules),
            text: String::new(alloc),
        }
    }

    /// The rules by which only texts stay.
    pub fn empty(alloc: Global) -> PolicyState
        ensures { result.stage ≡ Draft no_rules }
    {
        PolicyState::of(alloc, Rules::new(alloc))
    }

    /// The rules for comments, mails and articles.
    pub fn common(alloc: Global) -> Result<PolicyState, Fault>
        ensures { IfOk result (λ state. IsDraft state.stage) }
    {
        let rules = Rules::common(alloc)?;
        Ok(PolicyState::of(alloc, rules))
    }

    /// The rules of the preset of that number. Fails with `Argument` if there is no such preset, and
    /// with `Memory` if memory is refused.
    pub fn preset(alloc: Global, preset: u32) -> Result<PolicyState, Fault>
        ensures { IfOk result (λ state. IsDraft state.stage) }
    {
        let rules = preset_rules(alloc, preset)?;
        Ok(PolicyState::of(alloc, rules))
    }

    /// Adds the rule of that number, as `with_rule` does.
    pub fn add_rule(&mut self, rule: u32, text: &[u8]) -> Result<usize, Fault>
        ensures { ChangesRules result self.old self.new
            (λ old new. rule_numbered rule text.now old ≡ Some new) }
    {
        let rules = self.take_rules();
        self.put_rules(with_rule(rules, rule, text))
    }

    /// Lets elements of that name have that attribute.
    pub fn allow_attribute_of(&mut self, element: &[u8], name: &[u8]) -> Result<usize, Fault>
        ensures { ChangesRules result self.old self.new
            (λ old new. new ≡ with_own (own_attribute element.now name.now None) old) }
    {
        let rules = self.take_rules();
        self.put_rules(with_attribute_of(rules, element, name))
    }

    /// Takes back what the rules say of that attribute of elements of that name, whatever its
    /// values are.
    pub fn disallow_attribute_of(&mut self, element: &[u8], name: &[u8]) -> Result<usize, Fault>
        ensures { ChangesRules result self.old self.new
            (λ old new. new ≡ without_attribute_of element.now name.now old) }
    {
        let rules = self.take_rules();
        self.put_rules(disallow_attribute_of(rules, element, name))
    }

    /// Lets elements of that name have that attribute with that value.
    pub fn allow_value(&mut self, element: &[u8], name: &[u8], value: &[u8]) -> Result<usize, Fault>
        ensures { ChangesRules result self.old self.new (λ old new.
            new ≡ with_own (own_attribute element.now name.now (Some value.now)) old) }
    {
        let rules = self.take_rules();
        self.put_rules(with_value(rules, element, name, value))
    }

    /// Has addresses without a scheme resolved against that base.
    pub fn resolve_relative(&mut self, base: &[u8]) -> Result<usize, Fault>
        ensures { ChangesRules result self.old self.new (IsResolvedBy base.now) }
    {
        let rules = self.take_rules();
        self.put_rules(with_base(self.allocator(), rules, base))
    }

    /// Changes the setting of that number, as `with_setting` does.
    pub fn set(&mut self, setting: u32, number: usize) -> Result<usize, Fault>
        ensures { ChangesRules result self.old self.new
            (λ old new. setting_numbered setting number old ≡ Some new) }
    {
        let rules = self.take_rules();
        self.put_rules(with_setting(rules, setting, number))
    }

    /// Makes a policy of the rules. They are refused with the first fault that is found in them,
    /// and the text is then the fault's.
    pub fn finish(&mut self) -> Result<usize, Fault>
        ensures { Finishes result self.old self.new }
    {
        match self.made() {
            Ok(policy) => {
                self.stage = Stage::Ready(policy);
                Ok(0)
            }
            Err(fault) => {
                self.stage = Stage::Refused(fault);
                Err(fault)
            }
        }
    }

    fn made(&mut self) -> Result<Policy, Fault>
        ensures { MatchResult result (λ policy. IsFinished self.old.stage (Ready policy))
            (λ _. IsUnsound self.old.stage) }
    {
        let rules = self.take_rules()?;
        match Policy::new(rules) {
            Ok(policy) => Ok(policy),
            Err(fault) => {
                self.text = format!(in self.allocator(); "{fault}")?;
                Err(fault_of_policy(&fault))
            }
        }
    }

    /// The text of what the policy leaves of a fragment, as `clean` returns it.
    pub fn clean(&mut self, html: &[u8], to: &mut [u8]) -> Result<usize, Fault>
        ensures { Cleans result self.old self.new to.old to.new
            (λ policy text. IsCleanFragment policy html.now text) }
    {
        let text = match &self.stage {
            Stage::Ready(policy) => clean(self.allocator(), as_text(html)?, policy)?,
            Stage::Draft(_) => return Err(Fault::Unfinished),
            Stage::Refused(fault) => return Err(*fault),
        };
        Ok(self.keep(text, to))
    }

    /// The page with what the policy leaves of the body of a page, as `clean_page` returns it.
    pub fn clean_page(&mut self, html: &[u8], to: &mut [u8]) -> Result<usize, Fault>
        ensures { Cleans result self.old self.new to.old to.new
            (λ policy text. IsCleanPage policy html.now text) }
    {
        let text = match &self.stage {
            Stage::Ready(policy) => clean_page(self.allocator(), as_text(html)?, policy)?,
            Stage::Draft(_) => return Err(Fault::Unfinished),
            Stage::Refused(fault) => return Err(*fault),
        };
        Ok(self.keep(text, to))
    }

    /// The text of what the policy leaves of a document, as `clean_tree` returns it.
    pub fn clean_document(&mut self, of: &State, to: &mut [u8]) -> Result<usize, Fault>
        ensures { Cleans result self.old self.new to.old to.new
            (λ policy text. IsCleanTree policy of.now.document.tree text) }
    {
        let text = match &self.stage {
            Stage::Ready(policy) => clean_tree(&of.document.tree, policy)?,
            Stage::Draft(_) => return Err(Fault::Unfinished),
            Stage::Refused(fault) => return Err(*fault),
        };
        Ok(self.keep(text, to))
    }

    /// The length of the text that was taken last. As much is written as there is room for.
    pub fn write_text(&self, to: &mut [u8]) -> usize
        ensures count { result ≡ length (string_bytes self.now.text) }
        ensures written { take result to.new ≡ take (length to.old) (string_bytes self.now.text) }
    {
        copy_bytes(self.text.as_bytes(), to);
        self.text.len()
    }

    /// Gives back the memory of the text that was taken last.
    pub fn forget(&mut self) -> Result<usize, Fault>
        ensures { ForgetsText result self.old self.new }
    {
        self.text = String::new(self.allocator());
        Ok(0)
    }

    /// Keeps a text, and answers with it.
    fn keep(&mut self, text: String, to: &mut [u8]) -> usize
        ensures stage { self.new.stage ≡ self.old.stage }
        ensures text { string_bytes self.new.text ≡ string_bytes text }
        ensures count { result ≡ length (string_bytes text) }
        ensures written { take result to.new ≡ take (length to.old) (string_bytes text) }
    {
        self.text = text;
        self.write_text(to)
    }

    fn allocator(&self) -> Global {
        *self.text.allocator()
    }

    /// Takes the rules out of a draft. The policy is refused until they are put back.
    fn take_rules(&mut self) -> Result<Rules, Fault>
        ensures { MatchResult result (λ rules. self.old.stage ≡ Draft rules)
            (λ _. IsUnsound self.old.stage) }
    {
        match mem::replace(&mut self.stage, Stage::Refused(Fault::Finished)) {
            Stage::Draft(rules) => Ok(rules),
            Stage::Ready(_) => Err(Fault::Finished),
            Stage::Refused(fault) => Err(fault),
        }
    }

    /// Puts the changed rules back, or keeps the fault.
    fn put_rules(&mut self, changed: Result<Rules, Fault>) -> Result<usize, Fault>
        ensures { MatchResult changed
            (λ rules. (result ≡ Ok 0) × (self.new.stage ≡ Draft rules))
            (λ fault. (result ≡ Err fault) × (self.new.stage ≡ Refused fault)) }
    {
        match changed {
            Ok(rules) => {
                self.stage = Stage::Draft(rules);
                Ok(0)
            }
            Err(fault) => {
                self.stage = Stage::Refused(fault);
                Err(fault)
            }
        }
    }
}
