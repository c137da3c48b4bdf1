//! Theorems about what a policy leaves. The functions do nothing; their contracts state the
//! theorems.

ghost use Rattle.std.specs.Prelude.{◌≡◌, is_none, true, ℕ, List};
ghost use Rattle.dom_clean.specs.Addresses.{LeadsByItsScheme};
ghost use Rattle.dom_clean.specs.Again.{CleansOnce};
ghost use Rattle.dom_clean.specs.Faults.{first_fault};
ghost use Rattle.dom_clean.specs.Laws.{CleansSafely};
ghost use Rattle.dom_clean.specs.Parsed.{CleanedPagesAreParsed, CleanedTextsAreParsed};
ghost use Rattle.dom_clean.specs.Policy.{Policy, is_sound};

use dom_markup::laws::plain::{
    documents_stand_for_their_trees, one_meaning, what_is_read_is_plain,
};
use standard_laws::parsing::safe_html_is_parsed;
use standard_trees::one_parse;

/// Whatever the base is, the parser of the URL Standard gives an address the scheme that is in
/// front of it, or else the scheme of the base, if it accepts the address.
pub fn addresses_lead_by_their_schemes()
    ensures { (address : List ℕ) → LeadsByItsScheme address }
{}

/// The rules in which no fault is found are exactly the sound ones.
pub fn sound_rules_have_no_fault()
    ensures { (rules : Policy) → is_none (first_fault rules) ≡ is_sound rules }
{}

/// What a sound policy leaves of any tree is allowed by the policy, and the page with its text in
/// the body is a calm page with exactly the tree that was left.
pub fn what_is_left_is_safe()
    ensures { (policy : Policy) → is_sound policy ≡ true → CleansSafely policy }
{}

/// Cleaning is idempotent: what a sound policy leaves of any tree, as the body of a page, is left
/// as exactly the same trees when it is cleaned again by the same policy.
pub fn cleaned_again_is_the_same()
    ensures { (policy : Policy) → is_sound policy ≡ true → CleansOnce policy }
{}

/// The text of what a sound policy leaves is parsed as exactly the trees that were left, by the
/// tokenizer and the tree construction of the HTML Standard: in the body of a page, and as a
/// fragment in a `body`, `div`, `li`, `td` or `blockquote` (`text`). So is a page with such a text
/// in its body (`page`).
pub fn cleaned_text_is_parsed()
    ensures text { CleanedTextsAreParsed }
    ensures page { CleanedPagesAreParsed }
{
    // Laws are called for their contracts alone.
    documents_stand_for_their_trees();
    one_meaning();
    what_is_read_is_plain();
    safe_html_is_parsed();
    one_parse();
}
