//! Selectors that are prepared for one traversal, with a test for each compound selector.

ghost use Rattle.std.specs.Prelude.{◌≡◌, ◌∷◌, ◌++◌, [], IfOk, OnOk};
ghost use Rattle.dom_index.specs.NodeTests.{ArePlain, IsPlain, way_of};
ghost use Rattle.dom_index.specs.Tracks.{AreChainsOf, IsPrepared};

use crate::node_tests::NodeTest;
use dom_nodes::fault::OutOfMemory;
use dom_selectors::syntax::{Combinator, Compound, Selector, Step};
use dom_trees::tree::Tree;

/// A selector whose combinators all lead to ancestors or all to previous siblings, with a test for
/// each of its compound selectors.
#[derive(Drop)]
pub(crate) struct Chain<'s> {
    pub(crate) first: &'s Compound,
    pub(crate) steps: &'s [Step],
    pub(crate) tests: Vec<NodeTest<'s>>,
    /// The combinator of the first step. The next node to the left is the same for all steps.
    pub(crate) way: Combinator,
}

impl<'s> Chain<'s> {
    /// Prepares a selector for the nodes of a tree.
    fn new(first: &'s Compound, steps: &'s [Step], tree: &Tree) -> Result<Chain<'s>, OutOfMemory>
        requires { IsPlain steps.now }
        ensures prepared { IfOk result IsPrepared }
        ensures first { IfOk result (λ chain. chain.first ≡ first.entry) }
        ensures steps { IfOk result (λ chain. chain.steps ≡ steps.entry) }
    {
        let mut tests = Vec::new(tree.allocator());
        push_test(&mut tests, NodeTest::new(first))?;
        for i in 0..steps.len() {
            push_test(&mut tests, NodeTest::new(&steps[i].compound))?;
        }
        Ok(Chain {
            first,
            steps,
            tests,
            way: way_of(steps),
        })
    }
}

/// Returns the combinator of the first step; without steps, the result doesn't matter.
pub(crate) fn way_of(steps: &[Step]) -> Combinator
    ensures { result ≡ way_of steps.now }
{
    match steps.first() {
        Some(step) => step.combinator,
        None => Combinator::Descendant,
    }
}

/// Appends a test. Fails only when memory runs out.
fn push_test<'s>(tests: &mut Vec<NodeTest<'s>>, test: NodeTest<'s>) -> Result<(), OutOfMemory>
    ensures { OnOk result (tests.new.items ≡ tests.old.items ++ test.entry ∷ []) }
{
    match tests.push(test) {
        Ok(()) => Ok(()),
        Err(_) => Err(OutOfMemory),
    }
}

/// Prepares selectors for the nodes of a tree. The combinators of a selector must all lead to
/// ancestors, or all to previous siblings.
pub(crate) fn prepare_all<'s>(
    selectors: &'s [Selector],
    tree: &Tree,
) -> Result<Vec<Chain<'s>>, OutOfMemory>
    requires { ArePlain selectors.now }
    ensures { IfOk result (λ chains. AreChainsOf selectors.now chains.items) }
{
    let mut chains = Vec::new(tree.allocator());
    for i in 0..selectors.len() {
        let chain = Chain::new(&selectors[i].first, &selectors[i].rest, tree)?;
        push_chain(&mut chains, chain)?;
    }
    Ok(chains)
}

/// Appends a chain. Fails only when memory runs out.
fn push_chain<'s>(chains: &mut Vec<Chain<'s>>, chain: Chain<'s>) -> Result<(), OutOfMemory>
    ensures { OnOk result (chains.new.items ≡ chains.old.items ++ chain.entry ∷ []) }
{
    match chains.push(chain) {
        Ok(()) => Ok(()),
        Err(_) => Err(OutOfMemory),
    }
}
