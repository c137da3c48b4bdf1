//! Selection below any number of nodes.

ghost use Rattle.std.specs.Prelude.{◌≡◌, length, IfOk};
ghost use Rattle.std.specs.Iterator.{at_most};
ghost use Rattle.dom_select.specs.Descendants.{SelectsAll, WalksAll};
ghost use Rattle.dom_select.specs.MatcherIters.{gives_match, matches_of};
ghost use Rattle.dom_select.specs.Roots.{node_ids};

use crate::matcher::Matcher;
use crate::matcher::descendants::DescendantMatches;
use crate::matcher::several::Matches;
use dom_nodes::fault::OutOfMemory;
use dom_nodes::node_id::NodeId;
use dom_trees::node_ref::NodeRef;
use dom_trees::tree::Tree;

/// An iterator over the elements below any number of nodes that a selector matches, each once.
#[derive(Drop)]
pub enum MatcherIter<'a, 'b, 'r> {
    /// Below one node.
    One(DescendantMatches<'a, 'b>),
    /// Below several nodes.
    Several(Matches<'a, 'b, 'r>),
    /// Below no node.
    Empty(&'a Tree, &'b Matcher),
}

impl<'a, 'b, 'r> MatcherIter<'a, 'b, 'r> {
    /// Returns an iterator over what the selector selects below the roots. A root that the tree
    /// doesn't have has no descendants. For two roots and more it allocates memory, and fails when
    /// that runs out.
    pub fn new(
        tree: &'a Tree,
        roots: &'r [NodeId],
        matcher: &'b Matcher,
    ) -> Result<MatcherIter<'a, 'b, 'r>, OutOfMemory>
        ensures all { WalksAll result matches_of tree.entry.now roots.entry.now }
        ensures tree { IfOk result (λ it. (matches_of it).tree ≡ tree.entry) }
        ensures selector { IfOk result (λ it. (matches_of it).selector ≡ matcher.now) }
        ensures selected { SelectsAll result matches_of tree.entry.now roots.entry.now matcher.now }
    {
        match roots {
            [] => Ok(MatcherIter::Empty(tree, matcher)),
            [root] => Ok(MatcherIter::One(DescendantMatches::new(
                NodeRef::new(*root, tree),
                matcher,
            ))),
            _ => Ok(MatcherIter::Several(Matches::new(tree, roots, matcher)?)),
        }
    }

    /// Returns an iterator like `new`, for roots that are node references. Each is taken as the
    /// node with its id in `tree`. Fails as `new` does.
    pub fn below_nodes(
        tree: &'a Tree,
        nodes: &'r [NodeRef<'a>],
        matcher: &'b Matcher,
    ) -> Result<MatcherIter<'a, 'b, 'r>, OutOfMemory>
        ensures all { WalksAll result matches_of tree.entry.now (node_ids nodes.entry.now) }
        ensures tree { IfOk result (λ it. (matches_of it).tree ≡ tree.entry) }
        ensures selector { IfOk result (λ it. (matches_of it).selector ≡ matcher.now) }
        ensures selected { SelectsAll result matches_of tree.entry.now
            (node_ids nodes.entry.now) matcher.now }
    {
        match nodes {
            [] => Ok(MatcherIter::Empty(tree, matcher)),
            [node] => Ok(MatcherIter::One(DescendantMatches::new(
                NodeRef::new(node.id, tree),
                matcher,
            ))),
            _ => Ok(MatcherIter::Several(Matches::below_nodes(tree, nodes, matcher)?)),
        }
    }
}

impl<'a, 'b, 'r> Iterator for MatcherIter<'a, 'b, 'r> {
    type Item = NodeRef<'a>;

    ghost next_gives = { gives_match };

    ghost remaining = { λ it. at_most (length (matches_of it).left) };

    fn next(&mut self) -> Option<NodeRef<'a>> {
        match self {
            MatcherIter::One(matches) => matches.next(),
            MatcherIter::Several(matches) => matches.next(),
            MatcherIter::Empty(_, _) => None,
        }
    }
}
