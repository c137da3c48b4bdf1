//! Iteration over the nodes of a selection.

ghost use Rattle.std.specs.Prelude.{◌≡◌};
ghost use Rattle.std.specs.Iterator.{YieldsFirst, YieldsLast, item_count};
ghost use Rattle.std.specs.Slice.Iter.{iter_rest};
ghost use Rattle.dom_selection.specs.Selections.{each_alone};

use crate::selection::Selection;
use dom_trees::node_ref::NodeRef;
use std::slice;

/// An iterator over the nodes of a selection, each as a selection of its own, from both ends. It
/// allocates no memory.
#[derive(Drop)]
pub struct Selections<'a, 's> {
    nodes: slice::Iter<'s, NodeRef<'a>>,
}

impl<'a, 's> Iterator for Selections<'a, 's> {
    type Item = Selection<'a>;

    ghost next_gives = { YieldsFirst (λ it. each_alone (iter_rest it.nodes)) };

    ghost remaining = { item_count (λ it. each_alone (iter_rest it.nodes)) };

    fn next(&mut self) -> Option<Selection<'a>> {
        let node = self.nodes.next()?;
        Some(Selection::from(NodeRef::new(node.id, node.tree)))
    }
}

impl<'a, 's> DoubleEndedIterator for Selections<'a, 's> {
    ghost next_back_gives = { YieldsLast (λ it. each_alone (iter_rest it.nodes)) };

    fn next_back(&mut self) -> Option<Selection<'a>> {
        let node = self.nodes.next_back()?;
        Some(Selection::from(NodeRef::new(node.id, node.tree)))
    }
}

impl<'a> Selection<'a> {
    /// Returns an iterator over the nodes, each as a selection of its own.
    pub fn iter(&self) -> Selections<'a, '_>
        ensures { iter_rest result.nodes ≡ self.now }
    {
        Selections {
            nodes: self.nodes().iter(),
        }
    }
}

impl<'a, 's> IntoIterator for &'s Selection<'a> {
    type Item = Selection<'a>;

    type IntoIter = Selections<'a, 's>;

    ghost into_iter_gives = { λ selection it. iter_rest it.nodes ≡ selection.now };

    fn into_iter(self) -> Selections<'a, 's> {
        self.iter()
    }
}
