//! Questions that find nodes.

ghost use Rattle.std.specs.Prelude.{◌≡◌, ◌∷◌, [], IfOk, Some};
ghost use Rattle.dom_trees.specs.Views.{ref_to};
ghost use Rattle.dom_select.specs.ByText.{ByText};
ghost use Rattle.dom_select.specs.Descendants.{IsMatch};
ghost use Rattle.dom_select.specs.Selected.{Selected};
ghost use Rattle.c_state.specs.Answers.{GivesNodes, SaysWhether};
ghost use Rattle.c_state.specs.Neighbours.{IsFirst, along, neighbour};

use crate::bytes::as_text;
use crate::fault::Fault;
use crate::state::State;
use dom_index::selecting::select_ids;
use dom_query::prelude::*;

impl State {
    /// The elements below the node that match one of the selectors, in document order: how many
    /// there are. As many numbers are written as there is room for.
    pub fn select(&mut self, root: u32, selectors: &[u8], to: &mut [u32]) -> Result<usize, Fault>
        ensures { GivesNodes result self.old self.new to.old to.new
            (λ ids. ByText selectors.now
            (λ list. Selected self.old.document.tree (root ∷ []) list ids)) }
    {
        self.ids = self.selected(root, selectors)?;
        Ok(self.write_ids(to))
    }

    pub(crate) fn selected(&self, root: u32, selectors: &[u8]) -> Result<Vec<NodeId>, Fault>
        ensures { IfOk result (λ ids. ByText selectors.now
            (λ list. Selected self.now.document.tree (root ∷ []) list ids.items)) }
    {
        let root = self.node(root)?;
        let selectors = as_text(selectors)?;
        let matcher = Matcher::new(self.document.tree.allocator(), selectors)?;
        let ids = select_ids(&self.document.tree, &[root], &matcher)?;
        Ok(ids)
    }

    /// The first element below the node that matches one of the selectors: its number. Refused as
    /// `Nothing` where none does.
    pub fn select_first(&self, root: u32, selectors: &[u8]) -> Result<usize, Fault>
        ensures { IfOk result (λ found. ByText selectors.now
            (λ list. IsFirst list self.now.document.tree root found)) }
    {
        let root = self.node(root)?;
        let selectors = as_text(selectors)?;
        let root = Selection::from(self.document.tree.get_unchecked(&root));
        let found = root.select_single(selectors)?;
        match found.nodes().first() {
            Some(node) => Ok(node.id.value()),
            None => Err(Fault::Nothing),
        }
    }

    /// Whether the node is an element that matches one of the selectors: 1 or 0.
    pub fn matches(&self, node: u32, selectors: &[u8]) -> Result<usize, Fault>
        ensures { IfOk result (λ answer. ByText selectors.now
            (λ list. SaysWhether answer (IsMatch list self.now.document.tree node))) }
    {
        let node = self.node(node)?;
        let selectors = as_text(selectors)?;
        let matcher = Matcher::new(self.document.tree.allocator(), selectors)?;
        let node = self.document.tree.get_unchecked(&node);
        if !node.is_element() {
            return Ok(0);
        }
        if matcher.match_element(&node) {
            Ok(1)
        } else {
            Ok(0)
        }
    }

    /// The node beside the node: its number. Refused as `Nothing` where there is none, and as
    /// `Argument`. The directions are: the parent (0), the first (1) and the last child (2), the
    /// next (3) and the previous sibling (4), and among the elements alone the first child (5), the
    /// next (6) and the previous sibling (7).
    pub fn step(&self, node: u32, direction: u32) -> Result<usize, Fault>
        ensures { IfOk result (λ found.
            neighbour self.now.document.tree node direction ≡ Some found) }
    {
        let node = self.node(node)?;
        match step_from(&self.document.tree.get_unchecked(&node), direction) {
            Ok(Some(found)) => Ok(found.id.value()),
            Ok(None) => Err(Fault::Nothing),
            Err(fault) => Err(fault),
        }
    }

    /// The nodes along an axis: the children (0), the ancestors from the parent on (1), or the
    /// descendants in document order (2). The answer is how many there are. As many numbers are
    /// written as there is room for. Refused as `Argument` for any other axis.
    pub fn list(&mut self, node: u32, axis: u32, to: &mut [u32]) -> Result<usize, Fault>
        ensures { GivesNodes result self.old self.new to.old to.new
            (λ ids. along self.old.document.tree node axis ≡ Some ids) }
    {
        let node = self.node(node)?;
        self.ids = ids_along(&self.document.tree, &node, axis)?;
        Ok(self.write_ids(to))
    }
}

/// The node in the direction of that number. Refused as `Argument` for any other number.
fn step_from<'a>(node: &NodeRef<'a>, direction: u32) -> Result<Option<NodeRef<'a>>, Fault>
    ensures { IfOk result (λ found. found
        ≡ ref_to node.now.tree (neighbour node.now.tree.now node.now.id direction)) }
{
    match direction {
        0 => Ok(node.parent()),
        1 => Ok(node.first_child()),
        2 => Ok(node.last_child()),
        3 => Ok(node.next_sibling()),
        4 => Ok(node.prev_sibling()),
        5 => Ok(node.first_element_child()),
        6 => Ok(node.next_element_sibling()),
        7 => Ok(node.prev_element_sibling()),
        _ => Err(Fault::Argument),
    }
}

/// The nodes along the axis of that number. Refused as `Argument` for any other number.
fn ids_along(tree: &Tree, node: &NodeId, axis: u32) -> Result<Vec<NodeId>, Fault>
    ensures { IfOk result (λ ids. along tree.now node.now axis ≡ Some ids.items) }
{
    match axis {
        0 => Ok(tree.child_ids_of(node)?),
        1 => Ok(tree.ancestor_ids_of(node, None)?),
        2 => Ok(tree.descendant_ids_of(node)?),
        _ => Err(Fault::Argument),
    }
}
