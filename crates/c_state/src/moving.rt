//! Nodes that are made, moved and removed. After a fault the document is as it was.

ghost use Rattle.std.specs.Prelude.{◌≡◌, IfOk, true};
ghost use Rattle.dom_links.specs.Lists.{first};
ghost use Rattle.dom_links.specs.Forest.{children_of};
ghost use Rattle.dom_trees.specs.Edits.{making, removing};
ghost use Rattle.dom_trees.specs.NewNodes.{bare_element, html_name, text_node};
ghost use Rattle.c_state.specs.Answers.{ChangesTree, EditsTree, MakesNode};
ghost use Rattle.c_state.specs.Edits.{Becomes, IsMoved, MovesTo, unwrapped_node};
ghost use Rattle.c_state.specs.Names.{is_element_name};

use crate::bytes::as_text;
use crate::fault::Fault;
use crate::names::element_name;
use crate::numbers::place_of;
use crate::state::State;
use dom_query::Place;
use dom_query::prelude::*;

impl State {
    /// Makes an element without attributes, which stands nowhere yet: its number. Refused as `Name`
    /// where the tokenizer couldn't read the name as one of an element.
    pub fn new_element(&mut self, name: &[u8]) -> Result<usize, Fault>
        ensures { (MakesNode result self.old self.new
            (making (bare_element (html_name name.now))))
            × IfOk result (λ _. is_element_name name.now ≡ true) }
    {
        let name = element_name(name)?;
        let made = self.document.tree.new_element(name)?;
        Ok(made.value())
    }

    /// Makes a text, which stands nowhere yet: its number.
    pub fn new_text(&mut self, text: &[u8]) -> Result<usize, Fault>
        ensures { MakesNode result self.old self.new (making (text_node text.now)) }
    {
        let text = as_text(text)?;
        let made = self.document.tree.new_text(text)?;
        Ok(made.value())
    }

    /// Moves the node with what is below it to the place of that number: after the children of the
    /// target (1), in front of them (2), right before the target (3), right after it (4), or in its
    /// place (5). Refused as `Argument` for any other number.
    pub fn move_node(&mut self, node: u32, place: u32, target: u32) -> Result<usize, Fault>
        ensures { ChangesTree result self.old self.new (IsMoved node place target) }
    {
        let node = self.node(node)?;
        let target = self.node(target)?;
        let place = place_of(place)?;
        self.move_to(&node, place, &target)?;
        Ok(0)
    }

    fn move_to(&mut self, node: &NodeId, place: Place, target: &NodeId) -> Result<(), Fault>
        ensures { Becomes result self.old.document.tree self.new.document.tree
            (MovesTo node.now target.now place) }
    {
        let tree = &mut self.document.tree;
        match place {
            Place::AtEnd => tree.append_child_of(target, node)?,
            Place::AtFront => tree.prepend_child_of(target, node)?,
            Place::Before => tree.insert_before_of(target, node)?,
            Place::After => tree.insert_after_of(target, node)?,
            Place::InsteadOfNode => tree.replace_with(target, node)?,
            _ => return Err(Fault::Argument),
        }
        Ok(())
    }

    /// Detaches the node, with what is below it. It stays a node of the document.
    pub fn remove(&mut self, node: u32) -> Result<usize, Fault>
        ensures { EditsTree result self.old self.new (removing node) }
    {
        let node = self.node(node)?;
        self.document.tree.remove_from_parent(&node)?;
        Ok(0)
    }

    /// Puts the node's children in its place, and detaches it.
    pub fn unwrap_node(&mut self, node: u32) -> Result<usize, Fault>
        ensures { ChangesTree result self.old self.new (λ old new. new ≡ unwrapped_node node old) }
    {
        let node = self.node(node)?;
        if let Some(first) = self.first_child_id(&node) {
            self.document.tree.insert_siblings_before(&node, &first)?;
        }
        self.document.tree.remove_from_parent(&node)?;
        Ok(0)
    }

    fn first_child_id(&self, node: &NodeId) -> Option<NodeId>
        ensures { result ≡ first (children_of self.now.document.tree node.now) }
    {
        match self.document.tree.first_child_of(node) {
            Some(child) => Some(child.id),
            None => None,
        }
    }
}
