//! Edits at one node. After a fault the document is as it was.

ghost use Rattle.std.specs.Prelude.{◌≡◌, true};
ghost use Rattle.dom_trees.specs.Edits.{normalizing, setting_text};
ghost use Rattle.c_state.specs.Answers.{ChangesTree, EditsTree};
ghost use Rattle.c_state.specs.Edits.{IsPut, IsSanitized, attr_removed, attr_set, element_renamed};
ghost use Rattle.c_state.specs.Names.{is_attribute_name, is_element_name};

use crate::bytes::{as_text, names_in};
use crate::fault::Fault;
use crate::names::{attribute_name, element_name};
use crate::numbers::place_of;
use crate::state::State;
use dom_nodes::node_data::Change;
use dom_query::prelude::*;
use dom_query::{Allow, Snippet, sanitize};

impl State {
    /// Gives the element's first attribute of that local name the value, or adds one. Refused as
    /// `Kind` for another node, and as `Name` where the tokenizer couldn't read the name as one of
    /// an attribute.
    pub fn set_attr(&mut self, node: u32, name: &[u8], value: &[u8]) -> Result<usize, Fault>
        ensures { ChangesTree result self.old self.new
            (λ old new. (new ≡ attr_set node name.now value.now old)
            × (is_attribute_name name.now ≡ true)) }
    {
        let node = self.element(node)?;
        let name = attribute_name(name)?;
        let value = as_text(value)?;
        let change = Change::SetAttr { name, value };
        self.document.tree.try_change_of(&node, change)?;
        Ok(0)
    }

    /// Removes every attribute of that local name. Refused as `Kind` for a node that isn't an
    /// element.
    pub fn remove_attr(&mut self, node: u32, name: &[u8]) -> Result<usize, Fault>
        ensures { ChangesTree result self.old self.new
            (λ old new. new ≡ attr_removed node name.now old) }
    {
        let node = self.element(node)?;
        let name = as_text(name)?;
        let change = Change::RemoveAttr(name);
        self.document.tree.try_change_of(&node, change)?;
        Ok(0)
    }

    /// Changes the local name of an element. Refused as `Kind` for another node, and as `Name`
    /// where the tokenizer couldn't read the name as one of an element.
    pub fn rename(&mut self, node: u32, name: &[u8]) -> Result<usize, Fault>
        ensures { ChangesTree result self.old self.new
            (λ old new. (new ≡ element_renamed node name.now old)
            × (is_element_name name.now ≡ true)) }
    {
        let node = self.element(node)?;
        let name = element_name(name)?;
        let change = Change::Rename(name);
        self.document.tree.try_change_of(&node, change)?;
        Ok(0)
    }

    /// Puts one text in the place of an element's children, or of a text's contents. Refused as
    /// `Kind` for another node.
    pub fn set_text(&mut self, node: u32, text: &[u8]) -> Result<usize, Fault>
        ensures { EditsTree result self.old self.new (setting_text node text.now) }
    {
        let node = self.element_or_text(node)?;
        let text = as_text(text)?;
        self.document.tree.set_text_of(&node, text)?;
        Ok(0)
    }

    /// Joins the neighbouring texts below the node.
    pub fn normalize(&mut self, node: u32) -> Result<usize, Fault>
        ensures { EditsTree result self.old self.new (normalizing node) }
    {
        let node = self.node(node)?;
        self.document.tree.normalize_of(&node)?;
        Ok(0)
    }

    /// Reads explicit markup and puts it at the node, at the place of that number: in the place of
    /// its children (0), after them (1), in front of them (2), right before the node (3), right
    /// after it (4), or in its place (5). Refused as `Argument` for any other number.
    pub fn put_html(&mut self, node: u32, place: u32, html: &[u8]) -> Result<usize, Fault>
        ensures { ChangesTree result self.old self.new (IsPut place node html.now) }
    {
        let node = self.node(node)?;
        let html = as_text(html)?;
        let place = place_of(place)?;
        let snippet = Snippet::read(self.document.tree.allocator(), html)?;
        snippet.put_at(&mut self.document.tree, &node, place)?;
        Ok(0)
    }

    /// Keeps the elements and the attributes of these names below the root, and drops others: an
    /// element leaves its children in its place, if its name isn't one of those that are dropped
    /// with all that is below them. The names are separated by ASCII whitespace.
    pub fn sanitize(
        &mut self,
        elements: &[u8],
        attrs: &[u8],
        dropped: &[u8],
    ) -> Result<usize, Fault>
        ensures { ChangesTree result self.old self.new
            (IsSanitized elements.now attrs.now dropped.now) }
    {
        let alloc = self.document.tree.allocator();
        let elements = names_in(alloc, as_text(elements)?)?;
        let attrs = names_in(alloc, as_text(attrs)?)?;
        let dropped = names_in(alloc, as_text(dropped)?)?;
        let allow = Allow {
            elements: &elements,
            attrs: &attrs,
            drop: &dropped,
        };
        sanitize(&mut self.document, &allow)?;
        Ok(0)
    }
}
