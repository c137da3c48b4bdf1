//! Inserting parsed markup at each node of a selection.

ghost use Rattle.std.specs.Prelude.{◌≡◌, IfErr, IfOk};
ghost use Rattle.dom_edits.specs.Loans.{PutsSelected};
ghost use Rattle.dom_links.specs.declared.gap.Place.TheVariants.{After, AtEnd, AtFront, Before};
ghost use Rattle.dom_links.specs.declared.gap.Place.TheVariants.{InsteadOfChildren, InsteadOfNode};
ghost use Rattle.dom_markup.specs.Documents.{IsSpelled};
ghost use Rattle.dom_markup.specs.Setters.{ReadCause};

use crate::edit::{Edit, SelectionFault, edit_each};
use crate::selection_mut::SelectionMut;
use dom_links::gap::Place;
use dom_markup::document::snippet::Snippet;
use dom_markup::setters::edit_fault;
use std::alloc::Global;

/// Parses the markup, before the first node is changed.
fn read_first(alloc: Global, html: &str) -> Result<Snippet, SelectionFault>
    ensures ok { IfOk result (λ snippet. IsSpelled html.now snippet) }
    ensures done { IfErr result (λ stop. stop.done ≡ 0) }
    ensures cause { IfErr result (λ stop. ReadCause html.now stop.fault) }
{
    match Snippet::read(alloc, html) {
        Ok(snippet) => Ok(snippet),
        Err(fault) => Err(SelectionFault {
            done: 0,
            fault: edit_fault(fault),
        }),
    }
}

/// Inserting markup. The markup is parsed before anything else, even if there are no nodes; if that
/// fails, the fault is `Markup` (or `TooManyNodes` or `Memory`) and `done` is 0. Then copies of its
/// top-level nodes, without doctypes, are inserted at each node, in their order. At a node this
/// fails with `UnknownNode`; with `NoChildrenHere` or `RootOrFragment` when nodes can't be put
/// there, even if the markup is empty; and with `TooManyNodes` or `Memory`.
impl<'a> SelectionMut<'a> {
    /// Inserts the markup at this place relative to each of the nodes.
    fn put_html(&mut self, place: Place, html: &str) -> Result<(), SelectionFault>
        ensures { PutsSelected result self.old self.new html.now place }
    {
        let snippet = read_first(self.tree.allocator(), html)?;
        edit_each(self.tree, &self.nodes, Edit::Put(place, &snippet))
    }

    /// Replaces the children of each node by the markup. The old children are detached and stay
    /// siblings of each other. Bad markup fails with `Markup` before anything changes. At a node it
    /// fails with `UnknownNode`, `NoChildrenHere`, `TooManyNodes` or `Memory`.
    pub fn set_html(&mut self, html: &str) -> Result<(), SelectionFault>
        ensures { PutsSelected result self.old self.new html.now InsteadOfChildren }
    {
        self.put_html(Place::InsteadOfChildren, html)
    }

    /// Appends the markup to the children of each node. Bad markup fails with `Markup` before
    /// anything changes. At a node it fails with `UnknownNode`, `NoChildrenHere`, `TooManyNodes` or
    /// `Memory`.
    pub fn append_html(&mut self, html: &str) -> Result<(), SelectionFault>
        ensures { PutsSelected result self.old self.new html.now AtEnd }
    {
        self.put_html(Place::AtEnd, html)
    }

    /// Inserts the markup before the first child of each node. Bad markup fails with `Markup`
    /// before anything changes. At a node it fails with `UnknownNode`, `NoChildrenHere`,
    /// `TooManyNodes` or `Memory`.
    pub fn prepend_html(&mut self, html: &str) -> Result<(), SelectionFault>
        ensures { PutsSelected result self.old self.new html.now AtFront }
    {
        self.put_html(Place::AtFront, html)
    }

    /// Inserts the markup immediately before each node. Bad markup fails with `Markup` before
    /// anything changes. At a node it fails with `UnknownNode`, `RootOrFragment`, `TooManyNodes` or
    /// `Memory`.
    pub fn before_html(&mut self, html: &str) -> Result<(), SelectionFault>
        ensures { PutsSelected result self.old self.new html.now Before }
    {
        self.put_html(Place::Before, html)
    }

    /// Inserts the markup immediately after each node. Bad markup fails with `Markup` before
    /// anything changes. At a node it fails with `UnknownNode`, `RootOrFragment`, `TooManyNodes` or
    /// `Memory`.
    pub fn after_html(&mut self, html: &str) -> Result<(), SelectionFault>
        ensures { PutsSelected result self.old self.new html.now After }
    {
        self.put_html(Place::After, html)
    }

    /// Replaces each node by the markup. The nodes are detached, even if the markup is empty. Bad
    /// markup fails with `Markup` before anything changes. At a node it fails with `UnknownNode`,
    /// `RootOrFragment`, `TooManyNodes` or `Memory`.
    pub fn replace_with_html(&mut self, html: &str) -> Result<(), SelectionFault>
        ensures { PutsSelected result self.old self.new html.now InsteadOfNode }
    {
        self.put_html(Place::InsteadOfNode, html)
    }
}
