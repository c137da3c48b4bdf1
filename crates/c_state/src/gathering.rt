//! Questions that select elements and read each of them. The answer is the count of the elements;
//! the text that is kept is made of one piece for each.

ghost use Rattle.std.specs.Prelude.{◌∷◌, [], IfOk, Some};
ghost use Rattle.dom_links.specs.Texts.{text_of};
ghost use Rattle.dom_markup.specs.Html.{html_of};
ghost use Rattle.dom_select.specs.ByText.{ByText};
ghost use Rattle.dom_select.specs.Selected.{Selected};
ghost use Rattle.dom_trees.specs.Views.{node_attr};
ghost use Rattle.c_state.specs.Pieces.{GivesPieces, HoldsPieces};

use crate::bytes::as_text;
use crate::fault::Fault;
use crate::pieces::Pieces;
use crate::state::State;
use dom_query::prelude::*;

impl State {
    /// The texts of the elements below the node that match one of the selectors.
    pub fn select_texts(&mut self, root: u32, selectors: &[u8]) -> Result<usize, Fault>
        ensures { GivesPieces result self.old self.new
            (λ n. Some (text_of self.old.document.tree n))
            (λ ids. ByText selectors.now
            (λ list. Selected self.old.document.tree (root ∷ []) list ids)) }
    {
        let ids = self.selected(root, selectors)?;
        let pieces = self.texts_of(ids.as_slice())?;
        Ok(self.keep_pieces(pieces))
    }

    /// The HTML of the elements below the node that match one of the selectors.
    pub fn select_html(&mut self, root: u32, selectors: &[u8]) -> Result<usize, Fault>
        ensures { GivesPieces result self.old self.new
            (λ n. Some (html_of self.old.document.tree n))
            (λ ids. ByText selectors.now
            (λ list. Selected self.old.document.tree (root ∷ []) list ids)) }
    {
        let ids = self.selected(root, selectors)?;
        let pieces = self.html_of(ids.as_slice())?;
        Ok(self.keep_pieces(pieces))
    }

    /// The values of an attribute of the elements below the node that match one of the selectors.
    /// An element without that attribute has no piece, which its length says.
    pub fn select_attrs(&mut self, root: u32, selectors: &[u8], name: &[u8]) -> Result<usize, Fault>
        ensures { GivesPieces result self.old self.new
            (λ n. node_attr self.old.document.tree n name.now)
            (λ ids. ByText selectors.now
            (λ list. Selected self.old.document.tree (root ∷ []) list ids)) }
    {
        let ids = self.selected(root, selectors)?;
        let pieces = self.attrs_of(ids.as_slice(), as_text(name)?)?;
        Ok(self.keep_pieces(pieces))
    }

    fn texts_of(&self, ids: &[NodeId]) -> Result<Pieces, Fault>
        ensures { IfOk result
            (HoldsPieces (λ n. Some (text_of self.now.document.tree n)) ids.now) }
    {
        let mut pieces = Pieces::new(self.document.tree.allocator());
        for id in ids {
            let text = self.document.tree.get_unchecked(id).text()?;
            pieces.push(text.as_str())?;
        }
        Ok(pieces)
    }

    fn html_of(&self, ids: &[NodeId]) -> Result<Pieces, Fault>
        ensures { IfOk result
            (HoldsPieces (λ n. Some (html_of self.now.document.tree n)) ids.now) }
    {
        let mut pieces = Pieces::new(self.document.tree.allocator());
        for id in ids {
            let html = self.document.tree.get_unchecked(id).html()?;
            pieces.push(html.as_str())?;
        }
        Ok(pieces)
    }

    fn attrs_of(&self, ids: &[NodeId], name: &str) -> Result<Pieces, Fault>
        ensures { IfOk result
            (HoldsPieces (λ n. node_attr self.now.document.tree n name.now) ids.now) }
    {
        let mut pieces = Pieces::new(self.document.tree.allocator());
        for id in ids {
            pieces.push_some(self.document.tree.get_unchecked(id).attr(name))?;
        }
        Ok(pieces)
    }
}
