//! Reconstructing the active formatting elements (13.2.4.3), and the adoption agency algorithm
//! (13.2.6.4.7). A call that returns a `Result` fails only when memory or node ids run out.

ghost use Rattle.std.specs.Prelude.{◌≡◌, ◌+◌, ◌^◌, ◌<◌, ◌≤◌, IfOk, OnErr, OnOk, false, insert};
ghost use Rattle.std.specs.Prelude.{remove, ℕ};
ghost use Rattle.std.specs.Prelude.{true};
ghost use Rattle.standard_trees.specs.Formatting.{adopt, adoption, reconstructed};
ghost use Rattle.page_trees.specs.Adopting.{AdoptsChildren, AdoptsOnce, Climbs, FindsAt};
ghost use Rattle.page_trees.specs.Adopting.{IsIndexLeft, Passes, PutsBelow, Renews};
ghost use Rattle.page_trees.specs.Elements.{IsElement};
ghost use Rattle.page_trees.specs.Listing.{AdoptsBy, RoundEnds, TellsBare};
ghost use Rattle.page_trees.specs.Reopening.{is_closed, stays};
ghost use Rattle.page_trees.specs.Scopes.{is_name, last_place};
ghost use Rattle.page_trees.specs.Stands.{DoesIn};
ghost use Rattle.page_trees.specs.declared.formatting.Entry.TheVariants.{Element as AnEntry};
ghost use Rattle.page_trees.specs.declared.name.Name.TheVariants.{Other};

use super::GrowingTree;
use super::edits::{is_forest, move_to, put_children_into_copy, put_into_copy};
use super::placing::{Placing, gap_in};
use crate::fault::PageFault;
use crate::formatting::Entry;
use crate::name::Name;
use crate::stack::Open;
use dom_nodes::node_id::NodeId;

/// The bookmark of the algorithm: where in the list the copy of the formatting element is inserted.
#[derive(Clone, Copy, Drop)]
struct Bookmark {
    index: usize,
    /// Whether it is after an element that was replaced by a copy.
    renewed: bool,
}

impl Bookmark {
    /// Returns the bookmark after the first entry that was replaced.
    fn behind(self, index: usize) -> Bookmark
        ensures first { let room = index + 1 < 2 ^ 64 in
            self.renewed ≡ false → room → result.index ≡ index + 1 }
        ensures later { self.renewed ≡ true → result ≡ self }
        ensures renewed { result.renewed ≡ true }
    {
        if self.renewed {
            return self;
        }
        Bookmark {
            index: index.saturating_add(1),
            renewed: true,
        }
    }

    /// Returns the bookmark after an entry is removed.
    fn without(self, index: usize) -> Bookmark
        ensures before { index < self.index → result.index + 1 ≡ self.index }
        ensures behind { self.index ≤ index → result ≡ self }
        ensures renewed { result.renewed ≡ self.renewed }
    {
        if index >= self.index {
            return self;
        }
        Bookmark {
            index: self.index.saturating_sub(1),
            renewed: self.renewed,
        }
    }
}

impl GrowingTree {
    /// Reconstructs the active formatting elements: inserts copies of those that are not open.
    pub fn reconstruct(&mut self, placing: Placing) -> Result<(), PageFault>
        ensures { placing.in_head ≡ false →
            OnOk result (DoesIn placing reconstructed self.old self.new) }
    {
        for index in self.first_closed()..self.formatting.len() {
            self.reconstruct_formatting(index, placing)?;
        }
        Ok(())
    }

    /// Returns the index of the first entry after the last marker and the last open element.
    fn first_closed(&self) -> usize
        ensures { result ≡ last_place (stays self.now.stack) self.now.formatting }
    {
        let mut rest = self.formatting.as_slice();
        while let Some((entry, before)) = rest.split_last() {
            if !self.is_closed(entry) {
                return rest.len();
            }
            rest = before;
        }
        0
    }

    /// Returns whether an entry is an element that is not open.
    fn is_closed(&self, entry: &Entry) -> bool
        ensures { result ≡ is_closed self.now.stack entry.now }
    {
        match entry {
            Entry::Marker => false,
            Entry::Element(open) => self.stack.place_among(open.name, open.id).is_none(),
        }
    }

    /// Runs the adoption agency algorithm for a tag. Returns `false` if the tag is to be processed
    /// like any other end tag.
    pub fn adopt(&mut self, name: Name, foster: bool) -> Result<bool, PageFault>
        ensures { let rule = adoption in is_name name Other ≡ false →
            IfOk result (AdoptsBy rule name foster self.old self.new) }
    {
        if self.has_unlisted(name) {
            self.pop();
            return Ok(true);
        }
        let end = self.adopt_round(name, foster)?;
        let Some(done) = end else {
            return self.adopt_again(name, foster);
        };
        Ok(done)
    }

    /// Runs the outer loop up to seven times more.
    fn adopt_again(&mut self, name: Name, foster: bool) -> Result<bool, PageFault>
        ensures { let rule = adopt 7 in is_name name Other ≡ false →
            IfOk result (AdoptsBy rule name foster self.old self.new) }
    {
        let mut left: usize = 7;
        while left > 0 {
            left -= 1;
            if let Some(done) = self.adopt_round(name, foster)? {
                return Ok(done);
            }
        }
        Ok(true)
    }

    /// Returns whether the current node is an HTML element with that name that is not in the list.
    fn has_unlisted(&self, name: Name) -> bool
        ensures { is_name name Other ≡ false → TellsBare name self.now result }
    {
        let Some(current) = self.stack.current() else {
            return false;
        };
        if !current.is_html(name) {
            return false;
        }
        self.formatting.index_of(current.id).is_none()
    }

    /// Runs the outer loop once. Returns `Some` if the algorithm is at its end; `Some(false)` if the
    /// tag is to be processed like any other end tag.
    fn adopt_round(&mut self, name: Name, foster: bool) -> Result<Option<bool>, PageFault>
        ensures { is_name name Other ≡ false →
            IfOk result (RoundEnds name foster self.old self.new) }
    {
        let Some(formatting) = self.formatting.named(name) else {
            return Ok(Some(false));
        };
        let Some(place) = self.stack.place_among(formatting.name, formatting.id) else {
            self.remove_formatting(formatting.id);
            return Ok(Some(true));
        };
        if !self.stack.is_in_scope(place) {
            return Ok(Some(true));
        }
        let Some(furthest) = self.stack.furthest_block(place) else {
            self.truncate(place);
            self.remove_formatting(formatting.id);
            return Ok(Some(true));
        };
        let bookmark = self.bookmark_at(formatting.id);
        self.adopt_once(place, furthest, bookmark, foster)?;
        Ok(None)
    }

    /// Returns the bookmark at the entry of an element.
    fn bookmark_at(&self, id: NodeId) -> Bookmark
        ensures index { (index : ℕ) → FindsAt id index self.now.formatting → result.index ≡ index }
        ensures renewed { result.renewed ≡ false }
    {
        Bookmark {
            index: self.formatting.index_of(id).unwrap_or(0),
            renewed: false,
        }
    }

    /// Runs the outer loop once. `place` and `furthest_place` are the indexes of the formatting
    /// element and of the furthest block on the stack.
    fn adopt_once(
        &mut self,
        place: usize,
        furthest_place: usize,
        bookmark: Bookmark,
        foster: bool,
    ) -> Result<(), PageFault>
        ensures { let furthest = furthest_place in
            OnOk result (AdoptsOnce place furthest bookmark foster self.old self.new) }
    {
        let count = self.stack.len();
        let bookmark = self.climb(place, furthest_place, bookmark)?;
        self.mark();
        self.put_below(place, foster);
        let removed = count.saturating_sub(self.stack.len());
        self.adopt_children(place, furthest_place.saturating_sub(removed), bookmark)
    }

    /// Runs the inner loop for the elements between the formatting element and the furthest block,
    /// whose indexes these are. Returns the bookmark after that.
    ///
    /// The loop goes down from the block. It removes each element between the two from the stack or
    /// replaces it by a copy, so the element that was moved last always follows the index of the
    /// loop.
    fn climb(
        &mut self,
        place: usize,
        furthest_place: usize,
        bookmark: Bookmark,
    ) -> Result<Bookmark, PageFault>
        ensures { let furthest = furthest_place in
            IfOk result (λ after. Climbs place furthest bookmark after self.old self.new) }
    {
        let below = place.saturating_add(1);
        let mut bookmark = bookmark;
        let mut node_place = furthest_place;
        while node_place > below {
            node_place -= 1;
            let is_far = furthest_place.saturating_sub(node_place) > 3;
            bookmark = self.pass(node_place, !is_far, bookmark)?;
        }
        Ok(bookmark)
    }

    /// Runs the inner loop for one element. It is replaced by a copy if it is in the list and among
    /// the first three; otherwise it is removed from the stack, and from the list too.
    fn pass(
        &mut self,
        place: usize,
        is_near: bool,
        bookmark: Bookmark,
    ) -> Result<Bookmark, PageFault>
        ensures { let near = is_near in
            IfOk result (λ after. Passes place near bookmark after self.old self.new) }
    {
        let Some(node) = self.stack.get(place) else {
            return Ok(bookmark);
        };
        let Some(index) = self.formatting.index_of(node.id) else {
            self.remove_at(place);
            return Ok(bookmark);
        };
        if is_near {
            self.renew(place, index)?;
            return Ok(bookmark.behind(index));
        }
        self.remove_at(place);
        self.remove_entry(index);
        Ok(bookmark.without(index))
    }

    /// Replaces an element by a copy on the stack and in the list, and moves the element after it
    /// on the stack into the copy.
    fn renew(&mut self, place: usize, index: usize) -> Result<(), PageFault>
        ensures { OnOk result (Renews place index self.old self.new) }
    {
        let Some(node) = self.stack.get(place) else {
            return Ok(());
        };
        let Some(last) = self.stack.behind(place) else {
            return Ok(());
        };
        is_forest(&self.tree);
        let copy = put_into_copy(&mut self.tree, node, last.id)?;
        self.formatting.replace(&self.tree, index, &copy);
        self.stack.replace(place, &copy);
        Ok(())
    }

    /// Moves the element after an index of the stack to the end of the one at the index before it,
    /// or before a table (foster parenting).
    fn put_below(&mut self, place: usize, foster: bool)
        ensures rule { PutsBelow place foster self.old self.new }
        ensures rest { self.new ≡ record self.old { forest = self.new.forest } }
    {
        let Some(last) = self.stack.behind(place) else {
            return;
        };
        let gap = gap_in(&self.tree, self.stack.before(place), foster);
        is_forest(&self.tree);
        move_to(&mut self.tree, gap, last.id);
    }

    /// Moves the children of the furthest block into a copy of the formatting element, and the copy
    /// into the block. On the stack the copy follows the block and replaces the formatting element.
    fn adopt_children(
        &mut self,
        place: usize,
        furthest_place: usize,
        bookmark: Bookmark,
    ) -> Result<(), PageFault>
        ensures { let furthest = furthest_place in
            OnOk result (AdoptsChildren place furthest bookmark self.old self.new) }
    {
        let Some(formatting) = self.stack.get(place) else {
            return Ok(());
        };
        let Some(furthest) = self.stack.get(furthest_place) else {
            return Ok(());
        };
        if place > furthest_place {
            return Ok(());
        }
        is_forest(&self.tree);
        let parent = furthest.id;
        let element = formatting.id;
        let copy = put_children_into_copy(&mut self.tree, formatting, parent)?;
        self.stack.carry(place, furthest_place, &copy);
        self.put_in_place(element, bookmark, &copy)
    }

    /// Replaces an element of the list by its copy at the bookmark.
    fn put_in_place(
        &mut self,
        element: NodeId,
        bookmark: Bookmark,
        copy: &Open,
    ) -> Result<(), PageFault>
        requires { IsElement self.old.forest copy.now.id }
        ensures { let entries = self.old.formatting in (gone left : ℕ) →
            FindsAt element gone entries → IsIndexLeft gone bookmark.index left →
            OnOk result (self.new ≡ record self.old {
              formatting = insert (remove entries gone) left (AnEntry copy.now);
            }) }
    {
        let index = self.take_entry(element, bookmark);
        self.insert_entry(index, copy)
    }

    /// Removes an element's entry from the list, and returns the index of the bookmark after that.
    fn take_entry(&mut self, element: NodeId, bookmark: Bookmark) -> usize
        ensures taken { let entries = self.old.formatting in (gone : ℕ) →
            FindsAt element gone entries → IsIndexLeft gone bookmark.index result ×
            (self.new ≡ record self.old { formatting = remove entries gone }) }
        ensures rest { self.new ≡ record self.old { formatting = self.new.formatting } }
    {
        let Some(gone) = self.formatting.index_of(element) else {
            return bookmark.index;
        };
        self.remove_entry(gone);
        bookmark.without(gone).index
    }

    /// Inserts an entry at an index of the list.
    fn insert_entry(&mut self, index: usize, element: &Open) -> Result<(), PageFault>
        requires { IsElement self.old.forest element.now.id }
        ensures ok { OnOk result (self.new ≡ record self.old {
          formatting =
              insert self.old.formatting index (AnEntry element.now);
        }) }
        ensures err { OnErr result (self.new ≡ self.old) }
    {
        self.formatting.insert(&self.tree, index, element)
    }
}
