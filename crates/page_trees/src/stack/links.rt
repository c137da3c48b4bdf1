//! Links between the elements of the stack that have the same key. A position is one more than an
//! index of the stack; 0 stands for no element.

ghost use Rattle.std.specs.Prelude.{◌≡◌, ◌∷◌, [], ◌++◌, ◌+◌, ◌<◌, List, false};
ghost use Rattle.std.specs.Prelude.{length, slice_index, slice_set, true, vec_capacity, vec_len, ℕ};
ghost use Rattle.page_trees.specs.Links.{AreLinks, set_before, set_where_none};

use crate::fault::PageFault;
use std::alloc::Global;

/// The positions of the previous and of the next element with the same key.
#[derive(Clone, Copy, Drop)]
struct Neighbours {
    before: usize,
    after: usize,
}

/// Links between the elements with the same key.
#[derive(Drop)]
pub struct Links {
    /// For each element, the position of the previous one with its key.
    same: Vec<usize>,
    /// For each element, the position of the next one with its key.
    next: Vec<usize>,
    /// For each key, the position of the last element that has it.
    tops: Vec<usize>,
}

/// Returns the number at an index, or 0 past the end.
fn at(numbers: &[usize], index: usize) -> usize
    ensures { result ≡ slice_index numbers.now index }
{
    match numbers.get(index) {
        Some(number) => *number,
        None => 0,
    }
}

fn put(numbers: &mut Vec<usize>, index: usize, number: usize)
    ensures { numbers.new.items ≡ slice_set numbers.old.items index number }
{
    if let Some(entry) = numbers.get_mut(index) {
        *entry = number;
    }
}

/// Writes the entry for a position.
fn put_before(numbers: &mut Vec<usize>, position: usize, number: usize)
    ensures { numbers.new.items ≡ set_before numbers.old.items position number }
{
    if position > 0 {
        put(numbers, position - 1, number);
    }
}

impl Links {
    pub fn new(alloc: Global) -> Links
        ensures { AreLinks [] result.same.items result.next.items result.tops.items }
    {
        Links {
            same: Vec::new(alloc),
            next: Vec::new(alloc),
            tops: Vec::new(alloc),
        }
    }

    /// Returns the position of the last element with that key.
    pub fn top(&self, key: usize) -> usize
        ensures { result ≡ slice_index self.now.tops.items key }
    {
        at(self.tops.as_slice(), key)
    }

    /// Returns the position of the previous element with the key of the one at an index.
    pub fn same(&self, place: usize) -> usize
        ensures { result ≡ slice_index self.now.same.items place }
    {
        at(self.same.as_slice(), place)
    }

    fn neighbours(&self, place: usize) -> Neighbours
        ensures before { result.before ≡ slice_index self.now.same.items place }
        ensures after { result.after ≡ slice_index self.now.next.items place }
    {
        Neighbours {
            before: at(self.same.as_slice(), place),
            after: at(self.next.as_slice(), place),
        }
    }

    /// Reserves memory for elements with that key.
    pub fn make_room(&mut self, key: usize) -> Result<(), PageFault>
        ensures { (keys : List ℕ) →
            AreLinks keys self.old.same.items self.old.next.items self.old.tops.items →
            AreLinks keys self.new.same.items self.new.next.items self.new.tops.items }
    {
        while self.tops.len() <= key {
            self.tops.push(0)?;
        }
        Ok(())
    }

    /// Reserves memory for the links of `count` more elements.
    pub fn reserve(&mut self, count: usize) -> Result<(), PageFault>
        ensures same { self.new.same.items ≡ self.old.same.items }
        ensures next { self.new.next.items ≡ self.old.next.items }
        ensures tops { self.new.tops ≡ self.old.tops }
    {
        self.same.reserve(count)?;
        self.next.reserve(count)?;
        Ok(())
    }

    /// Adds an element with that key. Returns whether there was memory for it; without, nothing is
    /// added.
    pub fn add(&mut self, key: usize) -> bool
        ensures added { (keys : List ℕ) → result ≡ true →
            AreLinks keys self.old.same.items self.old.next.items self.old.tops.items →
            AreLinks (keys ++ key ∷ []) self.new.same.items self.new.next.items self.new.tops.items }
        ensures kept { result ≡ false → self.new ≡ self.old }
    {
        if key < self.tops.len()
            && self.same.len() < self.same.capacity()
            && self.next.len() < self.next.capacity()
        {
            self.push(key);
            return true;
        }
        false
    }

    fn push(&mut self, key: usize)
        requires key { key < length self.old.tops.items }
        requires same { vec_len self.old.same < vec_capacity self.old.same }
        requires next { vec_len self.old.next < vec_capacity self.old.next }
        ensures { (keys : List ℕ) →
            AreLinks keys self.old.same.items self.old.next.items self.old.tops.items →
            AreLinks (keys ++ key ∷ []) self.new.same.items self.new.next.items self.new.tops.items }
    {
        let before = self.top(key);
        self.same.push_reserved(before);
        self.next.push_reserved(0);
        let position = self.same.len();
        put_before(&mut self.next, before, position);
        put(&mut self.tops, key, position);
    }

    /// Removes the last element, which has that key.
    pub fn pop(&mut self, key: usize)
        ensures { (keys : List ℕ) →
            AreLinks (keys ++ key ∷ []) self.old.same.items self.old.next.items self.old.tops.items →
            AreLinks keys self.new.same.items self.new.next.items self.new.tops.items }
    {
        if let Some(before) = self.same.pop() {
            let _ = self.next.pop();
            put_before(&mut self.next, before, 0);
            put(&mut self.tops, key, before);
        }
    }

    /// Exchanges the elements at an index and at the next one. `lower` and `upper` are their keys.
    pub fn exchange(&mut self, place: usize, lower: usize, upper: usize)
        ensures { (keys : List ℕ) → place + 1 < length keys →
            slice_index keys place ≡ lower → slice_index keys (place + 1) ≡ upper →
            AreLinks keys self.old.same.items self.old.next.items self.old.tops.items →
            AreLinks (slice_set (slice_set keys place upper) (place + 1) lower)
            self.new.same.items self.new.next.items self.new.tops.items }
    {
        let above = place.saturating_add(1);
        if lower == upper || above >= self.same.len() {
            return;
        }
        let of_lower = self.neighbours(place);
        let of_upper = self.neighbours(above);
        self.relink(lower, above + 1, of_lower);
        self.relink(upper, above, of_upper);
    }

    /// Links an element that moved to a position, and its neighbours.
    fn relink(&mut self, key: usize, position: usize, neighbours: Neighbours)
        ensures same { let old = set_before self.old.same.items position neighbours.before in
            self.new.same.items ≡ set_before old neighbours.after position }
        ensures next { let old = set_before self.old.next.items position neighbours.after in
            self.new.next.items ≡ set_before old neighbours.before position }
        ensures tops { let old = self.old.tops.items in
            self.new.tops.items ≡ set_where_none neighbours.after old key position }
    {
        put_before(&mut self.same, position, neighbours.before);
        put_before(&mut self.same, neighbours.after, position);
        put_before(&mut self.next, position, neighbours.after);
        put_before(&mut self.next, neighbours.before, position);
        if neighbours.after == 0 {
            put(&mut self.tops, key, position);
        }
    }
}
