//! Keys in the order of a list: the last place of a key is found without a walk over the list.

ghost use Rattle.std.specs.Prelude.{◌≡◌, ◌<◌, ◌≤◌, [], suc, ℕ, IfSome, MatchOption, OnOk};
ghost use Rattle.std.specs.Prelude.{insert, length, remove, slice_get, slice_set, take};
ghost use Rattle.page_trees.specs.KeyPlaces.{AreRanked, FitsAt, IsRowAt, IsTopUpTo, NoneUpTo};
ghost use Rattle.page_trees.specs.KeyPlaces.{keys_of, last_key};

use crate::fault::PageFault;
use std::alloc::Global;
use std::collections::BTreeSet;
use std::marker::Model;

/// The distance between the ranks of neighbours that are appended, so that others fit between them.
const STEP: u64 = 1 << 32;

/// A key of the list. The ranks increase along the list, and stay when other keys come or go.
#[derive(Clone, Copy, Drop)]
pub struct Ranked {
    key: u32,
    rank: u64,
}

/// A list of keys. In a contract it is that list.
#[derive(Drop)]
pub struct KeyPlaces {
    rows: Vec<Ranked>,
    /// The keys with their ranks.
    ranks: BTreeSet<(u32, u64)>,
}

impl Model for KeyPlaces {
    ghost use Rattle.std.specs.Prelude.{List, ℕ};
    ghost use Rattle.page_trees.specs.KeyPlaces.{AreRanked, keys_of};

    ghost Value = { List ℕ };

    ghost view = { λ p. keys_of p.rows.items };

    ghost invariant = { λ p. AreRanked p.rows.items p.ranks };
}

/// Returns the greatest rank up to a bound that a key has.
fn last_up_to(ranks: &BTreeSet<(u32, u64)>, key: u32, bound: u64) -> Option<u64>
    ensures { MatchOption result (NoneUpTo ranks.now key bound) (IsTopUpTo ranks.now key bound) }
{
    let found = ranks.range((key, 0)..=(key, bound)).next_back()?;
    Some(found.1)
}

/// Returns a rank between two, if one is left.
fn between(below: u64, above: u64) -> Option<u64>
    ensures low { IfSome result (λ rank. below < rank) }
    ensures high { IfSome result (λ rank. rank < above) }
{
    let rank = below.midpoint(above);
    if below >= rank {
        return None;
    }
    if rank >= above {
        return None;
    }
    Some(rank)
}

/// Returns a rank above one, if one is left.
fn above(below: u64) -> Option<u64>
    ensures { IfSome result (λ rank. below < rank) }
{
    let rank = below.saturating_add(STEP);
    if below >= rank {
        return None;
    }
    Some(rank)
}

/// Returns the rank before a place, or 0.
fn rank_before(rows: &[Ranked], place: usize) -> u64
    ensures { (before : ℕ) → suc before ≡ place →
        IfSome (slice_get rows.now before) (λ row. row.rank ≡ result) }
{
    if place == 0 {
        return 0;
    }
    match rows.get(place - 1) {
        Some(row) => row.rank,
        None => 0,
    }
}

/// Returns a rank for a new key at a place, if one is left.
fn rank_for(rows: &[Ranked], place: usize) -> Option<u64>
    ensures { IfSome result (FitsAt rows.now place) }
{
    let below = rank_before(rows, place);
    match rows.get(place) {
        Some(row) => between(below, row.rank),
        None => above(below),
    }
}

/// Returns the place of a key with that rank.
fn place_of(rows: &[Ranked], key: u32, rank: u64) -> Option<usize>
    ensures { IfSome result (IsRowAt rows.now key rank) }
{
    let Ok(place) = rows.binary_search_by_key(&rank, |row| row.rank) else {
        return None;
    };
    let row = rows.get(place)?;
    if row.key != key {
        return None;
    }
    if row.rank != rank {
        return None;
    }
    Some(place)
}

/// Returns the last place of a key, by a walk over the list.
fn last_by_walk(rows: &[Ranked], key: u32) -> Option<usize>
    ensures { result ≡ last_key key (keys_of rows.now) }
{
    let mut rest = rows;
    while let Some((row, before)) = rest.split_last() {
        if row.key == key {
            return Some(before.len());
        }
        rest = before;
    }
    None
}

/// Returns the last place of a key.
fn last_in(rows: &[Ranked], ranks: &BTreeSet<(u32, u64)>, key: u32) -> Option<usize>
    requires { AreRanked rows.now ranks.now }
    ensures { result ≡ last_key key (keys_of rows.now) }
{
    let (top, _) = rows.split_last()?;
    let rank = last_up_to(ranks, key, top.rank)?;
    let Some(place) = place_of(rows, key, rank) else {
        return last_by_walk(rows, key);
    };
    Some(place)
}

impl KeyPlaces {
    pub fn new(alloc: Global) -> KeyPlaces
        ensures { result ≡ [] }
    {
        KeyPlaces {
            rows: Vec::new(alloc),
            ranks: BTreeSet::new(alloc),
        }
    }

    /// Inserts a key at a place of the list. Fails when memory or the ranks between the neighbours
    /// run out.
    pub fn insert(&mut self, place: usize, key: u32) -> Result<(), PageFault>
        requires { place ≤ length self.old }
        ensures { OnOk result (self.new ≡ insert self.old place key) }
    {
        let Some(rank) = rank_for(self.rows.as_slice(), place) else {
            return Err(PageFault::Memory);
        };
        self.ranks.insert((key, rank))?;
        self.rows.insert(place, Ranked { key, rank })?;
        Ok(())
    }

    /// Removes the key at a place of the list.
    pub fn remove(&mut self, place: usize)
        requires { place < length self.old }
        ensures { self.new ≡ remove self.old place }
    {
        let gone = self.rows.remove(place);
        self.ranks.remove(&(gone.key, gone.rank));
    }

    /// Replaces the key at a place of the list. Fails when memory runs out.
    pub fn set(&mut self, place: usize, key: u32) -> Result<(), PageFault>
        ensures { OnOk result (self.new ≡ slice_set self.old place key) }
    {
        let Some(row) = self.rows.get_mut(place) else {
            return Ok(());
        };
        let old = *row;
        self.ranks.insert((key, old.rank))?;
        *row = Ranked {
            key,
            rank: old.rank,
        };
        if old.key != key {
            self.ranks.remove(&(old.key, old.rank));
        }
        Ok(())
    }

    /// Returns the last place of a key.
    pub fn last(&self, key: u32) -> Option<usize>
        ensures { result ≡ last_key key self.now }
    {
        last_in(self.rows.as_slice(), &self.ranks, key)
    }

    /// Returns the last place of a key before a place.
    pub fn last_before(&self, key: u32, place: usize) -> Option<usize>
        ensures { place ≤ length self.now → result ≡ last_key key (take place self.now) }
    {
        if place > self.rows.len() {
            return None;
        }
        last_in(&self.rows.as_slice()[..place], &self.ranks, key)
    }
}
