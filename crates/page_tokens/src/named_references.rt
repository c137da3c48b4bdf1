//! The named character references (13.5), as a search for the names that start with what was read.

mod table;

ghost use Rattle.std.specs.Prelude.{◌≡◌, ◌<◌, ◌≤◌, ◌++◌, ◌∷◌, []};
ghost use Rattle.std.specs.Prelude.{MatchOption, Some, length, nat_le, slice_range};
ghost use Rattle.std.specs.Char.{IsScalar};
ghost use Rattle.page_tokens.specs.NameTable.{name_at, rank_at, second_of, value_at};
ghost use Rattle.page_tokens.specs.NameTable.{AreNames, ArePartedAt};

use table::{FIRSTS, LETTERS, SECONDS, STARTS};

/// The number of names.
const COUNT: usize = 2231;

/// The names that start with the characters read so far: those at the indexes from `low` up to, not
/// including, `high` of the sorted table. `place` is the number of characters read.
#[derive(Clone, Copy, Drop)]
pub struct Names {
    low: usize,
    high: usize,
    place: usize,
    ghost exactly: { AreNames low high place },
}

/// The characters that a name stands for: one or two.
#[derive(Clone, Copy, Drop)]
pub struct Value {
    pub first: char,
    pub second: Option<char>,
}

impl Names {
    ghost use Rattle.page_tokens.specs.NamedReferences.{read_of, AreNamesFrom};
    ghost use Rattle.page_tokens.specs.NamedReferences.{IsNoName, IsValueOf};

    /// Returns all names, with nothing read.
    pub fn all() -> Names
        ensures { read_of result ≡ [] }
    {
        Names {
            low: 0,
            high: COUNT,
            place: 0,
        }
    }

    /// Returns the names that continue with this character, or `None` if there are none.
    pub fn with(self, letter: u8) -> Option<Names>
        ensures { AreNamesFrom (read_of self ++ letter ∷ []) result }
    {
        let low = self.first_from(u16::from(letter));
        let high = self.first_from(u16::from(letter) + 1);
        if low >= high {
            return None;
        }
        Some(Names {
            low,
            high,
            place: self.place + 1,
        })
    }

    /// Returns the index of the first name whose next character is this one or a greater one.
    fn first_from(self, letter: u16) -> usize
        ensures { ArePartedAt self.low self.high self.place letter result }
    {
        let mut low = self.low;
        let mut high = self.high;
        while low < high {
            let middle = low + (high - low) / 2;
            if is_below(middle, self.place, letter) {
                low = middle + 1;
            } else {
                high = middle;
            }
        }
        low
    }

    /// Returns the characters that the name stands for, if what was read so far is a whole name;
    /// otherwise `None`.
    pub fn value(self) -> Option<Value>
        ensures { MatchOption result (IsNoName (read_of self)) (IsValueOf (read_of self)) }
    {
        if name(self.low).len() == self.place {
            value_at(self.low)
        } else {
            None
        }
    }
}

/// Returns the bytes of the name at an index.
fn name(index: usize) -> &'static [u8]
    requires { index < 2231 }
    ensures { result.now ≡ name_at index }
{
    let start = usize::from(STARTS[index]);
    let end = usize::from(STARTS[index + 1]);
    part(&LETTERS, start, end)
}

/// Returns the bytes from `start` up to `end`.
fn part(letters: &[u8], start: usize, end: usize) -> &[u8]
    requires ordered { start ≤ end }
    requires within { end ≤ length letters.now }
    ensures { result.now ≡ slice_range letters.now start end }
{
    &letters[start..end]
}

/// Returns whether the byte of a name at a position is less than the letter, or the name ends
/// before it.
fn is_below(index: usize, place: usize, letter: u16) -> bool
    requires { index < 2231 }
    ensures { result ≡ nat_le (rank_at place (name_at index)) letter }
{
    let name = name(index);
    if place < name.len() {
        u16::from(name[place]) < letter
    } else {
        true
    }
}

/// Returns the characters that the name at an index means.
fn value_at(index: usize) -> Option<Value>
    requires { index < 2231 }
    ensures { result ≡ Some (value_at index) }
{
    value_of(FIRSTS[index], SECONDS[index])
}

/// Returns one character, or two if the second is not 0.
fn value_of(first: u32, second: u16) -> Option<Value>
    requires first { IsScalar first }
    requires second { IsScalar second }
    ensures { result ≡ Some (record { first = first; second = second_of second }) }
{
    let first = char::from_u32(first)?;
    if second == 0 {
        return Some(Value {
            first,
            second: None,
        });
    }
    let second = char::from_u32(u32::from(second));
    Some(Value { first, second })
}
