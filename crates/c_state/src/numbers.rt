//! Numbers that stand for places.

ghost use Rattle.std.specs.Prelude.{◌≡◌, IfOk, Some};
ghost use Rattle.c_state.specs.Edits.{place_numbered};

use crate::fault::Fault;
use dom_query::Place;

/// The place of that number. Refused as `Argument` for any other number.
pub fn place_of(number: u32) -> Result<Place, Fault>
    ensures { IfOk result (λ place. place_numbered number ≡ Some place) }
{
    match number {
        0 => Ok(Place::InsteadOfChildren),
        1 => Ok(Place::AtEnd),
        2 => Ok(Place::AtFront),
        3 => Ok(Place::Before),
        4 => Ok(Place::After),
        5 => Ok(Place::InsteadOfNode),
        _ => Err(Fault::Argument),
    }
}
