//! The article of a page, as a document in a handle of its own.

ghost use Rattle.std.specs.Prelude.{⊤};
ghost use Rattle.dom_query_c.specs.Calls.{KeepsDocument, Reads};

use crate::handle::Handle;
use c_state::{Fault, TakenArticle};
use std::alloc::Global;

/// Puts the article of a page into a handle, in place of what that held: 1 if the page surely has an
/// article, and 0 if it may be none. What the page says of the article is taken as seven pieces.
#[unsafe(no_mangle)]
pub extern "C" fn dq_proved_article(alloc: Global, handle: &mut Handle, article: &mut Handle) -> i64
    ensures page { KeepsDocument handle.old.slot.state handle.new.slot.state }
    ensures article { Reads article.old.slot.state article.new.slot.state result
        (λ _. ⊤) }
{
    match handle.take(alloc) {
        Some(boxed) => {
            let mut state = boxed;
            let taken = state.take_article();
            handle.put(state);
            put_article(alloc, article, taken)
        }
        None => article.note(Fault::Closed),
    }
}

/// Puts an article into its handle, and frees what was there; a fault leaves the handle with that.
fn put_article(alloc: Global, article: &mut Handle, taken: Result<TakenArticle, Fault>) -> i64
    ensures { Reads article.old.slot.state article.new.slot.state result
        (λ _. ⊤) }
{
    match taken {
        Ok(taken) => {
            let TakenArticle { state, sure } = taken;
            let answer = article.fill(alloc, Ok(state));
            if answer < 0 {
                return answer;
            }
            if sure { 1 } else { 0 }
        }
        Err(fault) => article.note(fault),
    }
}
