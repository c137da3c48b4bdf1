//! Pages that are read while their bytes come, in pieces.

ghost use Rattle.std.specs.Prelude.{◌≡◌, None, ⊤};
ghost use Rattle.page_trees.specs.Shape.{IsPage};
ghost use Rattle.dom_query_c.specs.Calls.{Asks, Reads};

use crate::handle::Handle;
use crate::reader_handle::ReaderHandle;
use c_state::{Fault, Reader};
use std::alloc::Global;

/// Begins to read a page in any encoding, in place of what the handle held.
#[unsafe(no_mangle)]
pub extern "C" fn dq_proved_reader_begin(
    alloc: Global,
    handle: &mut ReaderHandle,
    label: &[u8],
    max_depth: usize,
) -> i64
    ensures { Reads handle.old.slot.reader handle.new.slot.reader result (λ _. ⊤) }
{
    handle.fill(alloc, Reader::new(alloc, label, max_depth))
}

/// Reads the next bytes of the page.
#[unsafe(no_mangle)]
pub extern "C" fn dq_proved_reader_feed(
    alloc: Global,
    handle: &mut ReaderHandle,
    piece: &[u8],
) -> i64
    ensures { Asks handle.old.slot.reader handle.new.slot.reader result (λ _ _ _. ⊤) }
{
    ask!(alloc, handle, reader => reader.feed(piece))
}

/// Puts the page, all of whose bytes have come, into the handle of a document, in place of what it
/// held. The reader's handle is then empty.
#[unsafe(no_mangle)]
pub extern "C" fn dq_proved_reader_end(
    alloc: Global,
    handle: &mut ReaderHandle,
    document: &mut Handle,
) -> i64
    ensures left { handle.new.slot.reader ≡ None }
    ensures read { Reads document.old.slot.state document.new.slot.state result
        (λ state. IsPage state.document.tree) }
{
    match handle.take(alloc) {
        Some(boxed) => {
            let reader = Box::into_inner(boxed);
            document.fill(alloc, reader.finish(alloc))
        }
        None => document.note(Fault::Closed),
    }
}

/// Frees what the handle holds; it is then empty.
#[unsafe(no_mangle)]
pub extern "C" fn dq_proved_reader_free(alloc: Global, handle: &mut ReaderHandle)
    ensures { handle.new.slot.reader ≡ None }
{
    drop(handle.take(alloc));
}
