//! Writes the text of what a policy leaves of a tree to a writer, entry by entry, so that the whole
//! text is never in memory.

ghost use Rattle.std.specs.Prelude.{◌≡◌, [], OnOk, string_bytes};
ghost use Rattle.dom_clean.specs.Cleaned.{cleaned_below};
ghost use Rattle.dom_clean.specs.Policies.{policy_of};
ghost use Rattle.dom_clean.specs.Written.{text_of};
ghost use Rattle.dom_links.specs.Sound.{IsForest};
ghost use Rattle.dom_markup.specs.Writing.{Writes};

use crate::fates::in_body;
use crate::lists::Lists;
use crate::policy::Policy;
use crate::writer::{Ahead, Output, first_below, push_row, write_entry};
use dom_links::laws::{lines_of_a_forest, trees_of_a_forest};
use dom_markup::serializing::WriteFault;
use dom_markup::writing::write_bytes;
use dom_trees::tree::Tree;
use std::io::Write;

/// Writes the text of what the policy leaves of the children of the root, the text that
/// `clean_tree` returns. After an error, a beginning of it is written. Fails with `Write` if the
/// writer failed, was interrupted or accepted no bytes, and with `Memory` if memory is refused.
pub fn write_clean_tree<W: Write>(tree: &Tree, policy: &Policy, w: &mut W) -> Result<(), WriteFault>
    ensures { Writes (W.contents w.old) (W.contents w.new) result
        (text_of (cleaned_below policy.now tree.now 0)) }
{
    let _ = tree.nodes();
    write_forest(tree, policy.lists(), w)
}

/// The same for a tree that is known to be a forest.
fn write_forest<W: Write>(tree: &Tree, lists: &Lists, w: &mut W) -> Result<(), WriteFault>
    requires { IsForest tree.now }
    ensures { Writes (W.contents w.old) (W.contents w.new) result
        (text_of (cleaned_below (policy_of lists.now) tree.now 0)) }
{
    trees_of_a_forest();
    lines_of_a_forest();
    let alloc = tree.allocator();
    let mut output = Output {
        text: String::new(alloc),
        in_front: false,
    };
    let mut ahead = Ahead::new(alloc);
    let root = tree.root_id();
    let first = first_below(tree, &root);
    push_row(&mut ahead, first, in_body(lists))?;
    while let Some(entry) = ahead.pop() {
        write_entry(tree, lists, entry, &mut ahead, &mut output)?;
        write_out(&mut output, w)?;
    }
    Ok(())
}

/// Writes the text of an output, and empties it.
fn write_out<W: Write>(output: &mut Output, w: &mut W) -> Result<(), WriteFault>
    ensures written { Writes (W.contents w.old) (W.contents w.new) result
        (string_bytes output.old.text) }
    ensures emptied { OnOk result (string_bytes output.new.text ≡ []) }
    ensures front { output.new.in_front ≡ output.old.in_front }
{
    match write_bytes(w, output.text.as_bytes()) {
        Ok(()) => {
            output.text.clear();
            Ok(())
        }
        Err(fault) => Err(fault),
    }
}
