//! The lists of names in the line `sanitize`.

ghost use Rattle.std.specs.Prelude.{◌≡◌, map, IfOk};
ghost use Rattle.dom_script.specs.NameLists.{IsNoSanitize, IsSanitize, are_lists, is_list};
ghost use Rattle.dom_script.specs.NameLists.{listed_in, lists_in};
ghost use Rattle.dom_script.specs.Words.{Finds};

use crate::script::arguments::argument_of;
use crate::script::edit_line::{are_names, names_of};
use dom_nodes::fault::OutOfMemory;
use dom_nodes::text::Text;
use std::alloc::Global;

/// Returns whether the text is a list of names separated by single spaces. The empty text is the
/// empty list.
fn is_list(text: &str) -> bool
    ensures { result ≡ is_list text.now }
{
    if text.is_empty() {
        return true;
    }
    are_names(text)
}

/// Returns whether the text is three lists of names, separated by semicolons.
fn are_lists(text: &str) -> bool
    ensures { result ≡ are_lists text.now }
{
    let mut count = 0usize;
    for list in text.split(';') {
        if !is_list(list) {
            return false;
        }
        count += 1;
    }
    count == 3
}

/// Returns the three lists after the word `sanitize`, or `None` if the line isn't that. It fails
/// with `OutOfMemory` when memory is refused.
pub fn lists_behind(alloc: Global, line: &str) -> Result<Option<Text>, OutOfMemory>
    ensures { Finds result (IsNoSanitize line.now) (IsSanitize line.now) }
{
    let Some(lists) = argument_of(line, "sanitize") else {
        return Ok(None);
    };
    if !are_lists(lists) {
        return Ok(None);
    }
    Ok(Some(Text::new(alloc, lists)?))
}

/// Returns the lists in the text, which semicolons separate. It fails with `OutOfMemory` when
/// memory is refused.
pub fn lists_of(alloc: Global, text: &str) -> Result<Vec<&str>, OutOfMemory>
    ensures { IfOk result (λ lists. map (λ list. list.now) lists.items ≡ lists_in text.now) }
{
    Ok(text.split(';').collect(alloc)?)
}

/// Returns the names of a list. It fails with `OutOfMemory` when memory is refused.
pub fn listed_in(alloc: Global, list: &str) -> Result<Vec<&str>, OutOfMemory>
    ensures { IfOk result (λ names. map (λ name. name.now) names.items ≡ listed_in list.now) }
{
    if list.is_empty() {
        return Ok(Vec::new(alloc));
    }
    names_of(alloc, list)
}
