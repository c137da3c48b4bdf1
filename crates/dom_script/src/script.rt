//! Parsing a script to commands, one for each line.

ghost use Rattle.std.specs.Prelude.{◌≡◌, ◌∷◌, ◌++◌, [], IfErr, IfOk, OnOk};
ghost use Rattle.dom_script.specs.Faults.{LineRefused, ScriptRefused};
ghost use Rattle.dom_script.specs.Script.{IsBad, IsCommand, IsNoQuery, IsQuery, IsScript};
ghost use Rattle.dom_script.specs.Words.{Finds};
ghost use Rattle.dom_script.specs.declared.script.ScriptFault.TheVariants.{Memory};

mod arguments;
pub mod edit_line;
pub mod lists;
mod words;

use crate::script::arguments::{name_behind, selector_behind};
use crate::script::edit_line::{EditLine, edit_of};
use crate::script::lists::lists_behind;
use crate::script::words::{navigation_of, rendering_of};
use dom_nodes::fault::OutOfMemory;
use dom_nodes::text::Text;
use dom_select::matcher::Matcher;
use std::alloc::Global;

/// Which nodes a line with a selector selects.
#[derive(Clone, Copy, Drop)]
pub enum QueryKind {
    /// The matches below the root.
    Select,
    /// The matches below the selected nodes.
    Find,
    /// Those of the selected nodes that match.
    Filter,
    /// The selected nodes, then the matches below the root that aren't among them.
    Add,
}

/// Which nodes a line selects next, relative to the selected ones.
#[derive(Clone, Copy, Drop)]
pub enum Navigation {
    /// Their parents.
    Parent,
    /// Their child elements.
    Children,
    /// Their ancestor elements.
    Ancestors,
    /// The nearest element among the later siblings of each.
    Next,
    /// The nearest element among the earlier siblings of each.
    Prev,
    /// The first one of them.
    First,
    /// The last one of them.
    Last,
}

/// What a line writes about the selected nodes.
#[derive(Clone, Copy, Drop)]
pub enum Rendering {
    /// The number of nodes.
    Count,
    /// Their texts.
    Text,
    /// Their formatted texts.
    Formatted,
    /// The HTML of the first one.
    Html,
    /// The HTML of the first one's children.
    InnerHtml,
    /// The HTML of the root.
    Document,
}

/// The command of a line. The texts in it are copies, so a command doesn't borrow from the script.
#[derive(Drop)]
pub enum Command {
    /// An empty line, which does nothing.
    Nothing,
    /// Selects nodes by a selector.
    Query(QueryKind, Matcher),
    /// Selects nodes relative to the selected ones.
    Navigate(Navigation),
    /// Writes something about the selected nodes.
    Render(Rendering),
    /// Writes the value of the first node's attribute with this local name.
    Attr(Text),
    /// Edits the tree.
    Edit(EditLine),
    /// Sanitizes the tree by three lists of names, separated by semicolons.
    Sanitize(Text),
}

/// Why parsing a script failed.
#[derive(Drop)]
pub enum ScriptFault {
    /// The first bad line, counted from 1; 0 if the script isn't UTF-8.
    BadLine(usize),
    /// The markup in a line has more nodes than there are ids.
    TooManyNodes,
    /// A request for memory was refused.
    Memory,
}

impl From<OutOfMemory> for ScriptFault {
    ghost from_gives = { λ _ fault. fault ≡ Memory };

    fn from(_refused: OutOfMemory) -> ScriptFault {
        ScriptFault::Memory
    }
}

/// Returns the query of the line, or `None` if the line isn't one.
fn query_of(alloc: Global, line: &str) -> Result<Option<(QueryKind, Matcher)>, OutOfMemory>
    ensures { Finds result (IsNoQuery line.now) (λ query. IsQuery line.now query.0 query.1) }
{
    if let Some(matcher) = selector_behind(alloc, line, "select")? {
        return Ok(Some((QueryKind::Select, matcher)));
    }
    if let Some(matcher) = selector_behind(alloc, line, "find")? {
        return Ok(Some((QueryKind::Find, matcher)));
    }
    if let Some(matcher) = selector_behind(alloc, line, "filter")? {
        return Ok(Some((QueryKind::Filter, matcher)));
    }
    if let Some(matcher) = selector_behind(alloc, line, "add")? {
        return Ok(Some((QueryKind::Add, matcher)));
    }
    Ok(None)
}

/// Returns the command of the line, or `None` if the line is bad. It fails with `TooManyNodes` or
/// `Memory`.
fn command_of(alloc: Global, line: &str) -> Result<Option<Command>, ScriptFault>
    ensures ok { Finds result (IsBad line.now) (IsCommand line.now) }
    ensures refused { IfErr result (LineRefused line.now) }
{
    if line.is_empty() {
        return Ok(Some(Command::Nothing));
    }
    if let Some(navigation) = navigation_of(line) {
        return Ok(Some(Command::Navigate(navigation)));
    }
    if let Some(rendering) = rendering_of(line) {
        return Ok(Some(Command::Render(rendering)));
    }
    if let Some(name) = name_behind(alloc, line, "attr")? {
        return Ok(Some(Command::Attr(name)));
    }
    if let Some(edit) = edit_of(alloc, line)? {
        return Ok(Some(Command::Edit(edit)));
    }
    if let Some(lists) = lists_behind(alloc, line)? {
        return Ok(Some(Command::Sanitize(lists)));
    }
    match query_of(alloc, line)? {
        Some((kind, matcher)) => Ok(Some(Command::Query(kind, matcher))),
        None => Ok(None),
    }
}

fn push_command(commands: &mut Vec<Command>, command: Command) -> Result<(), OutOfMemory>
    ensures { OnOk result (commands.new.items ≡ commands.old.items ++ command ∷ []) }
{
    commands.push(command)?;
    Ok(())
}

/// Parses a script: UTF-8 text, in lines separated by line feeds. Returns a command for each line.
/// It fails with `BadLine` and the number of the first bad line, with `TooManyNodes` when the
/// markup in a line has more nodes than there are ids, and with `Memory`.
pub fn read_script(alloc: Global, script: &[u8]) -> Result<Vec<Command>, ScriptFault>
    ensures ok { IfOk result (λ commands. IsScript script.now commands.items) }
    ensures refused { IfErr result (ScriptRefused script.now) }
{
    let Ok(text) = str::from_utf8(script) else {
        return Err(ScriptFault::BadLine(0));
    };
    let mut commands = Vec::new(alloc);
    let mut number = 0usize;
    for line in text.split('\n') {
        number += 1;
        let Some(command) = command_of(alloc, line)? else {
            return Err(ScriptFault::BadLine(number));
        };
        push_command(&mut commands, command)?;
    }
    Ok(commands)
}
