//! `run`: a script of lines, run over markup.

ghost use Rattle.std.specs.Prelude.{◌≡◌, ◌∷◌, [], IfErr, IfOk, OnErr, OnOk};
ghost use Rattle.dom_query.specs.Faults.{IsMarkup, MarkupRefused};
ghost use Rattle.dom_query.specs.Out.Ending.{done};
ghost use Rattle.dom_query.specs.Runs.{Began, CommandCause, CommandsCause, Did, DidAll};
ghost use Rattle.dom_query.specs.Runs.{DidAllBegin, DidBegin, Ended, RunCause, fault_at};
ghost use Rattle.dom_query.specs.declared.runner.RunFault.TheVariants.{Memory};

mod cleaning;
mod editing;
mod query;
mod rendering;

use crate::runner::cleaning::clean;
use crate::runner::editing::edit_selected;
use crate::runner::query::{navigate, query};
use crate::runner::rendering::{render, write_attr};
use dom_markup::document::Document;
use dom_markup::serializing::WriteFault;
use dom_nodes::fault::{EditFault, MarkupFaultKind, OutOfMemory};
use dom_nodes::node_id::NodeId;
use dom_script::script::{Command, ScriptFault, read_script};
use dom_trees::tree::Tree;
use std::alloc::{AllocError, Global};
use std::io::Write;

/// Why running a script failed.
#[derive(Clone, Copy, PartialEq, Eq, Debug, Drop, thiserror::Error)]
pub enum RunFault {
    /// The script is bad. The number is that of the first bad line, counted from 1; it is 0 if the
    /// script isn't UTF-8.
    #[error("bad script at line {0}")]
    BadScript(usize),
    /// The markup isn't UTF-8, or isn't explicit markup as `Document::parse` reads it.
    #[error("bad markup")]
    BadMarkup,
    /// The edit in this line, counted from 1, failed.
    #[error("edit refused at line {0}: {1}")]
    Edit(usize, EditFault),
    /// The markup or an edit needs more nodes than there are ids.
    #[error("too many nodes")]
    TooManyNodes,
    /// A request for memory was refused.
    #[error("out of memory")]
    Memory,
    /// The writer failed, or accepted no byte.
    #[error("write failed")]
    Write,
}

impl From<WriteFault> for RunFault {
    ghost use Rattle.dom_query.specs.Faults.{limit_of};

    ghost from_gives = { λ fault run. run ≡ limit_of fault };

    fn from(fault: WriteFault) -> RunFault {
        match fault {
            WriteFault::Write => RunFault::Write,
            WriteFault::Memory => RunFault::Memory,
        }
    }
}

impl From<ScriptFault> for RunFault {
    ghost use Rattle.dom_query.specs.Faults.{fault_of};

    ghost from_gives = { λ fault run. run ≡ fault_of fault };

    fn from(fault: ScriptFault) -> RunFault {
        match fault {
            ScriptFault::BadLine(line) => RunFault::BadScript(line),
            ScriptFault::TooManyNodes => RunFault::TooManyNodes,
            ScriptFault::Memory => RunFault::Memory,
        }
    }
}

impl From<OutOfMemory> for RunFault {
    ghost from_gives = { λ _ fault. fault ≡ Memory };

    fn from(_refused: OutOfMemory) -> RunFault {
        RunFault::Memory
    }
}

impl From<AllocError> for RunFault {
    ghost from_gives = { λ _ fault. fault ≡ Memory };

    fn from(_refused: AllocError) -> RunFault {
        RunFault::Memory
    }
}

/// Returns the fault of the run for an edit's fault in this line.
fn fault_at(line: usize, fault: EditFault) -> RunFault
    ensures { result ≡ fault_at line fault }
{
    match fault {
        EditFault::TooManyNodes => RunFault::TooManyNodes,
        EditFault::Memory => RunFault::Memory,
        fault => RunFault::Edit(line, fault),
    }
}

/// Does what one line asks for, and returns the nodes that are selected after it.
fn do_command<W: Write>(
    tree: &mut Tree,
    selection: Vec<NodeId>,
    command: &Command,
    line: usize,
    out: &mut W,
) -> Result<Vec<NodeId>, RunFault>
    ensures ok { IfOk result (λ selected. Did tree.old selection.items command.now
        (W.contents out.old) (W.contents out.new) tree.new selected.items) }
    ensures begun { OnErr result (DidBegin tree.old selection.items command.now
        (W.contents out.old) (W.contents out.new)) }
    ensures cause { IfErr result (CommandCause tree.old selection.items command.now line
        (W.contents out.old) (W.contents out.new)) }
{
    match command {
        Command::Nothing => Ok(selection),
        Command::Query(kind, matcher) => Ok(query(tree, &selection, *kind, matcher)?),
        Command::Navigate(navigation) => Ok(navigate(tree, &selection, *navigation)?),
        Command::Render(rendering) => {
            render(tree, &selection, *rendering, out)?;
            Ok(selection)
        }
        Command::Attr(name) => {
            write_attr(tree, &selection, name.as_str(), out)?;
            Ok(selection)
        }
        Command::Edit(edit) => match edit_selected(tree, &selection, edit) {
            Ok(()) => Ok(selection),
            Err(fault) => Err(fault_at(line, fault)),
        },
        Command::Sanitize(lists) => {
            clean(tree, lists.as_str())?;
            Ok(selection)
        }
    }
}

/// Returns the selection of the root.
fn root_alone(alloc: Global) -> Result<Vec<NodeId>, OutOfMemory>
    ensures { IfOk result (λ selection. selection.items ≡ 0 ∷ []) }
{
    let mut selection = Vec::new(alloc);
    selection.push(NodeId::root())?;
    Ok(selection)
}

/// Runs the commands of a script on a tree, in order, and writes their output to `out`. At the
/// beginning the root is selected. It fails with `Edit` when an edit isn't allowed (with the number
/// of the command, counted from 1), with `TooManyNodes` or `Memory` when ids or memory run out, and
/// with `Write` when the writer fails. After an error, what the earlier commands did to the tree
/// stays.
pub fn run_commands<W: Write>(
    alloc: Global,
    tree: &mut Tree,
    commands: &[Command],
    out: &mut W,
) -> Result<(), RunFault>
    ensures ok { OnOk result (DidAll tree.old (0 ∷ []) commands.now
        (W.contents out.old) (W.contents out.new) done) }
    ensures begun { OnErr result (DidAllBegin tree.old (0 ∷ []) commands.now
        (W.contents out.old) (W.contents out.new)) }
    ensures cause { IfErr result (CommandsCause tree.old (0 ∷ []) commands.now
        (W.contents out.old) (W.contents out.new)) }
{
    // Called for their contracts; the laws do nothing at run time.
    dom_select::laws::one_selection();
    dom_sanitize::laws::one_clean();
    let mut selection = root_alone(alloc)?;
    let mut line = 0usize;
    for command in commands {
        line += 1;
        selection = do_command(tree, selection, command, line, out)?;
    }
    Ok(())
}

/// Parses the markup. It fails with `BadMarkup`, `TooManyNodes` or `Memory`.
pub(crate) fn read_markup(alloc: Global, markup: &[u8]) -> Result<Document, RunFault>
    ensures ok { IfOk result (λ document. IsMarkup markup.now document.tree) }
    ensures refused { IfErr result (MarkupRefused markup.now) }
{
    let Ok(text) = str::from_utf8(markup) else {
        return Err(RunFault::BadMarkup);
    };
    match Document::parse(alloc, text) {
        Ok(document) => Ok(document),
        Err(fault) => Err(match fault.kind {
            MarkupFaultKind::Memory => RunFault::Memory,
            MarkupFaultKind::TooManyNodes => RunFault::TooManyNodes,
            _ => RunFault::BadMarkup,
        }),
    }
}

/// Parses the script, then the markup, and then does what the lines of the script ask for, in
/// order. The output goes to `out`. It fails with `BadScript` or `BadMarkup` before anything is
/// written; with `Edit` when an edit isn't allowed, after the output of the lines before it; and
/// with `TooManyNodes`, `Memory` or `Write`.
pub fn run<W: Write>(
    alloc: Global,
    markup: &[u8],
    script: &[u8],
    out: &mut W,
) -> Result<(), RunFault>
    // On success, everything that the script writes was written.
    ensures done { OnOk result (Ended markup.now script.now
        (W.contents out.old) (W.contents out.new) done) }
    // After any error, what was written is a beginning of that.
    ensures begun { OnErr result (Began markup.now script.now
        (W.contents out.old) (W.contents out.new)) }
    // When each fault comes.
    ensures cause { IfErr result (RunCause markup.now script.now
        (W.contents out.old) (W.contents out.new)) }
{
    // Called for their contracts; the laws do nothing at run time.
    dom_markup::laws::one_reading();
    dom_select::laws::one_reading();
    let commands = read_script(alloc, script)?;
    let mut document = read_markup(alloc, markup)?;
    run_commands(alloc, &mut document.tree, &commands, out)
}
