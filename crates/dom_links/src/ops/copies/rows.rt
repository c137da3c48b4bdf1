//! The stack of rows that are still to be copied.

ghost use Rattle.std.specs.Prelude.{◌≡◌, ◌∷◌, ◌++◌, [], IfErr, MatchOption, OnErr, OnOk};
ghost use Rattle.dom_nodes.specs.declared.fault.EditFault.TheVariants.{Memory};

use super::Row;
use dom_nodes::fault::EditFault;
use std::alloc::Global;
use std::marker::Model;

/// A stack of rows. The top lies outside the vector, so that a stack of one row needs no
/// allocation. In a contract it is the list of the rows, the top last.
#[derive(Drop)]
pub(super) struct Rows {
    others: Vec<Row>,
    last: Option<Row>,
}

impl Model for Rows {
    ghost use Rattle.std.specs.Prelude.{◌++◌, List};
    ghost use Rattle.std.specs.Option.{option_to_list};
    ghost use Rattle.dom_links.specs.declared.ops.copies.Row.{Row};

    ghost Value = { List Row };

    ghost view = { λ rows. rows.others.items ++ option_to_list rows.last };
}

impl Rows {
    /// Returns an empty stack. It allocates no memory.
    #[inline(always)]
    pub(super) fn new(alloc: Global) -> Rows
        ensures { result ≡ [] }
    {
        Rows {
            others: Vec::new(alloc),
            last: None,
        }
    }

    /// Pushes a row. It fails with `Memory`, and the stack is then unchanged.
    #[inline(always)]
    pub(super) fn push(&mut self, row: Row) -> Result<(), EditFault>
        ensures ok { OnOk result (self.new ≡ self.old ++ row ∷ []) }
        ensures err { OnErr result (self.new ≡ self.old) }
        ensures cause { IfErr result (λ fault. fault ≡ Memory) }
    {
        if let Some(other) = self.last {
            add_row(&mut self.others, other)?;
        }
        self.last = Some(row);
        Ok(())
    }

    /// Pops the top row, or returns `None` when the stack is empty.
    #[inline(always)]
    pub(super) fn pop(&mut self) -> Option<Row>
        ensures { MatchOption result ((self.old ≡ []) × (self.new ≡ []))
            (λ row. self.old ≡ self.new ++ row ∷ []) }
    {
        match self.last {
            Some(row) => {
                self.last = None;
                Some(row)
            }
            None => self.others.pop(),
        }
    }
}

fn add_row(rows: &mut Vec<Row>, row: Row) -> Result<(), EditFault>
    ensures ok { OnOk result (rows.new.items ≡ rows.old.items ++ row ∷ []) }
    ensures err { OnErr result (rows.new.items ≡ rows.old.items) }
    ensures cause { IfErr result (λ fault. fault ≡ Memory) }
{
    match rows.push(row) {
        Ok(()) => Ok(()),
        Err(_) => Err(EditFault::Memory),
    }
}
