//! The ids of the nodes at the top level of what was parsed.

ghost use Rattle.std.specs.Prelude.{◌≡◌, ◌∷◌, ◌++◌, [], IfOk, OnOk};

use dom_nodes::fault::OutOfMemory;
use dom_nodes::node_id::NodeId;
use std::alloc::Global;
use std::marker::Model;

/// A list of node ids that needs no memory of its own for none or one. A contract sees it as a
/// list.
#[derive(Drop)]
pub(super) struct IdList {
    form: Form,
    alloc: Global,
}

impl Model for IdList {
    ghost use Rattle.std.specs.Prelude.{List, ℕ};
    ghost use Rattle.dom_markup.specs.IdLists.{numbers};

    ghost Value = { List ℕ };

    ghost view = { λ top_ids. numbers top_ids.form };
}

/// Where the ids are stored.
#[derive(Drop)]
enum Form {
    Nothing,
    One([NodeId; 1]),
    Many(Vec<NodeId>),
}

impl IdList {
    /// Returns an empty list.
    pub(super) fn new(alloc: Global) -> IdList
        ensures { result ≡ [] }
    {
        IdList {
            form: Form::Nothing,
            alloc,
        }
    }

    /// Returns the ids, in order.
    pub(super) fn as_slice(&self) -> &[NodeId]
        ensures { result.now ≡ self.now }
    {
        match &self.form {
            Form::Nothing => &[],
            Form::One(number) => number,
            Form::Many(all) => all.as_slice(),
        }
    }

    /// Appends an id. Fails only when memory runs out.
    pub(super) fn push(&mut self, id: NodeId) -> Result<(), OutOfMemory>
        ensures { OnOk result (self.new ≡ self.old ++ id ∷ []) }
    {
        match &mut self.form {
            Form::Nothing => {
                self.form = Form::One([id]);
            }
            Form::One(one) => {
                let first = one[0];
                let both = both(self.alloc, first, id)?;
                self.form = Form::Many(both);
            }
            Form::Many(all) => {
                all.push(id)?;
            }
        }
        Ok(())
    }
}

fn both(alloc: Global, first: NodeId, second: NodeId) -> Result<Vec<NodeId>, OutOfMemory>
    ensures { IfOk result (λ all. all.items ≡ first ∷ second ∷ []) }
{
    let mut all = Vec::new(alloc);
    all.push(first)?;
    all.push(second)?;
    Ok(all)
}
