//! Changes of one node's own data. Its id, its kind, its template contents and all links stay.

ghost use Rattle.std.specs.Prelude.{◌≡◌, ◌<◌, false, IfErr, OnErr, OnOk, length};
ghost use Rattle.std.specs.Fn.{FnOnceReturnsAtMut};
ghost use Rattle.dom_nodes.specs.Change.{may_allocate, changed};
ghost use Rattle.dom_links.specs.Contents.{IsUpdatedAt, with_content};
ghost use Rattle.dom_trees.specs.Edits.{Edits, changing};
ghost use Rattle.dom_trees.specs.Refusals.{KnownCause};

use crate::checks::check_known;
use crate::tree::Tree;
use dom_links::ops::changes;
use dom_nodes::fault::EditFault;
use dom_nodes::node_data::{Change, NodeEdit};
use dom_nodes::node_id::NodeId;

impl Tree {
    /// Calls the closure with the name and the attributes of an element, or with the contents of a
    /// text or a comment, and stores what it leaves. For other kinds of nodes nothing changes. It
    /// allocates no memory, and fails with `UnknownNode` only.
    pub fn update_node<F: FnOnce(&mut NodeEdit) + Drop>(
        &mut self,
        id: &NodeId,
        change: F,
    ) -> Result<(), EditFault>
        requires { F.IsAlwaysCallable change }
        ensures ok { OnOk result (IsUpdatedAt
            (λ edit left. FnOnceReturnsAtMut F.FnOnce change edit tt left)
            id.now self.old self.new) }
        ensures known { OnOk result (id.now < length self.old.content) }
        ensures err { OnErr result (self.new ≡ self.old) }
        ensures cause { IfErr result (KnownCause id.now self.old) }
    {
        check_known(&self.nodes, *id)?;
        self.change_node(id, change);
        Ok(())
    }

    /// Does what `update_node` does, but for an unknown id it changes nothing instead of failing.
    pub(crate) fn change_node<F: FnOnce(&mut NodeEdit) + Drop>(&mut self, id: &NodeId, change: F)
        requires { F.IsAlwaysCallable change }
        ensures { IsUpdatedAt (λ edit left. FnOnceReturnsAtMut F.FnOnce change edit tt left)
            id.now self.old self.new }
    {
        let alloc = self.allocator();
        changes::update(&mut self.nodes, alloc, *id, change);
    }

    /// Applies a change to an element; a node of another kind is unchanged. It fails with
    /// `UnknownNode`, or with `Memory` for an element, when the change needs memory (see `Change`).
    pub fn try_change_of(&mut self, id: &NodeId, change: Change) -> Result<(), EditFault>
        ensures { Edits result self.old self.new (changing id.now change.entry) }
    {
        check_known(&self.nodes, *id)?;
        match changes::apply(&mut self.nodes, *id, change) {
            Ok(()) => Ok(()),
            Err(_) => Err(EditFault::Memory),
        }
    }

    /// Applies a change that allocates no memory. For an unknown id nothing changes.
    pub(crate) fn change_of(&mut self, id: &NodeId, change: Change)
        requires { may_allocate change ≡ false }
        ensures { self.new ≡ with_content id.now (changed change.entry) self.old }
    {
        let _ = changes::apply(&mut self.nodes, *id, change);
    }
}
