//! The script lines that edit the tree.

ghost use Rattle.dom_edits.specs.Edits.{edit_at};
ghost use Rattle.dom_query.specs.Editing.{EditsOrFails, line_edit, targets};

use dom_edits::edit::{Edit, edit_each};
use dom_nodes::fault::EditFault;
use dom_nodes::node_data::Change;
use dom_nodes::node_id::NodeId;
use dom_script::script::edit_line::{EditLine, names_of};
use dom_trees::tree::Tree;

/// Makes the edit at each of the nodes.
fn do_each(tree: &mut Tree, nodes: &[NodeId], edit: Edit) -> Result<(), EditFault>
    ensures { EditsOrFails result tree.old tree.new nodes.now (edit_at edit.entry) }
{
    match edit_each(tree, nodes, edit) {
        Ok(()) => Ok(()),
        Err(stop) => Err(stop.fault),
    }
}

/// Replaces elements below each of the nodes by their children. The names are separated by single
/// spaces.
fn strip_each(tree: &mut Tree, nodes: &[NodeId], names: &str) -> Result<(), EditFault>
    ensures { EditsOrFails result tree.old tree.new nodes.now
        (line_edit (EditLine.Strip names.now)) }
{
    let names = names_of(tree.allocator(), names)?;
    do_each(tree, nodes, Edit::Strip(&names))
}

/// Makes the edit of a line at each selected node; `normalize` is made at the root. It fails with
/// the fault of the first node at which the edit fails.
pub fn edit_selected(tree: &mut Tree, nodes: &[NodeId], edit: &EditLine) -> Result<(), EditFault>
    ensures { EditsOrFails result tree.old tree.new (targets edit.now nodes.now)
        (line_edit edit.now) }
{
    match edit {
        EditLine::SetAttr { name, value } => {
            let name = name.as_str();
            let value = value.as_str();
            do_each(tree, nodes, Edit::Change(Change::SetAttr { name, value }))
        }
        EditLine::RemoveAttr(name) => {
            do_each(tree, nodes, Edit::Change(Change::RemoveAttr(name.as_str())))
        }
        EditLine::Rename(name) => {
            do_each(tree, nodes, Edit::Change(Change::Rename(name.as_str())))
        }
        EditLine::AddClass(words) => {
            let change = Change::AddClass(words.as_str());
            do_each(tree, nodes, Edit::Change(change))
        }
        EditLine::RemoveClass(words) => {
            let change = Change::RemoveClass(words.as_str());
            do_each(tree, nodes, Edit::Change(change))
        }
        EditLine::SetText(text) => do_each(tree, nodes, Edit::SetText(text.as_str())),
        EditLine::Strip(names) => strip_each(tree, nodes, names.as_str()),
        EditLine::Put(place, snippet) => do_each(tree, nodes, Edit::Put(*place, snippet)),
        EditLine::Remove => do_each(tree, nodes, Edit::Remove),
        EditLine::Unwrap => do_each(tree, nodes, Edit::Unwrap),
        EditLine::Normalize => do_each(tree, &[NodeId::root()], Edit::Normalize),
    }
}
