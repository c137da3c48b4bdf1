//! The form element pointer (13.2.4.4).

ghost use Rattle.std.specs.Prelude.{◌≡◌};
ghost use Rattle.page_trees.specs.Modes.{points_nowhere};

use dom_nodes::node_id::NodeId;

/// The form element pointer. `Context` is a form outside the tree: the context element of a
/// fragment.
#[derive(Clone, Copy, Drop)]
pub enum FormPointer {
    None,
    Context,
    Element(NodeId),
}

impl FormPointer {
    pub fn is_none(&self) -> bool
        ensures { result ≡ points_nowhere self.now }
    {
        matches!(self, FormPointer::None)
    }
}
