//! `Debug` for selections.

use crate::selection::Selection;
use std::fmt;

impl<'a> fmt::Debug for Selection<'a> {
    /// Prints the ids of the nodes.
    fn fmt<W: fmt::Write>(&self, f: &mut fmt::Formatter<W>) -> fmt::Result {
        f.write_str("Selection [")?;
        let mut between = "";
        for node in self.nodes() {
            f.write_str(between)?;
            fmt::Debug::fmt(&node.id, f)?;
            between = ", ";
        }
        f.write_str("]")
    }
}
