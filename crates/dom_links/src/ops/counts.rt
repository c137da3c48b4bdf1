//! Counting the characters of a node's text.

ghost use Rattle.std.specs.Prelude.{◌≡◌, ◌++◌, ℕ, List, length};
ghost use Rattle.dom_links.specs.Forest.{forest_of};
ghost use Rattle.dom_links.specs.Sound.{IsSoundArena};
ghost use Rattle.dom_links.specs.Texts.{IsCounting, collapsed, text_of, saturated};

use crate::iters::DescendantNodes;
use crate::ops::TreeNodeOps;
use crate::ops::texts::text_at;
use dom_nodes::node_data::TreeNode;
use dom_nodes::node_id::NodeId;

impl TreeNodeOps {
    /// Returns the number of characters in the text of a node, where each sequence of white space
    /// counts as one character and white space at the ends counts as none. It allocates no memory.
    /// A count larger than `usize::MAX` is returned as `usize::MAX`. For an unknown id the result
    /// is 0.
    pub fn normalized_char_count(nodes: &[TreeNode], id: &NodeId) -> usize
        requires { IsSoundArena nodes.now }
        ensures { result ≡ saturated (length (collapsed (text_of (forest_of nodes.now) id.now))) }
    {
        let mut read = Collapsing {
            count: 0,
            gap: false,
        };
        add_text(&mut read, text_at(nodes, *id));
        for below in DescendantNodes::new(nodes, id) {
            add_text(&mut read, text_at(nodes, below));
        }
        read.count
    }
}

/// The state of the count: the number of characters so far, and whether white space has been read
/// since the last one.
#[derive(Drop)]
struct Collapsing {
    count: usize,
    gap: bool,
}

/// Counts the characters of one more text.
fn add_text(read: &mut Collapsing, text: &str)
    ensures { (rest : List ℕ) (total : ℕ)
        → IsCounting read.old.count read.old.gap (text.now ++ rest) total
        → IsCounting read.new.count read.new.gap rest total }
{
    for c in text.chars() {
        if c.is_whitespace() {
            read.gap = read.count > 0;
        } else {
            let more = if read.gap { 2 } else { 1 };
            read.count = read.count.saturating_add(more);
            read.gap = false;
        }
    }
}
