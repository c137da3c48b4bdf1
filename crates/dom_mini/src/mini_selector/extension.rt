//! Matching mini selectors against one node, and following paths of them from it, as methods of
//! `NodeRef` do in the Rust crate dom_query.

ghost use Rattle.std.specs.Prelude.{◌≡◌, ◌⊎◌, [], IfOk, MatchBool, MatchResult};
ghost use Rattle.dom_trees.specs.Views.{refs_to};
ghost use Rattle.dom_selectors.specs.MiniGrammar.{IsBadPath, RefusesPath};
ghost use Rattle.dom_mini.specs.MiniPaths.{AreRefsByNames, AreRefsFound, MiniTextHolds};
ghost use Rattle.dom_selectors.specs.MiniSyntax.{texts_of};
ghost use Rattle.dom_select.specs.MiniNodes.{mini_holds};

use crate::mini_selector::search::follow;
use crate::traversal::Traversal;
use dom_nodes::fault::OutOfMemory;
use dom_nodes::node_id::NodeId;
use dom_select::matcher::MatchNode;
use dom_selectors::mini_selector::fault::MiniFault;
use dom_selectors::mini_selector::parser::parse_selector_list;
use dom_selectors::mini_selector::selector::MiniSelector;
use dom_trees::node_ref::NodeRef;
use dom_trees::tree::Tree;

/// A node against which mini selectors and paths are matched.
pub trait MiniSelect<'a> {
    /// Returns the elements that a path of local names reaches: descendants of the node with the
    /// first name, their descendants with the next name, and so on. Each is returned once, in
    /// document order. An empty path reaches the node itself; if the tree has no such node, nothing
    /// is reached. Fails only when memory runs out.
    fn find(&self, path: &[&str]) -> Result<Vec<NodeRef<'a>>, OutOfMemory>;

    /// Returns the nodes that a path of mini selectors reaches from the node, each once, in
    /// document order. A text that starts with no mini selector reaches the node itself, if the
    /// tree has it; a text with a malformed quoted value reaches nothing. Fails only when memory
    /// runs out.
    fn find_descendants(&self, path: &str) -> Result<Vec<NodeRef<'a>>, OutOfMemory>;

    /// Returns the nodes that a path of mini selectors reaches, like `find_descendants`. Fails with
    /// `BadQuotedValue` if a quoted value is empty or not closed, and with `Memory`.
    fn try_find_descendants(&self, path: &str) -> Result<Vec<NodeRef<'a>>, MiniFault>;

    /// Returns whether the mini selector at the start of the text matches the node; `false` if the
    /// text starts with none. It parses the text on every call. Fails only when memory runs out.
    fn mini_is(&self, selector: &str) -> Result<bool, OutOfMemory>;

    /// Returns whether the mini selector matches the node. It allocates no memory.
    fn mini_match(&self, selector: &MiniSelector<'_>) -> bool;
}

/// Returns references to the nodes with these ids.
fn refs<'a>(tree: &'a Tree, ids: &[NodeId]) -> Result<Vec<NodeRef<'a>>, OutOfMemory>
    ensures { IfOk result (λ refs. refs.items ≡ refs_to tree.entry ids.now) }
{
    let refs = ids.iter().map(|id| NodeRef::new(*id, tree));
    Ok(refs.collect(tree.allocator())?)
}

impl<'a> MiniSelect<'a> for NodeRef<'a> {
    fn find(&self, path: &[&str]) -> Result<Vec<NodeRef<'a>>, OutOfMemory>
        ensures { IfOk result
            (λ found. AreRefsByNames (texts_of path.now) self.now.tree self.now.id found.items) }
    {
        let tree = self.tree;
        let nodes = tree.nodes();
        let ids = Traversal::find_descendant_elements(tree.allocator(), nodes, self.id, path)?;
        refs(tree, &ids)
    }

    fn find_descendants(&self, path: &str) -> Result<Vec<NodeRef<'a>>, OutOfMemory>
        ensures { IfOk result
            (λ found. AreRefsFound path.now self.now.tree self.now.id found.items
            ⊎ (IsBadPath path.now × (found.items ≡ []))) }
    {
        match self.try_find_descendants(path) {
            Ok(found) => Ok(found),
            Err(MiniFault::NoSelector) => Ok(Vec::new(self.tree.allocator())),
            Err(MiniFault::BadQuotedValue) => Ok(Vec::new(self.tree.allocator())),
            Err(MiniFault::Memory) => Err(OutOfMemory),
        }
    }

    fn try_find_descendants(&self, path: &str) -> Result<Vec<NodeRef<'a>>, MiniFault>
        ensures { MatchResult result
            (λ found. AreRefsFound path.now self.now.tree self.now.id found.items)
            (λ fault. RefusesPath fault path.now) }
    {
        let tree = self.tree;
        let (_, minis) = parse_selector_list(tree.allocator(), path)?;
        let ids = follow(tree.allocator(), tree.nodes(), self.id, &minis)?;
        Ok(refs(tree, &ids)?)
    }

    fn mini_is(&self, selector: &str) -> Result<bool, OutOfMemory>
        ensures { IfOk result
            (λ answer. MatchBool answer (MiniTextHolds selector.now self.now.tree.now self.now.id)
            (MiniTextHolds selector.now self.now.tree.now self.now.id → ⊥)) }
    {
        match MiniSelector::new(self.tree.allocator(), selector) {
            Ok(mini) => Ok(mini.match_node(self)),
            Err(MiniFault::NoSelector) => Ok(false),
            Err(MiniFault::BadQuotedValue) => Ok(false),
            Err(MiniFault::Memory) => Err(OutOfMemory),
        }
    }

    fn mini_match(&self, selector: &MiniSelector<'_>) -> bool
        ensures { result ≡ mini_holds selector.now self.now.tree.now self.now.id }
    {
        selector.match_node(self)
    }
}
