//! A limit on how deep elements nest. It is applied to the finished tree: an element that nests too
//! deep becomes the next sibling of the element that it is in.

ghost use Rattle.std.specs.Prelude.{◌≡◌, ◌≤◌, ◌<◌, ◌∷◌, ◌+◌, ◌^◌, [], IfOk, List, MatchOption, OnOk};
ghost use Rattle.std.specs.Prelude.{false, max, not, true};
ghost use Rattle.dom_links.specs.declared.edges.Edge.{Edge};
ghost use Rattle.dom_links.specs.Forest.{forest_of};
ghost use Rattle.dom_links.specs.ListMoves.{element_at};
ghost use Rattle.dom_links.specs.Moves.{moved_to};
ghost use Rattle.dom_links.specs.Sound.{IsSoundArena, contents_at};
ghost use Rattle.dom_links.specs.declared.gap.InsertionPoint.TheVariants.{After};
ghost use Rattle.dom_links.specs.declared.gap.MovedNodes.TheVariants.{Node};
ghost use Rattle.dom_trees.specs.Edits.{MayMove};
ghost use Rattle.page_trees.specs.DeepEdges.{all_nodes, goes_deep};
ghost use Rattle.page_trees.specs.Depth.{NestsWithin, may_nest, nests_to};
ghost use Rattle.page_trees.specs.Lifts.{IsInsideOf, Lifts};

use crate::fault::PageFault;
use crate::growing::BuiltTree;
use crate::shape::is_forest;
use dom_links::edges::{Descent, Edge, Entered, NodeEdges};
use dom_links::gap::{InsertionPoint, MovedNodes};
use dom_links::iters::{find_node, first_child_id, next_sibling_id, parent_id};
use dom_nodes::node_data::{NodeData, TreeNode};
use dom_nodes::node_id::NodeId;
use dom_trees::tree::Tree;

/// The traversal of all nodes, which marks those that stand directly in template contents.
struct AllNodes;

impl Descent for AllNodes {
    ghost descending = { all_nodes };

    #[inline(always)]
    fn inside(content: &NodeData) -> Entered {
        match content {
            NodeData::Element(_) => Entered::All,
            NodeData::Fragment => Entered::Children,
            _ => Entered::Nothing,
        }
    }

    #[inline(always)]
    fn mark(content: &NodeData) -> bool {
        matches!(content, NodeData::Fragment)
    }
}

/// Returns whether the node is an element.
#[inline(always)]
fn is_element(nodes: &[TreeNode], id: NodeId) -> bool
    requires { IsSoundArena nodes.now }
    ensures { result ≡ element_at (forest_of nodes.now) id }
{
    match find_node(nodes, id) {
        Some(node) => matches!(node.content, NodeData::Element(_)),
        None => false,
    }
}

/// Returns whether an element may be inside so many others.
#[inline(always)]
fn may_nest(most: usize, above: usize, spare: bool) -> bool
    ensures { result ≡ may_nest most above spare }
{
    above < most || (spare && above == most)
}

/// Returns how many elements a traversal is inside of after a step, or `None` where the step comes
/// to an element that nests too deep.
#[inline(always)]
fn above_after(nodes: &[TreeNode], most: usize, above: usize, edge: Edge) -> Option<usize>
    requires sound { IsSoundArena nodes.now }
    requires room { above ≤ most + 1 }
    requires most { most + 1 < 2 ^ 64 }
    ensures { (es : List Edge) → let deep = goes_deep (forest_of nodes.now) most in
        MatchOption result (deep above (edge ∷ es) ≡ true) (λ next.
        (deep above (edge ∷ es) ≡ deep next es) × (next ≤ most + 1)) }
{
    match edge {
        Edge::Open { id, marked } => {
            if !is_element(nodes, id) {
                return Some(above);
            }
            if !may_nest(most, above, marked) {
                return None;
            }
            Some(above + 1)
        }
        Edge::Close { id } => {
            if is_element(nodes, id) {
                return Some(above.saturating_sub(1));
            }
            Some(above)
        }
    }
}

/// Returns whether an element nests too deep, among those that the traversal comes to.
fn goes_deep(
    nodes: &[TreeNode],
    most: usize,
    mut edges: NodeEdges<'_, AllNodes>,
) -> Result<bool, PageFault>
    requires sound { IsSoundArena nodes.now }
    requires most { most + 1 < 2 ^ 64 }
    ensures { IfOk result (λ deep. deep ≡ goes_deep (forest_of nodes.now) most 0 edges.entry) }
{
    let mut above = 0;
    while let Some(edge) = edges.next()? {
        let Some(next) = above_after(nodes, most, above, edge) else {
            return Ok(true);
        };
        above = next;
    }
    Ok(false)
}

/// Returns whether an element nests too deep.
fn nests_too_deep(tree: &Tree, most: usize) -> Result<bool, PageFault>
    requires { most + 1 < 2 ^ 64 }
    ensures { IfOk result (λ deep. deep ≡ not (nests_to most tree.now)) }
{
    let nodes = tree.nodes();
    let edges = NodeEdges::of_children(tree.allocator(), nodes, tree.root_id())?;
    goes_deep(nodes, most, edges)
}

/// Moves a node to right after an element, if it is an element itself.
fn lift_child(tree: &mut Tree, element: NodeId, child: NodeId)
    requires { MayMove (After element) (Node child) tree.old }
    ensures lifted { element_at tree.old child ≡ true →
        tree.new ≡ moved_to (child ∷ []) (After element) tree.old }
    ensures other { element_at tree.old child ≡ false → tree.new ≡ tree.old }
{
    if is_element(tree.nodes(), child) {
        tree.move_allowed(InsertionPoint::After(element), MovedNodes::Node(child));
    }
}

/// Moves the elements among the children of a node to right after the element that this node is, or
/// whose template contents it is. They stay in order.
fn lift_from(tree: &mut Tree, element: NodeId, holder: NodeId) -> Result<(), PageFault>
    requires { IsInsideOf tree.old element holder }
    ensures { Lifts tree.new tree.old }
{
    is_forest(tree);
    if parent_id(tree.nodes(), &element).is_none() {
        return Ok(());
    }
    let mut children = tree.child_ids_of(&holder)?;
    while let Some(child) = children.pop() {
        is_forest(tree);
        lift_child(tree, element, child);
    }
    Ok(())
}

/// Returns the template contents of a node.
fn contents_of(tree: &Tree, id: NodeId) -> Option<NodeId>
    ensures { result ≡ contents_at tree.now id }
{
    tree.tree_node(&id)?.content.template_contents()
}

/// Moves the elements inside an element to right after it where they nest too deep: its child
/// elements if it nests as deep as is allowed, and those of its template contents if it is one
/// deeper.
fn lift(tree: &mut Tree, most: usize, element: NodeId, nesting: usize) -> Result<(), PageFault>
    ensures { Lifts tree.new tree.old }
{
    if nesting < most {
        return Ok(());
    }
    lift_from(tree, element, element)?;
    if nesting == most {
        return Ok(());
    }
    match contents_of(tree, element) {
        Some(contents) => lift_from(tree, element, contents),
        None => Ok(()),
    }
}

/// A node with its later siblings, which are still to be met, and how many elements they are in.
#[derive(Clone, Copy, Drop)]
struct Row {
    first: NodeId,
    above: usize,
}

/// Adds a node with its later siblings to those that are still to be met.
fn push_row(first: Option<NodeId>, above: usize, ahead: &mut Vec<Row>) -> Result<(), PageFault> {
    if let Some(first) = first {
        ahead.push(Row { first, above })?;
    }
    Ok(())
}

/// Adds what stands inside an element, which is nested so deep, to what is still to be met.
fn push_inside(
    tree: &Tree,
    most: usize,
    inside: Row,
    ahead: &mut Vec<Row>,
) -> Result<(), PageFault> {
    let Row {
        first: element,
        above: nesting,
    } = inside;
    if nesting < most {
        push_row(first_child_id(tree.nodes(), &element), nesting, ahead)?;
    }
    if nesting > most {
        return Ok(());
    }
    match contents_of(tree, element) {
        Some(contents) => push_row(first_child_id(tree.nodes(), &contents), nesting, ahead),
        None => Ok(()),
    }
}

/// Meets an element: the elements inside it are moved to right after it where they nest too deep.
fn pass_element(
    tree: &mut Tree,
    most: usize,
    row: Row,
    ahead: &mut Vec<Row>,
) -> Result<(), PageFault>
    ensures { Lifts tree.new tree.old }
{
    let nesting = row.above.saturating_add(1);
    lift(tree, most, row.first, nesting)?;
    push_row(next_sibling_id(tree.nodes(), &row.first), row.above, ahead)?;
    push_inside(
        tree,
        most,
        Row {
            first: row.first,
            above: nesting,
        },
        ahead,
    )
}

/// Meets a node.
fn pass(tree: &mut Tree, most: usize, row: Row, ahead: &mut Vec<Row>) -> Result<(), PageFault>
    ensures { Lifts tree.new tree.old }
{
    if is_element(tree.nodes(), row.first) {
        return pass_element(tree, most, row, ahead);
    }
    push_row(next_sibling_id(tree.nodes(), &row.first), row.above, ahead)
}

/// Moves each element that nests too deep to right after the element that it is in, from the
/// outermost on.
fn lift_deep(tree: &mut Tree, most: usize) -> Result<(), PageFault>
    ensures { Lifts tree.new tree.old }
{
    let mut ahead = Vec::new(tree.allocator());
    push_row(first_child_id(tree.nodes(), &tree.root_id()), 0, &mut ahead)?;
    // No node is met twice.
    for _ in 0..tree.len() {
        let Some(row) = ahead.pop() else {
            return Ok(());
        };
        pass(tree, most, row, &mut ahead)?;
    }
    Ok(())
}

/// The smallest limit on depth: `html`, `body`, and one more element.
const LEAST_DEPTH: usize = 3;

/// Makes sure that no more than `most` elements are nested in one another, and at least 3. A tree
/// that nests no deeper is unchanged. Otherwise each element that nests too deep becomes the next
/// sibling of the element that it is in; texts and comments stay in their element. Fails only when
/// memory runs out.
fn limit_depth(tree: &mut Tree, most: usize) -> Result<(), PageFault>
    ensures same { nests_to (max most 3) tree.old ≡ true → tree.new ≡ tree.old }
    ensures nests { OnOk result (nests_to (max most 3) tree.new ≡ true) }
    ensures lifts { Lifts tree.new tree.old }
{
    let most = most.max(LEAST_DEPTH);
    if tree.len() <= most {
        return Ok(());
    }
    if !nests_too_deep(tree, most)? {
        return Ok(());
    }
    lift_deep(tree, most)?;
    // This look at the result proves the clause `nests`. It is never too deep.
    if nests_too_deep(tree, most)? {
        return Err(PageFault::TooManyNodes);
    }
    Ok(())
}

/// Applies the limit on depth to the tree of a page or a fragment, if there is one.
pub(crate) fn within_depth(
    built: BuiltTree,
    max_depth: Option<usize>,
) -> Result<BuiltTree, PageFault>
    ensures same { NestsWithin max_depth built.tree → IfOk result (λ limited. limited ≡ built) }
    ensures nests { IfOk result (λ limited. NestsWithin max_depth limited.tree) }
    ensures lifts { IfOk result (λ limited. Lifts limited.tree built.tree) }
{
    let Some(most) = max_depth else {
        return Ok(built);
    };
    let mut limited = built;
    limit_depth(&mut limited.tree, most)?;
    Ok(limited)
}
