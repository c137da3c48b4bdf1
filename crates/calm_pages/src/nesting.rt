//! Which nodes may be children of which, so that tree construction leaves the tree as it is.

ghost use Rattle.std.specs.Prelude.{◌≡◌, if◌then◌else◌};
ghost use Rattle.calm_pages.specs.Calm.{admits, bars, behind, behind_first, inside};
ghost use Rattle.calm_pages.specs.Calm.{may_hold_comment, may_hold_text};
ghost use Rattle.calm_pages.specs.Scopes.{next_scope, scope_at, scope_below};

use crate::texts::{begins_line, has_close, is_whitespace, lacks_greater_than};
use dom_nodes::node_data::{NodeData, TreeNode};
use page_trees::ElementCategory;

/// The scope of a node: the category of its parent, and which kinds of elements are open around it.
#[derive(Clone, Copy, Drop)]
pub struct Scope {
    pub parent: ElementCategory,
    pub in_paragraph: bool,
    pub in_anchor: bool,
    pub in_button: bool,
    pub in_form: bool,
}

/// The scope of the root's children.
pub const TOP: Scope = Scope {
    parent: ElementCategory::Document,
    in_paragraph: false,
    in_anchor: false,
    in_button: false,
    in_form: false,
};

impl Scope {
    /// Returns whether an open element forbids an element of that category, such as a `p` in a `p`.
    fn bars(&self, kind: ElementCategory) -> bool
        ensures { result ≡ bars self.now kind }
    {
        match kind {
            ElementCategory::Anchor => self.in_anchor,
            ElementCategory::Button => self.in_button,
            ElementCategory::Form => self.in_paragraph || self.in_form,
            ElementCategory::Paragraph
            | ElementCategory::Block
            | ElementCategory::Heading
            | ElementCategory::Pre
            | ElementCategory::ItemList
            | ElementCategory::DescriptionList
            | ElementCategory::Table => self.in_paragraph,
            _ => false,
        }
    }

    /// Returns the scope of the children of an element of that category.
    pub fn inside(&self, kind: ElementCategory) -> Scope
        ensures { result ≡ inside self.now kind }
    {
        let mut scope = *self;
        scope.parent = kind;
        match kind {
            ElementCategory::Anchor => scope.in_anchor = true,
            ElementCategory::Button => scope.in_button = true,
            ElementCategory::Form => scope.in_form = true,
            ElementCategory::Paragraph => scope.in_paragraph = true,
            _ => {}
        }
        scope
    }

    /// Returns the scope of the later siblings of a node in this scope.
    pub fn behind(&self) -> Scope
        ensures { result ≡ behind self.now }
    {
        let mut scope = *self;
        scope.parent = behind_first(self.parent);
        scope
    }

    /// Returns the scope of a child, the first one or a later one.
    fn at(&self, is_first: bool) -> Scope
        ensures { result ≡ scope_at is_first self.now }
    {
        if is_first { *self } else { self.behind() }
    }

    /// Returns whether an element of that category may be in this scope.
    pub fn admits(&self, kind: ElementCategory) -> bool
        ensures { result ≡ admits self.now kind }
    {
        self.parent.may_hold(kind) && !self.bars(kind)
    }

    /// Returns the scope of the node's children, or `None` if the node may not be in this scope.
    pub fn below(&self, node: &NodeData) -> Option<Scope>
        ensures { result ≡ scope_below self.now node.now }
    {
        match node {
            NodeData::Text { contents } => { self.held(holds_text(self.parent, contents.as_str())) }
            NodeData::Comment { contents } => {
                self.held(holds_comment(self.parent, contents.as_str()))
            }
            NodeData::Doctype { .. } => self.held(self.parent.holds_doctype()),
            NodeData::Element(element) => self.below_element(ElementCategory::of(
                &element.name().local(),
            )),
            _ => None,
        }
    }

    /// Returns this scope, if it may hold a node that has no children.
    fn held(&self, holds: bool) -> Option<Scope>
        ensures { result ≡ (if holds then Some self.now else None) }
    {
        if holds { Some(*self) } else { None }
    }

    /// Returns the scope of the children of an element of that category, or `None` if the element
    /// may not be in this scope.
    fn below_element(&self, kind: ElementCategory) -> Option<Scope>
        ensures { result ≡ (if admits self.now kind then Some (inside self.now kind) else None) }
    {
        if !self.admits(kind) {
            return None;
        }
        Some(self.inside(kind))
    }
}

/// Returns the scope of the node's children, from the scopes of the nodes before it, or `None` if
/// the node may not be in the scope of its parent.
pub fn next_scope(node: &TreeNode, scopes: &[Scope]) -> Option<Scope>
    ensures { result ≡ next_scope scopes.now node.now.parent node.now.content }
{
    let parent = node.parent.get()?;
    let scope = scopes.get(parent.value())?;
    let is_first = parent.value() + 1 == scopes.len();
    scope.at(is_first).below(&node.content)
}

/// Returns the category by which children after the first are judged: a `pre` is then like any block.
fn behind_first(kind: ElementCategory) -> ElementCategory
    ensures { result ≡ behind_first kind }
{
    match kind {
        ElementCategory::Pre => ElementCategory::Block,
        _ => kind,
    }
}

/// Returns whether such an element may have this text as a child.
pub fn holds_text(parent: ElementCategory, contents: &str) -> bool
    ensures { result ≡ may_hold_text parent contents.now }
{
    match parent {
        ElementCategory::Html => is_whitespace(contents),
        ElementCategory::Verbatim => !has_close(contents),
        ElementCategory::Pre => !begins_line(contents),
        _ if parent.holds_parts() => is_whitespace(contents),
        _ => parent.holds_flow(),
    }
}

/// Returns whether such an element may have a comment with these contents as a child.
fn holds_comment(parent: ElementCategory, contents: &str) -> bool
    ensures { result ≡ may_hold_comment parent contents.now }
{
    parent.holds_comments() && lacks_greater_than(contents)
}
