//! What is known of each node of a page before it is judged in rounds.

ghost use Rattle.std.specs.Prelude.{◌≡◌, [], false, length, IfOk, List};
ghost use Rattle.dom_links.specs.Forest.{parent};
ghost use Rattle.dom_links.specs.Trees.{descendants_in_order};
ghost use Rattle.dom_nodes.specs.declared.name.Attr.{Attr};
ghost use Rattle.dom_nodes.specs.declared.node_data.NodeData.TheVariants.{Element as AnElement};
ghost use Rattle.dom_article.specs.Attributes.{AreAttributes};
ghost use Rattle.dom_article.specs.Best.{facts_at};
ghost use Rattle.dom_article.specs.Facts.{AreFacts, AreHeld, IsBare, IsElement, IsNode};
ghost use Rattle.dom_article.specs.Facts.{holds_in, is_head};
ghost use Rattle.dom_article.specs.Known.{AreAlike, AreEachKnown, IsLookedAt, with_held};
ghost use Rattle.dom_article.specs.Names.{AreKinds};
ghost use Rattle.dom_article.specs.Nodes.{IsOrdered};
ghost use Rattle.dom_article.specs.Texts.{page_nodes};
ghost use Rattle.dom_article.specs.Words.{IsIndex, words_in};

use crate::attributes::Attributes;
use crate::hints::{
    has_letters, has_role, is_byline, is_date, is_hidden, is_input, is_input_tag, is_link, is_main,
    is_main_tag, is_unlikely, points_of_words, says_main,
};
use crate::kinds::{Kind, Kinds, Tag};
use crate::marking::forest_laws;
use crate::texts::TextFacts;
use crate::words::{Found, Words};
use dom_nodes::fault::OutOfMemory;
use dom_nodes::node_data::{Element, NodeData};
use dom_nodes::node_id::NodeId;
use dom_trees::tree::Tree;

/// What is known of a node.
#[derive(Clone, Copy, Drop)]
pub(crate) struct Facts {
    pub(crate) kind: Kind,
    /// What counts of its text, if it is one.
    pub(crate) text: TextFacts,
    /// What its class and its id add to its score.
    pub(crate) weight: i32,
    /// It says that it is the article.
    pub(crate) is_main: bool,
    /// It holds a first heading, or a node that says that it is the article.
    pub(crate) holds: bool,
    /// It is never shown, whatever words its class and id have.
    pub(crate) is_hidden: bool,
    /// Its role says that it isn't the article.
    pub(crate) has_role: bool,
    /// Its class and id say that it isn't the article.
    pub(crate) is_unlikely: bool,
    /// It has a class.
    pub(crate) has_class: bool,
    /// Its attributes say that it is the name of the author.
    pub(crate) is_byline: bool,
    /// Its attributes say that it is the date.
    pub(crate) is_date: bool,
    /// It has `role=main` or `itemprop=articleBody`.
    pub(crate) is_raised: bool,
    /// It is a link to somewhere else than a place of this page.
    pub(crate) is_link: bool,
    /// It is a control of a form into which text is written.
    pub(crate) is_input: bool,
}

impl Facts {
    /// Returns what is known of a node of which nothing but this is known.
    fn bare(tag: Tag, text: TextFacts, is_hidden: bool) -> Facts
        ensures bare { IsBare tag text is_hidden result }
        ensures holds { result.holds ≡ false }
    {
        Facts {
            kind: Kind::of(tag),
            text,
            weight: 0,
            is_main: false,
            holds: false,
            is_hidden,
            has_role: false,
            is_unlikely: false,
            has_class: false,
            is_byline: false,
            is_date: false,
            is_raised: false,
            is_link: false,
            is_input: false,
        }
    }
}

/// What is known of a node that there isn't.
static UNKNOWN: Facts = Facts {
    kind: Kind {
        tag: Tag::Other,
        is_block: false,
        is_heading: false,
        is_never: true,
        is_place: false,
        stays: false,
        is_never_bad: false,
        base: 0,
    },
    text: TextFacts {
        size: 0,
        commas: 0,
        ends: true,
        copyright: false,
    },
    weight: 0,
    is_main: false,
    holds: false,
    is_hidden: true,
    has_role: false,
    is_unlikely: false,
    has_class: false,
    is_byline: false,
    is_date: false,
    is_raised: false,
    is_link: false,
    is_input: false,
};

/// A page: its tree, the nodes below the root in document order, and what is known of each node.
#[derive(Drop)]
pub(crate) struct Page<'t> {
    pub(crate) tree: &'t Tree,
    pub(crate) order: Vec<NodeId>,
    pub(crate) facts: Vec<Facts>,
    /// By node id, the size of the texts below a node, without those of scripts and styles.
    lengths: Vec<u32>,
}

impl<'t> Page<'t> {
    /// Returns what is known of the nodes of a tree. Fails only when memory runs out.
    pub(crate) fn new(tree: &'t Tree) -> Result<Page<'t>, OutOfMemory>
        ensures tree { IfOk result (λ page. page.tree.now ≡ tree.now) }
        ensures order { IfOk result (λ page. IsOrdered page) }
        ensures facts { IfOk result (λ page. AreFacts tree.now page.facts.items) }
    {
        let order = tree.descendant_ids_of(&tree.root_id())?;
        let facts = facts_of_all(tree, &order)?;
        let lengths = lengths_of(tree, &order, &facts)?;
        Ok(Page {
            tree,
            order,
            facts,
            lengths,
        })
    }

    /// Returns what is known of a node.
    pub(crate) fn at(&self, id: NodeId) -> &Facts
        ensures { result.now ≡ facts_at self.now.facts.items id }
    {
        match self.facts.get(id.value()) {
            Some(facts) => facts,
            None => &UNKNOWN,
        }
    }

    /// Returns the size of the texts below a node, without those of scripts and styles.
    pub(crate) fn length(&self, id: NodeId) -> u32 {
        match self.lengths.get(id.value()) {
            Some(length) => *length,
            None => 0,
        }
    }

    /// Returns the tag of a node.
    pub(crate) fn tag(&self, id: NodeId) -> Tag
        ensures { result ≡ (facts_at self.now.facts.items id).kind.tag }
    {
        self.at(id).kind.tag
    }

    /// Returns the parent of a node.
    pub(crate) fn parent(&self, id: NodeId) -> Option<NodeId>
        ensures { result ≡ parent self.now.tree.now id }
    {
        parent_in(self.tree, id)
    }
}

/// Returns what is known of the nodes of a tree, by node id. Fails only when memory runs out.
fn facts_of_all(tree: &Tree, order: &[NodeId]) -> Result<Vec<Facts>, OutOfMemory>
    requires { order.now ≡ descendants_in_order tree.now 0 }
    ensures { IfOk result (λ facts. AreFacts tree.now facts.items) }
{
    let mut facts = facts_of_each(tree, order)?;
    hold_all(tree, order, &mut facts);
    Ok(facts)
}

/// Returns what is known of each node by itself. Fails only when memory runs out.
fn facts_of_each(tree: &Tree, order: &[NodeId]) -> Result<Vec<Facts>, OutOfMemory>
    requires { order.now ≡ descendants_in_order tree.now 0 }
    ensures { IfOk result (λ facts. AreEachKnown tree.now facts.items
        (descendants_in_order tree.now 0)) }
{
    forest_laws(tree);
    let alloc = tree.allocator();
    let mut kinds = Kinds::new(alloc)?;
    let mut words = Words::new(alloc)?;
    let document = Facts::bare(Tag::Document, TextFacts::NONE, false);
    let mut facts = vec![in alloc; document; tree.len()]?;
    let mut rest = order;
    while let Some((id, others)) = rest.split_first() {
        look_at(tree, *id, &mut kinds, &mut words, &mut facts)?;
        rest = others;
    }
    Ok(facts)
}

/// Looks at a node by itself.
fn look_at(
    tree: &Tree,
    id: NodeId,
    kinds: &mut Kinds,
    words: &mut Words,
    facts: &mut Vec<Facts>,
) -> Result<(), OutOfMemory>
    requires kinds { AreKinds kinds.old }
    requires words { IsIndex words.old }
    ensures kinds { AreKinds kinds.new }
    ensures words { IsIndex words.new }
    ensures facts { IfOk result (λ _. IsLookedAt tree.now id facts.old.items facts.new.items) }
{
    let Some(node) = tree.tree_node(&id) else {
        return Ok(());
    };
    let known = facts_of(&node.content, kinds, words)?;
    if let Some(slot) = facts.get_mut(id.value()) {
        *slot = known;
    }
    Ok(())
}

/// Finds the nodes that hold the article, from the last node to the first.
fn hold_all(tree: &Tree, order: &[NodeId], facts: &mut Vec<Facts>)
    requires order { order.now ≡ descendants_in_order tree.now 0 }
    requires long { length facts.old.items ≡ length tree.now.content }
    ensures held { AreHeld tree.now facts.new.items (page_nodes tree.now) }
    ensures kept { AreAlike facts.old.items facts.new.items }
{
    forest_laws(tree);
    for id in order.iter().rev() {
        hold(tree, *id, facts);
    }
    hold(tree, tree.root_id(), facts);
}

/// Finds whether a node holds the article, when that is known of its children.
fn hold(tree: &Tree, id: NodeId, facts: &mut Vec<Facts>)
    ensures { facts.new.items ≡ with_held tree.now id facts.old.items }
{
    let holds = holds_at(tree, id, facts);
    if let Some(slot) = facts.get_mut(id.value()) {
        slot.holds = holds;
    }
}

/// Returns whether a node is a first heading, says that it is the article, or has a child that
/// holds it.
fn holds_at(tree: &Tree, id: NodeId, facts: &[Facts]) -> bool
    ensures { result ≡ holds_in tree.now facts.now id }
{
    if is_head(facts_in(facts, id)) {
        return true;
    }
    for child in tree.child_ids_of_it(&id, false) {
        if facts_in(facts, child).holds {
            return true;
        }
    }
    false
}

/// Returns whether a node is a first heading or says that it is the article.
fn is_head(facts: &Facts) -> bool
    ensures { result ≡ is_head facts.now }
{
    if facts.is_main {
        return true;
    }
    matches!(facts.kind.tag, Tag::H1)
}

/// Returns what is known of a node.
fn facts_in(facts: &[Facts], id: NodeId) -> &Facts
    ensures { result.now ≡ facts_at facts.now id }
{
    match facts.get(id.value()) {
        Some(facts) => facts,
        None => &UNKNOWN,
    }
}

/// Returns the sizes of the texts below each node, without those of scripts and styles, by node id.
/// Fails only when memory runs out.
fn lengths_of(tree: &Tree, order: &[NodeId], facts: &[Facts]) -> Result<Vec<u32>, OutOfMemory> {
    let mut lengths: Vec<u32> = vec![in tree.allocator(); 0; tree.len()]?;
    for id in order.iter().rev() {
        let known = facts_in(facts, *id);
        let mut length = known.text.size;
        if let Some(slot) = lengths.get_mut(id.value()) {
            *slot = slot.saturating_add(length);
            length = *slot;
        }
        if matches!(known.kind.tag, Tag::Script | Tag::Style) {
            continue;
        }
        if let Some(parent) = parent_in(tree, *id)
            && let Some(slot) = lengths.get_mut(parent.value())
        {
            *slot = slot.saturating_add(length);
        }
    }
    Ok(lengths)
}

/// Returns the parent of a node.
fn parent_in(tree: &Tree, id: NodeId) -> Option<NodeId>
    ensures { result ≡ parent tree.now id }
{
    forest_laws(tree);
    match tree.tree_node(&id) {
        Some(node) => node.parent.get(),
        None => None,
    }
}

/// Returns what is known of a node by itself.
fn facts_of(content: &NodeData, kinds: &mut Kinds, words: &mut Words) -> Result<Facts, OutOfMemory>
    requires kinds { AreKinds kinds.old }
    requires words { IsIndex words.old }
    ensures kinds { AreKinds kinds.new }
    ensures words { IsIndex words.new }
    ensures facts { IfOk result (λ facts. IsNode content.now facts) }
{
    match content {
        NodeData::Text { contents } => {
            let text = TextFacts::of(contents.as_str());
            Ok(Facts::bare(Tag::Text, text, false))
        }
        NodeData::Element(element) => facts_of_element(element, kinds, words),
        _ => Ok(Facts::bare(Tag::Other, TextFacts::NONE, true)),
    }
}

/// Returns what is known of an element by itself.
fn facts_of_element(
    element: &Element,
    kinds: &mut Kinds,
    words: &mut Words,
) -> Result<Facts, OutOfMemory>
    requires kinds { AreKinds kinds.old }
    requires words { IsIndex words.old }
    ensures kinds { AreKinds kinds.new }
    ensures words { IsIndex words.new }
    ensures facts { IfOk result (λ facts. IsNode (AnElement element.now) facts) }
{
    let kind = kinds.kind_of(&element.name().local());
    if element.attrs().as_slice().is_empty() {
        return Ok(plain_facts(kind));
    }
    let attributes = Attributes::of(element);
    let class = words.find(attributes.class)?;
    let id = words.find(attributes.id)?;
    Ok(element_facts(kind, &attributes, &class, &id))
}

/// Returns what is known of an element of this kind without attributes.
fn plain_facts(kind: Kind) -> Facts
    ensures { IsElement kind [] (words_in []) (words_in []) result }
{
    Facts {
        kind,
        text: TextFacts::NONE,
        weight: 0,
        is_main: is_main_tag(kind.tag),
        holds: false,
        is_hidden: kind.is_never,
        has_role: false,
        is_unlikely: false,
        has_class: false,
        is_byline: false,
        is_date: false,
        is_raised: false,
        is_link: false,
        is_input: is_input_tag(kind.tag),
    }
}

/// Returns what is known of an element of this kind with these attributes, in whose class and id
/// these words are.
fn element_facts(kind: Kind, attributes: &Attributes<'_>, class: &Found, id: &Found) -> Facts
    ensures { (attrs : List Attr) → AreAttributes attrs attributes.now
        → IsElement kind attrs class.now id.now result }
{
    Facts {
        kind,
        text: TextFacts::NONE,
        weight: points_of_words(&kind, class, id),
        is_main: is_main(kind.tag, attributes),
        holds: false,
        is_hidden: is_hidden(&kind, attributes),
        has_role: has_role(kind.tag, attributes),
        is_unlikely: is_unlikely(&kind, class, id),
        has_class: has_letters(attributes.class),
        is_byline: is_byline(attributes, class, id),
        is_date: is_date(kind.tag, attributes),
        is_raised: says_main(attributes),
        is_link: is_link(kind.tag, attributes),
        is_input: is_input(kind.tag, attributes),
    }
}
