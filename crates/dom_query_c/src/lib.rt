//! HTML documents, policies and readers behind handles. `c/dom_query.c` calls these functions, and
//! gives C what `include/dom_query.h` describes.
#![tactic(auto)]

ghost use Rattle.std.specs.Prelude.{◌≡◌, ◌∷◌, [], IfOk, MatchOption, None, Some};
ghost use Rattle.std.specs.Prelude.{string_bytes, true, ⊤};
ghost use Rattle.std.specs.List.{flat_map};
ghost use Rattle.std.specs.Option.{is_some};
ghost use Rattle.dom_links.specs.Texts.{text_of};
ghost use Rattle.dom_markup.specs.Documents.{IsDocumentOf};
ghost use Rattle.dom_markup.specs.Html.{html_of, inner_html_of};
ghost use Rattle.dom_md.specs.Formatted.{formatted_below};
ghost use Rattle.dom_md.specs.Words.{ReadsAsWords};
ghost use Rattle.dom_select.specs.ByText.{ByText};
ghost use Rattle.dom_select.specs.Descendants.{IsMatch};
ghost use Rattle.dom_select.specs.Selected.{Selected};
ghost use Rattle.dom_trees.specs.Edits.{making, normalizing, removing, setting_text};
ghost use Rattle.dom_trees.specs.NewNodes.{bare_element, html_name, text_node};
ghost use Rattle.dom_nodes.specs.Words.{class_words};
ghost use Rattle.dom_trees.specs.Views.{node_attr, node_attrs, node_name};
ghost use Rattle.page_trees.specs.Shape.{IsPage};
ghost use Rattle.c_state.specs.Answers.{ChangesTree, EditsTree, Forgets, GivesNodes, GivesText};
ghost use Rattle.c_state.specs.Answers.{GivesTextThat, MakesNode, SaysWhether};
ghost use Rattle.c_state.specs.Decodings.{IsDecodedPage, source_number};
ghost use Rattle.c_state.specs.Edits.{IsMoved, IsPut, IsSanitized, attr_removed, attr_set};
ghost use Rattle.c_state.specs.Edits.{element_renamed, unwrapped_node};
ghost use Rattle.c_state.specs.KindNumbers.{HasContents, HasKind};
ghost use Rattle.c_state.specs.Names.{is_attribute_name, is_element_name};
ghost use Rattle.c_state.specs.Neighbours.{IsFirst, along, neighbour};
ghost use Rattle.c_state.specs.Pieces.{GivesPieces, attr_pieces};
ghost use Rattle.dom_query_c.specs.Calls.{Asks, GivesKept, Reads};

/// Asks what the handle holds.
macro_rules! ask {
    ($alloc:expr, $handle:expr, $state:ident => $question:expr) => {
        match $handle.take($alloc) {
            Some(boxed) => {
                let mut $state = boxed;
                let given = $question;
                $handle.put($state);
                $handle.answer(given)
            }
            None => $handle.note(Fault::Closed),
        }
    };
}

mod articles;
mod handle;
mod parts;
mod policies;
mod policy_handle;
mod policy_slot;
mod reader_handle;
mod reader_slot;
mod readers;
mod slot;

use c_state::{Fault, State, fault_text};
use handle::Handle;
use std::alloc::Global;

/// Reads a page, as browsers do, in place of what the handle held.
#[unsafe(no_mangle)]
pub extern "C" fn dq_proved_parse_page(
    alloc: Global,
    handle: &mut Handle,
    html: &[u8],
    max_depth: usize,
) -> i64
    ensures { Reads handle.old.slot.state handle.new.slot.state result
        (λ state. IsPage state.document.tree) }
{
    handle.fill(alloc, State::parse_page(alloc, html, max_depth))
}

/// Reads explicit markup, in place of what the handle held.
#[unsafe(no_mangle)]
pub extern "C" fn dq_proved_parse(alloc: Global, handle: &mut Handle, html: &[u8]) -> i64
    ensures { Reads handle.old.slot.state handle.new.slot.state result
        (λ state. IsDocumentOf html.now state.document) }
{
    handle.fill(alloc, State::parse(alloc, html))
}

/// Reads a fragment of a page, as browsers do inside an element of that name.
#[unsafe(no_mangle)]
pub extern "C" fn dq_proved_parse_fragment(
    alloc: Global,
    handle: &mut Handle,
    html: &[u8],
    context: &[u8],
) -> i64
    ensures { Reads handle.old.slot.state handle.new.slot.state result
        (λ _. ⊤) }
{
    handle.fill(alloc, State::parse_fragment(alloc, html, context))
}

/// Reads a page in any encoding, in place of what the handle held.
#[unsafe(no_mangle)]
pub extern "C" fn dq_proved_parse_bytes(
    alloc: Global,
    handle: &mut Handle,
    bytes: &[u8],
    label: &[u8],
    max_depth: usize,
) -> i64
    ensures { Reads handle.old.slot.state handle.new.slot.state result
        (IsDecodedPage label.now bytes.now max_depth) }
{
    handle.fill(alloc, State::parse_bytes(alloc, bytes, label, max_depth))
}

/// Takes the name of the encoding that the page was in: its length.
#[unsafe(no_mangle)]
pub extern "C" fn dq_proved_encoding(alloc: Global, handle: &mut Handle, to: &mut [u8]) -> i64
    ensures { Asks handle.old.slot.state handle.new.slot.state result
        (λ given s t. GivesTextThat given s t to.old to.new (λ _. is_some s.decoded ≡ true)) }
{
    ask!(alloc, handle, state => state.take_encoding(to))
}

/// What says in which encoding the page was.
#[unsafe(no_mangle)]
pub extern "C" fn dq_proved_encoding_source(alloc: Global, handle: &mut Handle) -> i64
    ensures { Asks handle.old.slot.state handle.new.slot.state result
        (λ given s t. (t ≡ s) × IfOk given (λ number. MatchOption s.decoded ⊥
        (λ decoded. number ≡ source_number decoded.source))) }
{
    ask!(alloc, handle, state => state.encoding_source())
}

/// How many characters stand for bytes that could not be decoded.
#[unsafe(no_mangle)]
pub extern "C" fn dq_proved_replaced(alloc: Global, handle: &mut Handle) -> i64
    ensures { Asks handle.old.slot.state handle.new.slot.state result
        (λ given s t. (t ≡ s) × IfOk given (λ count. MatchOption s.decoded ⊥
        (λ decoded. count ≡ decoded.replaced))) }
{
    ask!(alloc, handle, state => state.replaced())
}

/// Frees what the handle holds; it is then empty.
#[unsafe(no_mangle)]
pub extern "C" fn dq_proved_free(alloc: Global, handle: &mut Handle)
    ensures { handle.new.slot.state ≡ None }
{
    drop(handle.take(alloc));
}

/// Finds the elements below the node that match the selectors: how many there are.
#[unsafe(no_mangle)]
pub extern "C" fn dq_proved_select(
    alloc: Global,
    handle: &mut Handle,
    root: u32,
    selectors: &[u8],
    to: &mut [u32],
) -> i64
    ensures { Asks handle.old.slot.state handle.new.slot.state result
        (λ given s t. GivesNodes given s t to.old to.new (λ ids. ByText selectors.now
        (λ list. Selected s.document.tree (root ∷ []) list ids))) }
{
    ask!(alloc, handle, state => state.select(root, selectors, to))
}

/// The first element below the node that matches the selectors.
#[unsafe(no_mangle)]
pub extern "C" fn dq_proved_select_first(
    alloc: Global,
    handle: &mut Handle,
    root: u32,
    selectors: &[u8],
) -> i64
    ensures { Asks handle.old.slot.state handle.new.slot.state result
        (λ given s t. (t ≡ s) × IfOk given (λ found. ByText selectors.now
        (λ list. IsFirst list s.document.tree root found))) }
{
    ask!(alloc, handle, state => state.select_first(root, selectors))
}

/// Whether the node matches the selectors: 1 or 0.
#[unsafe(no_mangle)]
pub extern "C" fn dq_proved_matches(
    alloc: Global,
    handle: &mut Handle,
    node: u32,
    selectors: &[u8],
) -> i64
    ensures { Asks handle.old.slot.state handle.new.slot.state result
        (λ given s t. (t ≡ s) × IfOk given (λ answer. ByText selectors.now
        (λ list. SaysWhether answer (IsMatch list s.document.tree node)))) }
{
    ask!(alloc, handle, state => state.matches(node, selectors))
}

/// The texts of the elements below the node that match the selectors: how many there are.
#[unsafe(no_mangle)]
pub extern "C" fn dq_proved_select_texts(
    alloc: Global,
    handle: &mut Handle,
    root: u32,
    selectors: &[u8],
) -> i64
    ensures { Asks handle.old.slot.state handle.new.slot.state result
        (λ given s t. GivesPieces given s t (λ n. Some (text_of s.document.tree n))
        (λ ids. ByText selectors.now
        (λ list. Selected s.document.tree (root ∷ []) list ids))) }
{
    ask!(alloc, handle, state => state.select_texts(root, selectors))
}

/// The HTML of the elements below the node that match the selectors: how many there are.
#[unsafe(no_mangle)]
pub extern "C" fn dq_proved_select_html(
    alloc: Global,
    handle: &mut Handle,
    root: u32,
    selectors: &[u8],
) -> i64
    ensures { Asks handle.old.slot.state handle.new.slot.state result
        (λ given s t. GivesPieces given s t (λ n. Some (html_of s.document.tree n))
        (λ ids. ByText selectors.now
        (λ list. Selected s.document.tree (root ∷ []) list ids))) }
{
    ask!(alloc, handle, state => state.select_html(root, selectors))
}

/// An attribute of each element below the node that matches the selectors: how many there are.
#[unsafe(no_mangle)]
pub extern "C" fn dq_proved_select_attrs(
    alloc: Global,
    handle: &mut Handle,
    root: u32,
    selectors: &[u8],
    name: &[u8],
) -> i64
    ensures { Asks handle.old.slot.state handle.new.slot.state result
        (λ given s t. GivesPieces given s t (λ n. node_attr s.document.tree n name.now)
        (λ ids. ByText selectors.now
        (λ list. Selected s.document.tree (root ∷ []) list ids))) }
{
    ask!(alloc, handle, state => state.select_attrs(root, selectors, name))
}

/// Writes the ids of the nodes that were found last to `to`, as far as they fit, and returns how
/// many there are.
#[unsafe(no_mangle)]
pub extern "C" fn dq_proved_found(alloc: Global, handle: &mut Handle, to: &mut [u32]) -> i64
    ensures { Asks handle.old.slot.state handle.new.slot.state result
        (λ given s t. (t ≡ s) × GivesKept given to.old to.new s.ids.items) }
{
    ask!(alloc, handle, state => Ok(state.write_ids(to)))
}

/// Writes the text that was taken last to `to`, as far as it fits, and returns its length in bytes.
#[unsafe(no_mangle)]
pub extern "C" fn dq_proved_taken(alloc: Global, handle: &mut Handle, to: &mut [u8]) -> i64
    ensures { Asks handle.old.slot.state handle.new.slot.state result
        (λ given s t. (t ≡ s) × GivesKept given to.old to.new (string_bytes s.text)) }
{
    ask!(alloc, handle, state => Ok(state.write_text(to)))
}

/// Writes the lengths in bytes of the pieces of which the text that was taken last consists, such
/// as the names and values of attributes, to `to`, as far as they fit, and returns how many pieces
/// there are.
#[unsafe(no_mangle)]
pub extern "C" fn dq_proved_lengths(alloc: Global, handle: &mut Handle, to: &mut [u32]) -> i64
    ensures { Asks handle.old.slot.state handle.new.slot.state result
        (λ given s t. (t ≡ s) × GivesKept given to.old to.new s.lengths.items) }
{
    ask!(alloc, handle, state => Ok(state.write_lengths(to)))
}

/// Gives back the memory of what was found and taken last.
#[unsafe(no_mangle)]
pub extern "C" fn dq_proved_forget(alloc: Global, handle: &mut Handle) -> i64
    ensures { Asks handle.old.slot.state handle.new.slot.state result
        (λ given s t. Forgets given s t) }
{
    ask!(alloc, handle, state => state.forget())
}

/// Takes the text at the node: its length.
#[unsafe(no_mangle)]
pub extern "C" fn dq_proved_text(
    alloc: Global,
    handle: &mut Handle,
    node: u32,
    to: &mut [u8],
) -> i64
    ensures { Asks handle.old.slot.state handle.new.slot.state result
        (λ given s t. GivesText given s t to.old to.new (text_of s.document.tree node)) }
{
    ask!(alloc, handle, state => state.take_text(node, to))
}

/// Takes the HTML of the node: its length.
#[unsafe(no_mangle)]
pub extern "C" fn dq_proved_html(
    alloc: Global,
    handle: &mut Handle,
    node: u32,
    to: &mut [u8],
) -> i64
    ensures { Asks handle.old.slot.state handle.new.slot.state result
        (λ given s t. GivesText given s t to.old to.new (html_of s.document.tree node)) }
{
    ask!(alloc, handle, state => state.take_html(node, to))
}

/// Takes the HTML of the node's children: its length.
#[unsafe(no_mangle)]
pub extern "C" fn dq_proved_inner_html(
    alloc: Global,
    handle: &mut Handle,
    node: u32,
    to: &mut [u8],
) -> i64
    ensures { Asks handle.old.slot.state handle.new.slot.state result
        (λ given s t. GivesText given s t to.old to.new
        (inner_html_of s.document.tree node)) }
{
    ask!(alloc, handle, state => state.take_inner_html(node, to))
}

/// Takes the node as Markdown that readers show as the page: its length.
#[unsafe(no_mangle)]
pub extern "C" fn dq_proved_markdown(
    alloc: Global,
    handle: &mut Handle,
    node: u32,
    to: &mut [u8],
) -> i64
    ensures { Asks handle.old.slot.state handle.new.slot.state result
        (λ given s t. GivesTextThat given s t to.old to.new (λ _. ⊤)) }
{
    ask!(alloc, handle, state => state.take_markdown(node, to))
}

/// Takes the Markdown of the node as the Rust crate writes it: its length.
#[unsafe(no_mangle)]
pub extern "C" fn dq_proved_md(alloc: Global, handle: &mut Handle, node: u32, to: &mut [u8]) -> i64
    ensures { Asks handle.old.slot.state handle.new.slot.state result
        (λ given s t. GivesTextThat given s t to.old to.new
        (ReadsAsWords s.document.tree node)) }
{
    ask!(alloc, handle, state => state.take_md(node, to))
}

/// Takes the formatted text of the node: its length.
#[unsafe(no_mangle)]
pub extern "C" fn dq_proved_formatted_text(
    alloc: Global,
    handle: &mut Handle,
    node: u32,
    to: &mut [u8],
) -> i64
    ensures { Asks handle.old.slot.state handle.new.slot.state result
        (λ given s t. GivesText given s t to.old to.new
        (formatted_below s.document.tree node)) }
{
    ask!(alloc, handle, state => state.take_formatted_text(node, to))
}

/// Takes the name of the element: its length.
#[unsafe(no_mangle)]
pub extern "C" fn dq_proved_name(
    alloc: Global,
    handle: &mut Handle,
    node: u32,
    to: &mut [u8],
) -> i64
    ensures { Asks handle.old.slot.state handle.new.slot.state result
        (λ given s t. GivesTextThat given s t to.old to.new
        (λ text. Some (string_bytes text) ≡ node_name s.document.tree node)) }
{
    ask!(alloc, handle, state => state.take_name(node, to))
}

/// Takes the value of an attribute: its length.
#[unsafe(no_mangle)]
pub extern "C" fn dq_proved_attr(
    alloc: Global,
    handle: &mut Handle,
    node: u32,
    name: &[u8],
    to: &mut [u8],
) -> i64
    ensures { Asks handle.old.slot.state handle.new.slot.state result
        (λ given s t. GivesTextThat given s t to.old to.new
        (λ text. Some (string_bytes text) ≡ node_attr s.document.tree node name.now)) }
{
    ask!(alloc, handle, state => state.take_attr(node, name, to))
}

/// Takes the names and values of the attributes, by turns: how many pieces there are.
#[unsafe(no_mangle)]
pub extern "C" fn dq_proved_attrs(alloc: Global, handle: &mut Handle, node: u32) -> i64
    ensures { Asks handle.old.slot.state handle.new.slot.state result
        (λ given s t. GivesPieces given s t Some
        (λ pieces. pieces ≡ flat_map attr_pieces (node_attrs s.document.tree node))) }
{
    ask!(alloc, handle, state => state.take_attrs(node))
}

/// Takes the classes of the element: how many there are.
#[unsafe(no_mangle)]
pub extern "C" fn dq_proved_classes(alloc: Global, handle: &mut Handle, node: u32) -> i64
    ensures { Asks handle.old.slot.state handle.new.slot.state result
        (λ given s t. GivesPieces given s t Some
        (λ pieces. pieces ≡ class_words (node_attrs s.document.tree node))) }
{
    ask!(alloc, handle, state => state.take_classes(node))
}

/// The kind of the node, as the DOM's `nodeType`.
#[unsafe(no_mangle)]
pub extern "C" fn dq_proved_kind(alloc: Global, handle: &mut Handle, node: u32) -> i64
    ensures { Asks handle.old.slot.state handle.new.slot.state result
        (λ given s t. (t ≡ s) × IfOk given (λ kind. HasKind s.document.tree node kind)) }
{
    ask!(alloc, handle, state => state.kind(node))
}

/// The fragment that holds the contents of a template.
#[unsafe(no_mangle)]
pub extern "C" fn dq_proved_contents(alloc: Global, handle: &mut Handle, node: u32) -> i64
    ensures { Asks handle.old.slot.state handle.new.slot.state result
        (λ given s t. (t ≡ s) × IfOk given (λ found. HasContents s.document.tree node found)) }
{
    ask!(alloc, handle, state => state.contents(node))
}

/// The node in that direction.
#[unsafe(no_mangle)]
pub extern "C" fn dq_proved_step(
    alloc: Global,
    handle: &mut Handle,
    node: u32,
    direction: u32,
) -> i64
    ensures { Asks handle.old.slot.state handle.new.slot.state result
        (λ given s t. (t ≡ s) × IfOk given (λ found.
        neighbour s.document.tree node direction ≡ Some found)) }
{
    ask!(alloc, handle, state => state.step(node, direction))
}

/// Finds the nodes along an axis: how many there are.
#[unsafe(no_mangle)]
pub extern "C" fn dq_proved_list(
    alloc: Global,
    handle: &mut Handle,
    node: u32,
    axis: u32,
    to: &mut [u32],
) -> i64
    ensures { Asks handle.old.slot.state handle.new.slot.state result
        (λ given s t. GivesNodes given s t to.old to.new
        (λ ids. along s.document.tree node axis ≡ Some ids)) }
{
    ask!(alloc, handle, state => state.list(node, axis, to))
}

/// Sets an attribute.
#[unsafe(no_mangle)]
pub extern "C" fn dq_proved_set_attr(
    alloc: Global,
    handle: &mut Handle,
    node: u32,
    name: &[u8],
    value: &[u8],
) -> i64
    ensures { Asks handle.old.slot.state handle.new.slot.state result
        (λ given s t. ChangesTree given s t
        (λ old new. (new ≡ attr_set node name.now value.now old)
        × (is_attribute_name name.now ≡ true))) }
{
    ask!(alloc, handle, state => state.set_attr(node, name, value))
}

/// Removes an attribute.
#[unsafe(no_mangle)]
pub extern "C" fn dq_proved_remove_attr(
    alloc: Global,
    handle: &mut Handle,
    node: u32,
    name: &[u8],
) -> i64
    ensures { Asks handle.old.slot.state handle.new.slot.state result
        (λ given s t. ChangesTree given s t
        (λ old new. new ≡ attr_removed node name.now old)) }
{
    ask!(alloc, handle, state => state.remove_attr(node, name))
}

/// Changes the name of an element.
#[unsafe(no_mangle)]
pub extern "C" fn dq_proved_rename(
    alloc: Global,
    handle: &mut Handle,
    node: u32,
    name: &[u8],
) -> i64
    ensures { Asks handle.old.slot.state handle.new.slot.state result
        (λ given s t. ChangesTree given s t
        (λ old new. (new ≡ element_renamed node name.now old)
        × (is_element_name name.now ≡ true))) }
{
    ask!(alloc, handle, state => state.rename(node, name))
}

/// Puts a text in the place of the node's children.
#[unsafe(no_mangle)]
pub extern "C" fn dq_proved_set_text(
    alloc: Global,
    handle: &mut Handle,
    node: u32,
    text: &[u8],
) -> i64
    ensures { Asks handle.old.slot.state handle.new.slot.state result
        (λ given s t. EditsTree given s t (setting_text node text.now)) }
{
    ask!(alloc, handle, state => state.set_text(node, text))
}

/// Puts explicit markup at a place at the node.
#[unsafe(no_mangle)]
pub extern "C" fn dq_proved_put_html(
    alloc: Global,
    handle: &mut Handle,
    node: u32,
    place: u32,
    html: &[u8],
) -> i64
    ensures { Asks handle.old.slot.state handle.new.slot.state result
        (λ given s t. ChangesTree given s t (IsPut place node html.now)) }
{
    ask!(alloc, handle, state => state.put_html(node, place, html))
}

/// Makes an element: its number.
#[unsafe(no_mangle)]
pub extern "C" fn dq_proved_new_element(alloc: Global, handle: &mut Handle, name: &[u8]) -> i64
    ensures { Asks handle.old.slot.state handle.new.slot.state result
        (λ given s t. (MakesNode given s t (making (bare_element (html_name name.now))))
        × IfOk given (λ _. is_element_name name.now ≡ true)) }
{
    ask!(alloc, handle, state => state.new_element(name))
}

/// Makes a text: its number.
#[unsafe(no_mangle)]
pub extern "C" fn dq_proved_new_text(alloc: Global, handle: &mut Handle, text: &[u8]) -> i64
    ensures { Asks handle.old.slot.state handle.new.slot.state result
        (λ given s t. MakesNode given s t (making (text_node text.now))) }
{
    ask!(alloc, handle, state => state.new_text(text))
}

/// Moves the node to a place at the target.
#[unsafe(no_mangle)]
pub extern "C" fn dq_proved_move(
    alloc: Global,
    handle: &mut Handle,
    node: u32,
    place: u32,
    target: u32,
) -> i64
    ensures { Asks handle.old.slot.state handle.new.slot.state result
        (λ given s t. ChangesTree given s t (IsMoved node place target)) }
{
    ask!(alloc, handle, state => state.move_node(node, place, target))
}

/// Detaches the node.
#[unsafe(no_mangle)]
pub extern "C" fn dq_proved_remove(alloc: Global, handle: &mut Handle, node: u32) -> i64
    ensures { Asks handle.old.slot.state handle.new.slot.state result
        (λ given s t. EditsTree given s t (removing node)) }
{
    ask!(alloc, handle, state => state.remove(node))
}

/// Puts the children of the node in its place.
#[unsafe(no_mangle)]
pub extern "C" fn dq_proved_unwrap(alloc: Global, handle: &mut Handle, node: u32) -> i64
    ensures { Asks handle.old.slot.state handle.new.slot.state result
        (λ given s t. ChangesTree given s t (λ old new. new ≡ unwrapped_node node old)) }
{
    ask!(alloc, handle, state => state.unwrap_node(node))
}

/// Joins the neighbouring texts below the node.
#[unsafe(no_mangle)]
pub extern "C" fn dq_proved_normalize(alloc: Global, handle: &mut Handle, node: u32) -> i64
    ensures { Asks handle.old.slot.state handle.new.slot.state result
        (λ given s t. EditsTree given s t (normalizing node)) }
{
    ask!(alloc, handle, state => state.normalize(node))
}

/// Keeps the elements and attributes of these names.
#[unsafe(no_mangle)]
pub extern "C" fn dq_proved_sanitize(
    alloc: Global,
    handle: &mut Handle,
    elements: &[u8],
    attrs: &[u8],
    dropped: &[u8],
) -> i64
    ensures { Asks handle.old.slot.state handle.new.slot.state result
        (λ given s t. ChangesTree given s t
        (IsSanitized elements.now attrs.now dropped.now)) }
{
    ask!(alloc, handle, state => state.sanitize(elements, attrs, dropped))
}

/// The byte of the markup at which the last fault was met.
#[unsafe(no_mangle)]
pub extern "C" fn dq_proved_fault_byte(handle: &Handle) -> usize
    ensures { result ≡ handle.now.byte }
{
    handle.byte
}

/// What a number of a fault means, in English: its length. As much is written as there is room for.
#[unsafe(no_mangle)]
pub extern "C" fn dq_proved_fault_text(fault: i64, to: &mut [u8]) -> usize {
    match fault_text(fault) {
        Some(text) => {
            let count = text.len().min(to.len());
            to[..count].copy_from_slice(&text.as_bytes()[..count]);
            text.len()
        }
        None => 0,
    }
}
