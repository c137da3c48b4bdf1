//! The lines that edit the tree.

ghost use Rattle.std.specs.Prelude.{◌≡◌, map, IfErr, IfOk, MatchOption};
ghost use Rattle.std.specs.List.{list_all};
ghost use Rattle.dom_script.specs.EditLine.{HasNoPair, HasPair, IsEdit, IsNoBareEdit};
ghost use Rattle.dom_markup.specs.Documents.{IsSpelled};
ghost use Rattle.dom_markup.specs.Markup.{SpellsNothing};
ghost use Rattle.dom_script.specs.EditLine.{HasMarkup, HasNoMarkup, IsNoEdit, IsNoNamedEdit};
ghost use Rattle.dom_script.specs.EditLine.{IsNoPut, IsNoSetAttr, IsNoStrip, IsNoTextEdit, IsPut};
ghost use Rattle.dom_script.specs.EditLine.{names_in};
ghost use Rattle.dom_script.specs.Faults.{LineRefused, MarkupLimit};
ghost use Rattle.dom_script.specs.Words.{HasArgument, HasNoArgument, is_name, Finds};

use crate::script::ScriptFault;
use crate::script::arguments::{argument_of, is_name, name_behind};
use dom_links::gap::Place;
use dom_markup::document::snippet::Snippet;
use dom_nodes::fault::{MarkupFaultKind, OutOfMemory};
use dom_nodes::text::Text;
use std::alloc::Global;

/// The edit that a line makes at each selected node.
#[derive(Drop)]
pub enum EditLine {
    /// Sets the attribute with this local name to the value.
    SetAttr { name: Text, value: Text },
    /// Removes the attributes with this local name.
    RemoveAttr(Text),
    /// Changes the local name of the element.
    Rename(Text),
    /// Adds classes.
    AddClass(Text),
    /// Removes classes.
    RemoveClass(Text),
    /// Sets the text.
    SetText(Text),
    /// Replaces the elements below the node with these local names, separated by spaces, by their
    /// children.
    Strip(Text),
    /// Inserts copies of the nodes of this markup at a place relative to the node.
    Put(Place, Snippet),
    /// Detaches the node.
    Remove,
    /// Removes the parent and keeps its children in its place.
    Unwrap,
    /// Joins adjacent texts below the root, whatever is selected.
    Normalize,
}

/// Returns the text after `word`, or `None` if the line doesn't begin with `word`.
fn text_behind(alloc: Global, line: &str, word: &str) -> Result<Option<Text>, OutOfMemory>
    ensures { Finds result (HasNoArgument line.now word.now) (HasArgument line.now word.now) }
{
    match argument_of(line, word) {
        Some(argument) => Ok(Some(Text::new(alloc, argument)?)),
        None => Ok(None),
    }
}

/// Splits the text into a name and what comes after it and one space; that is empty if the text is
/// a name alone. It returns `None` if the text doesn't begin with a name.
fn pair_of(text: &str) -> Option<(&str, &str)>
    ensures { MatchOption result (HasNoPair text.now)
        (λ pair. HasPair text.now pair.0.now pair.1.now) }
{
    let Some((name, value)) = text.split_once(" ") else {
        if !is_name(text) {
            return None;
        }
        return Some((text, ""));
    };
    if !is_name(name) {
        return None;
    }
    Some((name, value))
}

/// Returns whether the text is a list of names separated by single spaces.
pub fn are_names(text: &str) -> bool
    ensures { result ≡ list_all is_name (names_in text.now) }
{
    for name in text.split(' ') {
        if !is_name(name) {
            return false;
        }
    }
    true
}

/// Returns the names in a text that are separated by single spaces. It fails with `OutOfMemory`
/// when memory is refused.
pub fn names_of(alloc: Global, text: &str) -> Result<Vec<&str>, OutOfMemory>
    ensures { IfOk result (λ names. map (λ name. name.now) names.items ≡ names_in text.now) }
{
    Ok(text.split(' ').collect(alloc)?)
}

/// Returns the edit of the line if it is one without an argument.
fn bare_edit_of(line: &str) -> Option<EditLine>
    ensures { MatchOption result (IsNoBareEdit line.now) (IsEdit line.now) }
{
    if line == "remove" {
        return Some(EditLine::Remove);
    }
    if line == "unwrap" {
        return Some(EditLine::Unwrap);
    }
    if line == "normalize" {
        return Some(EditLine::Normalize);
    }
    None
}

/// Returns the edit of the line if it is one with a name.
fn named_edit_of(alloc: Global, line: &str) -> Result<Option<EditLine>, OutOfMemory>
    ensures { Finds result (IsNoNamedEdit line.now) (IsEdit line.now) }
{
    if let Some(name) = name_behind(alloc, line, "remove-attr")? {
        return Ok(Some(EditLine::RemoveAttr(name)));
    }
    if let Some(name) = name_behind(alloc, line, "rename")? {
        return Ok(Some(EditLine::Rename(name)));
    }
    Ok(None)
}

/// Returns the edit of the line if it is one with a text.
fn text_edit_of(alloc: Global, line: &str) -> Result<Option<EditLine>, OutOfMemory>
    ensures { Finds result (IsNoTextEdit line.now) (IsEdit line.now) }
{
    if let Some(classes) = text_behind(alloc, line, "add-class")? {
        return Ok(Some(EditLine::AddClass(classes)));
    }
    if let Some(classes) = text_behind(alloc, line, "remove-class")? {
        return Ok(Some(EditLine::RemoveClass(classes)));
    }
    if let Some(text) = text_behind(alloc, line, "set-text")? {
        return Ok(Some(EditLine::SetText(text)));
    }
    Ok(None)
}

/// Returns the edit of the line if it sets an attribute.
fn set_attr_of(alloc: Global, line: &str) -> Result<Option<EditLine>, OutOfMemory>
    ensures { Finds result (IsNoSetAttr line.now) (IsEdit line.now) }
{
    let Some(argument) = argument_of(line, "set-attr") else {
        return Ok(None);
    };
    let Some((name, value)) = pair_of(argument) else {
        return Ok(None);
    };
    let name = Text::new(alloc, name)?;
    let value = Text::new(alloc, value)?;
    Ok(Some(EditLine::SetAttr { name, value }))
}

/// Returns the edit of the line if it replaces elements by their children.
fn strip_of(alloc: Global, line: &str) -> Result<Option<EditLine>, OutOfMemory>
    ensures { Finds result (IsNoStrip line.now) (IsEdit line.now) }
{
    let Some(names) = argument_of(line, "strip") else {
        return Ok(None);
    };
    if !are_names(names) {
        return Ok(None);
    }
    Ok(Some(EditLine::Strip(Text::new(alloc, names)?)))
}

/// Returns the parsed markup, or `None` if the text doesn't follow the grammar of markup. It fails
/// with `TooManyNodes` or `Memory`.
fn snippet_of(alloc: Global, text: &str) -> Result<Option<Snippet>, ScriptFault>
    ensures ok { Finds result (SpellsNothing text.now) (IsSpelled text.now) }
    ensures refused { IfErr result (MarkupLimit text.now) }
{
    match Snippet::read(alloc, text) {
        Ok(snippet) => Ok(Some(snippet)),
        Err(fault) => match fault.kind {
            MarkupFaultKind::TooManyNodes => Err(ScriptFault::TooManyNodes),
            MarkupFaultKind::Memory => Err(ScriptFault::Memory),
            _ => Ok(None),
        },
    }
}

/// Returns the parsed markup after `word`, or `None` if the line isn't `word` and markup.
fn snippet_behind(alloc: Global, line: &str, word: &str) -> Result<Option<Snippet>, ScriptFault>
    ensures ok { Finds result (HasNoMarkup line.now word.now) (HasMarkup line.now word.now) }
    ensures refused { IfErr result (LineRefused line.now) }
{
    match argument_of(line, word) {
        Some(argument) => snippet_of(alloc, argument),
        None => Ok(None),
    }
}

/// Returns the place and the markup if the line inserts markup.
fn put_of(alloc: Global, line: &str) -> Result<Option<(Place, Snippet)>, ScriptFault>
    ensures ok { Finds result (IsNoPut line.now) (λ put. IsPut line.now put.0 put.1) }
    ensures refused { IfErr result (LineRefused line.now) }
{
    if let Some(snippet) = snippet_behind(alloc, line, "set-html")? {
        return Ok(Some((Place::InsteadOfChildren, snippet)));
    }
    if let Some(snippet) = snippet_behind(alloc, line, "append-html")? {
        return Ok(Some((Place::AtEnd, snippet)));
    }
    if let Some(snippet) = snippet_behind(alloc, line, "prepend-html")? {
        return Ok(Some((Place::AtFront, snippet)));
    }
    if let Some(snippet) = snippet_behind(alloc, line, "before-html")? {
        return Ok(Some((Place::Before, snippet)));
    }
    if let Some(snippet) = snippet_behind(alloc, line, "after-html")? {
        return Ok(Some((Place::After, snippet)));
    }
    if let Some(snippet) = snippet_behind(alloc, line, "replace-html")? {
        return Ok(Some((Place::InsteadOfNode, snippet)));
    }
    Ok(None)
}

/// Returns the edit of the line, or `None` if the line isn't one. It fails with `TooManyNodes` when
/// the markup in the line has more nodes than there are ids, and with `Memory`.
pub fn edit_of(alloc: Global, line: &str) -> Result<Option<EditLine>, ScriptFault>
    ensures ok { Finds result (IsNoEdit line.now) (IsEdit line.now) }
    ensures refused { IfErr result (LineRefused line.now) }
{
    if let Some(edit) = bare_edit_of(line) {
        return Ok(Some(edit));
    }
    if let Some(edit) = named_edit_of(alloc, line)? {
        return Ok(Some(edit));
    }
    if let Some(edit) = text_edit_of(alloc, line)? {
        return Ok(Some(edit));
    }
    if let Some(edit) = set_attr_of(alloc, line)? {
        return Ok(Some(edit));
    }
    if let Some(edit) = strip_of(alloc, line)? {
        return Ok(Some(edit));
    }
    match put_of(alloc, line)? {
        Some((place, snippet)) => Ok(Some(EditLine::Put(place, snippet))),
        None => Ok(None),
    }
}
