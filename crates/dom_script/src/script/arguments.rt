//! The argument of a line: what comes after its first word.

ghost use Rattle.std.specs.Prelude.{◌≡◌, ◌≢◌, chars, IfOk, MatchBool, MatchOption};
ghost use Rattle.std.specs.List.{list_all};
ghost use Rattle.dom_markup.specs.Bytes.{is_name_byte};
ghost use Rattle.dom_script.specs.Script.{HasNoSelector, HasSelector};
ghost use Rattle.dom_script.specs.Words.{HasArgument, HasName, HasNoArgument, HasNoName, is_name};
ghost use Rattle.dom_script.specs.Words.{Finds};
ghost use Rattle.dom_selectors.specs.Grammar.{IsSelectorOf};

use dom_nodes::fault::OutOfMemory;
use dom_nodes::text::Text;
use dom_select::matcher::Matcher;
use dom_selectors::fault::SelectorFault;
use std::alloc::Global;

/// Returns what comes after `word` and one space, or the empty text if the line is `word` alone. It
/// returns `None` if the line is neither `word` alone nor begins with `word` and a space.
pub fn argument_of<'a>(line: &'a str, word: &str) -> Option<&'a str>
    ensures { MatchOption result (HasNoArgument line.now word.now)
        (λ argument. HasArgument line.now word.now argument.now) }
{
    let behind = line.strip_prefix(word)?;
    if behind.is_empty() {
        return Some(behind);
    }
    behind.strip_prefix(' ')
}

/// Returns the selector list, or `None` if the text isn't one. It fails with `OutOfMemory`.
fn selector_of(alloc: Global, text: &str) -> Result<Option<Matcher>, OutOfMemory>
    ensures { IfOk result (IsSelectorOf (chars text.now)) }
{
    match Matcher::new(alloc, text) {
        Ok(matcher) => Ok(Some(matcher)),
        Err(fault) => {
            if is_memory(fault) {
                return Err(OutOfMemory);
            }
            Ok(None)
        }
    }
}

/// Returns whether the fault is a refusal of memory.
fn is_memory(fault: SelectorFault) -> bool
    ensures { MatchBool result (fault ≡ SelectorFault.Memory) (fault ≢ SelectorFault.Memory) }
{
    matches!(fault, SelectorFault::Memory)
}

/// Returns the selector after `word`, or `None` if the line isn't `word` and a selector. It fails
/// with `OutOfMemory` when memory is refused.
pub fn selector_behind(
    alloc: Global,
    line: &str,
    word: &str,
) -> Result<Option<Matcher>, OutOfMemory>
    ensures { Finds result (HasNoSelector line.now word.now) (HasSelector line.now word.now) }
{
    match argument_of(line, word) {
        Some(argument) => selector_of(alloc, argument),
        None => Ok(None),
    }
}

/// Returns whether the text is a name: one or more name bytes.
pub fn is_name(text: &str) -> bool
    ensures { result ≡ is_name text.now }
{
    if text.is_empty() {
        return false;
    }
    are_name_bytes(text.as_bytes())
}

fn are_name_bytes(bytes: &[u8]) -> bool
    ensures { result ≡ list_all is_name_byte bytes.now }
{
    bytes.iter().all(|byte| is_name_byte(*byte))
}

/// Returns whether the byte may be part of a name: it isn't ASCII white space, NUL, or one of `/`,
/// `>`, `<`, `=`, `"`, `'`.
fn is_name_byte(byte: u8) -> bool
    ensures { result ≡ is_name_byte byte }
{
    !matches!(
        byte,
        b'\t' | b'\n' | 0x0c | b'\r' | b' ' | b'/' | b'>' | b'<' | b'=' | b'"' | b'\'' | 0
    )
}

/// Returns the name after `word`, or `None` if the line isn't `word` and a name. It fails with
/// `OutOfMemory` when memory is refused.
pub fn name_behind(alloc: Global, line: &str, word: &str) -> Result<Option<Text>, OutOfMemory>
    ensures { Finds result (HasNoName line.now word.now) (HasName line.now word.now) }
{
    let Some(argument) = argument_of(line, word) else {
        return Ok(None);
    };
    if !is_name(argument) {
        return Ok(None);
    }
    Ok(Some(Text::new(alloc, argument)?))
}
