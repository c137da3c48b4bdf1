//! The lines that are a single word.
ghost use Rattle.dom_script.specs.Script.{navigation_word, rendering_word};
ghost use Rattle.dom_script.specs.Words.{IsWordOf};

use crate::script::{Navigation, Rendering};

/// Returns the direction that the line names, or `None` if it names none.
pub fn navigation_of(line: &str) -> Option<Navigation>
    ensures { IsWordOf navigation_word line.now result }
{
    if line == "parent" {
        return Some(Navigation::Parent);
    }
    if line == "children" {
        return Some(Navigation::Children);
    }
    if line == "ancestors" {
        return Some(Navigation::Ancestors);
    }
    if line == "next" {
        return Some(Navigation::Next);
    }
    if line == "prev" {
        return Some(Navigation::Prev);
    }
    if line == "first" {
        return Some(Navigation::First);
    }
    if line == "last" {
        return Some(Navigation::Last);
    }
    None
}

/// Returns what the line writes, or `None` if it isn't one of the lines that write.
pub fn rendering_of(line: &str) -> Option<Rendering>
    ensures { IsWordOf rendering_word line.now result }
{
    if line == "count" {
        return Some(Rendering::Count);
    }
    if line == "text" {
        return Some(Rendering::Text);
    }
    if line == "formatted" {
        return Some(Rendering::Formatted);
    }
    if line == "html" {
        return Some(Rendering::Html);
    }
    if line == "inner-html" {
        return Some(Rendering::InnerHtml);
    }
    if line == "document" {
        return Some(Rendering::Document);
    }
    None
}
