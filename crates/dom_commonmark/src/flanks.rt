//! The marks around emphasis, strong emphasis, strikethrough and links, and where a reader takes
//! them as such.

use dom_nodes::node_id::NodeId;

/// The kind of a mark.
#[derive(Clone, Copy, PartialEq, Eq, Drop)]
pub(crate) enum MarkKind {
    Strong,
    Emphasis,
    Strike,
    Link,
}

impl MarkKind {
    /// Returns what is written before and after the text; for a link, what is written before it.
    pub(crate) fn as_str(self) -> &'static str {
        match self {
            MarkKind::Strong => "**",
            MarkKind::Emphasis => "*",
            MarkKind::Strike => "~~",
            MarkKind::Link => "[",
        }
    }

    /// Returns how many stars the mark has, which a reader takes together with stars beside it.
    pub(crate) fn stars(self) -> u8 {
        match self {
            MarkKind::Strong => 2,
            MarkKind::Emphasis => 1,
            MarkKind::Strike | MarkKind::Link => 0,
        }
    }
}

/// A mark around a text.
#[derive(Clone, Copy, Drop)]
pub(crate) struct Mark {
    pub(crate) kind: MarkKind,
    /// The element that it is written for.
    pub(crate) id: NodeId,
    /// It is left out, since a reader would not take it as a mark here.
    pub(crate) is_hidden: bool,
    /// Its stars begin in a run with those of another mark.
    pub(crate) is_in_run: bool,
}

impl Mark {
    /// Returns whether two texts with these marks can be written within one. Adjacent links stay
    /// apart.
    pub(crate) fn is_same(&self, other: &Mark) -> bool {
        if self.kind != other.kind {
            return false;
        }
        if self.kind != MarkKind::Link {
            return true;
        }
        self.id == other.id
    }
}

/// Returns whether a reader may take the character as a letter, where it decides on emphasis.
pub(crate) fn is_letter_like(c: char) -> bool {
    if c.is_whitespace() {
        return false;
    }
    !c.is_ascii_punctuation()
}

/// Returns whether a reader may take the character as punctuation, where it decides on emphasis.
pub(crate) fn is_punctuation_like(c: char) -> bool {
    if c.is_whitespace() {
        return false;
    }
    !c.is_alphanumeric()
}
