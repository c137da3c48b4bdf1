//! Options for writing CommonMark.

/// The character before each item of an unordered list. A list takes another one where a reader
/// would join it to the list before it, or take its line as a thematic break.
#[derive(Clone, Copy, PartialEq, Eq, Debug, Drop)]
pub enum Bullet {
    /// `-`
    Dash,
    /// `*`
    Star,
    /// `+`
    Plus,
}

impl Bullet {
    pub(crate) const fn as_char(self) -> char {
        match self {
            Bullet::Dash => '-',
            Bullet::Star => '*',
            Bullet::Plus => '+',
        }
    }
}

/// The character of the fences around code blocks.
#[derive(Clone, Copy, PartialEq, Eq, Debug, Drop)]
pub enum Fence {
    /// A backtick.
    Backtick,
    /// `~`
    Tilde,
}

impl Fence {
    pub(crate) const fn as_char(self) -> char {
        match self {
            Fence::Backtick => '`',
            Fence::Tilde => '~',
        }
    }
}

/// Options for writing CommonMark.
#[derive(Clone, Copy, PartialEq, Eq, Debug, Drop)]
pub struct Options {
    pub bullet: Bullet,
    pub fence: Fence,
    /// Tables of data are written as GFM's tables. Without it, and for tables that only lay out a
    /// page, the contents of the cells are written, one after the other.
    pub tables: bool,
}

impl Options {
    /// Returns the usual options: `-`, backticks, and tables.
    pub const fn new() -> Options {
        Options {
            bullet: Bullet::Dash,
            fence: Fence::Backtick,
            tables: true,
        }
    }
}
