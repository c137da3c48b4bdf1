//! The ways of counting an element among its siblings, and the indexes that `An+B` selects
//! (Selectors Level 4, "Child-indexed Pseudo-classes").

/// Which siblings are counted to find the index of an element.
#[derive(Clone, Copy, PartialEq, Eq, Debug, Drop)]
pub enum IndexKind {
    /// The elements before it, as for `:nth-child()`.
    Child,
    /// The elements after it, as for `:nth-last-child()`.
    LastChild,
    /// The elements before it of the same name (prefix, namespace and local name), as for
    /// `:nth-of-type()`.
    OfType,
    /// The elements after it of the same name (prefix, namespace and local name), as for
    /// `:nth-last-of-type()`.
    LastOfType,
}

/// An integer as sign and magnitude.
#[derive(Clone, Copy, PartialEq, Eq, Debug, Drop)]
pub struct Signed {
    pub is_negative: bool,
    pub magnitude: u32,
}

/// The indexes `a * k + b` for every integer k from 0 on.
#[derive(Clone, Copy, PartialEq, Eq, Debug, Drop)]
pub struct Nth {
    pub a: Signed,
    pub b: Signed,
}
