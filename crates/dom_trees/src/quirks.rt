//! The quirks mode of a document (DOM Standard, 4.5, and HTML Standard, 13.2.6.4.1).

/// How closely a browser would follow the layout rules of old pages. A parser finds it from the
/// doctype.
#[derive(Clone, Copy, PartialEq, Eq, Debug, Drop)]
pub enum QuirksMode {
    Quirks,
    LimitedQuirks,
    NoQuirks,
}
