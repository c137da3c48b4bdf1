//! Common mistakes in selectors, and what to write instead.

/// Parts of texts that aren't selectors, and for each what to write instead. The first part that a
/// text contains decides the hint.
static HINTS: [(&str, &str); 12] = [
    ("::text", "to print the text of each match, use --text"),
    (
        "::attr(",
        "to print an attribute of each match, use --attr NAME",
    ),
    (
        "::",
        "pseudo-elements are not part of a page; select the element itself",
    ),
    (":contains(", "put the text in quotes: :contains(\"Emma\")"),
    (":has-text(", "write :contains(\"text\")"),
    (
        "//",
        "this looks like XPath; write a CSS selector, such as div > a[href]",
    ),
    (
        "|",
        "namespace prefixes are not supported; write the name alone, such as svg a",
    ),
    (":hover", "a page that nobody looks at has no :hover"),
    (":visited", "a page that nobody looks at has no :visited"),
    (":focus", "a page that nobody looks at has no :focus"),
    (
        ":first",
        "write --first for the first match, or :first-child or :first-of-type",
    ),
    (
        "[",
        "an attribute is written [name], [name=value] or [name=\"a value\"]",
    ),
];

/// Returns what to write in place of a text that isn't a selector, if its mistake is a common one;
/// otherwise `None`.
pub fn hint_of(text: &str) -> Option<&'static str> {
    for (part, hint) in &HINTS {
        if text.contains(*part) {
            return Some(*hint);
        }
    }
    None
}
