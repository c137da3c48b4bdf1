//! Common rules, for comments, mails and articles.

use crate::rules::Rules;
use dom_nodes::fault::OutOfMemory;
use std::alloc::Global;

/// The elements that stay.
static ELEMENTS: [&str; 75] = [
    "a",
    "abbr",
    "acronym",
    "area",
    "article",
    "aside",
    "b",
    "bdi",
    "bdo",
    "blockquote",
    "br",
    "caption",
    "center",
    "cite",
    "code",
    "col",
    "colgroup",
    "data",
    "dd",
    "del",
    "details",
    "dfn",
    "div",
    "dl",
    "dt",
    "em",
    "figcaption",
    "figure",
    "footer",
    "h1",
    "h2",
    "h3",
    "h4",
    "h5",
    "h6",
    "header",
    "hgroup",
    "hr",
    "i",
    "img",
    "ins",
    "kbd",
    "li",
    "map",
    "mark",
    "nav",
    "ol",
    "p",
    "pre",
    "q",
    "rp",
    "rt",
    "ruby",
    "s",
    "samp",
    "small",
    "span",
    "strike",
    "strong",
    "sub",
    "summary",
    "sup",
    "table",
    "tbody",
    "td",
    "tfoot",
    "th",
    "thead",
    "time",
    "tr",
    "tt",
    "u",
    "ul",
    "var",
    "wbr",
];

/// The elements that vanish with their contents.
static DROPPED: [&str; 2] = ["script", "style"];

/// The attributes of each element.
static ATTRIBUTES: [&str; 2] = ["lang", "title"];

/// The attributes of one element.
static OWN_ATTRIBUTES: [(&str, &str); 55] = [
    ("a", "href"),
    ("a", "hreflang"),
    ("bdo", "dir"),
    ("blockquote", "cite"),
    ("col", "align"),
    ("col", "char"),
    ("col", "charoff"),
    ("col", "span"),
    ("colgroup", "align"),
    ("colgroup", "char"),
    ("colgroup", "charoff"),
    ("colgroup", "span"),
    ("del", "cite"),
    ("del", "datetime"),
    ("hr", "align"),
    ("hr", "size"),
    ("hr", "width"),
    ("img", "align"),
    ("img", "alt"),
    ("img", "height"),
    ("img", "src"),
    ("img", "width"),
    ("ins", "cite"),
    ("ins", "datetime"),
    ("ol", "start"),
    ("q", "cite"),
    ("table", "align"),
    ("table", "char"),
    ("table", "charoff"),
    ("table", "summary"),
    ("tbody", "align"),
    ("tbody", "char"),
    ("tbody", "charoff"),
    ("td", "align"),
    ("td", "char"),
    ("td", "charoff"),
    ("td", "colspan"),
    ("td", "headers"),
    ("td", "rowspan"),
    ("tfoot", "align"),
    ("tfoot", "char"),
    ("tfoot", "charoff"),
    ("th", "align"),
    ("th", "char"),
    ("th", "charoff"),
    ("th", "colspan"),
    ("th", "headers"),
    ("th", "rowspan"),
    ("th", "scope"),
    ("thead", "align"),
    ("thead", "char"),
    ("thead", "charoff"),
    ("tr", "align"),
    ("tr", "char"),
    ("tr", "charoff"),
];

/// The schemes of addresses.
static SCHEMES: [&str; 25] = [
    "bitcoin",
    "ftp",
    "ftps",
    "geo",
    "http",
    "https",
    "im",
    "irc",
    "ircs",
    "magnet",
    "mailto",
    "mms",
    "mx",
    "news",
    "nntp",
    "openpgp4fpr",
    "sip",
    "sms",
    "smsto",
    "ssh",
    "tel",
    "url",
    "webcal",
    "wtai",
    "xmpp",
];

impl Rules {
    /// Returns rules for comments, mails and articles: phrases, headings, lists, tables, images
    /// and links stay, and links get `rel="noopener noreferrer"`. Relative addresses stay, and up
    /// to 256 elements may be nested. Fails with `OutOfMemory` if memory is refused.
    pub fn common(alloc: Global) -> Result<Rules, OutOfMemory> {
        let mut rules = Rules::new(alloc);
        for name in &ELEMENTS {
            rules.allow_element(name)?;
        }
        for name in &DROPPED {
            rules.drop_element(name)?;
        }
        add_attributes(&mut rules)?;
        for scheme in &SCHEMES {
            rules.allow_scheme(scheme)?;
        }
        rules.keep_relative();
        rules.set_rel("noopener noreferrer")?;
        rules.set_depth(256);
        Ok(rules)
    }
}

fn add_attributes(rules: &mut Rules) -> Result<(), OutOfMemory> {
    for name in &ATTRIBUTES {
        rules.allow_attribute(name)?;
    }
    for (element, name) in &OWN_ATTRIBUTES {
        rules.allow_attribute_of(element, name)?;
    }
    Ok(())
}
