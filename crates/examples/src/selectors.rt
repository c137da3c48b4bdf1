//! What selectors match.

use crate::fault::Fault;
use dom_query::prelude::*;
use std::alloc::Global;
use std::io::Write;

const PAGE: &str = "<div id=shop class='tea fresh'>\
    <h1 id=top>Tea</h1>\
    <p id=intro lang=en>Buy <a id=one href=/green>green</a> or \
    <a id=two href=/black.html>black</a>.\
    <ul id=list><li id=a>Assam<li id=b class=new>Mate<li id=c><b id=d>Hojicha</b></ul>\
    <p id=none></div>";

static SELECTORS: [&str; 33] = [
    "ul",
    "#list",
    ".fresh.tea",
    "[lang]",
    "[lang=EN i]",
    "[class~=fresh]",
    "[lang|=en]",
    "[href^='/g']",
    "[href$='.html']",
    "[href*=ac]",
    "div a",
    "ul > li",
    "h1 + p",
    "h1 ~ p",
    "h1, ul",
    "li:first-child",
    "li:last-child",
    "b:only-child",
    "li:nth-child(odd)",
    "li:nth-child(2n + 2)",
    "li:nth-last-child(1)",
    "p:nth-of-type(2)",
    "p:last-of-type",
    "p:empty",
    "a:link",
    "li:not(.new)",
    "li:is(.new, :first-child)",
    "li:where(#a, #c)",
    "li:has(b)",
    "h1:has(+ p)",
    "li:only-text",
    "li:has-text('ji')",
    "li:contains('te')",
];

/// Prints the ids of the elements that each of the selectors matches.
pub fn print_matches<W: Write>(alloc: Global, out: &mut W) -> Result<(), Fault> {
    let document = parse_page(alloc, PAGE, Options::default())?;
    for selector in &SELECTORS {
        write!(out, "{selector} ->")?;
        print_ids(&document, selector, out)?;
    }
    Ok(())
}

fn print_ids<W: Write>(document: &Document, selector: &str, out: &mut W) -> Result<(), Fault> {
    for element in document.select(selector)?.nodes() {
        write!(out, " {}", element.id_attr().unwrap_or(""))?;
    }
    writeln!(out, "")?;
    Ok(())
}
