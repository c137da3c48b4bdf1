//! Printing matches.

use crate::pages::Page;
use dom_query::{Document, DocumentSelect, Matcher, NodeRef, Selection};
use hq_pages::articles::TakenArticle;
use hq_pages::faults::{Fault, shown};
use hq_pages::options::{Options, Show};
use hq_pages::showing::{answer_of, name_in_front};
use std::io::Write;

/// Prints what a selector matches in a page, and returns whether it matches something.
pub fn print_matches<W: Write>(
    page: &Page<'_>,
    selector: &Matcher,
    options: &Options<'_>,
    out: &mut W,
) -> Result<bool, Fault> {
    let found = found_in(&page.document, selector, options.printing.first)?;
    if let Show::Count = options.printing.show {
        print_count(page, found.length(), options, out)?;
        return Ok(found.exists());
    }
    for node in found.nodes() {
        print_match(page, node, options, out)?;
    }
    Ok(found.exists())
}

/// Prints what is asked for of a match. Nothing is printed for a match without the attribute that
/// is asked for.
fn print_match<W: Write>(
    page: &Page<'_>,
    node: &NodeRef<'_>,
    options: &Options<'_>,
    out: &mut W,
) -> Result<(), Fault> {
    let many = options.printing.names || options.files.len() > 1;
    let file = if many { Some(shown(page.name)) } else { None };
    match answer_of(node, options.printing, file)? {
        Some(answer) => print_answer(page, answer.as_str(), options, out),
        None => Ok(()),
    }
}

/// Prints the article of a page.
pub fn print_article<W: Write>(
    page: &Page<'_>,
    article: &TakenArticle,
    options: &Options<'_>,
    out: &mut W,
) -> Result<(), Fault> {
    let many = options.printing.names || options.files.len() > 1;
    let file = if many { Some(shown(page.name)) } else { None };
    let answer = article.answer(options.printing, file)?;
    print_answer(page, answer.as_str(), options, out)
}

/// Prints an answer and the byte that ends it, after the name of the file if that is asked for. A
/// JSON object contains the name instead.
fn print_answer<W: Write>(
    page: &Page<'_>,
    answer: &str,
    options: &Options<'_>,
    out: &mut W,
) -> Result<(), Fault> {
    if options.printing.names && !matches!(options.printing.show, Show::All) {
        print_name(page, options, out)?;
    }
    out.write_all(answer.as_bytes())?;
    out.write_all(&[options.printing.end])?;
    Ok(())
}

fn print_name<W: Write>(page: &Page<'_>, options: &Options<'_>, out: &mut W) -> Result<(), Fault> {
    let alloc = page.document.tree.allocator();
    let name = name_in_front(alloc, page.name, options.printing.colored)?;
    out.write_all(name.as_bytes())?;
    Ok(())
}

/// Returns what a selector matches in a document, or only the first match.
fn found_in<'a>(
    document: &'a Document,
    selector: &Matcher,
    first: bool,
) -> Result<Selection<'a>, Fault> {
    if first {
        return Ok(document.select_single_matcher(selector)?);
    }
    Ok(document.select_matcher(selector)?)
}

/// Prints how many matches there are, after the name of the file if there are several files.
fn print_count<W: Write>(
    page: &Page<'_>,
    count: usize,
    options: &Options<'_>,
    out: &mut W,
) -> Result<(), Fault> {
    if options.printing.names || options.files.len() > 1 {
        print_name(page, options, out)?;
    }
    write!(out, "{count}")?;
    out.write_all(&[options.printing.end])?;
    Ok(())
}
