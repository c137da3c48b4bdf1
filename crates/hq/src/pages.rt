//! What is done with each file: it is read and changed, and then printed or written back.

use crate::keeping::ErrorKeeper;
use crate::output::{print_article, print_matches};
use crate::rewriting::{print_document, state_of, write_back};
use dom_query::{Document, DocumentSelect, RunFault, SelectionMut, clean_document, run_commands};
use hq_pages::addresses::{make_absolute, make_absolute_at};
use hq_pages::articles::take_article;
use hq_pages::charset::{declare_utf8, report_found};
use hq_pages::faults::Fault;
use hq_pages::options::{Job, Options};
use hq_pages::pages::{read_document, top_of};
use hq_pages::tree::tree_text;
use std::io::Write;

/// A file that was read.
#[derive(Drop)]
pub struct Page<'a> {
    pub name: &'a str,
    pub document: Document,
}

/// Does with a file what the options ask for, and returns whether something matched; `true` if the
/// options have no selector.
pub fn do_file<W: Write>(
    rt: &HostRuntime,
    name: &str,
    options: &Options<'_>,
    out: &mut W,
) -> Result<bool, Fault> {
    let old = if options.in_place {
        Some(state_of(rt, name)?)
    } else {
        None
    };
    let (document, found) = read_document(rt, name, options.reading)?;
    if let Some(found) = found {
        report_found(rt, name, found, options.verbose, options.printing.json)?;
    }
    let mut page = Page { name, document };
    change(&mut page.document, None, options)?;
    let matched = do_job(&mut page, options, out)?;
    if let Some(old) = &old {
        write_back(rt, &page, old)?;
    }
    Ok(matched)
}

fn do_job<W: Write>(
    page: &mut Page<'_>,
    options: &Options<'_>,
    out: &mut W,
) -> Result<bool, Fault> {
    match &options.job {
        Job::Select(selector) => print_matches(page, selector, options, out),
        Job::Article { any } => match take_article(&page.document, options, *any)? {
            Some(article) => {
                print_article(page, &article, options, out)?;
                Ok(true)
            }
            None => Ok(false),
        },
        Job::Document => {
            if !options.in_place {
                print_document(&page.document, out)?;
            }
            Ok(true)
        }
        Job::Tree => {
            let text = tree_text(&page.document, top_of(&page.document, options))?;
            out.write_all(text.as_bytes())?;
            Ok(true)
        }
        Job::Script(commands) => {
            let alloc = page.document.tree.allocator();
            let mut keeper = ErrorKeeper::new(out);
            match run_commands(alloc, &mut page.document.tree, commands, &mut keeper) {
                Ok(()) => Ok(true),
                Err(RunFault::Write) => Err(keeper.into_fault()),
                Err(fault) => Err(Fault::from(fault)),
            }
        }
    }
}

/// Changes a document as the options say, before anything is printed: elements are removed, its
/// addresses are made absolute, and what is left of it by a policy becomes a document of its own,
/// unless its article is what is sanitised.
/// `address` is that which the page was read from, if it is known.
pub fn change(
    document: &mut Document,
    address: Option<&str>,
    options: &Options<'_>,
) -> Result<(), Fault> {
    for selector in options.removed.as_slice() {
        let ids = document.select_matcher(selector)?.ids()?;
        if let Err(refused) = SelectionMut::new(&mut document.tree, ids).remove() {
            return Err(Fault::from(refused.fault));
        }
    }
    make_absolute(document, options)?;
    if let Some(address) = address {
        make_absolute_at(document, address)?;
    }
    if options.declares_utf8() {
        declare_utf8(document)?;
    }
    if let Some(policy) = &options.policy
        && !matches!(options.job, Job::Article { .. })
    {
        *document = clean_document(&document.tree, policy)?;
    }
    Ok(())
}
