//! A whole program: the comments of strangers, cleaned.

use crate::fault::Fault;
use dom_query::prelude::*;
use std::alloc::Global;
use std::io::Write;

pub const COMMENTS: [&str; 4] = [
    "<p onclick=buy()>Nice <em>tea</em>, <a href=HTTPS://mate.example rel=me>try mate</a>.",
    "<a href='java&#9;script:x()'>Free</a> <font size=7>tea</font><script>x()</script><!-- x -->",
    "<a href=mailto:me@tea.example>Write</a><svg><a>x</a></svg><img src=x onerror=x()> 1 &lt; 2",
    "I <3 tea",
];

/// Prints each comment as it may stand in a page of our own.
pub fn print_comments<W: Write>(
    alloc: Global,
    comments: &[&str],
    out: &mut W,
) -> Result<(), Fault> {
    let policy = policy_of_comments(alloc)?;
    for comment in comments {
        writeln!(out, "{}", clean(alloc, comment, &policy)?)?;
    }
    Ok(())
}

/// Returns what a comment may have: phrases, lists and links to other sites, but no images.
fn policy_of_comments(alloc: Global) -> Result<Policy, Fault> {
    let mut rules = Rules::common(alloc)?;
    rules.disallow_element("img");
    rules.drop_relative();
    rules.set_rel("nofollow")?;
    Ok(Policy::new(rules)?)
}
