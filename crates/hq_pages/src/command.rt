//! The command line.

use clap::{Arg, ArgAction, ArgGroup, Command};
use std::alloc::{AllocError, Global};

const VERSION: &str = "1.0.0 (dom_query 0.29.0)";

const USAGE: &str = "hq [OPTIONS] SELECTOR [FILE ..]
       hq [OPTIONS] --article | --document | --tree | --script LINES [FILE ..]
       hq [OPTIONS] --jsonl | --warc SELECTOR [FILE ..]";

const AFTER: &str = "Examples:
  hq --text h1 page.html               the headings of a page
  hq --attr href --base https://example.com/ 'main a' page.html
                                       the links of its main part, as absolute addresses
  hq --document --remove script -i *.html
                                       rewrites pages without their scripts

Without a FILE, or where it is -, standard input is read. The status is 0 where something matched,
1 where nothing did, and 2 where something failed.";

/// An option: its name, its short name or a space, what its value is called (empty for an option
/// without a value), another option that it excludes (or an empty text), and its help.
type Choice = (&'static str, char, &'static str, &'static str, &'static str);

/// The short name of an option that has none.
const NONE: char = ' ';

/// All options, in the order in which `--help` lists them.
#[rattlefmt::skip]
static OPTIONS: [Choice; 37] = [
    ("html", NONE, "", "", "Print each match as HTML (the default)"),
    ("inner", NONE, "", "", "Print what is inside each match: HTML, or with --md Markdown"),
    ("text", 't', "", "", "Print the text of each match"),
    ("md", 'm', "WRITER", "",
        "Print each match as Markdown; with --md=crate as the Rust crate writes it"),
    ("attr", 'a', "NAME", "", "Print this attribute of each match that has it"),
    ("count", 'c', "", "json", "Print how many matches there are"),
    ("csv", NONE, "", "json", "Print the rows of each matched table as CSV"),
    ("article", NONE, "", "",
        "Print the article of each page: as Markdown, or with --html, --text or --json"),
    ("any", NONE, "", "", "With --article: also print what may be no article"),
    ("document", 'd', "", "", "Print the whole document, doctype included"),
    ("tree", NONE, "", "", "Print the whole tree, in the form of html5lib's tests"),
    ("script", 's', "LINES", "", "Run these lines of a script on the page; may be repeated"),
    ("json", 'j', "", "", "Print a line of JSON for each match"),
    ("jsonl", NONE, "", "", "Read lines of JSON, a page in each, and answer each by a line"),
    ("warc", NONE, "", "jsonl",
        "Read WARC files, the archives of crawls, and answer each page by a line"),
    ("first", '1', "", "", "Take only the first match in each file"),
    ("trim", NONE, "", "", "Join whitespace in what --text and --attr print"),
    ("null", '0', "", "", "End each answer with a NUL byte instead of a line feed"),
    ("with-filename", 'H', "", "", "Print the name of the file in front of each answer"),
    ("color", NONE, "WHEN", "", "Colour file names: auto (the default), always or never"),
    ("base", 'b', "URL", "",
        "Make addresses absolute: resolve them against this URL and the page's base"),
    ("remove", 'r', "SELECTOR", "", "First remove what this matches; may be repeated"),
    ("sanitize", NONE, "", "", "Then keep only what the rules for HTML from strangers allow"),
    ("preset", NONE, "NAME", "policy", "With --sanitize: common (the default), article, comment, email, inline or text"),
    ("policy", NONE, "FILE", "", "With --sanitize: take the rules of this file, in TOML"),
    ("allow", NONE, "NAMES", "",
        "With --sanitize: also allow p, a[href], [lang] ..; may be repeated"),
    ("deny", NONE, "NAMES", "",
        "With --sanitize: remove these elements and their contents; may be repeated"),
    ("in-place", 'i', "", "", "Write the document back to its file; with --document or --script"),
    ("keep-charset", NONE, "", "", "Leave the encoding that a written document declares"),
    ("charset", NONE, "LABEL", "explicit",
        "Read pages in this encoding, as an HTTP header names it"),
    ("explicit", NONE, "", "", "Accept only explicit markup, in which every element is closed"),
    ("context", NONE, "NAME", "explicit", "Read a fragment as in this element: tr, \"svg path\""),
    ("scripting", NONE, "", "explicit", "Read as if scripts ran: noscript holds text"),
    ("max-depth", NONE, "N", "explicit", "Nest elements at most this deep"),
    ("line-buffered", NONE, "", "", "Flush the output after every line"),
    ("progress", NONE, "", "", "Report pages, bytes and faults on standard error; for streams"),
    ("verbose", 'v', "", "", "Report how each page was read on standard error"),
];

/// The options that say what is printed, of which at most one can be used.
static SHOWS: [&str; 9] = [
    "html", "text", "md", "attr", "count", "csv", "document", "tree", "script",
];

/// Returns the definition of the command line for the parser of arguments. Fails only when memory
/// runs out.
pub fn command<'a>(alloc: Global) -> Result<Command<'a>, AllocError> {
    let mut command = Command::new(alloc, "hq")
        .version(VERSION)
        .about("Prints what a CSS selector matches in pages of the web.")
        .override_usage(USAGE)
        .after_help(AFTER)
        .arg(selector(alloc)?)?
        .arg(files(alloc))?;
    for choice in &OPTIONS {
        command = command.arg(option(alloc, choice)?)?;
    }
    command.group(shows(alloc)?)
}

fn selector<'a>(alloc: Global) -> Result<Arg<'a>, AllocError> {
    let whole: [&'a str; 4] = ["article", "document", "tree", "script"];
    Arg::new(alloc, "selector")
        .value_name("SELECTOR")
        .help("What to look for; a FILE with --article, --document, --tree or --script")
        .required_unless_present_any(whole.as_slice())
}

fn files<'a>(alloc: Global) -> Arg<'a> {
    Arg::new(alloc, "file")
        .value_name("FILE")
        .num_args(0..)
        .action(ArgAction::Append)
        .help("The pages")
}

fn option<'a>(alloc: Global, choice: &Choice) -> Result<Arg<'a>, AllocError> {
    let (name, short, value, other, help) = *choice;
    let mut option = Arg::new(alloc, name)
        .long(name)
        .action(action(name, value))
        .help(help);
    if short != NONE {
        option = option.short(short);
    }
    if !value.is_empty() {
        option = option.value_name(value);
    }
    if name == "md" {
        option = option
            .num_args(0..=1)
            .require_equals(true)
            .default_missing_value("");
    }
    if !other.is_empty() {
        option = option.conflicts_with(other)?;
    }
    Ok(option)
}

/// Returns what the parser of arguments does with an option.
fn action(name: &str, value: &str) -> ArgAction {
    if value.is_empty() {
        ArgAction::SetTrue
    } else if matches!(name, "remove" | "script" | "allow" | "deny") {
        ArgAction::Append
    } else {
        ArgAction::Set
    }
}

/// Returns the group of options of which at most one can be used.
fn shows<'a>(alloc: Global) -> Result<ArgGroup<'a>, AllocError> {
    let mut group = ArgGroup::new(alloc, "show");
    for name in &SHOWS {
        group = group.arg(name)?;
    }
    Ok(group)
}
