//! What the command line asks for.

use crate::charset::charset_of;
use crate::faults::Fault;
use crate::policies::policy_of;
use clap::ArgMatches;
use dom_query::{
    Charset, Command, Context, Matcher, Policy, ScriptFault, SelectorFault, read_script,
};
use std::alloc::Global;
use url::{ParseError, Url};

/// What the command line asks for.
#[derive(Drop)]
pub struct Options<'a> {
    pub reading: Reading<'a>,
    /// What is removed from a page first.
    pub removed: Vec<Matcher>,
    /// The policy by which a page is sanitised before anything is printed.
    pub policy: Option<Policy>,
    /// The URL against which relative addresses are resolved.
    pub base: Option<Url>,
    pub job: Job,
    pub printing: Printing<'a>,
    /// Whether the document is written back to its file.
    pub in_place: bool,
    /// Whether the encoding that a document declares is left where the document is written.
    pub keeps_charset: bool,
    /// Whether a report says how each page was read.
    pub verbose: bool,
    pub stream: Stream,
    pub files: Vec<&'a str>,
}

/// What is done with a page once it has been read, and changed as the options say.
#[derive(Drop)]
pub enum Job {
    /// What a selector matches is printed.
    Select(Matcher),
    /// The article of the page is printed; with `any` also what may be no article.
    Article { any: bool },
    /// The whole document is printed as HTML.
    Document,
    /// The whole tree is printed in the form of html5lib's tests.
    Tree,
    /// The commands of a script are run.
    Script(Vec<Command>),
}

/// How matches are printed.
#[derive(Clone, Copy, Drop)]
pub struct Printing<'a> {
    pub show: Show<'a>,
    /// Whether what is inside a match is printed, without the match itself.
    pub inner: bool,
    /// Whether only the first match of each file is printed.
    pub first: bool,
    /// Whether each answer is JSON.
    pub json: bool,
    /// Whether whitespace in texts and attributes is collapsed.
    pub trims: bool,
    /// The byte that ends each answer.
    pub end: u8,
    /// Whether the name of the file is printed before each answer.
    pub names: bool,
    /// Whether names of files are coloured.
    pub colored: bool,
}

/// How a stream of pages is processed: each page is answered by a line of JSON.
#[derive(Clone, Copy, Drop)]
pub struct Stream {
    /// Whether the input is a stream of JSON lines.
    pub jsonl: bool,
    /// Whether the input is a WARC file.
    pub warc: bool,
    /// Whether every line is flushed.
    pub line_buffered: bool,
    /// Whether the numbers of pages, bytes and faults are reported on standard error.
    pub progress: bool,
}

impl Stream {
    /// Returns whether the input is a stream of pages.
    pub fn is_one(&self) -> bool {
        self.jsonl || self.warc
    }
}

/// How a page is read.
#[derive(Clone, Copy, Drop)]
pub enum Reading<'a> {
    Explicit,
    Page {
        context: Option<Context<'a>>,
        /// What is known of the encoding of pages besides their bytes.
        charset: Charset,
        scripting: bool,
        max_depth: Option<usize>,
    },
}

/// What is printed of a match.
#[derive(Clone, Copy, Drop)]
pub enum Show<'a> {
    Html,
    Text,
    Attr(&'a str),
    /// CommonMark with the tables of GitHub Flavored Markdown.
    Markdown,
    /// The Markdown of the Rust crate.
    CrateMarkdown,
    /// How many matches there are.
    Count,
    /// The rows of tables.
    Csv,
    /// Its name, attributes, text and HTML.
    All,
}

impl<'a> Options<'a> {
    /// Returns the options of a command line. `terminal` says whether standard output is a
    /// terminal.
    ///
    /// Fails if a value isn't what its option takes (a selector, a URL, a number, the file of a
    /// policy), if options can't be combined, and if memory runs out.
    pub fn new(
        rt: &HostRuntime,
        matches: &ArgMatches<'a>,
        terminal: bool,
    ) -> Result<Options<'a>, Fault> {
        let alloc = rt.alloc();
        if let Some(why) = misfit_of_article(matches) {
            return Err(Fault::Usage(why));
        }
        let mut options = Options {
            reading: reading_of(alloc, matches)?,
            removed: Vec::new(alloc),
            policy: policy_of(rt, matches)?,
            base: None,
            job: job_of(alloc, matches)?,
            printing: printing_of(matches, terminal)?,
            in_place: matches.get_flag("in-place"),
            keeps_charset: matches.get_flag("keep-charset"),
            verbose: matches.get_flag("verbose"),
            stream: stream_of(matches),
            files: Vec::new(alloc),
        };
        options.read_removed(alloc, matches)?;
        options.read_base(alloc, matches)?;
        options.read_files(matches)?;
        options.check()?;
        Ok(options)
    }

    fn read_removed(&mut self, alloc: Global, matches: &ArgMatches<'a>) -> Result<(), Fault> {
        if let Some(texts) = matches.get_strs("remove") {
            for text in texts {
                self.removed.push(matcher_of(alloc, text, "--remove")?)?;
            }
        }
        Ok(())
    }

    fn read_base(&mut self, alloc: Global, matches: &ArgMatches<'a>) -> Result<(), Fault> {
        if let Some(written) = matches.get_str("base") {
            self.base = Some(base_of(alloc, written)?);
        }
        Ok(())
    }

    /// Stores the names of the files, or standard input if there are none. Without a selector, the
    /// first argument is a file too.
    fn read_files(&mut self, matches: &ArgMatches<'a>) -> Result<(), Fault> {
        if !matches!(self.job, Job::Select(_))
            && let Some(name) = matches.get_str("selector")
        {
            self.files.push(name)?;
        }
        if let Some(names) = matches.get_strs("file") {
            for name in names {
                self.files.push(*name)?;
            }
        }
        if self.files.is_empty() {
            self.files.push("-")?;
        }
        Ok(())
    }

    /// Fails if options can't be combined.
    fn check(&self) -> Result<(), Fault> {
        if let Some(why) = self.misfit() {
            return Err(Fault::Usage(why));
        }
        Ok(())
    }

    /// Returns a message about options that can't be combined, or `None` if all can.
    fn misfit(&self) -> Option<&'static str> {
        let selects = matches!(self.job, Job::Select(_));
        if self.base.is_some() && !self.prints_addresses() {
            return Some("--base: nothing that is printed holds an address");
        }
        if self.in_place && !matches!(self.job, Job::Document | Job::Script(_)) {
            return Some("--in-place: only with --document or --script");
        }
        if self.in_place && self.files.as_slice().contains(&"-") {
            return Some("--in-place: standard input can't be written back");
        }
        if self.stream.is_one() && (self.in_place || matches!(self.job, Job::Tree)) {
            return Some("--jsonl and --warc: not with --in-place or --tree");
        }
        if self.stream.progress && !self.stream.is_one() {
            return Some("--progress: only with --jsonl or --warc");
        }
        let has_inside = matches!(
            self.printing.show,
            Show::Html | Show::Markdown | Show::CrateMarkdown
        );
        if self.printing.inner && !has_inside {
            return Some("--inner: only HTML and Markdown have an inside");
        }
        if !selects && (self.printing.first || self.printing.inner) {
            return Some("--first and --inner: only with a SELECTOR");
        }
        if self.printing.json && !selects && !matches!(self.job, Job::Article { .. }) {
            return Some("--json: only with a SELECTOR or --article");
        }
        None
    }

    /// Whether UTF-8 is declared in the documents of pages because they are written in it.
    pub fn declares_utf8(&self) -> bool {
        if self.keeps_charset || matches!(self.reading, Reading::Explicit) {
            return false;
        }
        self.in_place || matches!(self.job, Job::Document)
    }

    /// Returns whether what is printed can contain addresses.
    fn prints_addresses(&self) -> bool {
        match self.job {
            Job::Select(_) => !matches!(self.printing.show, Show::Text | Show::Count | Show::Csv),
            _ => true,
        }
    }
}

/// Returns a message about options that can't be combined with `--article`, or that need it.
fn misfit_of_article(matches: &ArgMatches<'_>) -> Option<&'static str> {
    if !matches.get_flag("article") {
        if matches.get_flag("any") {
            return Some("--any: only with --article");
        }
        return None;
    }
    let counts = matches.get_flag("count") || matches.get_flag("csv");
    let is_whole = matches.get_flag("document") || matches.get_flag("tree");
    let asks = matches.get_str("attr").is_some() || matches.get_strs("script").is_some();
    if counts || is_whole || asks {
        return Some("--article: only --html, --text, --md and --json say how it is printed");
    }
    None
}

fn job_of(alloc: Global, matches: &ArgMatches<'_>) -> Result<Job, Fault> {
    if matches.get_flag("article") {
        return Ok(Job::Article {
            any: matches.get_flag("any"),
        });
    }
    if matches.get_flag("tree") {
        return Ok(Job::Tree);
    }
    if matches.get_flag("document") {
        return Ok(Job::Document);
    }
    if let Some(lines) = matches.get_strs("script") {
        return script_of(alloc, lines);
    }
    let text = matches.get_str("selector").unwrap_or("");
    Ok(Job::Select(matcher_of(alloc, text, "SELECTOR")?))
}

/// Returns the script whose lines are those of the texts, one text after the other.
fn script_of(alloc: Global, texts: &[&str]) -> Result<Job, Fault> {
    let mut script = String::new(alloc);
    for text in texts {
        script.push_str(text)?;
        script.push('\n')?;
    }
    match read_script(alloc, script.as_bytes()) {
        Ok(commands) => Ok(Job::Script(commands)),
        Err(ScriptFault::BadLine(line)) => Err(Fault::Script(line)),
        Err(ScriptFault::TooManyNodes) => Err(Fault::TooManyNodes),
        Err(ScriptFault::Memory) => Err(Fault::Memory),
    }
}

fn printing_of<'a>(matches: &ArgMatches<'a>, terminal: bool) -> Result<Printing<'a>, Fault> {
    Ok(Printing {
        show: show_of(matches)?,
        inner: matches.get_flag("inner"),
        first: matches.get_flag("first"),
        json: matches.get_flag("json"),
        trims: matches.get_flag("trim"),
        end: if matches.get_flag("null") { 0 } else { b'\n' },
        names: matches.get_flag("with-filename"),
        colored: is_colored(matches, terminal)?,
    })
}

fn is_colored(matches: &ArgMatches<'_>, terminal: bool) -> Result<bool, Fault> {
    match matches.get_str("color") {
        None | Some("auto") => Ok(terminal),
        Some("always") => Ok(true),
        Some("never") => Ok(false),
        Some(_) => Err(Fault::Usage("--color: auto, always or never")),
    }
}

fn stream_of(matches: &ArgMatches<'_>) -> Stream {
    Stream {
        jsonl: matches.get_flag("jsonl"),
        warc: matches.get_flag("warc"),
        line_buffered: matches.get_flag("line-buffered"),
        progress: matches.get_flag("progress"),
    }
}

fn reading_of<'a>(alloc: Global, matches: &ArgMatches<'a>) -> Result<Reading<'a>, Fault> {
    if matches.get_flag("explicit") {
        return Ok(Reading::Explicit);
    }
    Ok(Reading::Page {
        context: context_of(matches),
        charset: charset_of(alloc, matches)?,
        scripting: matches.get_flag("scripting"),
        max_depth: max_depth_of(matches)?,
    })
}

fn max_depth_of(matches: &ArgMatches<'_>) -> Result<Option<usize>, Fault> {
    let Some(written) = matches.get_str("max-depth") else {
        return Ok(None);
    };
    match written.parse::<usize>() {
        Ok(depth) => Ok(Some(depth)),
        Err(_) => Err(Fault::Usage("--max-depth: a number of elements")),
    }
}

/// Returns the context of a fragment, if the option is used: the name of an HTML element, or a name
/// after `svg` or `math`.
fn context_of<'a>(matches: &ArgMatches<'a>) -> Option<Context<'a>> {
    let written = matches.get_str("context")?;
    if let Some(name) = written.strip_prefix("svg ") {
        return Some(Context::Svg(name));
    }
    if let Some(name) = written.strip_prefix("math ") {
        return Some(Context::MathMl(name));
    }
    Some(Context::Html(written))
}

/// Parses the selector in an argument; `place` names the argument in the error.
fn matcher_of(alloc: Global, text: &str, place: &'static str) -> Result<Matcher, Fault> {
    match Matcher::new(alloc, text) {
        Ok(matcher) => Ok(matcher),
        Err(SelectorFault::Memory) => Err(Fault::Memory),
        Err(fault) => Err(Fault::Selector {
            place,
            fault,
            text: String::from_str(alloc, text)?,
        }),
    }
}

/// The flags that say what is printed of a match.
static SHOWN: [(&str, Show<'static>); 4] = [
    ("html", Show::Html),
    ("text", Show::Text),
    ("count", Show::Count),
    ("csv", Show::Csv),
];

fn show_of<'a>(matches: &ArgMatches<'a>) -> Result<Show<'a>, Fault> {
    if let Some(name) = matches.get_str("attr") {
        return Ok(Show::Attr(name));
    }
    match matches.get_str("md") {
        None => Ok(show_by_flag(matches)),
        Some("") => Ok(Show::Markdown),
        Some("crate") => Ok(Show::CrateMarkdown),
        Some(_) => Err(Fault::Usage("--md: nothing, or crate, after a =")),
    }
}

/// Returns what is printed of a match if neither `--attr` nor `--md` says it.
fn show_by_flag<'a>(matches: &ArgMatches<'a>) -> Show<'a> {
    for (name, show) in &SHOWN {
        if matches.get_flag(name) {
            return *show;
        }
    }
    let as_json = matches.get_flag("json") || matches.get_flag("jsonl") || matches.get_flag("warc");
    if as_json && !matches.get_flag("inner") {
        return Show::All;
    }
    if matches.get_flag("article") {
        return Show::Markdown;
    }
    Show::Html
}

/// Parses the URL against which relative addresses are resolved.
fn base_of(alloc: Global, written: &str) -> Result<Url, Fault> {
    match Url::parse(alloc, written) {
        Ok(base) => Ok(base),
        Err(ParseError::OutOfMemory) => Err(Fault::Memory),
        Err(fault) => Err(Fault::Base(fault)),
    }
}
