//! What a page says of its article: title, author, date and more.

use crate::kinds::Tag;
use crate::page::{Facts, Page};
use crate::titles::{Heading, title_of};
use dom_nodes::fault::OutOfMemory;
use dom_nodes::node_id::NodeId;
use dom_trees::node_ref::NodeRef;
use std::alloc::Global;

/// What the caller knows of an article from elsewhere, such as from JSON-LD. It counts before what
/// the page says in other ways.
#[derive(Clone, Copy, Drop)]
pub struct Known<'a> {
    pub title: Option<&'a str>,
    pub byline: Option<&'a str>,
    pub published: Option<&'a str>,
    pub site: Option<&'a str>,
    pub description: Option<&'a str>,
    pub image: Option<&'a str>,
}

impl<'a> Known<'a> {
    /// Nothing is known.
    pub const NOTHING: Known<'static> = Known {
        title: None,
        byline: None,
        published: None,
        site: None,
        description: None,
        image: None,
    };
}

/// What a page says of its article; `None` for what it doesn't say.
#[derive(Drop)]
pub struct Metadata {
    pub title: Option<String>,
    /// The author.
    pub byline: Option<String>,
    /// The date, as it is written.
    pub published: Option<String>,
    /// The language, as it is written, such as `en-GB`.
    pub language: Option<String>,
    /// The name of the site.
    pub site: Option<String>,
    pub description: Option<String>,
    /// The address of an image, as it is written.
    pub image: Option<String>,
}

/// What `meta` elements say.
#[derive(Clone, Copy, PartialEq, Eq, Drop)]
enum Field {
    Title,
    Byline,
    Published,
    Language,
    Site,
    Description,
    Image,
}

/// The names of `meta` elements for each field; of one field the first that is there counts.
static NAMES: [(Field, &str); 22] = [
    (Field::Title, "og:title"),
    (Field::Title, "twitter:title"),
    (Field::Title, "dc:title"),
    (Field::Title, "citation_title"),
    (Field::Byline, "author"),
    (Field::Byline, "dc:creator"),
    (Field::Byline, "parsely-author"),
    (Field::Byline, "citation_author"),
    (Field::Published, "article:published_time"),
    (Field::Published, "datepublished"),
    (Field::Published, "parsely-pub-date"),
    (Field::Published, "dc:date"),
    (Field::Published, "date"),
    (Field::Language, "og:locale"),
    (Field::Language, "content-language"),
    (Field::Site, "og:site_name"),
    (Field::Site, "application-name"),
    (Field::Description, "og:description"),
    (Field::Description, "description"),
    (Field::Description, "twitter:description"),
    (Field::Image, "og:image"),
    (Field::Image, "twitter:image"),
];

/// How many headings are looked at.
const MOST_HEADINGS: usize = 64;
/// A heading that is looked at is shorter.
const LONGEST_HEADING: u32 = 400;
/// A byline is shorter.
const LONGEST_BYLINE: u32 = 100;
/// A date that is the text of an element is shorter.
const LONGEST_DATE: u32 = 60;

/// What was gathered from the elements of a page.
#[derive(Drop)]
struct Gathered<'t> {
    title: Option<NodeId>,
    language: Option<&'t str>,
    /// For each name of `NAMES` the content of the first such `meta`.
    metas: Vec<Option<&'t str>>,
    headings: Vec<Heading>,
    byline: Option<NodeId>,
    time: Option<NodeId>,
}

/// Returns what a page says of its article. Fails only when memory runs out.
pub(crate) fn metadata_of(page: &Page<'_>, known: &Known<'_>) -> Result<Metadata, OutOfMemory> {
    let alloc = page.tree.allocator();
    let gathered = Gathered::of(page)?;
    let mut metadata = Metadata {
        title: gathered.first(alloc, known.title, Field::Title)?,
        byline: gathered.first(alloc, known.byline, Field::Byline)?,
        published: gathered.first(alloc, known.published, Field::Published)?,
        language: gathered.first(alloc, gathered.language, Field::Language)?,
        site: gathered.first(alloc, known.site, Field::Site)?,
        description: gathered.first(alloc, known.description, Field::Description)?,
        image: gathered.first(alloc, known.image, Field::Image)?,
    };
    if metadata.title.is_none() {
        metadata.title = gathered.written_title(page)?;
    }
    if metadata.byline.is_none()
        && let Some(id) = gathered.byline
    {
        metadata.byline = text_at(page, id)?;
    }
    if metadata.published.is_none()
        && let Some(id) = gathered.time
    {
        metadata.published = date_at(page, id)?;
    }
    Ok(metadata)
}

impl<'t> Gathered<'t> {
    fn of(page: &Page<'t>) -> Result<Gathered<'t>, OutOfMemory> {
        let alloc = page.tree.allocator();
        let mut gathered = Gathered {
            title: None,
            language: None,
            metas: vec![in alloc; None; NAMES.len()]?,
            headings: Vec::new(alloc),
            byline: None,
            time: None,
        };
        for id in &page.order {
            gathered.look_at(page, *id)?;
        }
        Ok(gathered)
    }

    /// Looks at an element.
    fn look_at(&mut self, page: &Page<'t>, id: NodeId) -> Result<(), OutOfMemory> {
        let facts = page.at(id);
        match facts.kind.tag {
            Tag::Text => return Ok(()),
            Tag::Html => {
                if self.language.is_none() {
                    self.language = page.tree.get_unchecked(&id).attr("lang");
                }
                return Ok(());
            }
            Tag::Title => {
                if self.title.is_none() {
                    self.title = Some(id);
                }
            }
            Tag::Meta => self.add_meta(&page.tree.get_unchecked(&id)),
            Tag::H1 | Tag::H2 | Tag::H3 => self.add_heading(page, id)?,
            _ => {}
        }
        if self.time.is_none() && facts.is_date {
            self.time = Some(id);
        }
        if self.byline.is_none() && is_byline(facts, page.length(id)) {
            self.byline = Some(id);
        }
        Ok(())
    }

    /// Adds a heading, if it is short and one of the first.
    fn add_heading(&mut self, page: &Page<'t>, id: NodeId) -> Result<(), OutOfMemory> {
        let facts = page.at(id);
        if page.length(id) >= LONGEST_HEADING || self.headings.len() >= MOST_HEADINGS {
            return Ok(());
        }
        let node = page.tree.get_unchecked(&id);
        let text = collapsed(page.tree.allocator(), node.text()?.as_str())?;
        self.headings.push(Heading {
            tag: facts.kind.tag,
            text,
        })?;
        Ok(())
    }

    /// Adds the content of a `meta` element under each of its names.
    fn add_meta(&mut self, node: &NodeRef<'t>) {
        let Some(content) = node.attr("content") else {
            return;
        };
        let content = content.trim();
        if content.is_empty() {
            return;
        }
        for name in &["property", "name", "itemprop", "http-equiv"] {
            let Some(value) = node.attr(name) else {
                continue;
            };
            for word in value.split_ascii_whitespace() {
                self.add_named(word, content);
            }
        }
    }

    fn add_named(&mut self, word: &str, content: &'t str) {
        for (number, (_, name)) in NAMES.iter().enumerate() {
            if is_name(word, name)
                && let Some(slot) = self.metas.get_mut(number)
            {
                if slot.is_none() {
                    *slot = Some(content);
                }
                return;
            }
        }
    }

    /// Returns what is known, or else the content of the first `meta` of the field.
    fn first(
        &self,
        alloc: Global,
        known: Option<&str>,
        field: Field,
    ) -> Result<Option<String>, OutOfMemory> {
        if let Some(known) = known
            && !known.trim().is_empty()
        {
            return Ok(Some(collapsed(alloc, known)?));
        }
        for (number, (of, _)) in NAMES.iter().enumerate() {
            if *of == field
                && let Some(Some(content)) = self.metas.get(number)
            {
                return Ok(Some(collapsed(alloc, content)?));
            }
        }
        Ok(None)
    }

    /// Returns the title by the element `title` and the headings.
    fn written_title(&self, page: &Page<'_>) -> Result<Option<String>, OutOfMemory> {
        let alloc = page.tree.allocator();
        let title = match self.title {
            Some(id) => text_at(page, id)?,
            None => None,
        };
        let title = match title {
            Some(title) => title,
            None => String::new(alloc),
        };
        let found = title_of(alloc, title.as_str(), &self.headings)?;
        if found.is_empty() {
            return Ok(None);
        }
        Ok(Some(String::from_str(alloc, found)?))
    }
}

/// Returns whether a word is this name; case doesn't count, and a full stop is a colon.
fn is_name(word: &str, name: &str) -> bool {
    let (word, name) = (word.as_bytes(), name.as_bytes());
    if word.len() != name.len() {
        return false;
    }
    for (byte, wanted) in word.iter().zip(name) {
        let is_same = byte.to_ascii_lowercase() == *wanted || (*byte == b'.' && *wanted == b':');
        if !is_same {
            return false;
        }
    }
    true
}

/// Returns whether an element holds the name of the author.
fn is_byline(facts: &Facts, length: u32) -> bool {
    if !facts.is_byline || length == 0 || length >= LONGEST_BYLINE {
        return false;
    }
    !matches!(facts.kind.tag, Tag::Meta | Tag::Body)
}

/// Returns the text of a node, or `None` if it is empty.
fn text_at(page: &Page<'_>, id: NodeId) -> Result<Option<String>, OutOfMemory> {
    let text = page.tree.get_unchecked(&id).text()?;
    let text = collapsed(page.tree.allocator(), text.as_str())?;
    if text.is_empty() {
        return Ok(None);
    }
    Ok(Some(text))
}

/// Returns the date of an element: its attribute `datetime` or `content`, or else its text.
fn date_at(page: &Page<'_>, id: NodeId) -> Result<Option<String>, OutOfMemory> {
    let node = page.tree.get_unchecked(&id);
    for name in &["datetime", "content"] {
        if let Some(value) = node.attr(name)
            && !value.is_empty()
        {
            return Ok(Some(collapsed(page.tree.allocator(), value)?));
        }
    }
    if page.length(id) >= LONGEST_DATE {
        return Ok(None);
    }
    text_at(page, id)
}

/// Returns the words of a text, with one space between them.
pub(crate) fn collapsed(alloc: Global, text: &str) -> Result<String, OutOfMemory> {
    let mut made = String::new(alloc);
    for word in text.split_whitespace() {
        if !made.is_empty() {
            made.push(' ')?;
        }
        made.push_str(word)?;
    }
    Ok(made)
}
