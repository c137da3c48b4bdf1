//! The constants and the lists of words and names by which an article is found.

/// One point of a score. Scores are whole numbers of sixtieths of a point.
pub(crate) const POINT: u64 = 60;
/// A run of text that is shorter weighs nothing.
pub(crate) const SHORTEST_RUN: u32 = 20;
/// A run that is at least so long, and less than a quarter of it links, is a paragraph.
pub(crate) const PARAGRAPH: u32 = 60;
/// A run of links counts as one when it is at least so long.
pub(crate) const LINK_RUN: u32 = 5;
/// A block that is shorter than this, and has a link, is left out.
pub(crate) const SHORTEST_BLOCK: u32 = 25;
/// A block with so many commas is text.
pub(crate) const MANY_COMMAS: u32 = 10;
/// A round that keeps so much is the last one.
pub(crate) const ENOUGH: u32 = 400;
/// So is a round whose root has paragraphs of this size, if it keeps a sixth of what isn't gone.
pub(crate) const SHORT: u32 = 100;
/// The tenths of the best score that a neighbour must have to join, at each level above the best.
pub(crate) static JOIN: [i64; 4] = [5, 6, 8, 10];
/// What a class or an id adds to the score for a good word, and takes away for a bad one.
pub(crate) const HINT: i32 = 25;
/// What `role=main` and `itemprop=articleBody` add to the score.
pub(crate) const MAIN: i32 = 25;

/// The elements that are blocks.
pub(crate) static BLOCKS: [&str; 45] = [
    "address",
    "article",
    "aside",
    "blockquote",
    "body",
    "caption",
    "center",
    "dd",
    "details",
    "dialog",
    "dir",
    "div",
    "dl",
    "dt",
    "fieldset",
    "figcaption",
    "figure",
    "footer",
    "form",
    "h1",
    "h2",
    "h3",
    "h4",
    "h5",
    "h6",
    "header",
    "hgroup",
    "hr",
    "html",
    "li",
    "main",
    "menu",
    "nav",
    "ol",
    "p",
    "pre",
    "search",
    "section",
    "summary",
    "table",
    "tbody",
    "td",
    "tfoot",
    "th",
    "thead",
];

/// More elements that are blocks.
pub(crate) static ROWS: [&str; 2] = ["tr", "ul"];

/// The elements that are never part of an article: scripts, styles, navigation, controls of forms,
/// and what is embedded.
pub(crate) static NEVER: [&str; 41] = [
    "svg", "nav", "map", "head", "link", "meta", "base", "menu", "area", "style", "title", "frame",
    "embed", "audio", "video", "track", "input", "meter", "param", "script", "iframe", "object",
    "applet", "canvas", "source", "button", "select", "option", "dialog", "keygen", "noembed",
    "bgsound", "noscript", "template", "frameset", "textarea", "optgroup", "datalist", "progress",
    "noframes", "basefont",
];

/// The elements whose attribute `hidden` doesn't count: pages hide them only until a script has
/// run.
pub(crate) static FRAMES: [&str; 2] = ["html", "body"];

/// The headings.
pub(crate) static HEADINGS: [&str; 6] = ["h1", "h2", "h3", "h4", "h5", "h6"];

/// Elements whose ids name a place of the text, so that only their class is a hint.
pub(crate) static PLACES: [&str; 10] = [
    "section", "a", "span", "p", "dt", "dd", "li", "td", "tr", "table",
];

/// Elements that aren't left out because of the words in their class and id.
pub(crate) static NOT_BY_WORDS: [&str; 13] = [
    "a", "code", "td", "tr", "tbody", "article", "main", "b", "em", "i", "strong", "html", "body",
];

/// Elements that are never left out as bad blocks.
pub(crate) static NEVER_BAD: [&str; 18] = [
    "body",
    "html",
    "p",
    "td",
    "th",
    "tr",
    "tbody",
    "thead",
    "tfoot",
    "pre",
    "li",
    "dt",
    "dd",
    "blockquote",
    "main",
    "figcaption",
    "caption",
    "summary",
];

/// The points that elements have to begin with.
pub(crate) static BASES: [(&str, i8); 21] = [
    ("div", 5),
    ("article", 10),
    ("main", 10),
    ("pre", 3),
    ("td", 3),
    ("blockquote", 3),
    ("address", -3),
    ("ol", -3),
    ("ul", -3),
    ("dl", -3),
    ("dd", -3),
    ("dt", -3),
    ("li", -3),
    ("form", -3),
    ("th", -5),
    ("h1", -5),
    ("h2", -5),
    ("h3", -5),
    ("h4", -5),
    ("h5", -5),
    ("h6", -5),
];

/// The values of `role` of elements that are left out.
pub(crate) static ROLES: [&str; 12] = [
    "menu",
    "menubar",
    "complementary",
    "navigation",
    "alert",
    "alertdialog",
    "dialog",
    "search",
    "banner",
    "contentinfo",
    "toolbar",
    "tooltip",
];

/// A list of words.
#[derive(Clone, Copy, PartialEq, Eq, Drop)]
pub(crate) enum List {
    /// What is probably not the article.
    Unlikely,
    /// What may be the article all the same.
    Maybe,
    /// What isn't the article even so.
    Strong,
    /// What adds to a score.
    Positive,
    /// What takes from a score.
    Negative,
    /// The name of the author.
    Byline,
}

/// How a word counts: as a whole word alone, or wherever it stands.
#[derive(Clone, Copy, PartialEq, Eq, Drop)]
pub(crate) enum Way {
    Whole,
    Part,
}

/// The words of the lists, in alphabetical order.
#[rattlefmt::skip]
pub(crate) static WORDS: [(&str, Way, List); 118] = [
    ("ad", Way::Whole, List::Negative), ("ad", Way::Whole, List::Strong),
    ("ad", Way::Whole, List::Unlikely), ("ads", Way::Whole, List::Negative),
    ("ads", Way::Whole, List::Strong), ("ads", Way::Whole, List::Unlikely),
    ("advert", Way::Part, List::Strong), ("advert", Way::Part, List::Unlikely),
    ("article", Way::Part, List::Positive), ("article", Way::Whole, List::Maybe),
    ("author", Way::Whole, List::Byline), ("author", Way::Whole, List::Negative),
    ("banner", Way::Part, List::Negative), ("banner", Way::Part, List::Unlikely),
    ("bio", Way::Whole, List::Negative), ("blog", Way::Whole, List::Positive),
    ("body", Way::Whole, List::Maybe), ("body", Way::Whole, List::Positive),
    ("breadcrumb", Way::Part, List::Unlikely), ("byline", Way::Part, List::Byline),
    ("byline", Way::Part, List::Negative), ("catlinks", Way::Part, List::Unlikely),
    ("column", Way::Whole, List::Maybe), ("com", Way::Whole, List::Negative),
    ("combx", Way::Part, List::Negative), ("combx", Way::Part, List::Unlikely),
    ("comment", Way::Part, List::Negative), ("comment", Way::Part, List::Strong),
    ("comment", Way::Part, List::Unlikely), ("community", Way::Part, List::Unlikely),
    ("consent", Way::Part, List::Unlikely), ("contact", Way::Part, List::Negative),
    ("content", Way::Part, List::Maybe), ("content", Way::Part, List::Positive),
    ("cookie", Way::Part, List::Negative), ("cookie", Way::Part, List::Unlikely),
    ("copyright", Way::Part, List::Negative), ("dateline", Way::Whole, List::Byline),
    ("disqus", Way::Part, List::Strong), ("disqus", Way::Part, List::Unlikely),
    ("editsection", Way::Part, List::Unlikely), ("entry", Way::Whole, List::Maybe),
    ("entry", Way::Whole, List::Positive), ("footer", Way::Part, List::Negative),
    ("footer", Way::Part, List::Strong), ("footer", Way::Part, List::Unlikely),
    ("gdpr", Way::Part, List::Negative), ("gdpr", Way::Part, List::Unlikely),
    ("hentry", Way::Whole, List::Positive), ("hid", Way::Whole, List::Negative),
    ("hidden", Way::Whole, List::Negative), ("main", Way::Whole, List::Maybe),
    ("main", Way::Whole, List::Positive), ("masthead", Way::Part, List::Negative),
    ("masthead", Way::Part, List::Unlikely), ("media", Way::Whole, List::Negative),
    ("menu", Way::Whole, List::Unlikely), ("meta", Way::Whole, List::Negative),
    ("mpu", Way::Whole, List::Unlikely), ("nav", Way::Whole, List::Unlikely),
    ("navbar", Way::Whole, List::Unlikely), ("navbox", Way::Part, List::Unlikely),
    ("navigation", Way::Part, List::Unlikely), ("newsletter", Way::Part, List::Negative),
    ("newsletter", Way::Part, List::Strong), ("newsletter", Way::Part, List::Unlikely),
    ("noprint", Way::Whole, List::Unlikely), ("outbrain", Way::Part, List::Negative),
    ("outbrain", Way::Part, List::Unlikely), ("p-author", Way::Part, List::Byline),
    ("page", Way::Whole, List::Positive), ("pager", Way::Whole, List::Unlikely),
    ("pagination", Way::Whole, List::Unlikely), ("post", Way::Whole, List::Maybe),
    ("post", Way::Whole, List::Positive), ("printfooter", Way::Whole, List::Unlikely),
    ("promo", Way::Part, List::Negative), ("recirc", Way::Part, List::Unlikely),
    ("related", Way::Part, List::Negative), ("related", Way::Part, List::Strong),
    ("related", Way::Part, List::Unlikely), ("remark", Way::Part, List::Unlikely),
    ("replies", Way::Whole, List::Unlikely), ("respond", Way::Whole, List::Unlikely),
    ("rss", Way::Whole, List::Unlikely), ("screen-reader", Way::Part, List::Unlikely),
    ("scroll", Way::Whole, List::Negative), ("shadow", Way::Whole, List::Maybe),
    ("share", Way::Part, List::Negative), ("share", Way::Part, List::Strong),
    ("share", Way::Whole, List::Unlikely), ("sharedaddy", Way::Part, List::Unlikely),
    ("sharing", Way::Whole, List::Unlikely), ("shopping", Way::Part, List::Negative),
    ("shoutbox", Way::Part, List::Negative), ("shoutbox", Way::Part, List::Unlikely),
    ("sidebar", Way::Part, List::Negative), ("sidebar", Way::Part, List::Strong),
    ("sidebar", Way::Part, List::Unlikely), ("skyscraper", Way::Part, List::Negative),
    ("skyscraper", Way::Part, List::Unlikely), ("social", Way::Part, List::Unlikely),
    ("sponsor", Way::Part, List::Negative), ("sponsor", Way::Part, List::Unlikely),
    ("story", Way::Part, List::Positive), ("story", Way::Whole, List::Maybe),
    ("subscri", Way::Part, List::Negative), ("subscri", Way::Part, List::Strong),
    ("subscri", Way::Part, List::Unlikely), ("supplemental", Way::Part, List::Unlikely),
    ("taboola", Way::Part, List::Unlikely), ("tags", Way::Part, List::Negative),
    ("tags", Way::Whole, List::Unlikely), ("text", Way::Whole, List::Maybe),
    ("text", Way::Whole, List::Positive), ("toc", Way::Whole, List::Unlikely),
    ("toolbar", Way::Whole, List::Unlikely), ("writtenby", Way::Part, List::Byline),
];

/// What follows `text-` in classes that say how a text looks.
pub(crate) static TEXT_LOOKS: [&str; 37] = [
    "center",
    "left",
    "right",
    "justify",
    "start",
    "end",
    "muted",
    "primary",
    "secondary",
    "white",
    "black",
    "light",
    "dark",
    "success",
    "danger",
    "warning",
    "info",
    "gray",
    "grey",
    "xs",
    "sm",
    "base",
    "lg",
    "xl",
    "2xl",
    "3xl",
    "4xl",
    "5xl",
    "6xl",
    "7xl",
    "8xl",
    "9xl",
    "uppercase",
    "lowercase",
    "capitalize",
    "nowrap",
    "truncate",
];

/// What follows `content-` in classes that say how a content is placed.
pub(crate) static CONTENT_LOOKS: [&str; 7] = [
    "center", "start", "end", "between", "around", "evenly", "stretch",
];
