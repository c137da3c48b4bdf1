//! The context in which the Markdown serializer writes a node: options, emphasis and lists. The
//! types are those of the crate dom_query.

ghost use Rattle.std.specs.Prelude.{◌≡◌, ◌≤◌, IfNone, IfOk, IfSome, false, string_bytes};
ghost use Rattle.dom_md.specs.Context.{advanced, digit_count, kind_offset, line_break, prefix_of};
ghost use Rattle.dom_md.specs.Context.{HasNumbers};
ghost use Rattle.dom_md.specs.Options.{advanced_opts, all_off, item_opts, with_include_node};
ghost use Rattle.dom_md.specs.Options.{with_inline, with_link_body, with_list_item, with_offset};
ghost use Rattle.dom_md.specs.Options.{with_scope, with_skip_escape, with_skip_md};
ghost use Rattle.dom_md.specs.Options.{with_table_cell};
ghost use Rattle.dom_md.specs.Scopes.{has_scope, merged};

use dom_nodes::fault::OutOfMemory;
use std::alloc::Global;

/// The greatest number of a list item.
const MAX_LIST_NUMBER: u32 = 999_999_999;

/// The emphasis that surrounds a place in the text: bold, italic, both or none.
#[derive(Clone, Copy, PartialEq, Eq, Debug, Default, Drop)]
pub struct EmphasisScope {
    bold: bool,
    italic: bool,
}

impl EmphasisScope {
    pub const BOLD: EmphasisScope = EmphasisScope {
        bold: true,
        italic: false,
    };

    pub const ITALIC: EmphasisScope = EmphasisScope {
        bold: false,
        italic: true,
    };

    /// Returns the scope without emphasis.
    pub const fn none() -> EmphasisScope
        ensures bold { result.bold ≡ false }
        ensures italic { result.italic ≡ false }
    {
        EmphasisScope {
            bold: false,
            italic: false,
        }
    }

    /// Returns whether this scope includes each kind of emphasis of the other.
    pub const fn contains(self, other: EmphasisScope) -> bool
        ensures { result ≡ has_scope self other }
    {
        (self.bold || !other.bold) && (self.italic || !other.italic)
    }

    /// Returns the scope with the emphasis of both.
    pub const fn insert(self, other: EmphasisScope) -> EmphasisScope
        ensures { result ≡ merged self other }
    {
        EmphasisScope {
            bold: self.bold || other.bold,
            italic: self.italic || other.italic,
        }
    }
}

/// Converts a marker to its emphasis: italic for `*`, and bold for any other marker.
impl From<&str> for EmphasisScope {
    ghost use Rattle.std.specs.Prelude.{◌≡◌};
    ghost use Rattle.dom_md.specs.Scopes.{scope_of};

    ghost from_gives = { λ marker made. made ≡ scope_of marker.now };

    fn from(marker: &str) -> EmphasisScope {
        if marker == "*" {
            EmphasisScope::ITALIC
        } else {
            EmphasisScope::BOLD
        }
    }
}

/// Options for writing a node. The default is that all are off.
#[derive(Clone, Copy, PartialEq, Eq, Debug, Default, Drop)]
pub struct FormatOpts {
    /// The node itself is written, not only its children.
    pub include_node: bool,
    /// Texts are written without backslash escapes.
    pub skip_escape: bool,
    /// The node is within a line of text.
    pub inline: bool,
    /// Only text is written, no Markdown for elements.
    pub skip_md: bool,
    /// The node is in the cell of a table, where a line break is `<br>`.
    pub table_cell: bool,
    /// The node is in a list item; its first word is escaped as at the start of a line.
    pub list_item: bool,
    /// The node is in the text of a link.
    pub link_body: bool,
    /// The indentation of lines, in columns.
    pub offset: usize,
    /// The emphasis that surrounds the node.
    pub emphasis_scope: EmphasisScope,
}

impl FormatOpts {
    /// Returns options that are all off, with offset 0 and no emphasis.
    pub const fn new() -> FormatOpts
        ensures { result ≡ all_off }
    {
        FormatOpts {
            include_node: false,
            skip_escape: false,
            inline: false,
            skip_md: false,
            table_cell: false,
            list_item: false,
            link_body: false,
            offset: 0,
            emphasis_scope: EmphasisScope::none(),
        }
    }

    /// Returns the options with `include_node` on: the node itself is written, too.
    pub const fn include_node(mut self) -> FormatOpts
        ensures { result ≡ with_include_node self }
    {
        self.include_node = true;
        self
    }

    /// Returns the options with `skip_escape` on: texts are written without backslash escapes.
    pub const fn skip_escape(mut self) -> FormatOpts
        ensures { result ≡ with_skip_escape self }
    {
        self.skip_escape = true;
        self
    }

    /// Returns the options with `inline` on: the node is within a line of text.
    pub const fn inline(mut self) -> FormatOpts
        ensures { result ≡ with_inline self }
    {
        self.inline = true;
        self
    }

    /// Returns the options with `skip_md` on: no Markdown is written for elements.
    pub const fn skip_md(mut self) -> FormatOpts
        ensures { result ≡ with_skip_md self }
    {
        self.skip_md = true;
        self
    }

    /// Returns the options with `table_cell` on: the node is in the cell of a table.
    pub const fn table_cell(mut self) -> FormatOpts
        ensures { result ≡ with_table_cell self }
    {
        self.table_cell = true;
        self
    }

    /// Returns the options with `list_item` on: the node is in a list item.
    pub const fn list_item(mut self) -> FormatOpts
        ensures { result ≡ with_list_item self }
    {
        self.list_item = true;
        self
    }

    /// Returns the options with `link_body` on: the node is in the text of a link.
    pub const fn link_body(mut self) -> FormatOpts
        ensures { result ≡ with_link_body self }
    {
        self.link_body = true;
        self
    }

    /// Returns the options with this indentation, in columns.
    pub const fn offset(mut self, offset: usize) -> FormatOpts
        ensures { result ≡ with_offset offset self }
    {
        self.offset = offset;
        self
    }

    /// Returns the options with this emphasis added to that around the node.
    pub const fn emphasis_scope(mut self, scope: EmphasisScope) -> FormatOpts
        ensures { result ≡ with_scope scope self }
    {
        self.emphasis_scope = self.emphasis_scope.insert(scope);
        self
    }
}

/// The kind of a list: unordered, or ordered with the number of its next item.
#[derive(Clone, Copy, PartialEq, Eq, Debug, Drop)]
pub enum ListKind {
    Ul,
    Ol(u32),
}

impl ListKind {
    /// Returns how many columns the text of an item is indented relative to its list: at least 4,
    /// and at least two more than the number has digits.
    fn offset(self) -> usize
        ensures { result ≡ kind_offset self }
    {
        match self {
            ListKind::Ul => 4,
            ListKind::Ol(n) => {
                let wide = digit_count(n) + 2;
                if wide < 4 { 4 } else { wide }
            }
        }
    }
}

fn digit_count(n: u32) -> usize
    ensures value { result ≡ digit_count n }
    ensures small { result ≤ 10 }
{
    if n < 10 {
        return 1;
    }
    if n < 100 {
        return 2;
    }
    if n < 1_000 {
        return 3;
    }
    if n < 10_000 {
        return 4;
    }
    if n < 100_000 {
        return 5;
    }
    if n < 1_000_000 {
        return 6;
    }
    if n < 10_000_000 {
        return 7;
    }
    if n < 100_000_000 {
        return 8;
    }
    if n < 1_000_000_000 {
        return 9;
    }
    10
}

/// The state of a list that is being written.
#[derive(Clone, Copy, Drop)]
pub struct ListContext {
    /// The options for the items.
    pub opts: FormatOpts,
    /// The kind of the list, with the number of the next item.
    pub kind: ListKind,
    /// The indentation of the list itself, in columns.
    list_indent: usize,
}

impl ListContext {
    /// Returns the state at the start of a list. `opts` are the options of the list itself; those
    /// of its items have the item's offset and `include_node` off.
    pub fn new(opts: FormatOpts, kind: ListKind) -> ListContext
        ensures opts { result.opts ≡ item_opts kind opts }
        ensures kind { result.kind ≡ kind }
        ensures indent { result.list_indent ≡ opts.offset }
    {
        let more = kind.offset();
        let mut list_opts = opts.offset(opts.offset.saturating_add(more));
        list_opts.include_node = false;
        ListContext {
            opts: list_opts,
            kind,
            list_indent: opts.offset,
        }
    }

    /// Returns the indentation of the list itself, in columns.
    pub const fn list_indent_len(&self) -> usize
        ensures { result ≡ self.now.list_indent }
    {
        self.list_indent
    }

    /// Returns what ends a line: `<br>` in the cell of a table, a line feed elsewhere.
    pub fn linebreak(&self) -> &'static str
        ensures { result.now ≡ line_break self.now.opts.table_cell }
    {
        if self.opts.table_cell { "<br>" } else { "\n" }
    }

    /// Returns the prefix of an item of an unordered list, `"- "`, or `"+ "` in the cell of a
    /// table; `None` for an ordered list.
    pub fn mark(&self) -> Option<&'static str>
        ensures some { IfSome result (λ mark. mark.now
            ≡ prefix_of self.now.kind self.now.opts.table_cell) }
        ensures none { IfNone result (HasNumbers self.now.kind) }
    {
        match self.kind {
            ListKind::Ul => Some(if self.opts.table_cell { "+ " } else { "- " }),
            ListKind::Ol(_) => None,
        }
    }

    /// Returns the prefix of the next item: that of `mark`, or the number with `". "`. Fails only
    /// when memory runs out.
    pub fn prefix(&self, alloc: Global) -> Result<String, OutOfMemory>
        ensures { IfOk result (λ t. string_bytes t ≡ prefix_of self.now.kind
            self.now.opts.table_cell) }
    {
        match self.kind {
            ListKind::Ul => {
                let mark = if self.opts.table_cell { "+ " } else { "- " };
                Ok(String::from_str(alloc, mark)?)
            }
            ListKind::Ol(n) => Ok(format!(in alloc; "{n}. ")?),
        }
    }

    /// Advances an ordered list to its next number, at most 999,999,999, and sets the offset of the
    /// items accordingly. Leaves an unordered list as it is.
    pub fn advance_ol_number(&mut self)
        ensures kind { self.new.kind ≡ advanced self.old.kind }
        ensures indent { self.new.list_indent ≡ self.old.list_indent }
        ensures opts { self.new.opts
            ≡ advanced_opts self.old.kind self.old.list_indent self.old.opts }
    {
        if let ListKind::Ol(n) = self.kind {
            let next = if n < MAX_LIST_NUMBER {
                n + 1
            } else {
                MAX_LIST_NUMBER
            };
            self.kind = ListKind::Ol(next);
            let more = self.kind.offset();
            self.opts = self.opts.offset(self.list_indent.saturating_add(more));
        }
    }
}
