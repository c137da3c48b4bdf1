//! The states of the tokenizer.

ghost use Rattle.std.specs.Prelude.{◌≡◌, ◌<◌};
ghost use Rattle.page_tokens.specs.TagStates.{quote_of};

/// The kinds of text that end at an end tag with the name of the last start tag.
#[derive(Clone, Copy, Drop)]
pub enum Raw {
    Rcdata,
    Rawtext,
    Script,
    /// Script data that is escaped by `<!--`.
    Escaped,
}

#[derive(Clone, Copy, Drop)]
pub enum Quote {
    Double,
    Single,
}

/// An identifier of a doctype.
#[derive(Clone, Copy, Drop)]
pub enum Id {
    Public,
    System,
}

/// What was read after `<!`; for the two words, the number of letters.
#[derive(Clone, Copy, Drop)]
pub enum Seen {
    Nothing,
    Dash,
    Doctype(usize),
    Cdata(usize),
}

/// The states of a CDATA section.
#[derive(Clone, Copy, Drop)]
pub enum CdataState {
    Section,
    Bracket,
    End,
}

/// The states of a tag, outside its attributes.
#[derive(Clone, Copy, Drop)]
pub enum TagState {
    Open,
    EndOpen,
    Name,
    SelfClosing,
}

/// The states of what may be an end tag.
#[derive(Clone, Copy, Drop)]
pub enum EndTagState {
    LessThan,
    Open,
    Name,
}

/// The states of script data after `<!--`.
#[derive(Clone, Copy, Drop)]
pub enum ScriptState {
    EscapeStart,
    EscapeStartDash,
    Escaped,
    EscapedDash,
    EscapedDashDash,
    DoubleStart,
    Double(DoubleState),
}

/// The states of double escaped script data.
#[derive(Clone, Copy, Drop)]
pub enum DoubleState {
    Escaped,
    Dash,
    DashDash,
    LessThan,
    End,
}

/// The states of the attributes of a tag.
#[derive(Clone, Copy, Drop)]
pub enum AttrState {
    BeforeName,
    Name,
    AfterName,
    BeforeValue,
    Quoted(Quote),
    Unquoted,
    AfterQuoted,
}

/// The states of a comment.
#[derive(Clone, Copy, Drop)]
pub enum CommentState {
    Bogus,
    Start,
    StartDash,
    Comment,
    LessThan,
    LessThanBang,
    LessThanBangDash,
    LessThanBangDashDash,
    EndDash,
    End,
    EndBang,
}

/// The states of a doctype.
#[derive(Clone, Copy, Drop)]
pub enum DoctypeState {
    Begin,
    BeforeName,
    Name,
    AfterName,
    /// In the keyword `public` or `system`, with the number of letters that were read.
    Keyword(Id, usize),
    AfterKeyword(Id),
    BeforeId(Id),
    Quoted(Id, Quote),
    AfterId(Id),
    BetweenIds,
    Bogus,
}

/// Where a character is appended.
#[derive(Clone, Copy, Drop)]
pub enum Place {
    Text,
    Comment,
    TagName,
    AttrName,
    AttrValue,
}

/// The state of the tokenizer (13.2.5). A caller may switch to one of the first five.
#[derive(Clone, Copy, Drop)]
pub enum State {
    Data,
    Rcdata,
    Rawtext,
    Script,
    Plaintext,
    Cdata(CdataState),
    Tag(TagState),
    EndTag(Raw, EndTagState),
    ScriptData(ScriptState),
    Attribute(AttrState),
    Declaration(Seen),
    Comment(CommentState),
    Doctype(DoctypeState),
}

impl Quote {
    /// Returns the quote character.
    pub fn letter(self) -> char
        ensures { result ≡ quote_of self }
    {
        match self {
            Quote::Double => '"',
            Quote::Single => '\'',
        }
    }

    /// Returns the quote character as a byte.
    pub fn byte(self) -> u8
        ensures is { result ≡ quote_of self }
        ensures ascii { result < 128 }
    {
        match self {
            Quote::Double => b'"',
            Quote::Single => b'\'',
        }
    }
}
