//! Parsing a page or a fragment, whole or in pieces: tokens go to tree construction. Start at
//! `PageReader`.

ghost use Rattle.std.specs.Prelude.{◌≡◌, ◌≤◌, ◌≢◌, ◌++◌, ◌-◌, None, false, if◌then◌else◌};
ghost use Rattle.standard_trees.specs.Parsing.{state_among};
ghost use Rattle.standard_trees.specs.TreeRules.{first_states};
ghost use Rattle.page_tokens.specs.StandardPages.{IsTextState};
ghost use Rattle.page_tokens.specs.StandardStates.{state_of};
ghost use Rattle.page_tokens.specs.declared.tokenizer.state.State.TheVariants.{Data, Rawtext};
ghost use Rattle.page_trees.specs.Contexts.{namespace_in, written_in};
ghost use Rattle.page_trees.specs.Names.{text_of as local_name};

use crate::builder::{Mode, TreeBuilder};
use crate::depth::within_depth;
use crate::fault::PageFault;
use crate::growing::{BuiltTree, GrowingTree};
use crate::laws::texts_are_parsed;
use crate::name::Name;
use crate::shape::is_forest;
use crate::stack::ElementNamespace;
use dom_nodes::name::LocalName;
use page_tokens::laws::{names, pages};
use page_tokens::parse_error::{ErrorAt, ParseError};
use page_tokens::token::TokenKind;
use page_tokens::tokenizer::{State, Tokenizer};
use std::alloc::{AllocError, Global};

/// How a page is parsed. By default scripting is off, depth is not limited and errors are not
/// collected. No limit on depth is needed: parsing, traversal and serialization use no recursion.
#[derive(Clone, Copy, PartialEq, Eq, Debug, Drop)]
pub struct Options {
    /// Whether scripting is enabled. If it is, the content of `noscript` is text.
    pub scripting: bool,
    /// The largest number of nested elements, at least 3; browsers take 512. In the finished tree
    /// an element that nests deeper is moved behind the element that it is in; texts and comments
    /// stay in their element. In template contents elements may nest deeper by one. A page that
    /// nests no deeper is read as without a limit.
    pub max_depth: Option<usize>,
    /// Whether the tokenizer's parse errors are collected in the document. Each is a text with its
    /// byte offset and its name, such as `12: missing-attribute-value`.
    pub errors: bool,
}

impl Default for Options {
    fn default() -> Options {
        Options {
            scripting: false,
            max_depth: None,
            errors: false,
        }
    }
}

/// The context element of a fragment: the element whose content the text is.
#[derive(Clone, Copy, PartialEq, Eq, Debug, Drop)]
pub enum Context<'a> {
    Html(&'a str),
    Svg(&'a str),
    MathMl(&'a str),
}

impl Context<'_> {
    /// Returns the namespace of the element.
    fn namespace(&self) -> ElementNamespace
        ensures { result ≡ namespace_in self.now }
    {
        match self {
            Context::Html(_) => ElementNamespace::Html,
            Context::Svg(_) => ElementNamespace::Svg,
            Context::MathMl(_) => ElementNamespace::MathMl,
        }
    }

    /// Returns the name of the element as it is written.
    fn written(&self) -> &str
        ensures { result.now ≡ written_in self.now }
    {
        match self {
            Context::Html(name) | Context::Svg(name) | Context::MathMl(name) => name,
        }
    }
}

/// The parser of a page or a fragment: the tokenizer and tree construction.
#[derive(Drop)]
pub struct PageReader {
    builder: TreeBuilder,
    tokens: Tokenizer,
    options: Options,
}

impl PageReader {
    ghost use Rattle.std.specs.Prelude.{[], ◌∷◌, IfOk, List, OnOk, Some, encode_utf8_all};
    ghost use Rattle.std.specs.Prelude.{Bool, length, map, true, unwrap_or, ℕ};
    ghost use Rattle.standard_tokens.specs.Tokens.{AChar, Token as StandardToken};
    ghost use Rattle.standard_trees.specs.Building.{empty_tree, start};
    ghost use Rattle.standard_trees.specs.GrowingTree.{in_foreign};
    ghost use Rattle.standard_order.specs.Beginnings.{Beginning, OfFragment, OfPage};
    ghost use Rattle.page_tokens.specs.PlainNames.{has_plain_names};
    ghost use Rattle.page_tokens.specs.Reading.{text_of};
    ghost use Rattle.page_tokens.specs.Standard.{Told};
    ghost use Rattle.page_tokens.specs.StandardPages.{BeginsPage};
    ghost use Rattle.page_trees.specs.Constructs.{Constructs, RemembersLimits, WithinLimits};
    ghost use Rattle.page_trees.specs.Contexts.{IsUnspaced, surroundings_of};
    ghost use Rattle.page_trees.specs.CoveredTurns.{TakesTokens};
    ghost use Rattle.page_trees.specs.Depth.{NestsWithin};
    ghost use Rattle.page_trees.specs.PagesRead.{HasBuilt, IsNew, ReadsEnd, ReadsRest};
    ghost use Rattle.page_trees.specs.PagesRead.{ReadsSome, TellsAll, TellsLast, TellsRead};
    ghost use Rattle.page_trees.specs.StandardDocuments.{FinishesText};
    ghost use Rattle.page_trees.specs.Stands.{Builds, Tells};

    /// Returns a parser for a page. Fails only when memory runs out.
    pub fn page(alloc: Global, options: Options) -> Result<PageReader, PageFault>
        ensures options { IfOk result (λ reader. reader.options ≡ options) }
        ensures begins { IfOk result (λ reader. HasBuilt (OfPage options.scripting) [] reader) }
    {
        // A law, called for its contract alone.
        pages();
        let tree = GrowingTree::page(alloc)?;
        Ok(PageReader::new(alloc, tree, options))
    }

    /// Returns a parser for the content of an element. Fails only when memory runs out.
    pub fn fragment(
        alloc: Global,
        context: Context<'_>,
        options: Options,
    ) -> Result<PageReader, PageFault>
        ensures options { IfOk result (λ reader. reader.options ≡ options) }
        ensures begins { let around = surroundings_of context.entry in IsUnspaced context.entry →
            IfOk result (HasBuilt (OfFragment options.scripting around) []) }
    {
        let tree = GrowingTree::fragment(alloc)?;
        let mut reader = PageReader::new(alloc, tree, options);
        reader.begin_fragment(context);
        reader.builder.settled()?;
        Ok(reader)
    }

    fn new(alloc: Global, tree: GrowingTree, options: Options) -> PageReader
        ensures options { result.options ≡ options }
        ensures switch { result.builder.switch ≡ None }
        ensures stands { Builds tree empty_tree →
            Constructs result.builder (start options.scripting) }
        ensures tokens { BeginsPage result.tokens }
        ensures empty { text_of result.tokens ≡ [] }
    {
        let mut tokens = Tokenizer::new(alloc);
        tokens.report_errors(options.errors);
        PageReader {
            builder: TreeBuilder::new(alloc, tree, options),
            tokens,
            options,
        }
    }

    /// Sets the state for the content of the context element.
    fn begin_fragment(&mut self, context: Context<'_>)
        ensures options { self.new.options ≡ self.old.options }
        ensures begins { (scripting : Bool) → IsNew scripting self.old → IsUnspaced context.entry →
            HasBuilt (OfFragment scripting (surroundings_of context.entry)) [] self.new }
    {
        // A law, called for its contract alone.
        pages();
        self.builder.begin_fragment(context);
        self.tokens.switch_to(self.builder.first_state());
        self.set_in_foreign();
    }

    /// Parses a piece of the text. Fails with the first fault: memory or node ids ran out.
    pub fn feed(&mut self, piece: &str) -> Result<(), PageFault>
        ensures options { self.new.options ≡ self.old.options }
        ensures builds { (beginning : Beginning) (read : List ℕ) (cs : List ℕ) →
            piece.now ≡ encode_utf8_all cs →
            HasBuilt beginning read self.old → HasBuilt beginning (read ++ cs) self.new }
    {
        self.read(piece);
        self.settled()
    }

    /// Stores why no text came, unless there was a fault before: nothing more is read.
    pub fn fail(&mut self, fault: PageFault) {
        self.builder.keep(Err(fault));
    }

    /// Fails with the first fault, if there was one.
    pub fn settled(&self) -> Result<(), PageFault>
        ensures { OnOk result (self.now.builder.fault ≡ None) }
    {
        self.builder.settled()
    }

    /// Returns the tree after the last piece. The tree of a page may not have the shape of a page
    /// yet; see `shape::make_page`. Fails with the first fault: memory or node ids ran out.
    pub fn finish(self) -> Result<BuiltTree, PageFault>
        ensures text { IfOk result (FinishesText self) }
        ensures nests { let max_depth = self.options.max_depth in
            IfOk result (λ built. NestsWithin max_depth built.tree) }
    {
        let max_depth = self.options.max_depth;
        let mut reader = self;
        reader.read_end()?;
        let built = reader.builder.into_built()?;
        // Laws, called for their contracts alone.
        texts_are_parsed();
        is_forest(&built.tree);
        within_depth(built, max_depth)
    }

    /// Processes the end of the text.
    fn read_end(&mut self) -> Result<(), PageFault>
        ensures depth { OnOk result (self.new.builder.too_deep ≡ false) }
        ensures fault { OnOk result (self.new.builder.fault ≡ None) }
        ensures ends { OnOk result (ReadsEnd self.old self.new) }
    {
        self.settled()?;
        self.read_last()?;
        self.builder.end();
        self.note_errors();
        self.settled_whole()
    }

    /// Adds the parse errors to the document, if they are wanted.
    fn note_errors(&mut self)
        ensures options { self.new.options ≡ self.old.options }
        ensures same { WithinLimits self.new.builder → self.new.builder ≡ self.old.builder }
    {
        if self.options.errors {
            self.builder.note_errors(&self.tokens.take_errors());
        }
    }

    /// Fails with the first fault, if there was one. No stack is so long that elements would be
    /// placed beside the current node.
    fn settled_whole(&self) -> Result<(), PageFault>
        ensures fault { OnOk result (self.now.builder.fault ≡ None) }
        ensures depth { OnOk result (self.now.builder.too_deep ≡ false) }
    {
        if self.builder.too_deep {
            return Err(PageFault::TooManyNodes);
        }
        self.builder.settled()
    }

    /// Processes the token that ends with the text, and the last characters.
    fn read_last(&mut self) -> Result<(), PageFault>
        ensures options { self.new.options ≡ self.old.options }
        ensures limits { RemembersLimits self.old.builder self.new.builder }
        ensures ends { OnOk result (ReadsRest self.old self.new) }
    {
        // A law, called for its contract alone.
        pages();
        let kind = self.tokens.end_kind()?;
        self.tell_last(kind);
        self.switch();
        Ok(())
    }

    /// Processes the last characters, and the token that ends with the text, which is no tag: an
    /// unfinished tag is dropped.
    fn tell_last(&mut self, kind: Option<TokenKind>)
        ensures only { self.new ≡ record self.old {
          builder = self.new.builder;
          tokens = self.new.tokens;
        } }
        ensures limits { RemembersLimits self.old.builder self.new.builder }
        ensures builds { kind ≢ Some TokenKind.Tag → TellsLast kind self.old self.new }
    {
        match kind {
            Some(kind) => self.tell_token(kind),
            None => self.tell_characters(),
        }
    }

    /// Reads the text. Each call of `read_token` reads some of it.
    fn read(&mut self, piece: &str)
        ensures options { self.new.options ≡ self.old.options }
        ensures limits { RemembersLimits self.old.builder self.new.builder }
        ensures reads { ReadsSome piece.now [] self.old self.new }
    {
        if self.builder.fault.is_some() {
            return;
        }
        let mut rest = piece;
        while !rest.is_empty() {
            rest = self.read_token(rest);
        }
    }

    /// Reads up to the end of a token, and returns the text after it, which is empty after a fault.
    fn read_token<'a>(&mut self, text: &'a str) -> &'a str
        ensures options { self.new.options ≡ self.old.options }
        ensures limits { RemembersLimits self.old.builder self.new.builder }
        ensures reads { ReadsSome text.now result.now self.old self.new }
        ensures less { length result.now ≤ length text.now - 1 }
    {
        // A law, called for its contract alone.
        pages();
        let mut kind = None;
        let Ok(rest) = self.tokens.read_kind(text, &mut kind) else {
            self.builder.keep(Err(PageFault::Memory));
            return "";
        };
        self.tell(kind);
        self.left(rest)
    }

    /// Returns the text that is left, which is empty after a fault.
    fn left<'a>(&self, rest: &'a str) -> &'a str
        ensures rest { self.now.builder.fault ≡ None → result.now ≡ rest.now }
        ensures less { length result.now ≤ length rest.now }
    {
        if self.builder.fault.is_some() {
            ""
        } else {
            rest
        }
    }

    /// Tells tree construction what was read: the token that ended, if one did, or else the
    /// characters before `<![`.
    fn tell(&mut self, kind: Option<TokenKind>)
        ensures options { self.new.options ≡ self.old.options }
        ensures limits { RemembersLimits self.old.builder self.new.builder }
        ensures builds { TellsRead kind self.old self.new }
    {
        match kind {
            Some(kind) => self.token(kind),
            None => self.before_cdata(),
        }
    }

    /// Processes the characters before `<![`, if that was read.
    fn before_cdata(&mut self)
        ensures options { self.new.options ≡ self.old.options }
        ensures limits { RemembersLimits self.old.builder self.new.builder }
        ensures builds { TellsRead None self.old self.new }
    {
        // A law, called for its contract alone.
        pages();
        if !self.tokens.wants_characters() {
            return;
        }
        self.tell_characters();
        self.switch();
        self.set_in_foreign();
    }

    /// Processes the characters before a token, and then the token, and takes the answer.
    fn token(&mut self, kind: TokenKind)
        ensures options { self.new.options ≡ self.old.options }
        ensures limits { RemembersLimits self.old.builder self.new.builder }
        ensures builds { TellsRead (Some kind) self.old self.new }
    {
        // A law, called for its contract alone.
        names();
        self.tell_token(kind);
        self.switch();
        self.set_in_foreign();
    }

    /// Processes the characters before a token, and then the token.
    fn tell_token(&mut self, kind: TokenKind)
        ensures only { self.new ≡ record self.old {
          builder = self.new.builder;
          tokens = record self.old.tokens { text = self.new.tokens.text };
        } }
        ensures empty { text_of self.new.tokens ≡ [] }
        ensures limits { RemembersLimits self.old.builder self.new.builder }
        ensures builds { TellsAll (Some kind) self.old self.new }
    {
        self.tell_characters();
        self.build(kind);
    }

    /// Processes the characters that were read before the next token.
    fn tell_characters(&mut self)
        ensures only { self.new ≡ record self.old {
          builder = self.new.builder;
          tokens = record self.old.tokens { text = self.new.tokens.text };
        } }
        ensures empty { text_of self.new.tokens ≡ [] }
        ensures limits { RemembersLimits self.old.builder self.new.builder }
        ensures builds { (cs : List ℕ) → text_of self.old.tokens ≡ encode_utf8_all cs →
            TakesTokens (map AChar cs) self.old.builder self.new.builder }
    {
        self.builder.characters(self.tokens.text());
        self.tokens.clear_text();
    }

    /// Sets the tokenizer's flag for foreign content, as tree construction answers.
    fn set_in_foreign(&mut self)
        ensures only { self.new ≡ record self.old {
          tokens = record self.old.tokens { in_foreign = self.new.tokens.in_foreign };
        } }
        ensures flag { Tells in_foreign self.old.builder.tree self.new.tokens.in_foreign }
    {
        self.tokens
            .set_in_foreign(self.builder.is_current_foreign());
    }

    /// Switches the tokenizer, if tree construction asks for it.
    fn switch(&mut self)
        ensures { self.new ≡ record self.old {
          builder = record self.old.builder { switch = None };
          tokens = record self.old.tokens {
            state = unwrap_or self.old.builder.switch self.old.tokens.state;
          };
        } }
    {
        if let Some(state) = self.builder.switch.take() {
            self.tokens.switch_to(state);
        }
    }

    /// Passes a token to tree construction.
    fn build(&mut self, kind: TokenKind)
        ensures only { self.new ≡ record self.old { builder = self.new.builder } }
        ensures limits { RemembersLimits self.old.builder self.new.builder }
        ensures builds { (token : StandardToken) → Told (Some kind) self.old.tokens (token ∷ []) →
            has_plain_names token ≡ true →
            TakesTokens (token ∷ []) self.old.builder self.new.builder }
    {
        match kind {
            TokenKind::Tag => self.build_tag(),
            TokenKind::Comment => self.builder.comment(self.tokens.comment()),
            TokenKind::Doctype => self.builder.doctype(self.tokens.doctype()),
        }
    }

    /// Passes a tag to tree construction.
    fn build_tag(&mut self)
        ensures only { self.new ≡ record self.old { builder = self.new.builder } }
        ensures limits { RemembersLimits self.old.builder self.new.builder }
        ensures builds { (token : StandardToken) →
            Told (Some TokenKind.Tag) self.old.tokens (token ∷ []) →
            has_plain_names token ≡ true →
            TakesTokens (token ∷ []) self.old.builder self.new.builder }
    {
        if let Some(tag) = self.tokens.tag() {
            self.builder.tag(tag);
        }
    }
}

/// Returns the tokenizer's state for the content of an HTML element with that name (13.4).
fn state_in(name: Name, scripting: bool) -> State
    ensures state { state_of result ≡ state_among (first_states scripting) (local_name name) }
    ensures text { IsTextState result }
{
    match name {
        Name::Title | Name::Textarea => State::Rcdata,
        Name::Style | Name::Xmp | Name::Iframe | Name::Noembed | Name::Noframes => State::Rawtext,
        Name::Script => State::Script,
        Name::Noscript => state_in_noscript(scripting),
        Name::Plaintext => State::Plaintext,
        _ => State::Data,
    }
}

/// Returns the tokenizer's state for the content of a `noscript`, which is text if scripting is
/// enabled.
fn state_in_noscript(scripting: bool) -> State
    ensures state { result ≡ (if scripting then Rawtext else Data) }
    ensures text { IsTextState result }
{
    if scripting {
        State::Rawtext
    } else {
        State::Data
    }
}

impl TreeBuilder {
    ghost use Rattle.std.specs.Prelude.{Bool, IfErr, IfOk};
    ghost use Rattle.standard_trees.specs.Building.{Building, fragment_start, is_empty, start};
    ghost use Rattle.standard_trees.specs.TreeStore.{Kind};
    ghost use Rattle.page_trees.specs.Constructs.{Constructs, RemembersLimits, WithinLimits};
    ghost use Rattle.page_trees.specs.Contexts.{IsUnspaced, begun_in, context_for};
    ghost use Rattle.page_trees.specs.Contexts.{state_in_context, surroundings_of, with_own_mode};
    ghost use Rattle.page_trees.specs.DocumentTrees.{IsTreeOf};
    ghost use Rattle.page_trees.specs.Stands.{IsOfKind};
    ghost use Rattle.page_trees.specs.declared.fault.PageFault.TheVariants.{Memory as NoMemory};

    /// Returns the tokenizer's state for the content of the context element.
    fn first_state(&self) -> State
        ensures rule { (b : Building) → Constructs self.now b →
            state_of result ≡ state_in_context b }
        ensures text { IsTextState result }
    {
        let Some(context) = self.tree.context() else {
            return State::Data;
        };
        match context.ns {
            ElementNamespace::Html => state_in(context.name, self.scripting),
            _ => State::Data,
        }
    }

    /// Returns the finished tree, in its quirks mode. Fails only when memory runs out.
    fn into_built(self) -> Result<BuiltTree, PageFault>
        ensures rule { IfOk result (λ built. (b : Building) → Constructs self b →
            IsTreeOf b built.tree built.quirks_mode) }
        ensures err { IfErr result (λ fault. fault ≡ NoMemory) }
    {
        let mut tree = self.tree;
        tree.set_quirks_mode(self.quirks);
        tree.into_built()
    }

    /// Adds the parse errors to the document.
    fn note_errors(&mut self, errors: &[ErrorAt])
        ensures limits { RemembersLimits self.old self.new }
        ensures same { WithinLimits self.new → self.new ≡ self.old }
    {
        for ErrorAt { offset, error } in errors {
            let noted = self.note_error(*offset, *error);
            self.keep(noted);
        }
    }

    fn note_error(&mut self, offset: usize, error: ParseError) -> Result<(), PageFault>
        ensures { self.new ≡ self.old }
    {
        let note = format!(in self.alloc; "{offset}: {error}")?;
        self.tree.note_error(note.as_str())
    }

    /// Inserts the element `html` of a fragment, and sets the state for its context element (13.4).
    fn begin_fragment(&mut self, context: Context<'_>)
        ensures limits { RemembersLimits self.old self.new }
        ensures rule { let around = surroundings_of context.entry in IsUnspaced context.entry →
            WithinLimits self.new → (scripting : Bool) → Constructs self.old (start scripting) →
            Constructs self.new (fragment_start scripting around) }
    {
        self.insert_implied(Name::Html, "html");
        match LocalName::folded(self.alloc, context.written()) {
            Ok(local) => self.begin_in(context.namespace(), Name::of(&local.by_ref())),
            Err(_) => self.keep(Err(PageFault::Memory)),
        }
    }

    /// Sets the state for a context element with that name.
    fn begin_in(&mut self, ns: ElementNamespace, name: Name)
        ensures limits { RemembersLimits self.old self.new }
        ensures rule { WithinLimits self.new → (b : Building) → is_empty b.tree.stack ≡ false →
            (kind : Kind) → IsOfKind (context_for ns name) kind → Constructs self.old b →
            Constructs self.new (begun_in kind b) }
    {
        self.tree.set_context(ns, name);
        self.tree.set_own_form();
        self.push_own_mode();
        self.reset_mode();
    }

    /// Pushes a template insertion mode, if the context element is a template.
    fn push_own_mode(&mut self)
        ensures limits { RemembersLimits self.old self.new }
        ensures rule { WithinLimits self.new → (b : Building) → Constructs self.old b →
            Constructs self.new (with_own_mode b) }
    {
        if self.tree.is_context(Name::Template) {
            self.push_template_mode(Mode::InTemplate);
        }
    }
}
