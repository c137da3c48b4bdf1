//! Character tokens, which come as runs.

ghost use Rattle.std.specs.Prelude.{List, encode_utf8_all, false, length, map, not, true, ℕ, ◌∷◌};
ghost use Rattle.std.specs.Prelude.{[], ◌++◌, ◌-◌, ◌≡◌, ◌≤◌, OnOk, string_bytes};
ghost use Rattle.standard_tokens.specs.Tokens.{AChar};
ghost use Rattle.standard_trees.specs.Building.{is_space};
ghost use Rattle.standard_trees.specs.RuleWords.{EmptyPending, InTableText, KeepMode, SwitchTo};
ghost use Rattle.page_trees.specs.CharacterTexts.{LeavesRest, TakesNoNulls, TakesPiece, TakesText};
ghost use Rattle.page_trees.specs.CharacterTexts.{front_spaces, front_word, is_text};
ghost use Rattle.page_trees.specs.CharacterTexts.{past_spaces, past_word, unskipped};
ghost use Rattle.page_trees.specs.CoveredTurns.{TakesTokens};
ghost use Rattle.page_trees.specs.CharacterSteps.{Inserts, InsertsInBody, InsertsLetters, IsRun};
ghost use Rattle.page_trees.specs.CharacterSteps.{ProcessesForeignRun, ProcessesRun};
ghost use Rattle.page_trees.specs.CharacterSteps.{ProcessesRunInMode, goes_to_mode};
ghost use Rattle.page_trees.specs.CharacterSteps.{has_no_null, is_run, keeps_text};
ghost use Rattle.page_trees.specs.CharacterSteps.{way_of, way_of_letters, way_of_nulls};
ghost use Rattle.page_trees.specs.CharacterSteps.{way_of_spaces};
ghost use Rattle.page_trees.specs.Constructs.{Leaves, Performs, RemembersLimits};
ghost use Rattle.page_trees.specs.Modes.{drops_letters, holds_table_text, joins_spaces};
ghost use Rattle.page_trees.specs.Stands.{Tells};
ghost use Rattle.page_trees.specs.LeftGroups.{LeavesGroup};
ghost use Rattle.page_trees.specs.TableTexts.{AddsToPending, FostersRun, PlacesText, SettlesText};
ghost use Rattle.page_trees.specs.TableTexts.{holds_letters};
ghost use Rattle.page_trees.specs.TokenSteps.{keeps_characters};
ghost use Rattle.page_trees.specs.declared.builder.Mode.TheVariants.{InColumnGroup as IsColumnGroup};
ghost use Rattle.page_trees.specs.declared.builder.Mode.TheVariants.{InTableText as IsTableText};
ghost use Rattle.page_trees.specs.declared.builder.Next.TheVariants.{Again, Done as IsDone};
ghost use Rattle.page_trees.specs.declared.chars.Run.TheVariants.{Spaces};
ghost use Rattle.page_trees.specs.declared.chars.RunWay.TheVariants.{Table as IsTable};

use crate::builder::{Mode, Next, TreeBuilder};
use crate::fault::PageFault;
use crate::growing::{is_foster_target, is_template};
use crate::modes::Token;
use crate::stack::Open;
use memchr::memchr;
use std::mem;

/// Returns whether the text contains a null.
fn has_null(text: &str) -> bool
    ensures { result ≡ not (has_no_null text.now) }
{
    memchr(0, text.as_bytes()).is_some()
}

/// Returns whether tree construction treats the byte as whitespace.
#[inline(always)]
fn is_space(byte: u8) -> bool
    ensures { result ≡ is_space byte }
{
    matches!(byte, b'\t' | b'\n' | 0xc | b'\r' | b' ')
}

/// Returns how many bytes of whitespace come first.
fn spaces_len(text: &str) -> usize
    ensures { result ≡ length (front_spaces text.now) }
{
    let bytes = text.as_bytes();
    let mut count = 0;
    while count < bytes.len() {
        if !is_space(bytes[count]) {
            return count;
        }
        count += 1;
    }
    count
}

/// Returns the leading whitespace of the text, and what follows it.
fn split_spaces(text: &str) -> (&str, &str)
    ensures front { result.0.now ≡ front_spaces text.now }
    ensures rest { result.1.now ≡ past_spaces text.now }
{
    text.split_at(spaces_len(text))
}

/// Returns how many bytes come before the first whitespace.
fn word_len(text: &str) -> usize
    ensures { result ≡ length (front_word text.now) }
{
    let bytes = text.as_bytes();
    let mut count = 0;
    while count < bytes.len() {
        if is_space(bytes[count]) {
            return count;
        }
        count += 1;
    }
    count
}

/// Returns the text up to the first whitespace, and what comes from there on.
fn split_word(text: &str) -> (&str, &str)
    ensures word { result.0.now ≡ front_word text.now }
    ensures rest { result.1.now ≡ past_word text.now }
{
    text.split_at(word_len(text))
}

/// Returns the text without a line feed at its beginning.
fn without_line_feed(text: &str) -> &str
    ensures { result.now ≡ unskipped true text.now }
{
    let Some(rest) = text.strip_prefix('\n') else {
        return text;
    };
    rest
}

/// The kinds of runs of characters: nulls, whitespace alone, or any others.
#[derive(Clone, Copy, PartialEq, Eq, Drop)]
pub enum Run {
    Nulls,
    Spaces,
    Letters,
}

/// Returns whether in this mode whitespace is inserted like the letters after it.
fn joins_spaces(mode: Mode) -> bool
    ensures { result ≡ joins_spaces mode }
{
    matches!(
        mode,
        Mode::InBody | Mode::InCaption | Mode::InCell | Mode::InTemplate
    )
}

/// Returns whether this mode may ignore letters but keep the whitespace between them.
fn drops_letters(mode: Mode) -> bool
    ensures { result ≡ drops_letters mode }
{
    matches!(
        mode,
        Mode::InColumnGroup | Mode::InFrameset | Mode::AfterFrameset | Mode::AfterAfterFrameset
    )
}

/// Returns whether characters are pending in this mode.
pub fn keeps_characters(mode: Mode) -> bool
    ensures { result ≡ keeps_characters mode }
{
    matches!(mode, Mode::InTableText)
}

/// Returns whether characters are those of a text, such as a title.
fn is_text(mode: Mode) -> bool
    ensures { result ≡ is_text mode }
{
    matches!(mode, Mode::Text)
}

/// Returns whether a run holds characters that are neither whitespace nor nulls.
fn holds_letters(kind: Run) -> bool
    ensures { result ≡ holds_letters kind }
{
    matches!(kind, Run::Letters)
}

/// Appends characters to a text.
fn push_text(text: &mut String, more: &str) -> Result<(), PageFault>
    ensures { OnOk result (string_bytes text.new ≡ string_bytes text.old ++ more.now) }
{
    match text.push_str(more) {
        Ok(_) => Ok(()),
        Err(_) => Err(PageFault::Memory),
    }
}

/// Returns whether characters in that element are pending table character tokens.
fn holds_table_text(element: &Open) -> bool
    ensures { result ≡ holds_table_text element.now }
{
    is_template(element) || is_foster_target(element)
}

/// What the rules for a mode make of a run.
#[derive(Clone, Copy, Drop)]
enum RunWay {
    Ignore,
    /// The characters are inserted.
    Put,
    /// The rules for "in body" process them.
    Body,
    /// The rules for "in table" process them.
    Table,
    /// They become pending table character tokens.
    Pending,
    /// The mode is left, as at anything else.
    Leave,
}

fn way_of(kind: Run, mode: Mode) -> RunWay
    ensures { result ≡ way_of kind mode }
{
    match kind {
        Run::Nulls => way_of_nulls(mode),
        Run::Spaces => way_of_spaces(mode),
        Run::Letters => way_of_letters(mode),
    }
}

fn way_of_spaces(mode: Mode) -> RunWay
    ensures { result ≡ way_of_spaces mode }
{
    match mode {
        Mode::Initial | Mode::BeforeHtml | Mode::BeforeHead => RunWay::Ignore,
        Mode::InBody | Mode::InCaption | Mode::InCell | Mode::InTemplate => RunWay::Body,
        Mode::AfterBody | Mode::AfterAfterBody | Mode::AfterAfterFrameset => RunWay::Body,
        Mode::InTable | Mode::InTableBody | Mode::InRow => RunWay::Table,
        Mode::InTableText => RunWay::Pending,
        _ => RunWay::Put,
    }
}

fn way_of_letters(mode: Mode) -> RunWay
    ensures { result ≡ way_of_letters mode }
{
    match mode {
        Mode::InBody | Mode::InCaption | Mode::InCell | Mode::InTemplate => RunWay::Body,
        Mode::Text => RunWay::Put,
        Mode::InFrameset | Mode::AfterFrameset | Mode::AfterAfterFrameset => RunWay::Ignore,
        Mode::InTable | Mode::InTableBody | Mode::InRow => RunWay::Table,
        Mode::InTableText => RunWay::Pending,
        _ => RunWay::Leave,
    }
}

/// Returns what the rules for a mode make of nulls. In the text of an element there are none: they
/// are replaced there.
fn way_of_nulls(mode: Mode) -> RunWay
    ensures { result ≡ way_of_nulls mode }
{
    match mode {
        Mode::InBody | Mode::InCaption | Mode::InCell | Mode::InTemplate => RunWay::Ignore,
        Mode::InTableText => RunWay::Ignore,
        Mode::InTable | Mode::InTableBody | Mode::InRow => RunWay::Table,
        Mode::Text => RunWay::Put,
        Mode::InFrameset | Mode::AfterFrameset | Mode::AfterAfterFrameset => RunWay::Ignore,
        _ => RunWay::Leave,
    }
}

impl TreeBuilder {
    /// Processes the characters between two tokens.
    pub fn characters(&mut self, text: &str)
        ensures limits { RemembersLimits self.old self.new }
        ensures rule { (cs : List ℕ) → text.now ≡ encode_utf8_all cs →
            TakesTokens (map AChar cs) self.old self.new }
    {
        if text.is_empty() {
            return;
        }
        let rest = self.past_line_feed(text);
        self.some_characters(rest)
    }

    /// Returns the text without the line feed that is to be ignored, if it begins with one.
    fn past_line_feed<'a>(&mut self, text: &'a str) -> &'a str
        ensures rest { result.now ≡ unskipped self.old.skip_line_feed text.now }
        ensures value { self.new ≡ record self.old { skip_line_feed = false } }
    {
        let skip = self.skip_line_feed;
        self.skip_line_feed = false;
        if skip {
            return without_line_feed(text);
        }
        text
    }

    /// Processes characters, none of which is ignored.
    fn some_characters(&mut self, text: &str)
        ensures limits { RemembersLimits self.old self.new }
        ensures rule { TakesText text.now self.old self.new }
    {
        if text.is_empty() {
            return;
        }
        if is_text(self.mode) {
            return self.put_text(text);
        }
        if !has_null(text) {
            return self.stretch(text);
        }
        self.stretches(text)
    }

    /// Processes characters, some of which may be nulls.
    fn stretches(&mut self, text: &str)
        ensures limits { RemembersLimits self.old self.new }
        ensures rule { TakesText text.now self.old self.new }
    {
        let mut rest = text;
        while let Some((front, after)) = rest.split_once('\0') {
            self.stretch(front);
            self.run(Run::Nulls, "\0");
            rest = after;
        }
        self.stretch(rest)
    }

    /// Processes characters without nulls: leading whitespace and then the rest, or all as one run
    /// if the mode treats them alike.
    fn stretch(&mut self, text: &str)
        ensures limits { RemembersLimits self.old self.new }
        ensures rule { TakesNoNulls text.now self.old self.new }
    {
        let (spaces, rest) = split_spaces(text);
        if !rest.is_empty() && joins_spaces(self.mode) {
            return self.run(Run::Letters, text);
        }
        self.run(Run::Spaces, spaces);
        if rest.is_empty() {
            return;
        }
        if drops_letters(self.mode) {
            return self.words(rest);
        }
        self.run(Run::Letters, rest)
    }

    /// Processes words, and the whitespace between them, one by one.
    fn words(&mut self, text: &str)
        ensures limits { RemembersLimits self.old self.new }
        ensures rule { TakesNoNulls text.now self.old self.new }
    {
        let mut rest = text;
        while !rest.is_empty() {
            rest = self.word(rest);
        }
    }

    /// Processes a word and the whitespace after it, and returns the rest.
    fn word<'a>(&mut self, text: &'a str) -> &'a str
        ensures limits { RemembersLimits self.old self.new }
        ensures rule { LeavesRest text.now result.now self.old self.new }
        ensures less { length result.now ≤ length text.now - 1 }
    {
        let (word, after) = split_word(text);
        let (spaces, rest) = split_spaces(after);
        self.run(Run::Letters, word);
        self.run(Run::Spaces, spaces);
        rest
    }

    /// Processes a run of characters, unless it is empty.
    fn run(&mut self, kind: Run, text: &str)
        ensures limits { RemembersLimits self.old self.new }
        ensures rule { TakesPiece kind text.now self.old self.new }
    {
        if !text.is_empty() {
            self.process(Token::Run(kind, text));
        }
    }

    /// Processes a run by the rules of the current insertion mode, or of foreign content.
    pub fn run_step(&mut self, kind: Run, text: &str) -> Next
        ensures { (c : ℕ) (cs : List ℕ) → IsRun kind self.old.mode text.now c cs →
            ProcessesRun kind c cs self.old self.new result }
    {
        if self.is_run_foreign() {
            return self.foreign_run(kind, text);
        }
        self.run_in_mode(kind, text)
    }

    /// Returns whether the rules for foreign content process characters.
    fn is_run_foreign(&self) -> bool
        ensures { Tells (λ t. not (goes_to_mode t)) self.now.tree result }
    {
        match self.tree.adjusted_current() {
            Some(open) => open.holds_foreign(),
            None => false,
        }
    }

    /// Processes a run by the rules for foreign content.
    fn foreign_run(&mut self, kind: Run, text: &str) -> Next
        ensures next { result ≡ IsDone }
        ensures limits { RemembersLimits self.old self.new }
        ensures rule { (c : ℕ) (cs : List ℕ) → IsRun kind self.old.mode text.now c cs →
            ProcessesForeignRun c cs self.old self.new }
    {
        match kind {
            Run::Nulls => self.put_run("\u{fffd}"),
            Run::Spaces => self.put_run(text),
            Run::Letters => self.put_letters(text),
        }
    }

    /// Inserts characters that are not white space alone.
    fn put_letters(&mut self, text: &str) -> Next
        ensures next { result ≡ IsDone }
        ensures limits { RemembersLimits self.old self.new }
        ensures rule { (c : ℕ) (cs : List ℕ) → text.now ≡ encode_utf8_all (c ∷ cs) →
            InsertsLetters (c ∷ cs) self.old self.new }
    {
        self.put_text(text);
        self.spoil_frameset()
    }

    /// Processes a run by the rules for the current insertion mode.
    fn run_in_mode(&mut self, kind: Run, text: &str) -> Next
        ensures { (c : ℕ) (cs : List ℕ) → IsRun kind self.old.mode text.now c cs →
            ProcessesRunInMode kind c cs self.old self.new result }
    {
        match way_of(kind, self.mode) {
            RunWay::Ignore => Next::Done,
            RunWay::Put => self.put_run(text),
            RunWay::Body => self.body_run(kind, text),
            RunWay::Table => self.table_run(kind, text),
            RunWay::Pending => self.pending_run(kind, text),
            RunWay::Leave => self.leave_mode(),
        }
    }

    /// Leaves a mode that can't process the token, by the steps for "anything else".
    pub fn leave_mode(&mut self) -> Next
        ensures rule { Leaves self.old self.new result }
        ensures group { self.old.mode ≡ IsColumnGroup → LeavesGroup self.old self.new result }
    {
        match self.mode {
            Mode::Initial => self.leave_initial(),
            Mode::BeforeHtml => self.imply_html(),
            Mode::BeforeHead => self.imply_head(),
            Mode::InHead => self.leave_for(Mode::AfterHead),
            Mode::InHeadNoscript => self.leave_for(Mode::InHead),
            Mode::AfterHead => self.imply_body(),
            Mode::InColumnGroup => self.leave_column_group(),
            Mode::AfterBody | Mode::AfterAfterBody => self.again_in(Mode::InBody),
            _ => Next::Done,
        }
    }

    /// Sets the frameset-ok flag to "not ok".
    fn spoil_frameset(&mut self) -> Next
        ensures next { result ≡ IsDone }
        ensures value { self.new ≡ record self.old { frameset_ok = false } }
    {
        self.frameset_ok = false;
        Next::Done
    }

    fn put_run(&mut self, text: &str) -> Next
        ensures next { result ≡ IsDone }
        ensures limits { RemembersLimits self.old self.new }
        ensures rule { (c : ℕ) (cs : List ℕ) → text.now ≡ encode_utf8_all (c ∷ cs) →
            Inserts (c ∷ cs) self.old self.new }
    {
        self.put_text(text);
        Next::Done
    }

    /// Processes characters by the rules for "in body".
    pub fn body_run(&mut self, kind: Run, text: &str) -> Next
        ensures next { result ≡ IsDone }
        ensures limits { RemembersLimits self.old self.new }
        ensures rule { (c : ℕ) (cs : List ℕ) → text.now ≡ encode_utf8_all (c ∷ cs) →
            InsertsInBody kind (c ∷ cs) self.old self.new }
    {
        match kind {
            Run::Nulls => Next::Done,
            Run::Spaces => self.put_inline(text),
            Run::Letters => {
                self.put_inline(text);
                self.spoil_frameset()
            }
        }
    }

    /// Reconstructs the active formatting elements, and then inserts characters.
    fn put_inline(&mut self, text: &str) -> Next
        ensures next { result ≡ IsDone }
        ensures limits { RemembersLimits self.old self.new }
        ensures rule { (c : ℕ) (cs : List ℕ) → text.now ≡ encode_utf8_all (c ∷ cs) →
            InsertsInBody Spaces (c ∷ cs) self.old self.new }
    {
        self.reconstruct();
        self.put_text(text);
        Next::Done
    }

    /// Processes a run by the rules for "in table".
    fn table_run(&mut self, kind: Run, text: &str) -> Next
        ensures { way_of kind self.old.mode ≡ IsTable → (c : ℕ) (cs : List ℕ) →
            IsRun kind self.old.mode text.now c cs →
            ProcessesRunInMode kind c cs self.old self.new result }
    {
        if self.keeps_table_text() {
            return self.begin_table_text();
        }
        self.fostered_run(kind, text)
    }

    /// Returns whether characters in the current node are pending table character tokens.
    fn keeps_table_text(&self) -> bool
        ensures { Tells keeps_text self.now.tree result }
    {
        match self.tree.open().current() {
            Some(open) => holds_table_text(&open),
            None => false,
        }
    }

    /// Begins with pending table character tokens, and reprocesses the first one.
    fn begin_table_text(&mut self) -> Next
        ensures next { result ≡ Again }
        ensures limits { RemembersLimits self.old self.new }
        ensures mode { self.new.mode ≡ IsTableText }
        ensures rule { Performs (EmptyPending ∷ KeepMode ∷ SwitchTo InTableText ∷ [])
            self.old self.new }
    {
        self.table_text.clear();
        self.table_text_has_letters = false;
        self.original = self.mode;
        self.again_in(Mode::InTableText)
    }

    /// Appends to the pending table character tokens.
    fn pending_run(&mut self, kind: Run, text: &str) -> Next
        ensures next { result ≡ IsDone }
        ensures limits { RemembersLimits self.old self.new }
        ensures rule { (cs : List ℕ) → text.now ≡ encode_utf8_all cs → is_run kind cs ≡ true →
            has_no_null cs ≡ true → AddsToPending cs self.old self.new }
    {
        self.table_text_has_letters |= holds_letters(kind);
        let put = push_text(&mut self.table_text, text);
        self.keep(put);
        Next::Done
    }

    /// Processes characters that can't be in a table by the rules for "in body", with foster
    /// parenting.
    fn fostered_run(&mut self, kind: Run, text: &str) -> Next
        ensures next { result ≡ IsDone }
        ensures limits { RemembersLimits self.old self.new }
        ensures rule { (c : ℕ) (cs : List ℕ) → text.now ≡ encode_utf8_all (c ∷ cs) →
            FostersRun kind (c ∷ cs) self.old self.new }
    {
        self.placing.foster = true;
        let next = self.body_run(kind, text);
        self.placing.foster = false;
        next
    }

    /// Processes the pending table character tokens, and then the token that comes after them.
    pub fn leave_table_text(&mut self) -> Next
        ensures next { result ≡ Again }
        ensures limits { RemembersLimits self.old self.new }
        ensures rule { SettlesText self.old self.new }
    {
        self.flush_table_text();
        Next::Again
    }

    /// Processes the pending table character tokens, because another token comes.
    pub fn flush_table_text(&mut self)
        ensures limits { RemembersLimits self.old self.new }
        ensures rule { SettlesText self.old self.new }
    {
        self.mode = self.original;
        let text = mem::replace(&mut self.table_text, String::new(self.alloc));
        self.put_table_text(text.as_str())
    }

    /// Inserts pending table characters into the table if they are whitespace, and otherwise before
    /// it (foster parenting).
    fn put_table_text(&mut self, text: &str)
        ensures limits { RemembersLimits self.old self.new }
        ensures rule { (cs : List ℕ) → text.now ≡ encode_utf8_all cs →
            PlacesText cs self.old self.new }
    {
        if text.is_empty() {
            return;
        }
        if !self.table_text_has_letters {
            return self.put_text(text);
        }
        self.fostered_run(Run::Letters, text);
    }
}
