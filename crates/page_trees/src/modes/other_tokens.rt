//! Comments, doctypes and the end of the page.

ghost use Rattle.std.specs.Prelude.{◌≡◌, [], ◌∷◌, List, encode_utf8_all, false, string_bytes, true};
ghost use Rattle.std.specs.Prelude.{ℕ};
ghost use Rattle.std.specs.Option.{option_map_or};
ghost use Rattle.standard_tokens.specs.Tokens.{AComment, ADoctype, AnEof};
ghost use Rattle.standard_tokens.specs.Tokens.{Doctype as StandardDoctype};
ghost use Rattle.standard_trees.specs.RuleWords.{AppendDoctype, BeforeHtml, Dispatcher};
ghost use Rattle.standard_trees.specs.RuleWords.{InBody, InTemplate};
ghost use Rattle.standard_trees.specs.RuleWords.{SetQuirksByDoctype, SwitchTo};
ghost use Rattle.page_tokens.specs.Standard.{IsDoctype};
ghost use Rattle.page_trees.specs.Constructs.{RemembersLimits};
ghost use Rattle.page_trees.specs.CoveredTurns.{TakesTokens};
ghost use Rattle.page_trees.specs.TableTexts.{LeavesText, SettlesText};
ghost use Rattle.page_trees.specs.TokenSteps.{EndsPlainly, PerformsOn, Processes, ProcessesBy};
ghost use Rattle.page_trees.specs.TokenSteps.{ProcessesComment, TakesComment};
ghost use Rattle.page_trees.specs.TokenSteps.{at_end, comment_place, is_initial};
ghost use Rattle.page_trees.specs.TokenSteps.{keeps_characters};
ghost use Rattle.page_trees.specs.declared.builder.Mode.TheVariants.{Initial as IsInitial};
ghost use Rattle.page_trees.specs.declared.builder.Next.TheVariants.{Done as IsDone};

use crate::builder::{Mode, Next, TreeBuilder};
use crate::chars::keeps_characters;
use crate::modes::Token;
use page_tokens::token::Doctype;

/// Where a comment is inserted.
#[derive(Clone, Copy, Drop)]
enum CommentPlace {
    /// At the appropriate place.
    Here,
    /// As the last child of the element `html`.
    Html,
    /// As the last child of the document.
    Document,
    Nowhere,
}

/// Returns where the rules for a mode insert a comment. None comes while the text of an element is
/// read.
fn comment_place(mode: Mode) -> CommentPlace
    ensures { result ≡ comment_place mode }
{
    match mode {
        Mode::Initial | Mode::BeforeHtml => CommentPlace::Document,
        Mode::AfterAfterBody | Mode::AfterAfterFrameset => CommentPlace::Document,
        Mode::AfterBody => CommentPlace::Html,
        Mode::Text => CommentPlace::Nowhere,
        _ => CommentPlace::Here,
    }
}

/// What the rules for a mode do with the end of the page.
#[derive(Clone, Copy, Drop)]
enum AtEnd {
    /// The mode is left, as at anything else.
    Leave,
    EndText,
    /// The pending table character tokens come first.
    EndTableText,
    EndTemplate,
    /// A template is closed if the content is in one.
    EndContent,
    Stop,
}

/// Returns what the rules for a mode do with the end of the page.
fn at_end(mode: Mode) -> AtEnd
    ensures { result ≡ at_end mode }
{
    match mode {
        Mode::Initial | Mode::BeforeHtml | Mode::BeforeHead => AtEnd::Leave,
        Mode::InHead | Mode::InHeadNoscript | Mode::AfterHead => AtEnd::Leave,
        Mode::Text => AtEnd::EndText,
        Mode::InTableText => AtEnd::EndTableText,
        Mode::InTemplate => AtEnd::EndTemplate,
        Mode::AfterBody | Mode::AfterAfterBody => AtEnd::Stop,
        Mode::InFrameset | Mode::AfterFrameset | Mode::AfterAfterFrameset => AtEnd::Stop,
        _ => AtEnd::EndContent,
    }
}

impl TreeBuilder {
    /// Processes the pending table character tokens, if there are any, because a comment or a
    /// doctype comes. Limits that were met stay noted.
    fn settle_table_text(&mut self)
        ensures limits { RemembersLimits self.old self.new }
        ensures same { keeps_characters self.old.mode ≡ false → self.new ≡ self.old }
        ensures rule { SettlesText self.old self.new }
    {
        if keeps_characters(self.mode) {
            let before = self.met();
            self.flush_table_text();
            self.note_met(before);
        }
    }

    pub fn comment(&mut self, text: &str)
        ensures limits { RemembersLimits self.old self.new }
        ensures tokens { (cs : List ℕ) → text.now ≡ encode_utf8_all cs →
            TakesTokens (AComment cs ∷ []) self.old self.new }
        ensures rule { (cs : List ℕ) → text.now ≡ encode_utf8_all cs →
            keeps_characters self.old.mode ≡ false →
            ProcessesComment cs self.old self.new }
    {
        self.skip_line_feed = false;
        self.settle_table_text();
        self.insert_comment(text);
    }

    /// Inserts a comment by the rules for the current insertion mode, or for foreign content.
    fn insert_comment(&mut self, text: &str)
        ensures limits { RemembersLimits self.old self.new }
        ensures rule { (cs : List ℕ) → text.now ≡ encode_utf8_all cs →
            keeps_characters self.old.mode ≡ false →
            TakesComment cs self.old self.new }
    {
        if self.is_current_foreign() {
            return self.put_comment(text);
        }
        match comment_place(self.mode) {
            CommentPlace::Here => self.put_comment(text),
            CommentPlace::Html => self.put_comment_in_html(text),
            CommentPlace::Document => self.put_comment_at_top(text),
            CommentPlace::Nowhere => {}
        }
    }

    pub fn doctype(&mut self, doctype: &Doctype)
        ensures limits { RemembersLimits self.old self.new }
        ensures tokens { (d : StandardDoctype) → IsDoctype doctype.now d →
            TakesTokens (ADoctype d ∷ []) self.old self.new }
        ensures rule { (d : StandardDoctype) → IsDoctype doctype.now d →
            keeps_characters self.old.mode ≡ false →
            Processes (ADoctype d) self.old self.new }
    {
        self.skip_line_feed = false;
        self.settle_table_text();
        self.take_doctype(doctype);
    }

    /// Processes a doctype by the rules for the current insertion mode, or for foreign content. It
    /// is ignored but at the beginning of the page.
    fn take_doctype(&mut self, doctype: &Doctype)
        ensures limits { RemembersLimits self.old self.new }
        ensures rule { (d : StandardDoctype) → IsDoctype doctype.now d →
            keeps_characters self.old.mode ≡ false →
            ProcessesBy Dispatcher (ADoctype d) self.old self.new IsDone }
    {
        if self.is_current_foreign() {
            return;
        }
        if is_initial(self.mode) {
            return self.begin_by(doctype);
        }
    }

    /// Appends a doctype to the document, and sets the quirks mode by it.
    fn begin_by(&mut self, doctype: &Doctype)
        ensures limits { RemembersLimits self.old self.new }
        ensures rule { (d : StandardDoctype) → IsDoctype doctype.now d →
            self.old.mode ≡ IsInitial → PerformsOn (ADoctype d)
            (AppendDoctype ∷ SetQuirksByDoctype ∷ SwitchTo BeforeHtml ∷ []) self.old self.new }
    {
        self.quirks = crate::quirks::mode_of(doctype);
        let name = text_of(&doctype.name);
        let public_id = text_of(&doctype.public_id);
        let system_id = text_of(&doctype.system_id);
        self.mode = Mode::BeforeHtml;
        let put = self.tree.put_doctype([name, public_id, system_id]);
        self.keep(put);
    }

    /// Processes the end of the page.
    pub fn end(&mut self)
        ensures limits { RemembersLimits self.old self.new }
        ensures tokens { TakesTokens (AnEof ∷ []) self.old self.new }
    {
        self.skip_line_feed = false;
        self.process(Token::End);
    }

    /// Processes the end of the page by the rules for the current insertion mode.
    pub fn end_step(&mut self) -> Next
        ensures rule { EndsPlainly self.old →
            ProcessesBy Dispatcher AnEof self.old self.new result }
        ensures pending { keeps_characters self.old.mode ≡ true →
            LeavesText self.old self.new result }
    {
        match at_end(self.mode) {
            AtEnd::Leave => self.leave_mode(),
            AtEnd::EndText => self.leave_for(self.original),
            AtEnd::EndTableText => self.leave_table_text(),
            AtEnd::EndTemplate => self.end_in_template(),
            AtEnd::EndContent => self.end_content(),
            AtEnd::Stop => Next::Done,
        }
    }

    /// Closes a template in which the page ends.
    fn end_in_template(&mut self) -> Next
        ensures limits { RemembersLimits self.old self.new }
        ensures rule { ProcessesBy InTemplate AnEof self.old self.new result }
    {
        if self.close_template() {
            return Next::Again;
        }
        Next::Done
    }

    /// Processes the end of the page in content, which may be that of a template.
    fn end_content(&mut self) -> Next
        ensures limits { RemembersLimits self.old self.new }
        ensures rule { ProcessesBy InBody AnEof self.old self.new result }
    {
        if self.template_modes.is_empty() {
            return Next::Done;
        }
        self.end_in_template()
    }
}

fn is_initial(mode: Mode) -> bool
    ensures { result ≡ is_initial mode }
{
    matches!(mode, Mode::Initial)
}

/// Returns the text, which is empty if there is none.
fn text_of(text: &Option<String>) -> &str
    ensures { result.now ≡ option_map_or string_bytes text.now [] }
{
    match text {
        Some(text) => text.as_str(),
        None => "",
    }
}
