//! The markup declaration open state (13.2.5.42): after `<!` comes a comment, a doctype or a CDATA
//! section.

ghost use Rattle.std.specs.Prelude.{◌≡◌, ◌<◌, ◌∷◌, [], IfOk, OnOk, None, true, false, length};
ghost use Rattle.std.specs.Prelude.{encode_utf8};
ghost use Rattle.page_tokens.specs.Declarations.{letter_is, declared_of};

use super::state::{CdataState, CommentState, DoctypeState, Seen};
use super::{Progress, State, Tokenizer, push};
use crate::parse_error::ParseError;
use crate::token::Doctype;

/// What begins with what was read after `<!` and one more character.
#[derive(Clone, Copy, Drop)]
enum Declared {
    /// More characters decide.
    More(Seen),
    Comment,
    Doctype,
    Cdata,
    /// A bogus comment, which the character is part of.
    Bogus,
}

/// Returns whether the letter of the word at index `count` is this one.
pub fn goes_on(word: &[u8], count: usize, letter: char) -> bool
    ensures is { result ≡ letter_is word.now count letter }
    ensures within { result ≡ true → count < length word.now }
{
    match word.get(count) {
        Some(next) => char::from(*next) == letter,
        None => false,
    }
}

/// Returns what the character after what was read begins.
fn what_begins(seen: Seen, c: char) -> Declared
    ensures { result ≡ declared_of seen c }
{
    match (seen, c) {
        (Seen::Nothing, '-') => Declared::More(Seen::Dash),
        (Seen::Nothing, 'd' | 'D') => Declared::More(Seen::Doctype(1)),
        (Seen::Nothing, '[') => Declared::More(Seen::Cdata(1)),
        (Seen::Dash, '-') => Declared::Comment,
        (Seen::Doctype(count), _) if goes_on(b"doctype", count, c.to_ascii_lowercase()) => {
            match count {
                6 => Declared::Doctype,
                _ => Declared::More(Seen::Doctype(count + 1)),
            }
        }
        (Seen::Cdata(count), _) if goes_on(b"[CDATA[", count, c) => match count {
            6 => Declared::Cdata,
            _ => Declared::More(Seen::Cdata(count + 1)),
        },
        _ => Declared::Bogus,
    }
}

impl Tokenizer {
    ghost use Rattle.page_tokens.specs.Changes.{CommentGoesOn};
    ghost use Rattle.page_tokens.specs.Standard.{FollowsAsking};

    pub(super) fn in_declaration(&mut self, seen: Seen, c: char) -> Progress
        ensures { self.old.state ≡ State.Declaration seen →
            FollowsAsking self.old self.new (c ∷ []) result }
    {
        match what_begins(seen, c) {
            Declared::More(more) => {
                self.state = State::Declaration(more);
                push(&mut self.comment, c)
            }
            Declared::Comment => {
                self.comment.clear();
                self.then(State::Comment(CommentState::Start))
            }
            Declared::Doctype => {
                self.doctype = Doctype::new();
                self.then(State::Doctype(DoctypeState::Begin))
            }
            Declared::Cdata => self.cdata_begins(c),
            Declared::Bogus => {
                self.error(ParseError::IncorrectlyOpenedComment);
                self.state = State::Comment(CommentState::Bogus);
                self.in_comment(CommentState::Bogus, c)
            }
        }
    }

    /// Starts a CDATA section in foreign content, and a bogus comment elsewhere.
    fn cdata_begins(&mut self, c: char) -> Progress
        ensures told { IfOk result (λ told. told ≡ None) }
        ensures foreign { self.old.in_foreign ≡ true →
            self.new ≡ record self.old { state = State.Cdata CdataState.Section } }
        ensures html { self.old.in_foreign ≡ false → OnOk result (self.new.refused ≡ false →
            CommentGoesOn self.old self.new CommentState.Bogus (encode_utf8 c)) }
    {
        if self.in_foreign {
            return self.then(State::Cdata(CdataState::Section));
        }
        self.error(ParseError::CdataInHtmlContent);
        self.state = State::Comment(CommentState::Bogus);
        push(&mut self.comment, c)
    }
}
