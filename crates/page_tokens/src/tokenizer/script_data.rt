//! The escaped states of script data, which start at `<!--` (13.2.5.18 to 13.2.5.22 and 13.2.5.26
//! to 13.2.5.31).

ghost use Rattle.std.specs.Prelude.{◌≡◌, ◌∷◌, [], IfOk, OnOk, None, false, codes, string_bytes};
ghost use Rattle.std.specs.Prelude.{encode_utf8};
ghost use Rattle.std.specs.Str.{bytes_eq};
ghost use Rattle.page_tokens.specs.ScriptStates.{behind_name_of, double_step_of, ends_name};
ghost use Rattle.page_tokens.specs.ScriptStates.{doubled_step_of, escaped_step_of, script_step_of};

use super::state::{DoubleState, EndTagState, Raw, ScriptState};
use super::{Progress, State, Tokenizer, is_space, push};

/// What a character in escaped script data does.
#[derive(Clone, Copy, Drop)]
enum ScriptStep {
    /// The character is text, and this state follows.
    Text(State),
    /// What follows may be an end tag.
    LessThan,
    /// Nothing is escaped, and the character is read as script data.
    Unescaped,
    /// An end tag may begin in data that is escaped twice.
    Slash,
    /// A letter of the name of what may be a tag.
    Letter,
    /// The end of the name of a start tag (`false`) or an end tag (`true`).
    Named(bool),
}

fn script_step(state: ScriptState, c: char) -> ScriptStep
    ensures { result ≡ script_step_of state c }
{
    match state {
        ScriptState::EscapeStart => match c {
            '-' => ScriptStep::Text(State::ScriptData(ScriptState::EscapeStartDash)),
            _ => ScriptStep::Unescaped,
        },
        ScriptState::EscapeStartDash => match c {
            '-' => ScriptStep::Text(State::ScriptData(ScriptState::EscapedDashDash)),
            _ => ScriptStep::Unescaped,
        },
        ScriptState::Escaped => escaped_step(ScriptState::EscapedDash, c),
        ScriptState::EscapedDash => escaped_step(ScriptState::EscapedDashDash, c),
        ScriptState::EscapedDashDash => match c {
            '>' => ScriptStep::Text(State::Script),
            _ => escaped_step(ScriptState::EscapedDashDash, c),
        },
        ScriptState::DoubleStart if is_name_end(c) => ScriptStep::Named(false),
        ScriptState::DoubleStart if c.is_ascii_alphabetic() => ScriptStep::Letter,
        ScriptState::DoubleStart => escaped_step(ScriptState::EscapedDash, c),
        ScriptState::Double(double) => double_step(double, c),
    }
}

/// Returns what a character in escaped script data does. A dash leads to the state `dash`.
fn escaped_step(dash: ScriptState, c: char) -> ScriptStep
    ensures { result ≡ escaped_step_of dash c }
{
    match c {
        '-' => ScriptStep::Text(State::ScriptData(dash)),
        '<' => ScriptStep::LessThan,
        _ => ScriptStep::Text(State::ScriptData(ScriptState::Escaped)),
    }
}

fn double_step(state: DoubleState, c: char) -> ScriptStep
    ensures { result ≡ double_step_of state c }
{
    match state {
        DoubleState::Escaped => doubled_step(DoubleState::Dash, c),
        DoubleState::Dash => doubled_step(DoubleState::DashDash, c),
        DoubleState::DashDash => match c {
            '>' => ScriptStep::Text(State::Script),
            _ => doubled_step(DoubleState::DashDash, c),
        },
        DoubleState::LessThan => match c {
            '/' => ScriptStep::Slash,
            _ => doubled_step(DoubleState::Dash, c),
        },
        DoubleState::End if is_name_end(c) => ScriptStep::Named(true),
        DoubleState::End if c.is_ascii_alphabetic() => ScriptStep::Letter,
        DoubleState::End => doubled_step(DoubleState::Dash, c),
    }
}

/// Returns what a character in double escaped script data does. A dash leads to the state `dash`.
fn doubled_step(dash: DoubleState, c: char) -> ScriptStep
    ensures { result ≡ doubled_step_of dash c }
{
    let next = match c {
        '-' => dash,
        '<' => DoubleState::LessThan,
        _ => DoubleState::Escaped,
    };
    ScriptStep::Text(State::ScriptData(ScriptState::Double(next)))
}

/// Returns whether the character ends the name of a tag.
fn is_name_end(c: char) -> bool
    ensures { result ≡ ends_name c }
{
    c == '/' || c == '>' || is_space(c)
}

/// Returns the state after the name of a tag in escaped script data. A start tag `script` makes
/// the data double escaped, and its end tag ends that.
fn behind_name(is_end: bool, is_script: bool) -> State
    ensures { result ≡ behind_name_of is_end is_script }
{
    match (is_end, is_script) {
        (false, true) | (true, false) => {
            State::ScriptData(ScriptState::Double(DoubleState::Escaped))
        }
        _ => State::ScriptData(ScriptState::Escaped),
    }
}

impl Tokenizer {
    ghost use Rattle.page_tokens.specs.ScriptStates.{AddsLetter};
    ghost use Rattle.page_tokens.specs.Standard.{Follows};
    ghost use Rattle.page_tokens.specs.TextStates.{TextGoesOn};

    pub(super) fn in_script(&mut self, state: ScriptState, c: char) -> Progress
        ensures { self.old.state ≡ State.ScriptData state →
            Follows self.old self.new (c ∷ []) result }
    {
        match script_step(state, c) {
            ScriptStep::Text(next) => self.letter_then(c, next),
            ScriptStep::LessThan => {
                self.then(State::EndTag(Raw::Escaped, EndTagState::LessThan))
            }
            ScriptStep::Unescaped => {
                self.state = State::Script;
                self.in_raw(Raw::Script, c)
            }
            ScriptStep::Slash => {
                self.letters.clear();
                self.text_then(c, State::ScriptData(ScriptState::Double(DoubleState::End)))
            }
            ScriptStep::Letter => self.double_letter(c),
            ScriptStep::Named(is_end) => self.script_name_ends(is_end, c),
        }
    }

    /// Returns whether the temporary buffer is `script`.
    fn is_script(&self) -> bool
        ensures { result ≡ bytes_eq (string_bytes self.now.letters) (codes "script") }
    {
        self.letters.as_str() == "script"
    }

    /// Processes the end of a tag name in escaped script data.
    fn script_name_ends(&mut self, is_end: bool, c: char) -> Progress
        ensures told { IfOk result (λ told. told ≡ None) }
        ensures goes_on { OnOk result (self.new.refused ≡ false → TextGoesOn self.old self.new
            (behind_name_of is_end (bytes_eq (string_bytes self.old.letters) (codes "script")))
            (encode_utf8 c)) }
    {
        let next = behind_name(is_end, self.is_script());
        self.text_then(c, next)
    }

    fn double_letter(&mut self, c: char) -> Progress
        ensures told { IfOk result (λ told. told ≡ None) }
        ensures adds { OnOk result (AddsLetter self.old self.new c) }
    {
        self.letters.push(c.to_ascii_lowercase())?;
        push(&mut self.text, c)
    }
}
