//! Named character references (13.2.5.73): the longest matching name counts.

ghost use Rattle.std.specs.Prelude.{◌≡◌, [], None};
ghost use Rattle.page_tokens.specs.NamedReferences.{read_of, IsLongest};

use crate::named_references::{Names, Value};

/// The names that start with the characters read, and the meaning of the longest whole name so far.
#[derive(Clone, Copy, Drop)]
pub struct Match {
    names: Names,
    pub value: Option<Value>,
    /// Whether the characters read are exactly that name.
    pub is_whole: bool,
    /// Whether that name ends in a semicolon.
    pub closed: bool,
    ghost longest: { IsLongest (read_of names) value closed },
}

impl Match {
    ghost use Rattle.page_tokens.specs.References.{MatchesOn};

    /// Returns a match that has read nothing.
    pub fn new() -> Match
        ensures read { read_of result.names ≡ [] }
        ensures value { result.value ≡ None }
    {
        Match {
            names: Names::all(),
            value: None,
            is_whole: false,
            closed: false,
        }
    }

    /// Returns the match extended by this character, if a name continues with it. Otherwise the
    /// value of the match is that of the longest name, whatever text follows.
    pub fn with(self, c: char) -> Option<Match>
        ensures { MatchesOn self c result }
    {
        let Ok(byte) = u8::try_from(c) else {
            return None;
        };
        let Some(names) = self.names.with(byte) else {
            return None;
        };
        match names.value() {
            Some(value) => Some(Match {
                names,
                value: Some(value),
                is_whole: true,
                closed: c == ';',
            }),
            None => Some(Match {
                names,
                value: self.value,
                is_whole: false,
                closed: self.closed,
            }),
        }
    }
}
