//! Looking up characters in the indexes of the Encoding Standard.

ghost use Rattle.std.specs.Prelude.{◌≡◌};
ghost use Rattle.decoded_text.specs.Indexes.{character_at, character_of};

/// Returns the character of a pointer in an index, where 0 stands for none.
#[tactic(auto, unfolding(crate::specs::Indexes::character_at, crate::specs::Indexes::character_of))]
pub fn character_at(index: &[u16], pointer: usize) -> Option<char>
    ensures { result ≡ character_at index.now pointer }
{
    if pointer >= index.len() {
        return None;
    }
    character_of(u32::from(index[pointer]))
}

/// Returns the character with this code, which is an entry of an index, where 0 stands for none.
#[tactic(auto, unfolding(crate::specs::Indexes::character_of))]
pub fn character_of(code: u32) -> Option<char>
    ensures { result ≡ character_of code }
{
    if code == 0 {
        return None;
    }
    char::from_u32(code)
}
