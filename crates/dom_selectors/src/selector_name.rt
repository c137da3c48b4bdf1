//! The names of elements and attributes in selectors.

ghost use Rattle.std.specs.Prelude.{◌≡◌, IfOk};
ghost use Rattle.std.specs.Str.{str_to_ascii_lowercase};

use dom_nodes::fault::OutOfMemory;
use dom_nodes::name::LocalName;
use dom_nodes::text::Text;
use std::alloc::Global;
use std::marker::Model;

/// A name as in the source, and the same name in lower case, so that it can be compared with a
/// known name by its index in the table of known names. A contract sees it as the bytes of the name
/// in the source.
#[derive(Drop)]
pub struct SelectorName {
    written: Text,
    folded: LocalName,
}

impl Model for SelectorName {
    ghost use Rattle.std.specs.Prelude.{◌≡◌, List, ℕ};
    ghost use Rattle.std.specs.Str.{str_to_ascii_lowercase};

    ghost Value = { List ℕ };

    ghost view = { λ name. name.written };

    ghost invariant = { λ name. name.folded ≡ str_to_ascii_lowercase name.written };
}

impl SelectorName {
    /// Returns the name for this text. Fails only when memory runs out.
    pub fn new(alloc: Global, written: Text) -> Result<SelectorName, OutOfMemory>
        ensures { IfOk result (λ made. made ≡ written) }
    {
        let folded = LocalName::folded(alloc, written.as_str())?;
        Ok(SelectorName { written, folded })
    }

    /// Returns the name as in the source.
    #[inline(always)]
    pub fn as_str(&self) -> &str
        ensures { result.now ≡ self.now }
    {
        self.written.as_str()
    }

    /// Returns the name with A to Z in lower case.
    #[inline(always)]
    pub fn folded(&self) -> &LocalName
        ensures { result.now ≡ str_to_ascii_lowercase self.now }
    {
        &self.folded
    }

    /// Returns a copy of the name. Fails only when memory runs out.
    pub fn try_clone(&self) -> Result<SelectorName, OutOfMemory>
        ensures { IfOk result (λ made. made ≡ self.now) }
    {
        let folded = self.folded.try_clone()?;
        Ok(SelectorName {
            written: self.written.try_clone()?,
            folded,
        })
    }
}
