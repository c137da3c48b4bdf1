//! `Debug` output of matchers.

use crate::matcher::Matcher;
use std::fmt;

impl fmt::Debug for Matcher {
    /// Writes the selectors of the list.
    fn fmt<W: fmt::Write>(&self, f: &mut fmt::Formatter<W>) -> fmt::Result {
        f.write_str("Matcher ")?;
        fmt::Debug::fmt(self.selectors(), f)
    }
}
