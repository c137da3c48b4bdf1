//! Comparison and `Debug` output of names and mini selectors.

ghost use Rattle.std.specs.Cmp.{partial_equiv_from_equiv};
ghost use Rattle.std.specs.Cmp.Lexicographic.{nat_list_eq_equiv};
ghost use Rattle.std.specs.Str.{bytes_eq};

use crate::mini_selector::selector::MiniSelector;
use crate::selector_name::SelectorName;
use std::fmt;

impl PartialEq for SelectorName {
    ghost eq = { bytes_eq };

    ghost laws = { partial_equiv_from_equiv nat_list_eq_equiv };

    fn eq(&self, other: &SelectorName) -> bool {
        self.as_str() == other.as_str()
    }
}

impl Eq for SelectorName {
    ghost laws = { nat_list_eq_equiv };
}

impl fmt::Debug for SelectorName {
    fn fmt<W: fmt::Write>(&self, f: &mut fmt::Formatter<W>) -> fmt::Result {
        fmt::Debug::fmt(&self.as_str(), f)
    }
}

impl<'a> fmt::Debug for MiniSelector<'a> {
    fn fmt<W: fmt::Write>(&self, f: &mut fmt::Formatter<W>) -> fmt::Result {
        f.write_str("MiniSelector { combinator: ")?;
        fmt::Debug::fmt(&self.combinator(), f)?;
        f.write_str(", name: ")?;
        fmt::Debug::fmt(&self.name, f)?;
        f.write_str(", id: ")?;
        fmt::Debug::fmt(&self.id, f)?;
        f.write_str(", classes: ")?;
        fmt::Debug::fmt(&self.classes, f)?;
        f.write_str(", attrs: ")?;
        fmt::Debug::fmt(&self.attrs, f)?;
        f.write_str(" }")
    }
}
