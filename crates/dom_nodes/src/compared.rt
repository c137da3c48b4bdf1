//! `==` and `Debug` for texts and names. Texts and local names are equal when their bytes are, and
//! print as text.

ghost use Rattle.std.specs.Cmp.{partial_equiv_from_equiv};
ghost use Rattle.std.specs.Cmp.Lexicographic.{nat_list_eq_equiv};
ghost use Rattle.std.specs.Str.{bytes_eq};
ghost use Rattle.dom_nodes.specs.Names.{same_name};
ghost use Rattle.dom_nodes.specs.NameLaws.{same_name-equiv};

use crate::name::{LocalName, LocalRef, NameRef, QualName};
use crate::text::{RareText, Text};
use std::fmt;

impl PartialEq for Text {
    ghost eq = { bytes_eq };

    ghost laws = { partial_equiv_from_equiv nat_list_eq_equiv };

    fn eq(&self, other: &Text) -> bool {
        self.as_str() == other.as_str()
    }
}

impl Eq for Text {
    ghost laws = { nat_list_eq_equiv };
}

impl fmt::Debug for Text {
    fn fmt<W: fmt::Write>(&self, f: &mut fmt::Formatter<W>) -> fmt::Result {
        fmt::Debug::fmt(&self.as_str(), f)
    }
}

impl PartialEq for RareText {
    ghost eq = { bytes_eq };

    ghost laws = { partial_equiv_from_equiv nat_list_eq_equiv };

    fn eq(&self, other: &RareText) -> bool {
        self.as_str() == other.as_str()
    }
}

impl Eq for RareText {
    ghost laws = { nat_list_eq_equiv };
}

impl fmt::Debug for RareText {
    fn fmt<W: fmt::Write>(&self, f: &mut fmt::Formatter<W>) -> fmt::Result {
        fmt::Debug::fmt(&self.as_str(), f)
    }
}

/// Known names are compared by their table indexes.
impl PartialEq for LocalName {
    ghost eq = { bytes_eq };

    ghost laws = { partial_equiv_from_equiv nat_list_eq_equiv };

    fn eq(&self, other: &LocalName) -> bool {
        self.is_same(other)
    }
}

impl Eq for LocalName {
    ghost laws = { nat_list_eq_equiv };
}

impl fmt::Debug for LocalName {
    fn fmt<W: fmt::Write>(&self, f: &mut fmt::Formatter<W>) -> fmt::Result {
        fmt::Debug::fmt(&self.as_str(), f)
    }
}

impl PartialEq for QualName {
    ghost eq = { same_name };

    ghost laws = { partial_equiv_from_equiv same_name-equiv };

    fn eq(&self, other: &QualName) -> bool {
        self.is_same(other)
    }
}

impl Eq for QualName {
    ghost laws = { same_name-equiv };
}

impl fmt::Debug for QualName {
    fn fmt<W: fmt::Write>(&self, f: &mut fmt::Formatter<W>) -> fmt::Result {
        fmt::Debug::fmt(&self.by_ref(), f)
    }
}

/// Prints prefix, namespace and local name.
impl fmt::Debug for NameRef<'_> {
    fn fmt<W: fmt::Write>(&self, f: &mut fmt::Formatter<W>) -> fmt::Result {
        f.debug_struct("QualName")
            .field("prefix", &self.prefix())
            .field("ns", &self.ns())
            .field("local", &self.local())
            .finish()
    }
}

impl fmt::Debug for LocalRef<'_> {
    fn fmt<W: fmt::Write>(&self, f: &mut fmt::Formatter<W>) -> fmt::Result {
        fmt::Debug::fmt(&self.as_str(), f)
    }
}
