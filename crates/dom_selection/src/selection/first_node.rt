//! The attributes and the HTML of a selection's first node. For an empty selection they are empty,
//! `None`, `false` or the default.

ghost use Rattle.std.specs.Prelude.{◌≡◌, [], None, codes, false, is_some, string_bytes, unwrap_or};
ghost use Rattle.std.specs.Prelude.{IfOk};
ghost use Rattle.std.specs.Option.{option_copied};
ghost use Rattle.dom_trees.specs.Views.{node_attrs};
ghost use Rattle.dom_markup.specs.Html.{html_of, inner_html_of};
ghost use Rattle.dom_selection.specs.Selections.{at_first, IsTextOfFirst, attr_of_first};

use crate::selection::Selection;
use dom_markup::serializing::NodeMarkup;
use dom_nodes::fault::OutOfMemory;
use dom_nodes::name::Attr;

impl<'a> Selection<'a> {
    /// Returns the attributes of the first node.
    pub fn attrs(&self) -> &'a [Attr]
        ensures { result.now ≡ at_first node_attrs [] self.now }
    {
        match self.nodes().first() {
            Some(node) => node.attrs(),
            None => &[],
        }
    }

    /// Returns the value of the first node's first attribute with this local name, or `None` when
    /// there is none.
    pub fn attr(&self, name: &str) -> Option<&'a str>
        ensures { option_copied result ≡ attr_of_first name.now self.now }
    {
        self.nodes().first()?.attr(name)
    }

    /// Returns the value of the first node's first attribute with this local name, or `default`
    /// when there is none.
    pub fn attr_or(&self, name: &str, default: &'a str) -> &'a str
        ensures { result.now ≡ unwrap_or (attr_of_first name.now self.now) default.now }
    {
        self.attr(name).unwrap_or(default)
    }

    /// Returns whether the first node has an attribute with this local name.
    pub fn has_attr(&self, name: &str) -> bool
        ensures { result ≡ is_some (attr_of_first name.now self.now) }
    {
        self.attr(name).is_some()
    }

    /// Returns the value of the first node's first attribute `id`, or `None` when there is none.
    pub fn id(&self) -> Option<&'a str>
        ensures { option_copied result ≡ attr_of_first (codes "id") self.now }
    {
        self.attr("id")
    }

    /// Returns the value of the first node's first attribute `class`, or `None` when there is none.
    pub fn class(&self) -> Option<&'a str>
        ensures { option_copied result ≡ attr_of_first (codes "class") self.now }
    {
        self.attr("class")
    }

    /// Returns the HTML of the first node, itself included; empty for an empty selection. It fails
    /// with `OutOfMemory` when memory is refused.
    pub fn html(&self) -> Result<String, OutOfMemory>
        ensures { IfOk result (λ html. string_bytes html ≡ at_first html_of [] self.now) }
    {
        match self.nodes().first() {
            Some(node) => node.html(),
            None => Ok(String::new(self.allocator())),
        }
    }

    /// Returns the HTML of the first node's children; empty for an empty selection. It fails with
    /// `OutOfMemory` when memory is refused.
    pub fn inner_html(&self) -> Result<String, OutOfMemory>
        ensures { IfOk result (λ html. string_bytes html ≡ at_first inner_html_of [] self.now) }
    {
        match self.nodes().first() {
            Some(node) => node.inner_html(),
            None => Ok(String::new(self.allocator())),
        }
    }

    /// Returns the HTML of the first node, itself included, or `None` for an empty selection. It
    /// fails with `OutOfMemory` when memory is refused.
    pub fn try_html(&self) -> Result<Option<String>, OutOfMemory>
        ensures { IfOk result (IsTextOfFirst html_of self.now) }
    {
        match self.nodes().first() {
            Some(node) => Ok(Some(node.html()?)),
            None => Ok(None),
        }
    }

    /// Returns the HTML of the first node's children, or `None` for an empty selection. It fails
    /// with `OutOfMemory` when memory is refused.
    pub fn try_inner_html(&self) -> Result<Option<String>, OutOfMemory>
        ensures { IfOk result (IsTextOfFirst inner_html_of self.now) }
    {
        match self.nodes().first() {
            Some(node) => Ok(Some(node.inner_html()?)),
            None => Ok(None),
        }
    }
}
