//! The attributes of an element that rules look at.

ghost use Rattle.std.specs.Prelude.{◌≡◌, ◌∷◌, List, codes, true, if◌then◌else◌};
ghost use Rattle.std.specs.Str.{bytes_eq};
ghost use Rattle.dom_nodes.specs.declared.name.Attr.{Attr};
ghost use Rattle.dom_article.specs.Attributes.{AreAttributes};
ghost use Rattle.dom_article.specs.Hidden.{says_hidden};

use crate::hidden::{hides, is_fallback_class};
use dom_nodes::node_data::Element;

/// The attributes of an element that rules look at, with an empty text where there is none; that of
/// `href` is `#`.
#[derive(Clone, Copy, Drop)]
pub(crate) struct Attributes<'a> {
    pub(crate) class: &'a str,
    pub(crate) id: &'a str,
    pub(crate) rel: &'a str,
    pub(crate) role: &'a str,
    pub(crate) style: &'a str,
    pub(crate) itemprop: &'a str,
    pub(crate) href: &'a str,
    pub(crate) input: &'a str,
    pub(crate) aria_hidden: bool,
    pub(crate) aria_modal: bool,
    pub(crate) hidden: bool,
    pub(crate) has_datetime: bool,
}

impl<'a> Attributes<'a> {
    /// No attribute.
    const NONE: Attributes<'static> = Attributes {
        class: "",
        id: "",
        rel: "",
        role: "",
        style: "",
        itemprop: "",
        href: "#",
        input: "",
        aria_hidden: false,
        aria_modal: false,
        hidden: false,
        has_datetime: false,
    };

    /// Returns the attributes of an element; of two with one name the first counts.
    pub(crate) fn of(element: &'a Element) -> Attributes<'a>
        ensures { AreAttributes element.now.attrs result }
    {
        let mut found = Attributes::NONE;
        for attr in element.attrs().as_slice().iter().rev() {
            found = found.with(attr.name.local().as_str(), attr.value.as_str());
        }
        found
    }

    /// Returns the attributes with one more in front of them.
    fn with(&self, name: &str, value: &'a str) -> Attributes<'a>
        ensures { (attr : Attr) (attrs : List Attr)
            → attr.name.local ≡ name.now → attr.value ≡ value.now
            → AreAttributes attrs self.now → AreAttributes (attr ∷ attrs) result }
    {
        Attributes {
            class: text(name, "class", value, self.class),
            id: text(name, "id", value, self.id),
            rel: text(name, "rel", value, self.rel),
            role: text(name, "role", value, self.role),
            style: text(name, "style", value, self.style),
            itemprop: text(name, "itemprop", value, self.itemprop),
            href: text(name, "href", value, self.href),
            input: text(name, "type", value, self.input),
            aria_hidden: truth(name, "aria-hidden", value, self.aria_hidden),
            aria_modal: truth(name, "aria-modal", value, self.aria_modal),
            hidden: presence(name, "hidden", self.hidden),
            has_datetime: presence(name, "datetime", self.has_datetime),
        }
    }

    /// Returns whether the attributes say that the element isn't shown.
    pub(crate) fn hide(&self) -> bool
        ensures { (attrs : List Attr) → AreAttributes attrs self.now → result ≡ says_hidden attrs }
    {
        if self.hidden || self.aria_modal {
            return true;
        }
        if hides(self.style) {
            return true;
        }
        if !self.aria_hidden {
            return false;
        }
        !is_fallback_class(self.class)
    }
}

/// Returns the value if the name is the wanted one, and otherwise the old text.
fn text<'a>(name: &str, wanted: &str, value: &'a str, old: &'a str) -> &'a str
    ensures { result.now ≡ (if bytes_eq name.now wanted.now then value.now else old.now) }
{
    if name == wanted { value } else { old }
}

/// Returns whether the value is `true` if the name is the wanted one, and otherwise what was known.
fn truth(name: &str, wanted: &str, value: &str, old: bool) -> bool
    ensures { result ≡ (if bytes_eq name.now wanted.now then bytes_eq value.now (codes "true")
        else old) }
{
    if name == wanted { value == "true" } else { old }
}

/// Returns whether the name is the wanted one, or it was there before.
fn presence(name: &str, wanted: &str, old: bool) -> bool
    ensures { result ≡ (if bytes_eq name.now wanted.now then true else old) }
{
    if name == wanted { true } else { old }
}
