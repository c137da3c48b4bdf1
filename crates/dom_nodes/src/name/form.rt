//! The storage of a name in 16 bytes, with room for two parts of an element: its flag and its
//! template contents.

ghost use Rattle.std.specs.Prelude.{◌≡◌, IfOk, IfSome, MatchOption, None};
ghost use Rattle.std.specs.Option.{option_copied};
ghost use Rattle.dom_nodes.specs.Names.{HasHtmlNumber, HasNoHtmlNumber, namespace_of};
ghost use Rattle.dom_nodes.specs.Changes.{plain_name};
ghost use Rattle.dom_nodes.specs.QualForms.{IsCanonicalName, form_contents, form_flag, form_name};
ghost use Rattle.dom_nodes.specs.QualForms.{html_name};

use super::{LocalForm, LocalName, LocalRef, NameParts, Namespace, NamespaceRef, prefix_text};
use crate::fault::OutOfMemory;
use crate::link::Link;
use crate::text::RareText;

/// A name, and beside it the flag and the template contents of an element. For the name of an
/// attribute the flag is false and the contents are empty.
#[derive(Drop)]
pub(crate) enum NameForm {
    /// A known name, by its table index, in the HTML namespace, without prefix.
    Html(bool, u8, Link),
    /// A known name, by its table index, in no namespace, without prefix.
    Plain(bool, u8, Link),
    /// A name that isn't in the table, in the HTML namespace, without prefix.
    OwnHtml(bool, Link, RareText),
    /// A name that isn't in the table, in no namespace, without prefix.
    OwnPlain(bool, Link, RareText),
    /// Any other name.
    Other(bool, Link, Box<NameParts>),
}

impl NameForm {
    /// Returns the name in the HTML namespace, without prefix, with this flag and these contents.
    #[inline(always)]
    pub(crate) fn html(flag: bool, contents: Link, local: LocalName) -> NameForm
        ensures name { form_name result ≡ html_name local }
        ensures flag { form_flag result ≡ flag }
        ensures contents { form_contents result ≡ contents }
        ensures canonical { IsCanonicalName result }
    {
        match local.into_form() {
            LocalForm::Known(number) => NameForm::Html(flag, number, contents),
            LocalForm::Own(text) => NameForm::OwnHtml(flag, contents, text),
        }
    }

    /// Returns the name in no namespace, without prefix, with this flag and these contents.
    #[inline(always)]
    pub(crate) fn plain(flag: bool, contents: Link, local: LocalName) -> NameForm
        ensures name { form_name result ≡ plain_name local }
        ensures flag { form_flag result ≡ flag }
        ensures contents { form_contents result ≡ contents }
        ensures canonical { IsCanonicalName result }
    {
        match local.into_form() {
            LocalForm::Known(number) => NameForm::Plain(flag, number, contents),
            LocalForm::Own(text) => NameForm::OwnPlain(flag, contents, text),
        }
    }

    /// Returns the name with its local name replaced; all else stays.
    pub(crate) fn with_local(self, name: LocalName) -> NameForm
        ensures name { form_name result ≡ record (form_name self) { local = name } }
        ensures flag { form_flag result ≡ form_flag self }
        ensures contents { form_contents result ≡ form_contents self }
        ensures canonical { IsCanonicalName result }
    {
        match self {
            NameForm::Html(flag, _, contents) => NameForm::html(flag, contents, name),
            NameForm::Plain(flag, _, contents) => NameForm::plain(flag, contents, name),
            NameForm::OwnHtml(flag, contents, _) => NameForm::html(flag, contents, name),
            NameForm::OwnPlain(flag, contents, _) => NameForm::plain(flag, contents, name),
            NameForm::Other(flag, contents, mut parts) => {
                parts.local = name;
                NameForm::Other(flag, contents, parts)
            }
        }
    }

    /// Returns the same name with another flag and other contents.
    #[inline(always)]
    pub(crate) fn beside(self, flag: bool, contents: Link) -> NameForm
        ensures name { form_name result ≡ form_name self }
        ensures flag { form_flag result ≡ flag }
        ensures contents { form_contents result ≡ contents }
        ensures canonical { IsCanonicalName self → IsCanonicalName result }
    {
        match self {
            NameForm::Html(_, number, _) => NameForm::Html(flag, number, contents),
            NameForm::Plain(_, number, _) => NameForm::Plain(flag, number, contents),
            NameForm::OwnHtml(_, _, text) => NameForm::OwnHtml(flag, contents, text),
            NameForm::OwnPlain(_, _, text) => NameForm::OwnPlain(flag, contents, text),
            NameForm::Other(_, _, parts) => NameForm::Other(flag, contents, parts),
        }
    }

    /// Returns the local name.
    #[inline(always)]
    pub(crate) fn local(&self) -> LocalRef<'_>
        requires { IsCanonicalName self.now }
        ensures { result ≡ (form_name self.now).local }
    {
        match self {
            NameForm::Html(_, number, _) => LocalRef::known(*number),
            NameForm::Plain(_, number, _) => LocalRef::known(*number),
            NameForm::OwnHtml(_, _, text) => LocalRef::own(text.as_str()),
            NameForm::OwnPlain(_, _, text) => LocalRef::own(text.as_str()),
            NameForm::Other(_, _, parts) => parts.local.by_ref(),
        }
    }

    /// Returns the index of the local name in the table of known names, if the name is in the HTML
    /// namespace and in the table; `None` otherwise.
    #[inline(always)]
    pub(crate) fn html_number(&self) -> Option<u8>
        requires { IsCanonicalName self.now }
        ensures { MatchOption result (HasNoHtmlNumber (form_name self.now))
            (HasHtmlNumber (form_name self.now)) }
    {
        match self {
            NameForm::Html(_, number, _) => Some(*number),
            NameForm::Other(_, _, parts) => parts.html_number(),
            _ => None,
        }
    }

    /// Returns the namespace.
    #[inline(always)]
    pub(crate) fn ns(&self) -> NamespaceRef<'_>
        ensures { namespace_of result ≡ (form_name self.now).ns }
    {
        match self {
            NameForm::Html(_, _, _) => NamespaceRef::Html,
            NameForm::OwnHtml(_, _, _) => NamespaceRef::Html,
            NameForm::Other(_, _, parts) => parts.ns.by_ref(),
            _ => NamespaceRef::None,
        }
    }

    /// Returns the prefix, or `None` when there is none.
    pub(crate) fn prefix(&self) -> Option<&str>
        ensures { option_copied result ≡ (form_name self.now).prefix }
    {
        match self {
            NameForm::Other(_, _, parts) => prefix_text(&parts.prefix),
            _ => None,
        }
    }

    /// Returns the flag beside the name.
    #[inline(always)]
    pub(crate) fn flag(&self) -> bool
        ensures { result ≡ form_flag self.now }
    {
        match self {
            NameForm::Html(flag, _, _) => *flag,
            NameForm::Plain(flag, _, _) => *flag,
            NameForm::OwnHtml(flag, _, _) => *flag,
            NameForm::OwnPlain(flag, _, _) => *flag,
            NameForm::Other(flag, _, _) => *flag,
        }
    }

    /// Returns the template contents beside the name.
    #[inline(always)]
    pub(crate) fn contents(&self) -> Link
        ensures { result ≡ form_contents self.now }
    {
        match self {
            NameForm::Html(_, _, contents) => *contents,
            NameForm::Plain(_, _, contents) => *contents,
            NameForm::OwnHtml(_, contents, _) => *contents,
            NameForm::OwnPlain(_, contents, _) => *contents,
            NameForm::Other(_, contents, _) => *contents,
        }
    }

    /// Returns a copy if the name is stored as a table index and needs no memory, and `None`
    /// otherwise.
    #[inline(always)]
    pub(crate) fn known_copy(&self) -> Option<NameForm>
        ensures { IfSome result (λ made. made ≡ self.now) }
    {
        match self {
            NameForm::Html(flag, number, contents) => {
                Some(NameForm::Html(*flag, *number, *contents))
            }
            NameForm::Plain(flag, number, contents) => {
                Some(NameForm::Plain(*flag, *number, *contents))
            }
            _ => None,
        }
    }

    /// Returns a copy of name, flag and contents, or `OutOfMemory`.
    pub(crate) fn try_clone(&self) -> Result<NameForm, OutOfMemory>
        ensures name { IfOk result (λ made. form_name made ≡ form_name self.now) }
        ensures flag { IfOk result (λ made. form_flag made ≡ form_flag self.now) }
        ensures contents { IfOk result (λ made. form_contents made ≡ form_contents self.now) }
        ensures canonical { IsCanonicalName self.now
            → IfOk result (λ made. IsCanonicalName made) }
    {
        Ok(match self {
            NameForm::Html(flag, number, contents) => NameForm::Html(*flag, *number, *contents),
            NameForm::Plain(flag, number, contents) => NameForm::Plain(*flag, *number, *contents),
            NameForm::OwnHtml(flag, contents, text) => {
                NameForm::OwnHtml(*flag, *contents, text.try_clone()?)
            }
            NameForm::OwnPlain(flag, contents, text) => {
                NameForm::OwnPlain(*flag, *contents, text.try_clone()?)
            }
            NameForm::Other(flag, contents, parts) => {
                let alloc = *Box::allocator(parts);
                NameForm::Other(*flag, *contents, Box::new(alloc, parts.try_clone()?)?)
            }
        })
    }
}

impl NameParts {
    /// Returns the index of the local name in the table of known names, if the namespace is HTML's
    /// and the name is in the table; `None` otherwise.
    #[cold]
    fn html_number(&self) -> Option<u8>
        ensures { MatchOption result (HasNoHtmlNumber self.now) (HasHtmlNumber self.now) }
    {
        match self.ns {
            Namespace::Html => self.local.number(),
            _ => None,
        }
    }
}
