//! Sets of elements that the standard names: scopes, special elements and so on.

ghost use Rattle.std.specs.Prelude.{◌≡◌};
ghost use Rattle.page_trees.specs.Foreign.{ends_foreign_name};
ghost use Rattle.page_trees.specs.Sets.{ends_context, ends_scope, is_a_heading, is_crossed};
ghost use Rattle.page_trees.specs.Names.{text_of};
ghost use Rattle.page_trees.specs.Scopes.{is_implied_but};
ghost use Rattle.page_trees.specs.Sets.{is_implied, is_special_element};
ghost use Rattle.page_trees.specs.TableSteps.{is_a_cell};
ghost use Rattle.standard_trees.specs.GrowingTree.{is_among};
ghost use Rattle.standard_trees.specs.NameLists.{special};

use crate::name::Name;
use crate::stack::{ElementNamespace, Open};

/// The scopes of "has an element in scope" (13.2.4.2).
#[derive(Clone, Copy, Drop)]
pub enum Scope {
    Default,
    ListItem,
    Button,
    Table,
}

pub fn is_heading(element: &Open) -> bool
    ensures { result ≡ is_a_heading element.now }
{
    element.ns == ElementNamespace::Html
        && matches!(
            element.name,
            Name::H1 | Name::H2 | Name::H3 | Name::H4 | Name::H5 | Name::H6
        )
}

/// Returns whether the element is a cell of a table.
pub fn is_cell_element(element: &Open) -> bool
    ensures { result ≡ is_a_cell element.now }
{
    element.ns == ElementNamespace::Html && matches!(element.name, Name::Td | Name::Th)
}

pub fn ends_default_scope(element: &Open) -> bool
    ensures { result ≡ ends_scope element.now }
{
    match element.ns {
        ElementNamespace::Html => matches!(
            element.name,
            Name::Applet
                | Name::Caption
                | Name::Html
                | Name::Table
                | Name::Td
                | Name::Th
                | Name::Marquee
                | Name::Object
                | Name::Select
                | Name::Template
        ),
        ElementNamespace::MathMl => matches!(
            element.name,
            Name::Mi | Name::Mo | Name::Mn | Name::Ms | Name::Mtext | Name::AnnotationXml
        ),
        ElementNamespace::Svg => matches!(
            element.name,
            Name::Foreignobject | Name::Desc | Name::Title
        ),
    }
}

/// The contexts to which the stack is cleared in a table: a table, a table section or a row. A
/// template and the element `html` end each of them.
#[derive(Clone, Copy, Drop)]
pub enum TableContext {
    Table,
    Section,
    Row,
}

impl TableContext {
    pub(crate) fn ends_at(self, element: &Open) -> bool
        ensures { result ≡ ends_context self element.now }
    {
        if element.ns != ElementNamespace::Html {
            return false;
        }
        match element.name {
            Name::Html | Name::Template => true,
            Name::Table => matches!(self, TableContext::Table),
            Name::Tbody | Name::Tfoot | Name::Thead => matches!(self, TableContext::Section),
            Name::Tr => matches!(self, TableContext::Row),
            _ => false,
        }
    }
}

pub fn is_special(element: &Open) -> bool
    ensures { result ≡ is_special_element element.now }
{
    match element.ns {
        ElementNamespace::Html => is_special_name(element.name),
        _ => ends_default_scope(element),
    }
}

#[rattlefmt::skip]
fn is_special_name(name: Name) -> bool
    ensures { result ≡ is_among (text_of name) special }
{
    matches!(
        name,
        Name::Address | Name::Applet | Name::Area | Name::Article | Name::Aside | Name::Base
        | Name::Basefont | Name::Bgsound | Name::Blockquote | Name::Body | Name::Br | Name::Button
        | Name::Caption | Name::Center | Name::Col | Name::Colgroup | Name::Dd | Name::Details
        | Name::Dir | Name::Div | Name::Dl | Name::Dt | Name::Embed | Name::Fieldset
        | Name::Figcaption | Name::Figure | Name::Footer | Name::Form | Name::Frame
        | Name::Frameset | Name::H1 | Name::H2 | Name::H3 | Name::H4 | Name::H5 | Name::H6
        | Name::Head | Name::Header | Name::Hgroup | Name::Hr | Name::Html | Name::Iframe
        | Name::Img | Name::Input | Name::Keygen | Name::Li | Name::Link | Name::Listing
        | Name::Main | Name::Marquee | Name::Menu | Name::Meta | Name::Nav | Name::Noembed
        | Name::Noframes | Name::Noscript | Name::Object | Name::Ol | Name::P | Name::Param
        | Name::Plaintext | Name::Pre | Name::Script | Name::Search | Name::Section | Name::Select
        | Name::Source | Name::Style | Name::Summary | Name::Table | Name::Tbody | Name::Td
        | Name::Template | Name::Textarea | Name::Tfoot | Name::Th | Name::Thead | Name::Title
        | Name::Tr | Name::Track | Name::Ul | Name::Wbr | Name::Xmp
    )
}

/// Returns whether the search for an open list item goes on past that special element.
pub fn is_crossed_by_items(element: &Open) -> bool
    ensures { result ≡ is_crossed element.now }
{
    element.ns == ElementNamespace::Html
        && matches!(element.name, Name::Address | Name::Div | Name::P)
}

/// Returns whether the element's end tag can be implied (13.2.6.3).
pub fn has_implied_end(element: &Open) -> bool
    ensures { result ≡ is_implied element.now }
{
    element.ns == ElementNamespace::Html
        && matches!(
            element.name,
            Name::Dd
                | Name::Dt
                | Name::Li
                | Name::Optgroup
                | Name::Option
                | Name::P
                | Name::Rb
                | Name::Rp
                | Name::Rt
                | Name::Rtc
        )
}

/// Returns whether the element is popped when implied end tags are generated, except for elements
/// with that name.
pub fn has_implied_end_but(element: &Open, except: Option<Name>) -> bool
    ensures { result ≡ is_implied_but except element.now }
{
    if !has_implied_end(element) {
        return false;
    }
    match except {
        Some(name) => !element.is_html(name),
        None => true,
    }
}

/// Returns whether a start tag with that name ends foreign content, whatever its attributes are.
#[rattlefmt::skip]
pub fn breaks_out(name: Name) -> bool
    ensures { result ≡ ends_foreign_name name }
{
    match name {
        Name::B | Name::Big | Name::Blockquote | Name::Body | Name::Br | Name::Center | Name::Code
        | Name::Dd | Name::Div | Name::Dl | Name::Dt | Name::Em | Name::Embed => true,
        Name::H1 | Name::H2 | Name::H3 | Name::H4 | Name::H5 | Name::H6 | Name::Head | Name::Hr
        | Name::I | Name::Img | Name::Li | Name::Listing | Name::Menu | Name::Meta => true,
        Name::Nobr | Name::Ol | Name::P | Name::Pre | Name::Ruby | Name::S | Name::Small
        | Name::Span | Name::Strong | Name::Strike | Name::Sub | Name::Sup => true,
        Name::Table | Name::Tt | Name::U | Name::Ul | Name::Var => true,
        _ => false,
    }
}
