//! Groups of elements that the rules for "in body" treat alike.

ghost use Rattle.std.specs.Prelude.{◌≡◌};
ghost use Rattle.page_trees.specs.Groups.{IsGroupOf, closes_p, common_group, group_named, rare_group};
ghost use Rattle.page_trees.specs.Groups.{is_block_name, reconstructs, spoils_frameset};
ghost use Rattle.page_trees.specs.Groups.{is_metadata_name};

use crate::name::Name;

/// A group of elements that the rules for "in body" treat alike.
#[derive(Clone, Copy, Drop)]
pub enum Group {
    Html,
    /// Elements of the head.
    Metadata,
    Template,
    Body,
    Frameset,
    Block,
    P,
    Heading,
    Pre,
    Form,
    Li,
    /// `dd` and `dt`.
    Description,
    Plaintext,
    Button,
    A,
    Formatting,
    Nobr,
    /// Elements for which a marker is added to the list of active formatting elements.
    Object,
    Table,
    Void,
    Image,
    Input,
    Param,
    Hr,
    Textarea,
    Xmp,
    Iframe,
    Noembed,
    Noscript,
    Select,
    Optgroup,
    Option,
    RubyBase,
    RubyText,
    Math,
    Svg,
    /// Elements whose start tags are ignored in the body.
    Stray,
    Ordinary,
}

impl Group {
    /// Returns whether the start tag closes an open `p`.
    pub fn ends_paragraph(self) -> bool
        ensures { result ≡ closes_p self }
    {
        matches!(
            self,
            Group::Block
                | Group::P
                | Group::Heading
                | Group::Pre
                | Group::Plaintext
                | Group::Hr
                | Group::Xmp
        )
    }

    /// Returns whether the start tag sets the frameset-ok flag to "not ok".
    pub fn fills_body(self) -> bool
        ensures { result ≡ spoils_frameset self }
    {
        matches!(
            self,
            Group::Pre
                | Group::Li
                | Group::Description
                | Group::Button
                | Group::Object
                | Group::Table
                | Group::Void
                | Group::Image
                | Group::Hr
                | Group::Textarea
                | Group::Xmp
                | Group::Iframe
        )
    }

    /// Returns whether the active formatting elements are reconstructed before the element is
    /// inserted.
    pub fn continues_formatting(self) -> bool
        ensures { result ≡ reconstructs self }
    {
        matches!(
            self,
            Group::Object | Group::Void | Group::Image | Group::Xmp | Group::Math | Group::Svg
        )
    }
}

/// Returns the group of a name.
pub fn group_of(name: Name) -> Group
    ensures named { result ≡ group_named name }
    ensures follows { IsGroupOf name result }
{
    if is_block(name) {
        return Group::Block;
    }
    match common_group_of(name) {
        Some(group) => group,
        None => rare_group_of(name),
    }
}

#[rattlefmt::skip]
fn is_block(name: Name) -> bool
    ensures { result ≡ is_block_name name }
{
    matches!(
        name,
        Name::Address | Name::Article | Name::Aside | Name::Blockquote | Name::Center
        | Name::Details | Name::Dialog | Name::Dir | Name::Div | Name::Dl | Name::Fieldset
        | Name::Figcaption | Name::Figure | Name::Footer | Name::Header | Name::Hgroup
        | Name::Main | Name::Menu | Name::Nav | Name::Ol | Name::Search | Name::Section
        | Name::Summary | Name::Ul
    )
}

#[rattlefmt::skip]
fn common_group_of(name: Name) -> Option<Group>
    ensures { result ≡ common_group name }
{
    match name {
        Name::Html => Some(Group::Html),
        Name::Base | Name::Basefont | Name::Bgsound | Name::Link | Name::Meta | Name::Noframes
        | Name::Script | Name::Style | Name::Title => Some(Group::Metadata),
        Name::Template => Some(Group::Template),
        Name::Body => Some(Group::Body),
        Name::Frameset => Some(Group::Frameset),
        Name::P => Some(Group::P),
        Name::H1 | Name::H2 | Name::H3 | Name::H4 | Name::H5 | Name::H6 => Some(Group::Heading),
        Name::Pre | Name::Listing => Some(Group::Pre),
        Name::Form => Some(Group::Form),
        Name::Li => Some(Group::Li),
        Name::Dd | Name::Dt => Some(Group::Description),
        Name::Plaintext => Some(Group::Plaintext),
        Name::Button => Some(Group::Button),
        Name::A => Some(Group::A),
        Name::B | Name::Big | Name::Code | Name::Em | Name::Font | Name::I | Name::S | Name::Small
        | Name::Strike | Name::Strong | Name::Tt | Name::U => Some(Group::Formatting),
        _ => None,
    }
}

#[rattlefmt::skip]
fn rare_group_of(name: Name) -> Group
    ensures { result ≡ rare_group name }
{
    match name {
        Name::Nobr => Group::Nobr,
        Name::Applet | Name::Marquee | Name::Object => Group::Object,
        Name::Table => Group::Table,
        Name::Area | Name::Br | Name::Embed | Name::Img | Name::Keygen | Name::Wbr => Group::Void,
        Name::Image => Group::Image,
        Name::Input => Group::Input,
        Name::Param | Name::Source | Name::Track => Group::Param,
        Name::Hr => Group::Hr,
        Name::Textarea => Group::Textarea,
        Name::Xmp => Group::Xmp,
        Name::Iframe => Group::Iframe,
        Name::Noembed => Group::Noembed,
        Name::Noscript => Group::Noscript,
        Name::Select => Group::Select,
        Name::Optgroup => Group::Optgroup,
        Name::Option => Group::Option,
        Name::Rb | Name::Rtc => Group::RubyBase,
        Name::Rp | Name::Rt => Group::RubyText,
        Name::Math => Group::Math,
        Name::Svg => Group::Svg,
        Name::Caption | Name::Col | Name::Colgroup | Name::Frame | Name::Head | Name::Tbody
        | Name::Td | Name::Tfoot | Name::Th | Name::Thead | Name::Tr => Group::Stray,
        _ => Group::Ordinary,
    }
}

/// Returns whether the rules for "in head" process a start tag with this name, wherever it is.
pub fn is_metadata(name: Name) -> bool
    ensures { result ≡ is_metadata_name name }
{
    matches!(group_of(name), Group::Metadata | Group::Template)
}
