//! Resetting the insertion mode appropriately (13.2.4.1).

ghost use Rattle.std.specs.Prelude.{◌≡◌, [], ◌∷◌, None, Some, if◌then◌else◌};
ghost use Rattle.std.specs.Option.{option_and_then, option_map};
ghost use Rattle.standard_trees.specs.Building.{Building, reset_from};
ghost use Rattle.standard_trees.specs.RuleWords.{ResetMode};
ghost use Rattle.page_trees.specs.Constructs.{Constructs, Performs, RemembersLimits};
ghost use Rattle.page_trees.specs.Resetting.{last_mode, setting_at};
ghost use Rattle.page_trees.specs.TreeState.{adjusted_at};
ghost use Rattle.page_trees.specs.Modes.{mode_of, reset_for, reset_named};
ghost use Rattle.page_trees.specs.Names.{text_of};
ghost use Rattle.page_trees.specs.declared.builder.Mode.TheVariants.{AfterHead, BeforeHead};

use crate::builder::{Mode, TreeBuilder};
use crate::name::Name;
use crate::stack::{ElementNamespace, Open};

/// The elements that determine a mode. The outermost open element always determines one.
const ASKING: [Name; 14] = [
    Name::Td,
    Name::Th,
    Name::Tr,
    Name::Tbody,
    Name::Thead,
    Name::Tfoot,
    Name::Caption,
    Name::Colgroup,
    Name::Table,
    Name::Template,
    Name::Head,
    Name::Body,
    Name::Frameset,
    Name::Html,
];

impl TreeBuilder {
    /// Sets the insertion mode that the stack of open elements determines.
    pub fn reset_mode(&mut self)
        ensures limits { RemembersLimits self.old self.new }
        ensures rule { Performs (ResetMode ∷ []) self.old self.new }
    {
        self.mode = self.mode_of_stack();
    }

    fn mode_of_stack(&self) -> Mode
        ensures { (b : Building) → Constructs self.now b →
            mode_of result ≡ reset_from b.tree b.template_modes b.tree.stack }
    {
        if self.tree.open().len() == 0 {
            return Mode::InBody;
        }
        let place = self.tree.open().topmost(&ASKING).unwrap_or(0);
        self.mode_at(place).unwrap_or(Mode::InBody)
    }

    /// Returns the mode that the element at an index of the stack determines, if any.
    fn mode_at(&self, place: usize) -> Option<Mode>
        ensures { let setting = setting_at self.now place in option_map mode_of result ≡
            option_and_then (reset_for setting) (adjusted_at self.now.tree place) }
    {
        let element = self.tree.adjusted_current_node(place)?;
        let setting = Setting {
            is_last: place == 0,
            has_head: self.tree.has_head(),
            template_mode: self.template_mode(),
        };
        setting.mode_for(&element)
    }

    /// Returns the current template insertion mode.
    fn template_mode(&self) -> Mode
        ensures { result ≡ last_mode self.now.template_modes.items }
    {
        match self.template_modes.last().copied() {
            Some(mode) => mode,
            None => Mode::InBody,
        }
    }
}

/// What the mode depends on, besides the element that determines it.
#[derive(Clone, Copy, Drop)]
struct Setting {
    /// Whether the element is the outermost one, or the context element of a fragment.
    is_last: bool,
    /// Whether the head element pointer is set.
    has_head: bool,
    /// The current template insertion mode.
    template_mode: Mode,
}

impl Setting {
    /// Returns the mode that an element determines, if any (steps 4 to 15).
    fn mode_for(self, element: &Open) -> Option<Mode>
        ensures { option_map mode_of result ≡ reset_for self element.now }
    {
        let mode = match element.ns {
            ElementNamespace::Html => self.mode_named(element.name),
            _ => None,
        };
        if self.is_last {
            return Some(mode.unwrap_or(Mode::InBody));
        }
        mode
    }

    /// Returns the mode that an HTML element with that name determines, if any.
    fn mode_named(self, name: Name) -> Option<Mode>
        ensures { option_map mode_of result ≡ reset_named self (text_of name) }
    {
        match name {
            Name::Td | Name::Th => self.unless_last(Mode::InCell),
            Name::Tr => Some(Mode::InRow),
            Name::Tbody | Name::Thead | Name::Tfoot => Some(Mode::InTableBody),
            Name::Caption => Some(Mode::InCaption),
            Name::Colgroup => Some(Mode::InColumnGroup),
            Name::Table => Some(Mode::InTable),
            Name::Template => Some(self.template_mode),
            Name::Head => self.unless_last(Mode::InHead),
            Name::Body => Some(Mode::InBody),
            Name::Frameset => Some(Mode::InFrameset),
            Name::Html => Some(self.html_mode()),
            _ => None,
        }
    }

    /// Returns the mode for the element `html`.
    fn html_mode(self) -> Mode
        ensures { result ≡ (if self.has_head then AfterHead else BeforeHead) }
    {
        if self.has_head {
            Mode::AfterHead
        } else {
            Mode::BeforeHead
        }
    }

    /// Returns a mode that the outermost element doesn't determine.
    fn unless_last(self, mode: Mode) -> Option<Mode>
        ensures { result ≡ (if self.is_last then None else Some mode) }
    {
        if self.is_last { None } else { Some(mode) }
    }
}
