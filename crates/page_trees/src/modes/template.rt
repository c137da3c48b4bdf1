//! The insertion mode of templates.

ghost use Rattle.std.specs.Prelude.{◌≡◌, true};
ghost use Rattle.standard_trees.specs.RuleWords.{InTemplate};
ghost use Rattle.page_trees.specs.Constructs.{ProcessesTag, RemembersLimits};
ghost use Rattle.page_trees.specs.HeadSteps.{content_mode};
ghost use Rattle.page_trees.specs.Modes.{is_start_kind};

use super::groups::is_metadata;
use super::is_start;
use crate::builder::{Mode, Next, TreeBuilder};
use crate::name::Name;
use page_tokens::token::Tag;

/// Returns the mode for the content of a template that begins with a start tag with that name.
fn content_mode(name: Name) -> Mode
    ensures { result ≡ content_mode name }
{
    match name {
        Name::Caption | Name::Colgroup | Name::Tbody | Name::Tfoot | Name::Thead => Mode::InTable,
        Name::Col => Mode::InColumnGroup,
        Name::Tr => Mode::InTableBody,
        Name::Td | Name::Th => Mode::InRow,
        _ => Mode::InBody,
    }
}

impl TreeBuilder {
    pub fn template_tag(&mut self, name: Name, tag: &Tag) -> Next
        ensures limits { RemembersLimits self.old self.new }
        ensures rule { ProcessesTag InTemplate name tag.now self.old self.new result }
    {
        if is_start(tag) {
            return self.start_in_template(name, tag);
        }
        if name == Name::Template {
            return self.end_template();
        }
        Next::Done
    }

    fn start_in_template(&mut self, name: Name, tag: &Tag) -> Next
        ensures limits { RemembersLimits self.old self.new }
        ensures rule { is_start_kind tag.now.kind ≡ true →
            ProcessesTag InTemplate name tag.now self.old self.new result }
    {
        if is_metadata(name) {
            return self.head_element(name, tag);
        }
        let mode = content_mode(name);
        self.pop_template_mode();
        self.push_template_mode(mode);
        self.again_in(mode)
    }
}
