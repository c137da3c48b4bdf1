//! The insertion modes of tables.

ghost use Rattle.std.specs.Prelude.{◌≡◌, [], ◌∷◌, codes, false, true};
ghost use Rattle.standard_trees.specs.RuleWords.{ClearListToMarker, InsertElement, InsertNamed};
ghost use Rattle.standard_trees.specs.RuleWords.{ListMarker, Pop, PopUntil, SetFormPointer};
ghost use Rattle.standard_trees.specs.RuleWords.{SwitchTo, These};
ghost use Rattle.standard_trees.specs.RuleWords.{InCaption, InCell, InColumnGroup, InRow, InTable};
ghost use Rattle.standard_trees.specs.RuleWords.{InTableBody};
ghost use Rattle.page_tokens.specs.declared.token.Tag.{Tag as TheTag};
ghost use Rattle.page_trees.specs.Constructs.{Performs, PerformsFor, ProcessesTag};
ghost use Rattle.page_trees.specs.Constructs.{RemembersLimits, is_entered_plainly};
ghost use Rattle.page_trees.specs.FosteredTags.{FostersTag, is_image_start, names_image};
ghost use Rattle.page_trees.specs.Groups.{is_cell_name, is_dropped_end_name, is_part_name};
ghost use Rattle.page_trees.specs.Groups.{is_section_name};
ghost use Rattle.page_trees.specs.LateMerges.{ProcessesTagInHtml};
ghost use Rattle.page_trees.specs.Modes.{is_start_kind, mode_of};
ghost use Rattle.page_trees.specs.Names.{text_of};
ghost use Rattle.page_trees.specs.Scopes.{is_name};
ghost use Rattle.page_trees.specs.Stands.{Tells};
ghost use Rattle.page_trees.specs.TableSteps.{cell_names, clearing_to, closing_caption};
ghost use Rattle.page_trees.specs.TableSteps.{closing_cell, closing_group, closing_row};
ghost use Rattle.page_trees.specs.TableSteps.{closing_section, closing_table, covers_other};
ghost use Rattle.page_trees.specs.TableSteps.{if_found, is_again, is_hidden_content_name};
ghost use Rattle.page_trees.specs.TableSteps.{covers_input};
ghost use Rattle.page_trees.specs.TableSteps.{ends_cell_name, is_ignored_end_name};
ghost use Rattle.page_trees.specs.TableSteps.{is_in_group, is_in_table};
ghost use Rattle.page_trees.specs.TableSteps.{covers_caption, covers_cell, covers_group};
ghost use Rattle.page_trees.specs.TableSteps.{covers_row, covers_table, covers_table_body};
ghost use Rattle.page_trees.specs.TableSteps.{ProcessesTagWhere, section_names};
ghost use Rattle.page_trees.specs.declared.builder.Next.TheVariants.{Again, Done as IsDone};
ghost use Rattle.page_trees.specs.declared.name.Name.TheVariants.{Form as FormName, Input as TheInput};
ghost use Rattle.page_trees.specs.declared.name.Name.TheVariants.{Other};
ghost use Rattle.page_trees.specs.declared.sets.TableContext.TheVariants.{Row, Section};

use super::{is_start, next_if};
use crate::attributes::is_hidden;
use crate::builder::{Mode, Next, TreeBuilder};
use crate::name::Name;
use crate::sets::{Scope, TableContext};
use page_tokens::token::Tag;

/// Returns whether the name is of an element between a table and its cells, or of a cell.
#[rattlefmt::skip]
fn is_table_part(name: Name) -> bool
    ensures { result ≡ is_part_name name }
{
    matches!(
        name,
        Name::Caption | Name::Col | Name::Colgroup | Name::Tbody | Name::Td | Name::Tfoot
        | Name::Th | Name::Thead | Name::Tr
    )
}

fn is_section(name: Name) -> bool
    ensures { result ≡ is_section_name name }
{
    matches!(name, Name::Tbody | Name::Tfoot | Name::Thead)
}

fn is_cell(name: Name) -> bool
    ensures { result ≡ is_cell_name name }
{
    matches!(name, Name::Td | Name::Th)
}

/// Returns whether an end tag with that name is ignored in a table.
fn is_dropped_end(name: Name) -> bool
    ensures { result ≡ is_dropped_end_name name }
{
    matches!(
        name,
        Name::Body | Name::Caption | Name::Col | Name::Colgroup | Name::Html
    )
}

/// Returns whether the name is of an element that may be in a table and isn't shown.
fn is_hidden_content(name: Name) -> bool
    ensures { result ≡ is_hidden_content_name name }
{
    matches!(name, Name::Style | Name::Script | Name::Template)
}

/// Returns whether a cell is closed at an end tag with that name, which is reprocessed then.
fn ends_cell(name: Name) -> bool
    ensures { result ≡ ends_cell_name name }
{
    matches!(
        name,
        Name::Table | Name::Tbody | Name::Tfoot | Name::Thead | Name::Tr
    )
}

/// Returns whether an end tag with that name is ignored where it closes no open element.
fn is_ignored_end(name: Name) -> bool
    ensures { result ≡ is_ignored_end_name name }
{
    if is_dropped_end(name) {
        return true;
    }
    is_table_part(name)
}

/// Returns whether that is the name of an `image`.
fn names_image(name: Name) -> bool
    ensures { result ≡ names_image name }
{
    matches!(name, Name::Image)
}

/// Returns whether the tag is the start tag of an `image`.
fn is_image(name: Name, tag: &Tag) -> bool
    ensures { result ≡ is_image_start name tag.now.kind }
{
    if !names_image(name) {
        return false;
    }
    is_start(tag)
}

impl TreeBuilder {
    /// Clears the stack back to a context: pops elements up to one of it, which stays.
    fn clear_stack_to(&mut self, context: TableContext)
        ensures limits { RemembersLimits self.old self.new }
        ensures rule { Performs (clearing_to context ∷ []) self.old self.new }
    {
        self.tree.clear_to(context);
    }

    /// Returns whether an element with that name is in table scope.
    fn has_in_table(&self, name: Name) -> bool
        ensures { is_name name Other ≡ false →
            Tells (is_in_table (text_of name ∷ [])) self.now.tree result }
    {
        self.tree.open().in_scope(name, Scope::Table)
    }

    /// If an element with that name is in table scope, pops elements until one with that name has
    /// been popped. Returns whether there was one.
    fn close_in_table(&mut self, name: Name) -> bool
        ensures limits { RemembersLimits self.old self.new }
        ensures found { is_name name Other ≡ false →
            Tells (is_in_table (text_of name ∷ [])) self.old.tree result }
        ensures rule { let pop = PopUntil (These (text_of name ∷ [])) in
            is_name name Other ≡ false → Performs (if_found result (pop ∷ [])) self.old self.new }
    {
        self.tree.close(name, Scope::Table)
    }

    /// Clears the list of active formatting elements up to the last marker, and switches to that
    /// mode.
    fn leave_marker(&mut self, mode: Mode)
        ensures limits { RemembersLimits self.old self.new }
        ensures rule { is_entered_plainly mode ≡ true →
            Performs (ClearListToMarker ∷ SwitchTo (mode_of mode) ∷ []) self.old self.new }
    {
        self.tree.clear_to_marker();
        self.mode = mode;
    }

    /// Processes a tag by the rules for "in table".
    pub fn table_tag(&mut self, name: Name, tag: &Tag) -> Next
        ensures rule { ProcessesTagWhere (covers_table (is_start_kind tag.now.kind)) InTable
            name tag.now self.old self.new result }
    {
        if is_start(tag) {
            return self.start_in_table(name, tag);
        }
        self.end_in_table(name, tag)
    }

    fn start_in_table(&mut self, name: Name, tag: &Tag) -> Next
        ensures rule { is_start_kind tag.now.kind ≡ true → ProcessesTagWhere
            (covers_table true) InTable name tag.now self.old self.new result }
    {
        if is_table_part(name) {
            return self.start_table_part(name, tag);
        }
        if name == Name::Form {
            return self.start_table_form(tag);
        }
        self.start_other_in_table(name, tag)
    }

    fn end_in_table(&mut self, name: Name, tag: &Tag) -> Next
        ensures rule { is_start_kind tag.now.kind ≡ false → ProcessesTagWhere
            (covers_table false) InTable name tag.now self.old self.new result }
    {
        if is_ignored_end(name) {
            return Next::Done;
        }
        if name == Name::Table {
            self.end_table();
            return Next::Done;
        }
        if name == Name::Template {
            return self.end_template();
        }
        self.fostered_tag(name, tag)
    }

    /// Closes the open table, and returns whether there was one.
    fn end_table(&mut self) -> bool
        ensures limits { RemembersLimits self.old self.new }
        ensures found { Tells (is_in_table (codes "table" ∷ [])) self.old.tree result }
        ensures rule { Performs (if_found result closing_table) self.old self.new }
    {
        if self.close_in_table(Name::Table) {
            self.reset_mode();
            return true;
        }
        false
    }

    /// Processes a tag that can't be in a table by the rules for "in body", with foster parenting.
    fn fostered_tag(&mut self, name: Name, tag: &Tag) -> Next
        ensures rule { FostersTag name tag.now self.old self.new result }
    {
        if is_image(name, tag) {
            return self.fostered_image(tag);
        }
        self.placing.foster = true;
        let next = self.body_tag(name, tag);
        self.placing.foster = false;
        next
    }

    /// Processes start tags of elements that are no part of a table.
    fn start_other_in_table(&mut self, name: Name, tag: &Tag) -> Next
        ensures rule { is_start_kind tag.now.kind ≡ true → ProcessesTagWhere
            covers_other InTable name tag.now self.old self.new result }
    {
        if name == Name::Table {
            return next_if(self.end_table());
        }
        if is_hidden_content(name) {
            return self.head_element(name, tag);
        }
        if name == Name::Input {
            return self.start_table_input(name, tag);
        }
        self.fostered_tag(name, tag)
    }

    fn start_table_part(&mut self, name: Name, tag: &Tag) -> Next
        ensures limits { RemembersLimits self.old self.new }
        ensures rule { is_part_name name ≡ true → is_start_kind tag.now.kind ≡ true →
            ProcessesTag InTable name tag.now self.old self.new result }
    {
        self.clear_stack_to(TableContext::Table);
        if name == Name::Caption {
            return self.start_caption(name, tag);
        }
        if name == Name::Colgroup {
            return self.insert_then(name, tag, Mode::InColumnGroup);
        }
        if name == Name::Col {
            return self.imply(Name::Colgroup, "colgroup", Mode::InColumnGroup);
        }
        if is_section(name) {
            return self.insert_then(name, tag, Mode::InTableBody);
        }
        self.imply(Name::Tbody, "tbody", Mode::InTableBody)
    }

    fn start_caption(&mut self, name: Name, tag: &Tag) -> Next
        ensures next { result ≡ IsDone }
        ensures limits { RemembersLimits self.old self.new }
        ensures rule { let insert = InsertElement ∷ SwitchTo InCaption ∷ [] in
            PerformsFor name tag.now (ListMarker ∷ insert) self.old self.new }
    {
        self.push_marker();
        self.insert_then(name, tag, Mode::InCaption)
    }

    fn start_table_input(&mut self, name: Name, tag: &Tag) -> Next
        ensures rule { name ≡ TheInput → is_start_kind tag.now.kind ≡ true → ProcessesTagWhere
            covers_input InTable name tag.now self.old self.new result }
    {
        if is_hidden(tag) {
            return self.insert_void(name, tag);
        }
        self.fostered_tag(name, tag)
    }

    fn start_table_form(&mut self, tag: &Tag) -> Next
        ensures next { result ≡ IsDone }
        ensures limits { RemembersLimits self.old self.new }
        ensures rule { is_start_kind tag.now.kind ≡ true →
            ProcessesTag InTable FormName tag.now self.old self.new result }
    {
        if self.tree.ignores_form() {
            return Next::Done;
        }
        self.insert_table_form(tag)
    }

    /// Inserts a form in a table, which is closed at once.
    fn insert_table_form(&mut self, tag: &Tag) -> Next
        ensures next { result ≡ IsDone }
        ensures limits { RemembersLimits self.old self.new }
        ensures rule { let rest = SetFormPointer ∷ Pop ∷ [] in
            PerformsFor FormName tag.now (InsertElement ∷ rest) self.old self.new }
    {
        self.insert(Name::Form, tag);
        self.tree.set_form();
        self.tree.pop();
        Next::Done
    }

    /// Closes the open caption, and returns whether there was one.
    fn end_caption(&mut self) -> bool
        ensures limits { RemembersLimits self.old self.new }
        ensures found { Tells (is_in_table (codes "caption" ∷ [])) self.old.tree result }
        ensures rule { Performs (if_found result closing_caption) self.old self.new }
    {
        if self.close_in_table(Name::Caption) {
            self.leave_marker(Mode::InTable);
            return true;
        }
        false
    }

    pub fn caption_tag(&mut self, name: Name, tag: &Tag) -> Next
        ensures rule { ProcessesTagWhere (covers_caption (is_start_kind tag.now.kind)) InCaption
            name tag.now self.old self.new result }
    {
        if is_start(tag) {
            return self.start_in_caption(name, tag);
        }
        self.end_in_caption(name, tag)
    }

    fn start_in_caption(&mut self, name: Name, tag: &Tag) -> Next
        ensures rule { is_start_kind tag.now.kind ≡ true → ProcessesTagWhere
            (covers_caption true) InCaption name tag.now self.old self.new result }
    {
        if is_table_part(name) {
            return next_if(self.end_caption());
        }
        self.body_tag(name, tag)
    }

    fn end_in_caption(&mut self, name: Name, tag: &Tag) -> Next
        ensures rule { is_start_kind tag.now.kind ≡ false → ProcessesTagWhere
            (covers_caption false) InCaption name tag.now self.old self.new result }
    {
        if name == Name::Table {
            return next_if(self.end_caption());
        }
        if name == Name::Caption {
            self.end_caption();
            return Next::Done;
        }
        if is_ignored_end(name) {
            return Next::Done;
        }
        self.body_tag(name, tag)
    }

    /// Closes the column group if it is the current node, and reprocesses the token.
    pub fn leave_column_group(&mut self) -> Next
        ensures limits { RemembersLimits self.old self.new }
        ensures found { Tells is_in_group self.old.tree (is_again result) }
        ensures rule { Performs (if_found (is_again result) closing_group) self.old self.new }
    {
        if self.tree.open().current_is(Name::Colgroup) {
            return self.leave_for(Mode::InTable);
        }
        Next::Done
    }

    pub fn column_group_tag(&mut self, name: Name, tag: &Tag) -> Next
        ensures rule { covers_group name ≡ true →
            ProcessesTagInHtml InColumnGroup name tag.now self.old self.new result }
    {
        if is_start(tag) {
            return self.start_in_group(name, tag);
        }
        self.end_in_group(name)
    }

    fn start_in_group(&mut self, name: Name, tag: &Tag) -> Next
        ensures rule { is_start_kind tag.now.kind ≡ true →
            ProcessesTagInHtml InColumnGroup name tag.now self.old self.new result }
    {
        if name == Name::Html {
            return self.add_html_attrs(tag);
        }
        if name == Name::Col {
            return self.insert_void(name, tag);
        }
        if name == Name::Template {
            return self.head_element(name, tag);
        }
        self.leave_column_group()
    }

    fn end_in_group(&mut self, name: Name) -> Next
        ensures rule { (tag : TheTag) → is_start_kind tag.kind ≡ false →
            ProcessesTagInHtml InColumnGroup name tag self.old self.new result }
    {
        if name == Name::Colgroup {
            self.leave_column_group();
            return Next::Done;
        }
        if name == Name::Col {
            return Next::Done;
        }
        if name == Name::Template {
            return self.end_template();
        }
        self.leave_column_group()
    }

    fn has_section(&self) -> bool
        ensures { Tells (is_in_table section_names) self.now.tree result }
    {
        if self.has_in_table(Name::Tbody) {
            return true;
        }
        if self.has_in_table(Name::Thead) {
            return true;
        }
        self.has_in_table(Name::Tfoot)
    }

    fn end_section(&mut self) -> Next
        ensures next { result ≡ IsDone }
        ensures limits { RemembersLimits self.old self.new }
        ensures rule { Performs closing_section self.old self.new }
    {
        self.clear_stack_to(TableContext::Section);
        self.end_in_mode(Mode::InTable)
    }

    /// Closes the `tbody`, `thead` or `tfoot` in scope, if there is one, and reprocesses the token.
    fn leave_section(&mut self) -> Next
        ensures limits { RemembersLimits self.old self.new }
        ensures found { Tells (is_in_table section_names) self.old.tree (is_again result) }
        ensures rule { Performs (if_found (is_again result) closing_section) self.old self.new }
    {
        if self.has_section() {
            self.end_section();
            return Next::Again;
        }
        Next::Done
    }

    pub fn table_body_tag(&mut self, name: Name, tag: &Tag) -> Next
        ensures rule { ProcessesTagWhere (covers_table_body (is_start_kind tag.now.kind))
            InTableBody name tag.now self.old self.new result }
    {
        if is_start(tag) {
            return self.start_in_table_body(name, tag);
        }
        self.end_in_table_body(name, tag)
    }

    fn start_in_table_body(&mut self, name: Name, tag: &Tag) -> Next
        ensures rule { is_start_kind tag.now.kind ≡ true → ProcessesTagWhere
            (covers_table_body true) InTableBody name tag.now self.old self.new result }
    {
        if name == Name::Tr {
            return self.start_row(name, tag);
        }
        if is_cell(name) {
            return self.imply_row();
        }
        if is_table_part(name) {
            return self.leave_section();
        }
        self.table_tag(name, tag)
    }

    fn end_in_table_body(&mut self, name: Name, tag: &Tag) -> Next
        ensures rule { is_start_kind tag.now.kind ≡ false → ProcessesTagWhere
            (covers_table_body false) InTableBody name tag.now self.old self.new result }
    {
        if is_section(name) {
            return self.close_section(name);
        }
        if name == Name::Table {
            return self.leave_section();
        }
        if is_ignored_end(name) {
            return Next::Done;
        }
        self.table_tag(name, tag)
    }

    /// Closes the section with that name, if it is in scope.
    fn close_section(&mut self, name: Name) -> Next
        ensures next { result ≡ IsDone }
        ensures limits { RemembersLimits self.old self.new }
        ensures rule { (tag : TheTag) → is_section_name name ≡ true →
            is_start_kind tag.kind ≡ false →
            ProcessesTag InTableBody name tag self.old self.new result }
    {
        if self.has_in_table(name) {
            return self.end_section();
        }
        Next::Done
    }

    fn start_row(&mut self, name: Name, tag: &Tag) -> Next
        ensures next { result ≡ IsDone }
        ensures limits { RemembersLimits self.old self.new }
        ensures rule { let insert = InsertElement ∷ SwitchTo InRow ∷ [] in
            PerformsFor name tag.now (clearing_to Section ∷ insert) self.old self.new }
    {
        self.clear_stack_to(TableContext::Section);
        self.insert_then(name, tag, Mode::InRow)
    }

    fn imply_row(&mut self) -> Next
        ensures next { result ≡ Again }
        ensures limits { RemembersLimits self.old self.new }
        ensures rule { let insert = InsertNamed (codes "tr") ∷ SwitchTo InRow ∷ [] in
            Performs (clearing_to Section ∷ insert) self.old self.new }
    {
        self.clear_stack_to(TableContext::Section);
        self.imply(Name::Tr, "tr", Mode::InRow)
    }

    /// Closes the row in scope, if there is one, and reprocesses the token.
    fn leave_row(&mut self) -> Next
        ensures limits { RemembersLimits self.old self.new }
        ensures found { Tells (is_in_table (codes "tr" ∷ [])) self.old.tree (is_again result) }
        ensures rule { Performs (if_found (is_again result) closing_row) self.old self.new }
    {
        if self.has_in_table(Name::Tr) {
            return self.end_row();
        }
        Next::Done
    }

    fn end_row(&mut self) -> Next
        ensures next { result ≡ Again }
        ensures limits { RemembersLimits self.old self.new }
        ensures rule { Performs closing_row self.old self.new }
    {
        self.clear_stack_to(TableContext::Row);
        self.leave_for(Mode::InTableBody)
    }

    pub fn row_tag(&mut self, name: Name, tag: &Tag) -> Next
        ensures rule { ProcessesTagWhere (covers_row (is_start_kind tag.now.kind)) InRow
            name tag.now self.old self.new result }
    {
        if is_start(tag) {
            return self.start_in_row(name, tag);
        }
        self.end_in_row(name, tag)
    }

    fn start_in_row(&mut self, name: Name, tag: &Tag) -> Next
        ensures rule { is_start_kind tag.now.kind ≡ true → ProcessesTagWhere
            (covers_row true) InRow name tag.now self.old self.new result }
    {
        if is_cell(name) {
            return self.start_cell(name, tag);
        }
        if is_table_part(name) {
            return self.leave_row();
        }
        self.table_tag(name, tag)
    }

    fn end_in_row(&mut self, name: Name, tag: &Tag) -> Next
        ensures rule { is_start_kind tag.now.kind ≡ false → ProcessesTagWhere
            (covers_row false) InRow name tag.now self.old self.new result }
    {
        if name == Name::Tr {
            self.leave_row();
            return Next::Done;
        }
        if name == Name::Table {
            return self.leave_row();
        }
        if is_section(name) {
            return self.leave_row_in(name);
        }
        if is_ignored_end(name) {
            return Next::Done;
        }
        self.table_tag(name, tag)
    }

    /// Closes the row in scope, and reprocesses the token, if a section with that name is in scope.
    fn leave_row_in(&mut self, name: Name) -> Next
        ensures limits { RemembersLimits self.old self.new }
        ensures rule { (tag : TheTag) → is_section_name name ≡ true →
            is_start_kind tag.kind ≡ false →
            ProcessesTag InRow name tag self.old self.new result }
    {
        if self.has_in_table(name) {
            return self.leave_row();
        }
        Next::Done
    }

    fn start_cell(&mut self, name: Name, tag: &Tag) -> Next
        ensures next { result ≡ IsDone }
        ensures limits { RemembersLimits self.old self.new }
        ensures rule { let insert = InsertElement ∷ SwitchTo InCell ∷ ListMarker ∷ [] in
            PerformsFor name tag.now (clearing_to Row ∷ insert) self.old self.new }
    {
        self.clear_stack_to(TableContext::Row);
        self.insert_then(name, tag, Mode::InCell);
        self.push_marker();
        Next::Done
    }

    /// Closes the cell with that name, and returns whether there was one in scope.
    fn end_cell(&mut self, name: Name) -> bool
        ensures limits { RemembersLimits self.old self.new }
        ensures found { is_name name Other ≡ false →
            Tells (is_in_table (text_of name ∷ [])) self.old.tree result }
        ensures rule { let cell = text_of name ∷ [] in is_cell_name name ≡ true →
            Performs (if_found result (closing_cell cell)) self.old self.new }
    {
        if self.close_in_table(name) {
            self.leave_marker(Mode::InRow);
            return true;
        }
        false
    }

    fn has_cell(&self) -> bool
        ensures { Tells (is_in_table cell_names) self.now.tree result }
    {
        if self.has_in_table(Name::Td) {
            return true;
        }
        self.has_in_table(Name::Th)
    }

    /// Closes the innermost open cell, and reprocesses the token.
    fn close_cell(&mut self) -> Next
        ensures next { result ≡ Again }
        ensures limits { RemembersLimits self.old self.new }
        ensures rule { Performs (closing_cell cell_names) self.old self.new }
    {
        self.tree.pop_to_cell();
        self.leave_marker(Mode::InRow);
        Next::Again
    }

    /// Closes the open cell, if there is one, and reprocesses the token.
    fn leave_cell(&mut self) -> Next
        ensures limits { RemembersLimits self.old self.new }
        ensures found { Tells (is_in_table cell_names) self.old.tree (is_again result) }
        ensures rule { let cell = closing_cell cell_names in
            Performs (if_found (is_again result) cell) self.old self.new }
    {
        if self.has_cell() {
            return self.close_cell();
        }
        Next::Done
    }

    pub fn cell_tag(&mut self, name: Name, tag: &Tag) -> Next
        ensures rule { ProcessesTagWhere (covers_cell (is_start_kind tag.now.kind)) InCell
            name tag.now self.old self.new result }
    {
        if is_start(tag) {
            return self.start_in_cell(name, tag);
        }
        self.end_in_cell(name, tag)
    }

    fn start_in_cell(&mut self, name: Name, tag: &Tag) -> Next
        ensures rule { is_start_kind tag.now.kind ≡ true → ProcessesTagWhere
            (covers_cell true) InCell name tag.now self.old self.new result }
    {
        if is_table_part(name) {
            return self.leave_cell();
        }
        self.body_tag(name, tag)
    }

    fn end_in_cell(&mut self, name: Name, tag: &Tag) -> Next
        ensures rule { is_start_kind tag.now.kind ≡ false → ProcessesTagWhere
            (covers_cell false) InCell name tag.now self.old self.new result }
    {
        if is_cell(name) {
            self.end_cell(name);
            return Next::Done;
        }
        if is_dropped_end(name) {
            return Next::Done;
        }
        if ends_cell(name) {
            return self.leave_cell_in(name);
        }
        self.body_tag(name, tag)
    }

    /// Closes the open cell and reprocesses the token, if an element with that name is in scope.
    fn leave_cell_in(&mut self, name: Name) -> Next
        ensures limits { RemembersLimits self.old self.new }
        ensures found { is_name name Other ≡ false →
            Tells (is_in_table (text_of name ∷ [])) self.old.tree (is_again result) }
        ensures rule { let cell = closing_cell cell_names in is_name name Other ≡ false →
            Performs (if_found (is_again result) cell) self.old self.new }
    {
        if self.has_in_table(name) {
            return self.close_cell();
        }
        Next::Done
    }
}
