//! Tables.

use crate::inlines::Flow;
use crate::tags::{Tag, tag_of};
use crate::writer::{Task, Writer};
use dom_nodes::fault::OutOfMemory;
use dom_nodes::node_id::NodeId;
use dom_trees::node_ref::NodeRef;
use std::alloc::Global;

/// A cell takes no more columns than these.
const MAX_SPAN: usize = 100;

/// A table that is being written.
#[derive(Drop)]
pub(super) struct Table {
    /// The row that is being written.
    row: String,
    /// The line of dashes below the header, as far as the first row has cells.
    rule: String,
    /// How many columns the widest row has.
    width: usize,
    has_header: bool,
    /// How many columns the first row has.
    first: usize,
    /// How many rows were read, and then how many were written.
    rows: usize,
    /// A table is being written, but no cell of it.
    pub(super) is_between_cells: bool,
}

impl Table {
    pub(super) fn new(alloc: Global) -> Table {
        Table {
            row: String::new(alloc),
            rule: String::new(alloc),
            width: 0,
            has_header: false,
            first: 0,
            rows: 0,
            is_between_cells: false,
        }
    }

    /// Reads the rows of a table. Returns whether it is one of data: it has two rows and two
    /// columns at least, and no headings, preformatted texts or tables in its cells.
    fn read(&mut self, table: &NodeRef<'_>) -> Result<bool, OutOfMemory> {
        self.row.clear();
        self.rule.clear();
        self.width = 0;
        self.rows = 0;
        if is_presentation(table) {
            return Ok(false);
        }
        for below in table.descendants_it() {
            match tag_of(&below) {
                Tag::Table | Tag::Heading(_) | Tag::Preformatted => return Ok(false),
                Tag::Row => self.read_row(&below)?,
                _ => {}
            }
        }
        let is_table = self.rows > 1 && self.width > 1;
        self.rows = 0;
        Ok(is_table)
    }

    fn read_row(&mut self, row: &NodeRef<'_>) -> Result<(), OutOfMemory> {
        let mut columns: usize = 0;
        let mut is_header = true;
        for cell in row.children_it(false) {
            if tag_of(&cell) != Tag::Cell {
                continue;
            }
            let span = span_of(&cell);
            columns = columns.saturating_add(span);
            if !cell.has_name("th") {
                is_header = false;
            }
            if self.rows == 0 {
                push_rule(&mut self.rule, rule_of(&cell), span)?;
            }
        }
        if columns == 0 {
            return Ok(());
        }
        if self.rows == 0 {
            self.has_header = is_header;
            if !is_header {
                self.has_header = is_in_head(row);
            }
            self.first = columns;
        }
        self.rows = self.rows.saturating_add(1);
        self.width = self.width.max(columns);
        Ok(())
    }
}

impl<'a> Writer<'a> {
    /// Begins a table. One that only lays out the page is written as the contents of its cells.
    pub(super) fn begin_table(&mut self, id: NodeId) -> Result<(), OutOfMemory> {
        let node = NodeRef::new(id, self.tree);
        if !self.options.tables || !self.table.read(&node)? {
            return self.begin_plain(id);
        }
        self.push(Task::EndTable)?;
        self.push(Task::Rows { id })?;
        for child in node.children_it(false) {
            if tag_of(&child) == Tag::Caption {
                return self.begin_plain(child.id);
            }
        }
        Ok(())
    }

    pub(super) fn begin_rows(&mut self, id: NodeId) -> Result<(), OutOfMemory> {
        self.lines.begin_block()?;
        self.inlines.flow = Flow::Cell;
        self.table.is_between_cells = true;
        self.push_children(id)
    }

    pub(super) fn begin_row(&mut self, id: NodeId) -> Result<(), OutOfMemory> {
        self.table.row.clear();
        self.push(Task::EndRow)?;
        self.push_children(id)
    }

    pub(super) fn begin_cell(&mut self, id: NodeId) -> Result<(), OutOfMemory> {
        self.table.is_between_cells = false;
        let span = span_of(&NodeRef::new(id, self.tree));
        self.push(Task::EndCell { span })?;
        self.push_children(id)
    }

    pub(super) fn end_cell(&mut self, span: usize) -> Result<(), OutOfMemory> {
        self.table.is_between_cells = true;
        self.inlines.finish()?;
        self.table.row.push_str("| ")?;
        self.table.row.push_str(self.inlines.line.as_str())?;
        self.table.row.push(' ')?;
        self.inlines.line.clear();
        for _ in 1..span {
            self.table.row.push_str("| ")?;
        }
        Ok(())
    }

    /// Writes a row. The line of dashes follows the first one, or a row of empty cells before it.
    pub(super) fn end_row(&mut self) -> Result<(), OutOfMemory> {
        if self.table.row.is_empty() {
            return Ok(());
        }
        if self.table.rows == 0 {
            self.write_header()?;
        } else {
            self.table.row.push('|')?;
            self.lines.write_line(self.table.row.as_str())?;
        }
        self.table.rows = self.table.rows.saturating_add(1);
        self.table.row.clear();
        Ok(())
    }

    /// Writes the first row, and the line of dashes.
    fn write_header(&mut self) -> Result<(), OutOfMemory> {
        let width = self.table.width;
        let missing = width.saturating_sub(self.table.first);
        push_cells(&mut self.table.rule, "| --- ", missing)?;
        if self.table.has_header {
            push_cells(&mut self.table.row, "| ", missing)?;
            self.lines.write_line(self.table.row.as_str())?;
            return self.lines.write_line(self.table.rule.as_str());
        }
        let mut blank = String::new(self.alloc);
        push_cells(&mut blank, "|  ", width)?;
        self.lines.write_line(blank.as_str())?;
        self.lines.write_line(self.table.rule.as_str())?;
        self.table.row.push('|')?;
        self.lines.write_line(self.table.row.as_str())
    }

    pub(super) fn end_table(&mut self) -> Result<(), OutOfMemory> {
        self.inlines.flow = Flow::Lines;
        self.table.is_between_cells = false;
        self.lines.end_block();
        self.end_paragraph()
    }
}

/// Appends a cell that many times, and the end of the row.
fn push_cells(row: &mut String, cell: &str, count: usize) -> Result<(), OutOfMemory> {
    for _ in 0..count {
        row.push_str(cell)?;
    }
    Ok(row.push('|')?)
}

/// Appends the dashes of a cell, for each of its columns.
fn push_rule(rule: &mut String, dashes: &str, span: usize) -> Result<(), OutOfMemory> {
    for _ in 0..span {
        rule.push_str(dashes)?;
    }
    Ok(())
}

/// Returns whether the table only lays out the page, by its `role`.
fn is_presentation(table: &NodeRef<'_>) -> bool {
    match table.attr("role") {
        Some(role) => matches!(role, "presentation" | "none"),
        None => false,
    }
}

fn is_in_head(row: &NodeRef<'_>) -> bool {
    match row.parent() {
        Some(parent) => parent.has_name("thead"),
        None => false,
    }
}

/// Returns how many columns a cell takes.
fn span_of(cell: &NodeRef<'_>) -> usize {
    match cell.attr("colspan") {
        Some(value) => span_in(value),
        None => 1,
    }
}

fn span_in(value: &str) -> usize {
    let digits = value.trim_ascii();
    match digits.parse::<usize>() {
        Ok(span) if span >= MAX_SPAN => MAX_SPAN,
        Ok(span) if span > 0 => span,
        _ => 1,
    }
}

/// Returns the dashes below a cell of the first row, by its alignment.
fn rule_of(cell: &NodeRef<'_>) -> &'static str {
    match alignment_of(cell) {
        "left" => "| :-- ",
        "right" => "| --: ",
        "center" => "| :-: ",
        _ => "| --- ",
    }
}

/// Returns the alignment of a cell: that of its attribute `align`, or else of its style.
fn alignment_of<'a>(cell: &NodeRef<'a>) -> &'a str {
    if let Some((_, style)) = cell.attr_or("style", "").split_once("text-align:") {
        let value = match style.split_once(';') {
            Some((value, _)) => value,
            None => style,
        };
        return value.trim_ascii();
    }
    cell.attr_or("align", "")
}
