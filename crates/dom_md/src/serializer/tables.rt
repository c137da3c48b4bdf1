//! Tables.

use crate::cells::escape_table_cell_inplace;
use crate::context::FormatOpts;
use crate::serializer::Writer;
use crate::serializer::tasks::Task;
use crate::serializer::texts::{cut_at, trim_end_spaces};
use dom_nodes::fault::OutOfMemory;
use dom_nodes::node_id::NodeId;
use dom_trees::node_ref::NodeRef;
use std::alloc::Global;

/// A table that is being written.
#[derive(Drop)]
pub(super) struct Table {
    /// Its cells that remain to be written; the last one is the next.
    cells: Vec<NodeId>,
    /// The finished texts of its cells, in document order.
    texts: Vec<String>,
    /// The number of cells in each row that has cells.
    rows: Vec<usize>,
    /// Whether the first row is the heading.
    has_heading: bool,
}

impl Table {
    pub(super) fn new(alloc: Global) -> Table {
        Table {
            cells: Vec::new(alloc),
            texts: Vec::new(alloc),
            rows: Vec::new(alloc),
            has_heading: false,
        }
    }

    /// Reads the rows and cells of a table. Returns whether it can be written as a Markdown table:
    /// it has cells, no table is below it, and all its rows except the heading have the same number
    /// of cells. Rows without cells may only precede those of the body.
    fn read(&mut self, table: &NodeRef<'_>) -> Result<bool, OutOfMemory> {
        self.texts.clear();
        self.cells.clear();
        self.rows.clear();
        self.has_heading = false;
        let mut width = 0;
        for row in table.descendants_it() {
            if row.has_name("table") {
                return Ok(false);
            }
            if row.has_name("tr") && !self.read_row(&row, &mut width)? {
                return Ok(false);
            }
        }
        self.cells.as_mut_slice().reverse();
        Ok(self.has_heading || width > 0)
    }

    /// Reads a row. Returns whether it has the same number of cells as the rows before it; the
    /// heading may have any number.
    fn read_row(&mut self, row: &NodeRef<'_>, width: &mut usize) -> Result<bool, OutOfMemory> {
        let before = self.cells.len();
        let mut all_headings = true;
        for cell in row.children_it(false) {
            if cell.has_name("th") || cell.has_name("td") {
                all_headings = all_headings && cell.has_name("th");
                self.cells.push(cell.id)?;
            }
        }
        let count = self.cells.len().saturating_sub(before);
        if count == 0 {
            return Ok(*width == 0);
        }
        let is_heading = self.rows.is_empty() && all_headings;
        self.rows.push(count)?;
        if is_heading {
            self.has_heading = true;
            return Ok(true);
        }
        if *width == 0 {
            *width = count;
        }
        Ok(*width == count)
    }
}

impl<'a> Writer<'a> {
    /// Begins a table. If it cannot be written as a Markdown table, its contents are written
    /// without it.
    pub(super) fn begin_table(&mut self, id: NodeId) -> Result<(), OutOfMemory> {
        let node = NodeRef::new(id, self.tree);
        if !self.table.read(&node)? {
            return self.push_below(id, FormatOpts::new());
        }
        self.push(Task::NextCell)
    }

    /// Begins the next cell or, after the last one, appends the table.
    pub(super) fn next_cell(&mut self) -> Result<(), OutOfMemory> {
        let Some(cell) = self.table.cells.pop() else {
            return push_table(&mut self.text, &self.table);
        };
        self.push(Task::NextCell)?;
        self.push(Task::EndCell)?;
        self.push_below(cell, FormatOpts::new().table_cell())?;
        self.begin_text()
    }

    pub(super) fn end_cell(&mut self) -> Result<(), OutOfMemory> {
        let mut cell = self.end_text();
        trim_cell_breaks(&mut cell);
        escape_table_cell_inplace(&mut cell)?;
        match self.table.texts.push(cell) {
            Ok(()) => Ok(()),
            Err(_) => Err(OutOfMemory),
        }
    }
}

/// Appends the table, whose cells are finished.
fn push_table(text: &mut String, table: &Table) -> Result<(), OutOfMemory> {
    let texts = table.texts.as_slice();
    let rows = table.rows.as_slice();
    let (heading, body) = match rows.split_first() {
        Some((first, rest)) if table.has_heading => (*first, rest),
        _ => (0, rows),
    };
    let width = match body.first() {
        Some(width) => *width,
        None => 0,
    };
    text.push('\n')?;
    let (headings, mut cells) = split_cells(texts, heading);
    push_heading(text, headings, width)?;
    push_rule(text, headings, width)?;
    for count in body {
        let (row, rest) = split_cells(cells, *count);
        push_row(text, row)?;
        cells = rest;
    }
    Ok(text.push('\n')?)
}

/// Splits the cells after the first `count`.
fn split_cells(cells: &[String], count: usize) -> (&[String], &[String]) {
    match cells.split_at_checked(count) {
        Some(parts) => parts,
        None => (cells, &[]),
    }
}

/// Appends the row of headings, filled with blank ones up to the width.
fn push_heading(text: &mut String, cells: &[String], width: usize) -> Result<(), OutOfMemory> {
    for cell in cells {
        push_cell(text, cell.as_str())?;
    }
    for _ in cells.len()..width {
        push_cell(text, " ")?;
    }
    Ok(text.push_str("|\n")?)
}

/// Appends the line of dashes below the headings.
fn push_rule(text: &mut String, cells: &[String], width: usize) -> Result<(), OutOfMemory> {
    for cell in cells {
        push_dashes(text, cell.as_str().len())?;
    }
    for _ in cells.len()..width {
        push_dashes(text, 1)?;
    }
    Ok(text.push_str("|\n")?)
}

fn push_row(text: &mut String, cells: &[String]) -> Result<(), OutOfMemory> {
    for cell in cells {
        push_cell(text, cell.as_str())?;
    }
    Ok(text.push_str("|\n")?)
}

fn push_cell(text: &mut String, cell: &str) -> Result<(), OutOfMemory> {
    text.push_str("| ")?;
    text.push_str(cell)?;
    Ok(text.push(' ')?)
}

/// Appends `count` dashes, but at least one, as a cell.
fn push_dashes(text: &mut String, count: usize) -> Result<(), OutOfMemory> {
    text.push_str("| -")?;
    for _ in 1..count {
        text.push('-')?;
    }
    Ok(text.push(' ')?)
}

/// Separates a block in a cell from what precedes it, by `<br>`.
pub(super) fn add_cell_break(text: &mut String) -> Result<(), OutOfMemory> {
    trim_end_spaces(text);
    if !text.as_str().is_empty() && before_break(text.as_str()).is_none() {
        text.push_str("<br>")?;
    }
    Ok(())
}

/// Removes the breaks at the end of a cell.
fn trim_cell_breaks(text: &mut String) {
    for _ in 0..text.as_str().len() {
        let Some(front) = before_break(text.as_str()) else {
            return;
        };
        let end = front.trim_end_matches(' ').len();
        cut_at(text, end);
    }
}

/// Returns the text before a `<br>` at its end; `None` if there is none, or if it is escaped.
fn before_break(text: &str) -> Option<&str> {
    let front = text.strip_suffix("<br>")?;
    let slashes = front.len() - front.trim_end_matches('\\').len();
    if slashes % 2 == 0 { Some(front) } else { None }
}
