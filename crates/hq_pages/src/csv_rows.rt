//! The rows of a table as CSV. A call that returns a `Result` fails only when memory runs out.

use crate::faults::Fault;
use crate::showing::joined_words;
use csv::{Writer, WriterBuilder};
use dom_query::NodeRef;
use std::alloc::Global;

/// The largest number of fields in a row. Further cells are left out.
const MOST_COLUMNS: usize = 4096;

/// The largest number of rows that a cell spans, by the HTML Standard.
const MOST_ROWS: usize = 65_534;

/// The largest number of columns that a cell spans, by the HTML Standard.
const MOST_SPAN: usize = 1000;

/// A cell of an earlier row that also covers rows below it.
#[derive(Drop)]
struct Reaching {
    text: String,
    /// How many more rows it covers; if that is 0, the column is free.
    rows: usize,
}

/// The rows of one table, while they are written.
#[derive(Drop)]
struct Rows {
    alloc: Global,
    writer: Writer<Vec<u8>>,
    /// The cells that reach into the next row, by their column.
    above: Vec<Reaching>,
}

/// Returns the rows in an element as CSV, without the rows of nested tables. A line feed follows
/// each row but the last. A field is the text of a cell with whitespace collapsed. The text of a
/// cell with `colspan` or `rowspan` is repeated in every field that the cell covers.
pub fn csv_of(node: &NodeRef<'_>) -> Result<String, Fault> {
    let alloc = node.tree.allocator();
    let mut rows = Rows {
        alloc,
        writer: WriterBuilder::new()
            .flexible(true)
            .from_writer(Vec::new(alloc)),
        above: Vec::new(alloc),
    };
    for row in node.descendants_it() {
        if row.has_name("tr") && is_own_row(node, &row) {
            rows.write_row(&row)?;
        }
    }
    rows.finish()
}

/// Returns whether there is no table between an element and a row in it.
fn is_own_row(node: &NodeRef<'_>, row: &NodeRef<'_>) -> bool {
    for above in row.ancestors_it(None) {
        if above.id == node.id {
            return true;
        }
        if above.has_name("table") {
            return false;
        }
    }
    true
}

impl Rows {
    fn write_row(&mut self, row: &NodeRef<'_>) -> Result<(), Fault> {
        let mut column = 0;
        for cell in row.children_it(false) {
            if cell.has_name("td") || cell.has_name("th") {
                column = self.write_cell(column, &cell)?;
            }
        }
        self.write_above(column, true)?;
        Ok(self.writer.end_record()?)
    }

    /// Writes a cell at the next free column, and returns the column after it.
    fn write_cell(&mut self, column: usize, cell: &NodeRef<'_>) -> Result<usize, Fault> {
        let text = joined_words(self.alloc, cell.text()?.as_str())?;
        let rows = span_of(cell, "rowspan", MOST_ROWS).saturating_sub(1);
        let mut column = self.write_above(column, false)?;
        for _ in 0..span_of(cell, "colspan", MOST_SPAN) {
            if column >= MOST_COLUMNS {
                break;
            }
            self.writer.write_field(text.as_bytes())?;
            self.reach(column, text.as_str(), rows)?;
            column = column.saturating_add(1);
        }
        Ok(column)
    }

    /// Writes the cells of earlier rows from this column on, up to the first free column, or to the
    /// last column where `all` is true. Returns the column after them.
    fn write_above(&mut self, column: usize, all: bool) -> Result<usize, Fault> {
        let mut column = column;
        for _ in 0..self.above.len() {
            if !self.write_reaching(column, all)? {
                break;
            }
            column = column.saturating_add(1);
        }
        Ok(column)
    }

    /// Writes the text of the cell of an earlier row that covers this column; if there is none and
    /// `all` is true, it writes an empty field. Returns whether something was written.
    fn write_reaching(&mut self, column: usize, all: bool) -> Result<bool, Fault> {
        let Some(cell) = self.above.get_mut(column) else {
            return Ok(false);
        };
        if cell.rows == 0 && !all {
            return Ok(false);
        }
        self.writer.write_field(cell.text.as_bytes())?;
        cell.rows = cell.rows.saturating_sub(1);
        if cell.rows == 0 {
            cell.text.clear();
        }
        Ok(true)
    }

    /// Records that a cell at this column covers so many of the rows below.
    fn reach(&mut self, column: usize, text: &str, rows: usize) -> Result<(), Fault> {
        let text = String::from_str(self.alloc, if rows == 0 { "" } else { text })?;
        let cell = Reaching { text, rows };
        match self.above.get_mut(column) {
            Some(free) => *free = cell,
            None => self.above.push(cell)?,
        }
        Ok(())
    }

    /// Returns the text of all rows, without the last line feed.
    fn finish(self) -> Result<String, Fault> {
        let Ok(mut bytes) = self.writer.into_inner() else {
            return Err(Fault::Memory);
        };
        if bytes.last() == Some(&b'\n') {
            bytes.pop();
        }
        match String::from_utf8(bytes) {
            Ok(text) => Ok(text),
            Err(_) => Err(Fault::Memory),
        }
    }
}

/// Returns how many rows or columns a cell spans, at most `most`. 0 rows mean that it spans all
/// rows to the end of the table.
fn span_of(cell: &NodeRef<'_>, name: &str, most: usize) -> usize {
    let Some(written) = cell.attr(name) else {
        return 1;
    };
    match written.trim().parse::<usize>() {
        Ok(0) if name == "rowspan" => most,
        Ok(span) => span.min(most).max(1),
        Err(_) => 1,
    }
}
