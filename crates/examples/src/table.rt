//! A whole program: a table of a page as CSV.

use crate::fault::Fault;
use csv::{Writer, WriterBuilder};
use dom_query::prelude::*;
use std::alloc::Global;
use std::io::Write;

pub const PAGE: &str = "<h1>Prices</h1><table><tr><th>Tea<th>Price\
    <tr><td>Green, loose<td>2 &euro;<tr><td>Mat&eacute; <b>\"hot\"</b><td>3 &euro;</table>";

/// Prints the rows of the first table of a page as CSV.
pub fn print_table<W: Write>(alloc: Global, html: &str, out: &mut W) -> Result<(), Fault> {
    let document = parse_page(alloc, html, Options::default())?;
    let table = document.select_single("table")?;
    let bytes = rows_of(alloc, &table)?;
    out.write_all(&bytes)?;
    Ok(())
}

/// Returns the rows of a table as CSV. Each row is a child of a `tbody`, `thead` or `tfoot`.
fn rows_of(alloc: Global, table: &Selection<'_>) -> Result<Vec<u8>, Fault> {
    let rows = table.children()?.children()?.filter("tr")?;
    let mut csv = WriterBuilder::new()
        .flexible(true)
        .from_writer(Vec::new(alloc));
    for row in rows.nodes() {
        write_row(row, &mut csv)?;
    }
    match csv.into_inner() {
        Ok(bytes) => Ok(bytes),
        Err(_) => Err(Fault::Memory(OutOfMemory)),
    }
}

/// Writes the texts of a row's cells as one record.
fn write_row(row: &NodeRef<'_>, csv: &mut Writer<Vec<u8>>) -> Result<(), Fault> {
    for cell in row.children_it(false) {
        if cell.has_name("td") || cell.has_name("th") {
            csv.write_field(cell.formatted_text()?.as_bytes())?;
        }
    }
    csv.end_record()?;
    Ok(())
}
