//! The error type of the examples.

use dom_query::prelude::*;
use std::io;

/// What can go wrong: one variant for each error type of the calls, so that `?` works with all.
#[derive(Debug, Drop, thiserror::Error)]
pub enum Fault {
    #[error("page: {0}")]
    Page(#[from] PageFault),
    #[error("markup: {0}")]
    Markup(#[from] MarkupFault),
    #[error("selector: {0}")]
    Selector(#[from] SelectorFault),
    #[error("edit: {0}")]
    Edit(#[from] EditFault),
    #[error("{0}")]
    Selection(#[from] SelectionFault),
    #[error("out of memory")]
    Memory(#[from] OutOfMemory),
    #[error("{0}")]
    Write(#[from] WriteFault),
    #[error("policy: {0}")]
    Policy(#[from] PolicyFault),
    #[error("csv: {0}")]
    Csv(#[from] csv::Error),
    #[error("{0}")]
    Output(#[from] io::Error),
}
