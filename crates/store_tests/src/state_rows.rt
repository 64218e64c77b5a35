//! The rows of a state.
use std::alloc::{AllocError, Global};
use wm_keeper::Row;
use wm_machine::Record;
use wm_rows::{fits_row, to_row};

/// The row of a record.
fn row_of(alloc: Global, work: &Record) -> Result<Row, AllocError> {
    if !fits_row(work) {
        return Err(AllocError);
    }
    to_row(alloc, work)
}

/// The rows of records.
pub(crate) fn rows_of(alloc: Global, works: &[Record]) -> Result<Vec<Row>, AllocError> {
    let mut rows = Vec::new(alloc);
    for work in works {
        rows.push(row_of(alloc, work)?)?;
    }
    Ok(rows)
}
