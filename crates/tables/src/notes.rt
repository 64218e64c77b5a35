//! What observers are told, of `wm_observe`.

use crate::infos::{info, query};
use case_files::fields::{RowFault, both, count, field, has_only, items, number};
use part_calls::told::Told;
use serde_json::{Value, push};
use std::alloc::{AllocError, Global};
use wm_collections::Items;
use wm_machine::{WorkInfo, WorkQuery};
use wm_observe::{Note, Pair, notes};

/// The most observers that there may be.
const MAX_OBSERVERS: usize = 100;

/// The note that a value says.
fn note(alloc: Global, form: &Value) -> Result<Note, RowFault> {
    let observer = count(form, "observer")?;
    match form.get("gone") {
        Some(_) => Ok(Note::Gone {
            observer,
            seq: number(form, "gone")?,
        }),
        None => Ok(Note::Info {
            observer,
            info: info(alloc, field(form, "info")?)?,
        }),
    }
}

/// The notes of a row.
pub fn notes_of(alloc: Global, row: &Value) -> Result<Items<Note>, RowFault> {
    let mut notes = Items::new(alloc);
    for form in items(row, "notes")? {
        notes.push(note(alloc, form)?)?;
    }
    Ok(notes)
}

/// The queries of the observers of a row.
fn queries(alloc: Global, row: &Value) -> Result<Items<WorkQuery>, RowFault> {
    let mut queries = Items::new(alloc);
    for form in items(row, "observers")? {
        queries.push(query(alloc, form)?)?;
    }
    Ok(queries)
}

/// What is told of a work under a key, where it is there.
fn info_if(alloc: Global, form: &Value, key: &str) -> Result<Option<WorkInfo>, RowFault> {
    match form.get(key) {
        Some(value) => Ok(Some(info(alloc, value)?)),
        None => Ok(None),
    }
}

/// A work before an event and after it.
fn pair(alloc: Global, form: &Value) -> Result<Pair, RowFault> {
    let before = info_if(alloc, form, "before")?;
    let (before, after) = both(before, info_if(alloc, form, "after"))?;
    Ok(Pair { before, after })
}

/// The works of a row before an event and after it.
fn pairs(alloc: Global, row: &Value) -> Result<Items<Pair>, RowFault> {
    let mut pairs = Items::new(alloc);
    for form in items(row, "pairs")? {
        pairs.push(pair(alloc, form)?)?;
    }
    Ok(pairs)
}

/// A note: the observer, and the number of the work with its attempt, or that it is gone.
fn note_told(alloc: Global, note: &Note) -> Result<Value, AllocError> {
    let mut told = Told::new(alloc);
    match note {
        Note::Info { observer, info } => {
            told.number("attempt", u64::from(info.attempt));
            told.number("note", u64::from(*observer));
            told.number("seq", info.seq);
        }
        Note::Gone { observer, seq } => {
            told.number("gone", *seq);
            told.number("note", u64::from(*observer));
        }
    }
    told.into_value()
}

fn notes_told(alloc: Global, notes: &[Note]) -> Result<Value, AllocError> {
    let mut told = Vec::new(alloc);
    for note in notes {
        push(&mut told, note_told(alloc, note)?)?;
    }
    Ok(Value::Array(told))
}

/// What observers are told of works; a fault where there are more than there may be.
fn noted_of(alloc: Global, observers: &[WorkQuery], pairs: &[Pair]) -> Result<Value, RowFault> {
    if observers.len() > MAX_OBSERVERS {
        return Err(RowFault::Value);
    }
    let notes = notes(alloc, observers, pairs)?;
    let told = notes_told(alloc, notes.as_slice());
    drop(notes);
    Ok(told?)
}

/// What the observers of a row are told of its works.
pub fn noted(alloc: Global, row: &Value) -> Result<Value, RowFault> {
    has_only(row, &["observers", "pairs"])?;
    let (observers, pairs) = both(queries(alloc, row)?, pairs(alloc, row))?;
    let told = noted_of(alloc, observers.as_slice(), pairs.as_slice());
    drop(observers);
    drop(pairs);
    told
}
