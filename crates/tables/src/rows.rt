//! Rows that are read back, of `wm_rows`: the record of a row by itself, and those of all rows of a
//! store.

use crate::records::{row_of, row_told};
use case_files::fields::{RowFault, both, count, field, has_only, id, items, letters, list, name};
use case_files::rows::{NUMBER_COUNT, NUMBERS, Others, SEQ, is_field, row_of as row_made};
use part_calls::told::{list as list_told, string};
use serde_json::Value;
use std::alloc::{AllocError, Global};
use uuid::Uuid;
use wm_collections::{Items, Text};
use wm_keeper::Row;
use wm_machine::Record;
use wm_rows::{RowFault as StoreFault, check_all, from_row};

/// The number with a sign under a key; the usual one where there is none.
fn signed(form: &Value, key: &str, usual: i64) -> Result<i64, RowFault> {
    match form.get(key) {
        Some(value) => value.as_i64().ok_or(RowFault::Value),
        None => Ok(usual),
    }
}

/// The numbers of a row. The usual ones are those of one-time work that waits, with the number 1.
fn numbers_in(form: &Value) -> Result<[i64; NUMBER_COUNT], RowFault> {
    let mut numbers = [0; NUMBER_COUNT];
    for index in 0..NUMBER_COUNT {
        let (key, usual) = NUMBERS[index];
        numbers[index] = signed(form, key, usual)?;
    }
    numbers[SEQ] = signed(form, "seq", 1)?;
    Ok(numbers)
}

/// The bytes of an id. That of work with no id under the key is its number.
fn id_of(alloc: Global, form: &Value, seq: i64) -> Result<Items<u8>, RowFault> {
    let id = match form.get("id") {
        Some(_) => id(form, "id")?,
        None => Uuid::from_u128(u128::from(seq.unsigned_abs())),
    };
    Ok(Items::from_vec(Vec::from_slice(alloc, id.as_bytes())?))
}

/// So many bytes in place of an id.
fn bytes(alloc: Global, count: u32) -> Result<Items<u8>, AllocError> {
    let mut bytes = Items::new(alloc);
    for _ in 0..count {
        bytes.push(0)?;
    }
    Ok(bytes)
}

/// An id, or so many bytes.
fn id_bytes(alloc: Global, form: &Value, seq: i64) -> Result<Items<u8>, RowFault> {
    match form.get("id_bytes") {
        Some(_) => Ok(bytes(alloc, count(form, "id_bytes")?)?),
        None => id_of(alloc, form, seq),
    }
}

/// The text under a key; the usual one where there is none.
fn text_of(alloc: Global, form: &Value, key: &str, usual: &str) -> Result<Text, RowFault> {
    let text = match form.get(key) {
        Some(value) => value.as_str().ok_or(RowFault::Value)?,
        None => usual,
    };
    Ok(Text::from_str(alloc, text)?)
}

/// An input, or that of a text of so many letters.
fn input_of(alloc: Global, form: &Value) -> Result<Text, RowFault> {
    if form.get("input_letters").is_none() {
        return text_of(alloc, form, "input", "{}");
    }
    let letters = letters(alloc, count(form, "input_letters")? as usize)?;
    let text = format!(in alloc; "{{\"a\":{{\"text\":\"{letters}\"}}}}")?;
    Ok(Text::from_string(text))
}

/// The numbers of prerequisites.
fn prior_of(alloc: Global, form: &Value) -> Result<Items<i64>, RowFault> {
    let mut numbers = Items::new(alloc);
    for item in items(form, "prior")? {
        let number = item.as_i64().ok_or(RowFault::Value)?;
        numbers.push(number)?;
    }
    Ok(numbers)
}

fn others_of(alloc: Global, form: &Value, seq: i64) -> Result<Others, RowFault> {
    let (id, name) = both(id_bytes(alloc, form, seq)?, name(alloc, form))?;
    let class = text_of(alloc, form, "class", "a");
    let ((id, name), class) = both((id, name), class)?;
    let output = text_of(alloc, form, "output", "{}");
    let ((id, name, class), output) = both((id, name, class), output)?;
    let ((id, name, class, output), input) = both(
        (id, name, class, output),
        input_of(alloc, form),
    )?;
    let texts_so_far = (id, name, class, input, output);
    let (texts_so_far, prior) = both(texts_so_far, prior_of(alloc, form))?;
    let ((id, name, class, input, output), prior) = (texts_so_far, prior);
    let so_far = (id, name, class, input, output, prior);
    let ((id, name, class, input, output, prior), tags) = both(so_far, list(alloc, form, "tags"))?;
    Ok(Others {
        id,
        name,
        class,
        input,
        output,
        prior,
        tags,
    })
}

/// Whether a value has no key but those of a row.
fn has_row_keys(form: &Value) -> Result<(), RowFault> {
    let members = form.as_object().ok_or(RowFault::NoObject)?;
    for key in members.keys() {
        if !is_row_key(key.as_str()) {
            return Err(RowFault::Keys);
        }
    }
    Ok(())
}

/// Whether a key is one of a row.
fn is_row_key(key: &str) -> bool {
    is_field(key) || key == "id_bytes" || key == "input_letters"
}

/// The row that a value says.
fn row_in(alloc: Global, form: &Value) -> Result<Row, RowFault> {
    has_row_keys(form)?;
    let numbers = numbers_in(form)?;
    let others = others_of(alloc, form, numbers[SEQ])?;
    Ok(row_made(numbers, others))
}

/// A fault by its name, with the number of its row.
fn fault_text(alloc: Global, fault: StoreFault) -> Result<Value, AllocError> {
    let text = match fault {
        StoreFault::BadRow { seq } => format!(in alloc; "BadRow {seq}"),
        StoreFault::Unsound { seq } => format!(in alloc; "Unsound {seq}"),
        StoreFault::Memory => Err(AllocError),
    };
    Ok(Value::String(text?))
}

/// The row of a record that was read.
fn again_told(alloc: Global, work: &Record) -> Result<Value, RowFault> {
    let row = row_of(alloc, work)?;
    let told = row_told(alloc, &row);
    drop(row);
    Ok(told?)
}

/// The row of the record of a row, or the fault.
pub fn again(alloc: Global, row: &Value) -> Result<Value, RowFault> {
    has_only(row, &["row"])?;
    let given = row_in(alloc, field(row, "row")?)?;
    let came = from_row(alloc, &given);
    drop(given);
    match came {
        Ok(work) => {
            let told = again_told(alloc, &work);
            drop(work);
            told
        }
        Err(fault) => Ok(fault_text(alloc, fault)?),
    }
}

/// The rows under a key.
fn rows_of(alloc: Global, row: &Value) -> Result<Items<Row>, RowFault> {
    let mut rows = Items::new(alloc);
    for form in items(row, "rows")? {
        rows.push(row_in(alloc, form)?)?;
    }
    Ok(rows)
}

/// The numbers of records.
fn numbers(alloc: Global, works: &[Record]) -> Result<Value, AllocError> {
    let mut numbers = Items::new(alloc);
    for work in works {
        numbers.push(work.seq)?;
    }
    list_told(alloc, numbers.as_slice())
}

/// The numbers of the records of a store's rows, or the fault.
fn checked(alloc: Global, rows: &[Row]) -> Result<Value, AllocError> {
    match check_all(alloc, rows) {
        Ok(works) => numbers(alloc, works.as_slice()),
        Err(fault) => fault_text(alloc, fault),
    }
}

/// The numbers of the records of a store's rows, or the fault.
pub fn store(alloc: Global, row: &Value) -> Result<Value, RowFault> {
    has_only(row, &["rows"])?;
    let rows = rows_of(alloc, row)?;
    Ok(checked(alloc, rows.as_slice())?)
}

/// The row of one-time work with a number.
fn usual_row(alloc: Global, seq: u32) -> Result<Row, RowFault> {
    let form = Value::Null;
    let mut numbers = numbers_in(&form)?;
    numbers[SEQ] = i64::from(seq);
    let others = others_of(alloc, &form, numbers[SEQ])?;
    Ok(row_made(numbers, others))
}

/// So many rows of one-time work, numbered from 1.
fn usual_rows(alloc: Global, count: u32) -> Result<Items<Row>, RowFault> {
    let mut rows = Items::new(alloc);
    for before in 0..count {
        rows.push(usual_row(alloc, before.saturating_add(1))?)?;
    }
    Ok(rows)
}

/// How many records so many rows are, or the fault.
pub fn many(alloc: Global, row: &Value) -> Result<Value, RowFault> {
    has_only(row, &["count"])?;
    let rows = usual_rows(alloc, count(row, "count")?)?;
    match check_all(alloc, rows.as_slice()) {
        Ok(works) => Ok(Value::from(works.len() as u64)),
        Err(fault) => Ok(fault_text(alloc, fault)?),
    }
}
