//! Rows as text: a JSON object of the fields that differ from those of a plain row.

use crate::reader::LineFault;
use case_files::rows::{NUMBER_COUNT, NUMBERS, Others, is_field, numbers_of, row_of};
use serde_json::{Map, Value, push, put};
use std::alloc::{AllocError, Global};
use wm_collections::{Items, Text};
use wm_keeper::Row;

/// Data without entries.
const NO_DATA: &str = "{}";

/// The row of a text. A field that isn't there is that of one-time work with the defaults of a
/// request.
pub fn read_row(alloc: Global, text: &str) -> Result<Row, LineFault> {
    let value = Value::from_str(alloc, text).map_err(|_| LineFault::Row)?;
    let members = value.as_object().ok_or(LineFault::Row)?;
    if !members.keys().all(|key| is_field(key.as_str())) {
        return Err(LineFault::Row);
    }
    let numbers = numbers_in(members)?;
    let others = Others {
        id: id_of(alloc, members)?,
        name: name_of(alloc, members)?,
        class: text_of(alloc, members, "class", "")?,
        input: text_of(alloc, members, "input", NO_DATA)?,
        output: text_of(alloc, members, "output", NO_DATA)?,
        prior: prior_of(alloc, members)?,
        tags: tags_of(alloc, members)?,
    };
    Ok(row_of(numbers, others))
}

/// The numbers under the keys of a row.
fn numbers_in(members: &Map<String, Value>) -> Result<[i64; NUMBER_COUNT], LineFault> {
    let mut numbers = [0; NUMBER_COUNT];
    for index in 0..NUMBER_COUNT {
        let (key, usual) = NUMBERS[index];
        numbers[index] = number_of(members, key, usual)?;
    }
    Ok(numbers)
}

/// The number under a key, or this one where there is none.
fn number_of(members: &Map<String, Value>, key: &str, usual: i64) -> Result<i64, LineFault> {
    match members.get(key) {
        Some(value) => value.as_i64().ok_or(LineFault::Row),
        None => Ok(usual),
    }
}

/// The text under a key, or this one where there is none.
fn text_of(
    alloc: Global,
    members: &Map<String, Value>,
    key: &str,
    usual: &str,
) -> Result<Text, LineFault> {
    match members.get(key) {
        Some(value) => copy_of(alloc, value),
        None => Ok(Text::from_str(alloc, usual)?),
    }
}

/// A copy of the text that a value is.
fn copy_of(alloc: Global, value: &Value) -> Result<Text, LineFault> {
    Ok(Text::from_str(alloc, value.as_str().ok_or(LineFault::Row)?)?)
}

/// The bytes that the digits of the id stand for; none where it isn't there.
fn id_of(alloc: Global, members: &Map<String, Value>) -> Result<Items<u8>, LineFault> {
    let Some(value) = members.get("id") else {
        return Ok(Items::new(alloc));
    };
    match hex::decode(alloc, value.as_str().ok_or(LineFault::Row)?) {
        Ok(bytes) => Ok(Items::from_vec(bytes)),
        Err(_) => Err(LineFault::Row),
    }
}

fn name_of(alloc: Global, members: &Map<String, Value>) -> Result<Option<Text>, LineFault> {
    match members.get("name") {
        Some(value) => Ok(Some(copy_of(alloc, value)?)),
        None => Ok(None),
    }
}

/// The items of the list under a key; none where it isn't there.
fn items_of<'a>(members: &'a Map<String, Value>, key: &str) -> Result<&'a [Value], LineFault> {
    match members.get(key) {
        Some(value) => Ok(value.as_array().ok_or(LineFault::Row)?.as_slice()),
        None => Ok(&[]),
    }
}

fn prior_of(alloc: Global, members: &Map<String, Value>) -> Result<Items<i64>, LineFault> {
    let mut numbers = Items::new(alloc);
    for item in items_of(members, "prior")? {
        numbers.push(item.as_i64().ok_or(LineFault::Row)?)?;
    }
    Ok(numbers)
}

fn tags_of(alloc: Global, members: &Map<String, Value>) -> Result<Items<Text>, LineFault> {
    let mut texts = Items::new(alloc);
    for item in items_of(members, "tags")? {
        texts.push(copy_of(alloc, item)?)?;
    }
    Ok(texts)
}

/// The text of a row.
pub fn row_text(alloc: Global, row: &Row) -> Result<String, AllocError> {
    let mut members = Map::new(alloc);
    let numbers = numbers_of(row);
    for index in 0..NUMBER_COUNT {
        let (key, usual) = NUMBERS[index];
        if numbers[index] != usual {
            put(&mut members, alloc, key, Value::from(numbers[index]))?;
        }
    }
    put(
        &mut members,
        alloc,
        "id",
        Value::String(hex::encode(alloc, row.id.as_slice())?),
    )?;
    put(&mut members, alloc, "class", string(alloc, &row.class)?)?;
    if let Some(name) = &row.name {
        put(&mut members, alloc, "name", string(alloc, name)?)?;
    }
    for (key, data) in [("input", &row.input), ("output", &row.output)] {
        if data.as_str() != NO_DATA {
            put(&mut members, alloc, key, string(alloc, data)?)?;
        }
    }
    put_lists(alloc, &mut members, row)?;
    Value::Object(members).to_string(alloc)
}

/// Puts the prerequisites and the tags where there are any.
fn put_lists(alloc: Global, members: &mut Map<String, Value>, row: &Row) -> Result<(), AllocError> {
    if !row.prior.is_empty() {
        let mut prior = Vec::new(alloc);
        for number in row.prior.as_slice() {
            prior.push(Value::from(*number))?;
        }
        put(members, alloc, "prior", Value::Array(prior))?;
    }
    if !row.tags.is_empty() {
        let mut tags = Vec::new(alloc);
        for tag in row.tags.as_slice() {
            tags.push(string(alloc, tag)?)?;
        }
        put(members, alloc, "tags", Value::Array(tags))?;
    }
    Ok(())
}

fn string(alloc: Global, text: &Text) -> Result<Value, AllocError> {
    Ok(Value::String(String::from_str(alloc, text.as_str())?))
}
