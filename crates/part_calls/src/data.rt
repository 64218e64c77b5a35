//! Data, its builder and its JSON, of `wm_data`, and what inputs become by each merger, of
//! `wm_merge`.

use crate::told::{Told, string};
use case_files::fields::{
    Item, RowFault, both, count, field, given, has_only, items, letters, read_each, text,
    unless_refused,
};
use case_files::names::merger_named;
use serde_json::{Value, push};
use std::alloc::{AllocError, Global};
use wm_data::{Data, DataBuilder, DataFault, Merger};
use wm_merge::{MergeFault, merge};

/// A fault by its name, with its key or its size.
fn fault_text(alloc: Global, fault: &DataFault) -> Result<String, AllocError> {
    match fault {
        DataFault::EmptyKey => String::from_str(alloc, "EmptyKey"),
        DataFault::BadData { key } => format!(in alloc; "BadData {}", key.as_str()),
        DataFault::TooLarge { size } => format!(in alloc; "TooLarge {size}"),
        DataFault::Memory => Err(AllocError),
    }
}

/// A text that came.
fn came_told(text: Result<String, AllocError>) -> Result<Value, AllocError> {
    Ok(Value::String(text?))
}

/// The canonical text of Data.
fn data_text(alloc: Global, told: &Data) -> Result<String, AllocError> {
    Ok(told.to_text(alloc)?.into_string())
}

/// The canonical text of the Data, or the fault.
fn text_of(alloc: Global, told: Result<Data, DataFault>) -> Result<String, AllocError> {
    match told {
        Ok(told) => data_text(alloc, &told),
        Err(fault) => fault_text(alloc, &fault),
    }
}

/// What a JSON value is read as: the canonical text of the Data, or the fault.
pub fn read(alloc: Global, row: &Value) -> Result<Value, RowFault> {
    has_only(row, &["json"])?;
    let told = Data::from_json(alloc, field(row, "json")?);
    unless_refused(came_told(text_of(alloc, told)))
}

/// The JSON of Data that has a text of so many letters under the key `a`.
fn long_text(alloc: Global, row: &Value) -> Result<String, RowFault> {
    let letters = letters(alloc, count(row, "letters")? as usize)?;
    Ok(format!(in alloc; "{{\"a\":{{\"text\":\"{letters}\"}}}}")?)
}

/// What such JSON is read as: whether that is what was read, else the fault.
pub fn read_long(alloc: Global, row: &Value) -> Result<Value, RowFault> {
    has_only(row, &["letters"])?;
    let given = long_text(alloc, row)?;
    let came = read_again(alloc, given.as_str());
    let (given, came) = both(given, came)?;
    let same = came == given;
    unless_refused(told_or(alloc, came, same, "the same"))
}

/// What JSON is read as that this program wrote: the canonical text of the Data, or the fault.
fn read_again(alloc: Global, text: &str) -> Result<String, RowFault> {
    let json = given(Value::from_str(alloc, text))?;
    unless_refused(text_of(alloc, Data::from_json(alloc, &json)))
}

/// A text, or this word in place of one that is as it should be.
fn told_or(alloc: Global, text: String, is_right: bool, word: &str) -> Result<Value, AllocError> {
    if is_right {
        string(alloc, word)
    } else {
        Ok(Value::String(text))
    }
}

/// A number under a key.
#[derive(Drop)]
struct Entry {
    key: String,
    number: i32,
}

/// The number of 32 bits with a sign of an entry.
fn int(entry: &Value) -> Result<i32, RowFault> {
    let number = field(entry, "int")?.as_i64().ok_or(RowFault::Value)?;
    given(i32::try_from(number))
}

impl Item for Entry {
    fn read(alloc: Global, item: &Value) -> Result<Entry, RowFault> {
        let number = int(item)?;
        let key = String::from_str(alloc, text(item, "key")?)?;
        Ok(Entry { key, number })
    }
}

/// Puts entries one after another, up to the first that is refused.
fn put_entries(builder: &mut DataBuilder, entries: Vec<Entry>) -> Result<(), DataFault> {
    for entry in entries {
        builder.put(entry.key, wm_data::Value::Int(entry.number))?;
    }
    Ok(())
}

/// The Data of entries, unless one is refused.
fn built(alloc: Global, entries: Vec<Entry>) -> Result<Data, DataFault> {
    let mut builder = DataBuilder::new(alloc);
    match put_entries(&mut builder, entries) {
        Ok(()) => builder.build(),
        Err(fault) => Err(fault),
    }
}

/// What entries become that are put one after another: a copy of the Data, or the fault.
pub fn build(alloc: Global, row: &Value) -> Result<Value, RowFault> {
    has_only(row, &["entries", "get"])?;
    let entries = read_each(alloc, items(row, "entries")?)?;
    match built(alloc, entries) {
        Ok(built) => facts(alloc, &built, row),
        Err(fault) => unless_refused(came_told(fault_text(alloc, &fault))),
    }
}

/// What is asked of Data: its size, the texts of it and of a copy, whether it is equal to that, and
/// to none, and the values of keys.
fn facts(alloc: Global, built: &Data, row: &Value) -> Result<Value, RowFault> {
    let values = values(alloc, built, row)?;
    let (values, copy) = both(values, given(built.copy(alloc)))?;
    unless_refused(facts_told(alloc, built, &copy, values))
}

/// The facts of Data, with those of its copy, and the values of keys.
fn facts_told(
    alloc: Global,
    built: &Data,
    copy: &Data,
    values: Value,
) -> Result<Value, AllocError> {
    let mut told = Told::new(alloc);
    told.number("size", built.size());
    told.put("text", came_told(data_text(alloc, copy)));
    told.flag("is_copy", *copy == *built);
    told.flag("is_none", *built == Data::empty());
    told.put("values", Ok(values));
    told.into_value()
}

/// The numbers of the keys that are asked for.
fn values(alloc: Global, built: &Data, row: &Value) -> Result<Value, RowFault> {
    let mut list = Vec::new(alloc);
    for key in items(row, "get")? {
        let key = key.as_str().ok_or(RowFault::Value)?;
        push(&mut list, number_at(built, key))?;
    }
    Ok(Value::Array(list))
}

/// The number of a key, null where it has none.
fn number_at(told: &Data, key: &str) -> Value {
    match told.get(key) {
        Some(wm_data::Value::Int(number)) => Value::from(*number),
        _ => Value::Null,
    }
}

/// A fault of a merger by its name, with its key or its size.
fn conflict_text(alloc: Global, fault: &MergeFault) -> Result<String, AllocError> {
    match fault {
        MergeFault::Conflict { key } => format!(in alloc; "Conflict {}", key.as_str()),
        MergeFault::TooLarge { size } => format!(in alloc; "TooLarge {size}"),
        MergeFault::Memory => Err(AllocError),
    }
}

/// The text of what inputs become by a merger, or the fault.
fn merged_text(alloc: Global, merger: Merger, inputs: &[Data]) -> Result<String, AllocError> {
    match merge(alloc, merger, inputs) {
        Ok(merged) => data_text(alloc, &merged),
        Err(fault) => conflict_text(alloc, &fault),
    }
}

/// The merger of a row.
pub fn merger(row: &Value) -> Result<Merger, RowFault> {
    merger_named(text(row, "merger")?).ok_or(RowFault::Value)
}

/// What inputs become by a merger: the canonical text of the Data, or the fault.
pub fn merged(alloc: Global, row: &Value) -> Result<Value, RowFault> {
    has_only(row, &["merger", "inputs"])?;
    let text = text_merged(alloc, merger(row)?, row)?;
    Ok(Value::String(text))
}

/// The text of what the inputs of a row become by a merger, or the fault.
fn text_merged(alloc: Global, merger: Merger, row: &Value) -> Result<String, RowFault> {
    let inputs = read_each(alloc, items(row, "inputs")?)?;
    unless_refused(merged_text(alloc, merger, inputs.as_slice()))
}

/// An input with a long text under the key `a`, and one with a flag under the key `b`.
fn long_inputs(alloc: Global, row: &Value) -> Result<Value, RowFault> {
    let long = long_text(alloc, row)?;
    let text = format!(in alloc; "{{\"inputs\":[{long},{{\"b\":{{\"bool\":true}}}}]}}")?;
    given(Value::from_str(alloc, text.as_str()))
}

/// How such inputs begin once they are merged, or the fault.
pub fn merged_long(alloc: Global, row: &Value) -> Result<Value, RowFault> {
    has_only(row, &["merger", "letters"])?;
    let merger = merger(row)?;
    let inputs = long_inputs(alloc, row)?;
    let text = text_merged(alloc, merger, &inputs);
    drop(inputs);
    let text = text?;
    let begins = text.as_str().starts_with("{\"a\"");
    unless_refused(told_or(alloc, text, begins, "merged"))
}
