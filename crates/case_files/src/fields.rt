//! Reads the fields of a row.
ghost use Rattle.std.specs.Prelude.{◌≡◌, Ok, IfOk};

use serde_json::Value;
use std::alloc::{AllocError, AllocFailed, Global};
use uuid::Uuid;
use wm_collections::{Items, Text};
use wm_data::Data;

/// Why a row is refused.
#[derive(Clone, Copy)]
pub enum RowFault {
    /// It is no JSON object.
    NoObject,
    /// No call has its name.
    NoSuchCall,
    /// The call has another key than it may have.
    Keys,
    /// A value isn't there, or is one that can't be.
    Value,
    /// Memory was refused.
    Memory,
}

impl RowFault {
    /// What is printed of it.
    pub fn text(self) -> &'static str {
        match self {
            RowFault::NoObject => "a row is a JSON object",
            RowFault::NoSuchCall => "no call has this name",
            RowFault::Keys => "the call has another key than it may have",
            RowFault::Value => "a value isn't there, or is one that can't be",
            RowFault::Memory => "memory allocation failed",
        }
    }
}

impl From<AllocError> for RowFault {
    fn from(_refused: AllocError) -> RowFault {
        RowFault::Memory
    }
}

impl<T: Drop> From<AllocFailed<T>> for RowFault {
    fn from(_refused: AllocFailed<T>) -> RowFault {
        RowFault::Memory
    }
}

/// The row has no keys but these, beside those of every row.
pub fn has_only(row: &Value, keys: &[&str]) -> Result<(), RowFault> {
    let members = row.as_object().ok_or(RowFault::NoObject)?;
    for key in members.keys() {
        if !is_allowed(keys, key.as_str()) {
            return Err(RowFault::Keys);
        }
    }
    Ok(())
}

/// Whether a key is one of these, or one of every row.
fn is_allowed(keys: &[&str], key: &str) -> bool {
    key == "answers" || key == "call" || keys.contains(&key)
}

/// The value under a key.
pub fn field<'v>(row: &'v Value, key: &str) -> Result<&'v Value, RowFault> {
    row.get(key).ok_or(RowFault::Value)
}

/// The text under a key.
pub fn text<'v>(row: &'v Value, key: &str) -> Result<&'v str, RowFault> {
    field(row, key)?.as_str().ok_or(RowFault::Value)
}

/// The number under a key; none where there is none.
pub fn number_if(row: &Value, key: &str) -> Result<Option<u64>, RowFault> {
    match row.get(key) {
        Some(value) => Ok(Some(value.as_u64().ok_or(RowFault::Value)?)),
        None => Ok(None),
    }
}

/// The number under a key, 0 where there is none.
pub fn number(row: &Value, key: &str) -> Result<u64, RowFault> {
    Ok(number_if(row, key)?.unwrap_or(0))
}

/// The number of 32 bits under a key, 0 where there is none.
pub fn count(row: &Value, key: &str) -> Result<u32, RowFault> {
    given(u32::try_from(number(row, key)?))
}

/// The truth value under a key, false where there is none.
pub fn flag(row: &Value, key: &str) -> Result<bool, RowFault> {
    match row.get(key) {
        Some(value) => value.as_bool().ok_or(RowFault::Value),
        None => Ok(false),
    }
}

/// The items of the list under a key; none where there is none.
pub fn items<'v>(row: &'v Value, key: &str) -> Result<&'v [Value], RowFault> {
    match row.get(key) {
        Some(value) => Ok(value.as_array().ok_or(RowFault::Value)?),
        None => Ok(&[]),
    }
}

/// What an item of a list is read as.
pub trait Item: Drop {
    fn read(alloc: Global, item: &Value) -> Result<Self, RowFault>;
}

impl Item for u64 {
    fn read(_alloc: Global, item: &Value) -> Result<u64, RowFault> {
        item.as_u64().ok_or(RowFault::Value)
    }
}

impl Item for Text {
    fn read(alloc: Global, item: &Value) -> Result<Text, RowFault> {
        let text = item.as_str().ok_or(RowFault::Value)?;
        Ok(Text::from_str(alloc, text)?)
    }
}

/// An id is a number, or a text in a form of an id.
impl Item for Uuid {
    fn read(_alloc: Global, item: &Value) -> Result<Uuid, RowFault> {
        id_in(item)
    }
}

impl Item for Data {
    fn read(alloc: Global, item: &Value) -> Result<Data, RowFault> {
        given(Data::from_json(alloc, item))
    }
}

/// What items are read as.
pub fn read_each<T: Item>(alloc: Global, items: &[Value]) -> Result<Vec<T>, RowFault> {
    let mut all = Vec::new(alloc);
    for item in items {
        let one = T::read(alloc, item)?;
        all.push(one)?;
    }
    Ok(all)
}

/// What the items of the list under a key are read as.
pub fn list<T: Item>(alloc: Global, row: &Value, key: &str) -> Result<Items<T>, RowFault> {
    Ok(Items::from_vec(read_each(alloc, items(row, key)?)?))
}

/// An id: a number, or a text in a form of an id.
fn id_in(value: &Value) -> Result<Uuid, RowFault> {
    match value.as_u64() {
        Some(number) => Ok(Uuid::from_u128(u128::from(number))),
        None => given(Uuid::try_parse(value.as_str().ok_or(RowFault::Value)?)),
    }
}

/// The id under a key.
pub fn id(row: &Value, key: &str) -> Result<Uuid, RowFault> {
    id_in(field(row, key)?)
}

/// The unique name of a work, where it has one.
pub fn name(alloc: Global, row: &Value) -> Result<Option<Text>, RowFault> {
    match row.get("name") {
        Some(value) => Ok(Some(Text::read(alloc, value)?)),
        None => Ok(None),
    }
}

/// The Data under a key, none where there is none.
pub fn data(alloc: Global, row: &Value, key: &str) -> Result<Data, RowFault> {
    match row.get(key) {
        Some(value) => Data::read(alloc, value),
        None => Ok(Data::empty()),
    }
}

/// A value with another one, unless there is none of that. It is generic, since the proof of an
/// early return beside a live record goes through all shapes of it.
pub fn both<T: Drop, U: Drop>(value: T, other: Result<U, RowFault>) -> Result<(T, U), RowFault>
    ensures { IfOk result (λ pair. (pair.0 ≡ value) × (other ≡ Ok pair.1)) }
{
    Ok((value, other?))
}

/// A value that there has to be. It is generic, as [`both`] is.
pub fn given<T, E: Drop>(value: Result<T, E>) -> Result<T, RowFault>
    ensures { IfOk result (λ given. value ≡ Ok given) }
{
    match value {
        Ok(value) => Ok(value),
        Err(fault) => {
            drop(fault);
            Err(RowFault::Value)
        }
    }
}

/// A value, unless memory was refused. It is generic, as [`both`] is.
pub fn unless_refused<T>(value: Result<T, AllocError>) -> Result<T, RowFault>
    ensures { IfOk result (λ given. value ≡ Ok given) }
{
    match value {
        Ok(value) => Ok(value),
        Err(_refused) => Err(RowFault::Memory),
    }
}

/// So many letters `x`.
pub fn letters(alloc: Global, count: usize) -> Result<String, AllocError> {
    let mut text = String::new(alloc);
    for _ in 0..count {
        text.push('x')?;
    }
    Ok(text)
}
