//! The size of entries in bytes.
//!
//! No memory holds entries of 2^64 bytes or more. A sum that would need more bits is therefore
//! answered as memory that was refused.
ghost use Rattle.std.specs.Prelude.{◌≡◌, ◌≤◌, IfOk, IfSome};
ghost use Rattle.std.specs.Prelude.{◌+◌, ◌*◌, sum_by};
ghost use Rattle.wm_data.specs.Size.{entry_size, payload, size_of, text_size};

use crate::data::{DataEntry, EMPTY_SIZE};
use crate::value::Value;
use std::alloc::AllocError;
use wm_collections::{Items, Text};

/// The bytes of entries.
pub fn entries_size(entries: &[DataEntry]) -> Result<u64, AllocError>
    ensures { IfOk result (λ size. size ≡ size_of entries.now) }
{
    let mut size = EMPTY_SIZE;
    for entry in entries {
        size = size_added(size, entry)?;
    }
    Ok(size)
}

/// The bytes with an entry more.
pub(crate) fn size_added(size: u64, added: &DataEntry) -> Result<u64, AllocError>
    ensures { IfOk result (λ now. now ≡ size + entry_size added.now) }
{
    let Some(added) = entry_size(added) else {
        return Err(AllocError);
    };
    size.checked_add(added).ok_or(AllocError)
}

/// The bytes with an entry in the place of another.
pub(crate) fn size_exchanged(
    size: u64,
    taken: &DataEntry,
    added: &DataEntry,
) -> Result<u64, AllocError>
    requires { entry_size taken.now ≤ size }
    ensures { IfOk result (λ now. now + entry_size taken.now ≡ size + entry_size added.now) }
{
    let Some(taken) = entry_size(taken) else {
        return Err(AllocError);
    };
    size_added(size - taken, added)
}

/// The bytes of a key and its value.
fn entry_size(entry: &DataEntry) -> Option<u64>
    ensures { IfSome result (λ size. size ≡ entry_size entry.now) }
{
    let key = entry.key.len() as u64;
    payload(&entry.value)?.checked_add(key)?.checked_add(3)
}

/// The bytes of a value.
fn payload(value: &Value) -> Option<u64>
    ensures { IfSome result (λ size. size ≡ payload value.now) }
{
    match value {
        Value::Bool(_) | Value::Byte(_) => Some(1),
        Value::Int(_) => Some(4),
        Value::Long(_) => Some(8),
        Value::Text(text) => list_size(text.len(), 1),
        Value::Bools(values) => list_size(values.len(), 1),
        Value::Bytes(values) => list_size(values.len(), 1),
        Value::Ints(values) => list_size(values.len(), 4),
        Value::Longs(values) => list_size(values.len(), 8),
        Value::Texts(texts) => texts_size(texts),
    }
}

/// The bytes of a list whose elements have equally many.
fn list_size(count: usize, each: u64) -> Option<u64>
    ensures { IfSome result (λ size. size ≡ 4 + each * count) }
{
    each.checked_mul(count as u64)?.checked_add(4)
}

/// The bytes of a list of texts.
fn texts_size(texts: &Items<Text>) -> Option<u64>
    ensures { IfSome result (λ size. size ≡ 4 + sum_by text_size texts.now) }
{
    let mut size: u64 = 4;
    for text in texts.as_slice() {
        size = size.checked_add(list_size(text.len(), 1)?)?;
    }
    Some(size)
}
