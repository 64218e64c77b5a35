//! What the stock workers read of their input, and Data of one entry that they give.
ghost use Rattle.std.specs.Prelude.{◌≡◌, ◌≤◌, length, IfOk};
ghost use Rattle.wm_data.specs.Size.{size_of};
ghost use Rattle.wm_worker.specs.Answers.{entry_alone, has_reached, int_of, turns_of};

use std::alloc::{AllocError, Global};
use wm_collections::{Items, Text};
use wm_data::{Data, DataEntry, Value, entries_size};

/// The number under a key that holds an Int.
fn int_under(input: &Data, key: &str) -> Option<i32>
    ensures { result ≡ int_of input.now key.now }
{
    match input.get(key) {
        Some(Value::Int(number)) => Some(*number),
        _ => None,
    }
}

/// Whether a work with this input succeeds at an attempt: at `until` and later, or at 2 and later
/// where no Int is under that key.
pub(crate) fn has_reached(input: &Data, attempt: u32) -> bool
    ensures { result ≡ has_reached input.now attempt }
{
    let until = int_under(input, "until").unwrap_or(2);
    i64::from(until) <= i64::from(attempt)
}

/// How many turns there are to count: `turns`, or 1 where no Int of 1 or more is under that key.
pub(crate) fn turns_of(input: &Data) -> i32
    ensures { result ≡ turns_of input.now }
{
    let turns = int_under(input, "turns").unwrap_or(1);
    if turns < 1 { 1 } else { turns }
}

/// Data of one entry.
pub(crate) fn entry_alone(alloc: Global, key: &str, value: Value) -> Result<Data, AllocError>
    requires named { 1 ≤ length key.now }
    requires within { size_of (entry_alone key.now value) ≤ 10240 }
    ensures { IfOk result (λ alone. alone ≡ entry_alone key.now value) }
{
    let key = Text::from_str(alloc, key)?;
    let mut entries = Items::new(alloc);
    entries.push(DataEntry { key, value })?;
    let size = entries_size(entries.as_slice())?;
    Data::from_entries(alloc, entries, size)
}
