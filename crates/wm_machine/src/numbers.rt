//! The limit of numbers, and finding a record by its number, among records in ascending number.
ghost use Rattle.std.specs.Option.{option_copied};
ghost use Rattle.std.specs.Prelude.{◌≡◌, ◌<◌, length, slice_get, None, MatchOption};
ghost use Rattle.wm_collections.specs.Lists.{AllLater};
ghost use Rattle.wm_machine.specs.Input.{work_numbered};
ghost use Rattle.wm_machine.specs.Valid.{IsBefore};

use crate::record::Record;

/// The number after the greatest that a work, a generation, a moment or a row may have, 2^53: up to it
/// JSON readers of other languages keep whole numbers exact.
pub const NUMBERS_END: u64 = 1 << 53;

/// The index of the record of this number.
pub fn index_numbered(works: &[Record], number: u64) -> Option<usize>
    requires { AllLater IsBefore works.now }
    ensures { MatchOption result (work_numbered number works.now ≡ None)
        (λ index. (index < length works.now) × (work_numbered number works.now ≡ slice_get works.now index)) }
{
    match works.binary_search_by(|work| work.seq.cmp(&number)) {
        Ok(index) => Some(index),
        Err(_) => None,
    }
}

/// The record of this number.
pub fn work_numbered(works: &[Record], number: u64) -> Option<&Record>
    requires { AllLater IsBefore works.now }
    ensures { option_copied result ≡ work_numbered number works.now }
{
    match index_numbered(works, number) {
        Some(index) => Some(&works[index]),
        None => None,
    }
}
