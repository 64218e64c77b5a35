//! The records of all rows of a store.
ghost use Rattle.std.specs.Prelude.{◌≡◌, IfErr, IfOk, Ok, true};
ghost use Rattle.wm_machine.specs.Opened.{next_number};
ghost use Rattle.wm_machine.specs.Rows.{AreRowsOf};
ghost use Rattle.wm_machine.specs.Valid.{AreWorks};
ghost use Rattle.wm_rows.specs.Sound.{checked, is_sound_after, read_after, IsFaultOf};

use crate::fault::RowFault;
use crate::reading::from_row;
use crate::sound::Before;
use std::alloc::Global;
use wm_collections::Items;
use wm_keeper::Row;
use wm_machine::Record;

/// The records of the rows of a store, which stand in the order of their numbers.
///
/// The first row with a fault decides: `BadRow` with its number where it isn't in the grammar, else
/// `Unsound` where it isn't sound after the rows before it.
pub fn check_all(alloc: Global, rows: &[Row]) -> Result<Items<Record>, RowFault>
    ensures ok { IfOk result (λ works. checked rows.now ≡ Ok works) }
    ensures rows { IfOk result (AreRowsOf rows.now) }
    ensures works { IfOk result (λ works. AreWorks (next_number works) works) }
    ensures err { IfErr result (IsFaultOf (checked rows.now)) }
{
    let mut before = Before::new(alloc);
    for row in rows {
        let work = read_after(alloc, &before, row)?;
        before = before.with(alloc, work)?;
    }
    Ok(before.into_works())
}

/// The record of a row that is sound after these records, which are those of the rows before it.
///
/// `BadRow` with the row's number where it isn't in the grammar, else `Unsound` where it isn't sound
/// after these.
pub fn read_after(alloc: Global, before: &Before, row: &Row) -> Result<Record, RowFault>
    ensures ok { IfOk result (λ work. read_after before.now row.now ≡ Ok work) }
    ensures sound { IfOk result (λ work. is_sound_after before.now work ≡ true) }
    ensures err { IfErr result (IsFaultOf (read_after before.now row.now)) }
{
    let work = from_row(alloc, row)?;
    if before.is_sound(&work) {
        Ok(work)
    } else {
        Err(RowFault::Unsound { seq: row.seq })
    }
}
