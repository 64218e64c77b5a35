//! The record of the line of a row.
ghost use Rattle.std.specs.Prelude.{◌≡◌, true, IfOk, IfSome};
ghost use Rattle.wm_audit.specs.Places.{record_in};
ghost use Rattle.wm_rows.specs.Sound.{is_sound_after};

use std::alloc::{AllocError, Global};
use wm_audit_text::row_of;
use wm_machine::Record;
use wm_rows::{Before, RowFault, read_after};

/// The record of the line of a row, if it is spelled as one and sound after the rows of these records.
pub(crate) fn record_in(
    alloc: Global,
    before: &Before,
    line: &[u8],
) -> Result<Option<Record>, AllocError>
    ensures record { IfOk result (λ work. work ≡ record_in before.entry.now line.now) }
    ensures sound { IfOk result (λ work. IfSome work (λ work. is_sound_after before.entry.now work ≡ true)) }
{
    let Some(row) = row_of(alloc, line)? else {
        return Ok(None);
    };
    match read_after(alloc, before, &row) {
        Ok(work) => Ok(Some(work)),
        Err(RowFault::Memory) => Err(AllocError),
        Err(_) => Ok(None),
    }
}
