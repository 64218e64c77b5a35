//! The changes of the rows that a step makes.
ghost use Rattle.std.specs.Prelude.{◌≡◌, ◌^◌, ◌<◌, ◌++◌, map, IfOk, OnOk};
ghost use Rattle.std.specs.List.{AllByRecursion};
ghost use Rattle.wm_machine.specs.Limits.{FitsRow};
ghost use Rattle.wm_changes.specs.StepChanges.{put_replaced, put_work, remove_numbered, row_changes};

use std::alloc::{AllocError, Global};
use wm_changes::{Replacement, StepChange};
use wm_keeper::Change;
use wm_machine::Record;
use wm_rows::to_row;

/// The changes of the rows of the records that are replaced, removed and placed. What is told
/// changes no row.
pub fn row_changes(alloc: Global, change: &StepChange) -> Result<Vec<Change>, AllocError>
    requires replaced { AllByRecursion (λ replaced. FitsRow replaced.work) change.now.replaced }
    requires removed { AllByRecursion (λ number. number < 2 ^ 53) change.now.removed }
    requires placed { AllByRecursion FitsRow change.now.placed }
    ensures { IfOk result (λ changes. changes.items ≡ row_changes change.now) }
{
    let mut changes = Vec::new(alloc);
    put_replaced(alloc, &mut changes, change.replaced.as_slice())?;
    remove_numbered(&mut changes, change.removed.as_slice())?;
    put_placed(alloc, &mut changes, change.placed.as_slice())?;
    Ok(changes)
}

/// Adds the rows of records that are replaced.
fn put_replaced(
    alloc: Global,
    changes: &mut Vec<Change>,
    replaced: &[Replacement],
) -> Result<(), AllocError>
    requires { AllByRecursion (λ replaced. FitsRow replaced.work) replaced.now }
    ensures { OnOk result (changes.new.items ≡ changes.old.items ++ map put_replaced replaced.now) }
{
    for replacement in replaced {
        changes.push(Change::Put(to_row(alloc, &replacement.work)?))?;
    }
    Ok(())
}

/// Adds that the rows of these numbers are removed.
fn remove_numbered(changes: &mut Vec<Change>, numbers: &[u64]) -> Result<(), AllocError>
    requires { AllByRecursion (λ number. number < 2 ^ 53) numbers.now }
    ensures { OnOk result (changes.new.items ≡ changes.old.items ++ map remove_numbered numbers.now) }
{
    for number in numbers {
        changes.push(Change::Remove(*number as i64))?;
    }
    Ok(())
}

/// Adds the rows of new records.
fn put_placed(alloc: Global, changes: &mut Vec<Change>, works: &[Record]) -> Result<(), AllocError>
    requires { AllByRecursion FitsRow works.now }
    ensures { OnOk result (changes.new.items ≡ changes.old.items ++ map put_work works.now) }
{
    for work in works {
        changes.push(Change::Put(to_row(alloc, work)?))?;
    }
    Ok(())
}
