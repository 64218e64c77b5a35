//! Work that was running when its store was last used, and the rows that change as it waits again or as
//! they come into the form in which rows are kept.
ghost use Rattle.std.specs.List.{AllByRecursion};
ghost use Rattle.std.specs.Prelude.{◌≡◌, ◌++◌, ◌∷◌, [], map, List, IfOk, OnOk};
ghost use Rattle.wm_machine.specs.Opened.{reopened};
ghost use Rattle.wm_machine.specs.Rows.{AreRowsOf};
ghost use Rattle.wm_keeper.specs.declared.row.Row.{Row};
ghost use Rattle.wm_machine.specs.Valid.{IsRecord};
ghost use Rattle.wm_machine.specs.declared.record.Record.{Record};
ghost use Rattle.wm_opening.specs.Reopenings.{AreReopenings};

use std::alloc::{AllocError, Global};
use wm_collections::Items;
use wm_data::Data;
use wm_keeper::{Change, Row};
use wm_machine::{Phase, Record};
use wm_rows::{is_same, to_row};

/// The records of these rows, where those whose work was running wait again, and the changes of the
/// rows that aren't theirs then.
pub(crate) fn reopened(
    alloc: Global,
    rows: &[Row],
    works: Items<Record>,
) -> Result<(Items<Record>, Vec<Change>), AllocError>
    requires records { AllByRecursion IsRecord works }
    requires rows { AreRowsOf rows.now works }
    ensures works { IfOk result (λ both. both.0 ≡ map reopened works) }
    ensures changes { IfOk result (λ both. AreReopenings rows.now works both.1.items) }
{
    let mut elements = works.into_vec();
    let changes = reopen_each(alloc, rows, elements.as_mut_slice())?;
    Ok((Items::from_vec(elements), changes))
}

/// Has each record whose work was running wait again, and gives the changes of the rows, which stand
/// beside their records.
fn reopen_each(alloc: Global, rows: &[Row], works: &mut [Record]) -> Result<Vec<Change>, AllocError>
    requires records { AllByRecursion IsRecord works.old }
    requires rows { AreRowsOf rows.now works.old }
    ensures works { OnOk result (works.new ≡ map reopened works.old) }
    ensures changes { IfOk result (λ changes. AreReopenings rows.now works.old changes.items) }
{
    let mut changes = Vec::new(alloc);
    let mut index = 0;
    for work in works.iter_mut() {
        reopen(alloc, &rows[index], work, &mut changes)?;
        index += 1;
    }
    Ok(changes)
}

/// Has a record wait again where its work was running, and adds the change of the row that stands
/// beside it, where that isn't its row then.
fn reopen(
    alloc: Global,
    row: &Row,
    work: &mut Record,
    changes: &mut Vec<Change>,
) -> Result<(), AllocError>
    requires { IsRecord work.old }
    ensures work { OnOk result (work.new ≡ reopened work.old) }
    ensures changes { OnOk result ((rows : List Row) (works : List Record)
        → AreReopenings rows works changes.old.items
        → AreReopenings (rows ++ row.now ∷ []) (works ++ work.old ∷ []) changes.new.items) }
{
    wait_again(work);
    let now = to_row(alloc, work)?;
    let stays = is_same(row, &now);
    if stays {
        return Ok(());
    }
    changes.push(Change::Put(now))?;
    Ok(())
}

/// Has work that was running wait again, without progress.
fn wait_again(work: &mut Record)
    ensures { work.new ≡ reopened work.old }
{
    if matches!(work.phase, Phase::Running) {
        work.phase = Phase::Waiting;
    }
    work.progress = Data::empty();
}
