//! The numbers of the records that a change may tell another thing of.
ghost use Rattle.std.specs.Prelude.{◌≡◌, IfOk, OnOk};
ghost use Rattle.wm_collections.specs.Lists.{is_among};
ghost use Rattle.wm_observe.specs.Near.{is_near, is_near_any, is_near_replaced, HaveDiffering, IsWith};
ghost use Rattle.wm_changes.specs.StepChanges.{IsStepOf};

use std::alloc::{AllocError, Global};
use std::collections::BTreeSet;
use wm_changes::{Replacement, StepChange};
use wm_collections::add_each;
use wm_steps::View;

/// The numbers of the records of which a change may tell another thing: those that it touches, and
/// their dependents. Memory that is refused is the only error.
pub fn nearby(alloc: Global, view: &View, change: &StepChange) -> Result<BTreeSet<u64>, AllocError>
    requires { IsStepOf view.now change.now }
    ensures { IfOk result (HaveDiffering change.entry.now view.entry.now.works) }
{
    // what the type of a view keeps is known where a field of it is read
    let _reached = &view.state;
    let mut numbers = BTreeSet::new(alloc);
    add_near_each(&mut numbers, view, change.removed.as_slice())?;
    add_near_replaced(&mut numbers, view, change.told.as_slice())?;
    add_near_replaced(&mut numbers, view, change.replaced.as_slice())?;
    Ok(numbers)
}

/// Adds the numbers of the records that are put in the places of others, and those of their dependents.
fn add_near_replaced(
    numbers: &mut BTreeSet<u64>,
    view: &View,
    touched: &[Replacement],
) -> Result<(), AllocError>
    ensures { OnOk result (IsWith (is_near_replaced view.entry.now.works touched.entry.now) numbers.old numbers.new) }
{
    for replaced in touched {
        add_near(numbers, view, replaced.work.seq)?;
    }
    Ok(())
}

/// Adds these numbers, and those of their dependents.
fn add_near_each(
    numbers: &mut BTreeSet<u64>,
    view: &View,
    touched: &[u64],
) -> Result<(), AllocError>
    ensures { OnOk result (IsWith (is_near_any view.entry.now.works touched.entry.now) numbers.old numbers.new) }
{
    for number in touched {
        add_near(numbers, view, *number)?;
    }
    Ok(())
}

/// Adds a number, and those of its dependents.
fn add_near(numbers: &mut BTreeSet<u64>, view: &View, touched: u64) -> Result<(), AllocError>
    ensures { OnOk result (IsWith (is_near view.entry.now.works touched) numbers.old numbers.new) }
{
    let dependents = view.dependents(touched)?;
    numbers.insert(touched)?;
    add_each(numbers, dependents.as_slice())
}
