//! What the observers are told of a step, made before the step is carried out. Only the records that
//! the change touches, or whose prerequisites it touches, are looked up and compared.
ghost use Rattle.std.specs.List.{AllByRecursion};
ghost use Rattle.std.specs.Option.{option_copied};
ghost use Rattle.std.specs.Prelude.{◌≡◌, ◌++◌, ◌∷◌, [], filter, map, option_map, Some, IfOk, OnOk};
ghost use Rattle.wm_machine.specs.First.{all_met, has_succeeded};
ghost use Rattle.wm_machine.specs.Input.{work_numbered};
ghost use Rattle.wm_machine.specs.Shown.{info_of};
ghost use Rattle.wm_machine.specs.Valid.{IsRecord};
ghost use Rattle.wm_observe.specs.Compared.{compared_pairs, may_differ, new_pair, pair_at, succeeds, StaysRecord};
ghost use Rattle.wm_observe.specs.Near.{HaveDiffering};
ghost use Rattle.wm_observe.specs.Notes.{notes_between};
ghost use Rattle.wm_observe.specs.Put.{ArePlacesOf};
ghost use Rattle.wm_steps.specs.Numbers.{numbered};
ghost use Rattle.wm_changes.specs.StepChanges.{changed_state, IsStepOf};
ghost use Rattle.wm_changes.specs.Touched.{then_of};

use crate::nearby::nearby;
use crate::note::{Note, Pair};
use crate::noting::notes;
use crate::places::{Places, places_of, then_of};
use std::alloc::{AllocError, Global};
use std::collections::BTreeSet;
use wm_changes::StepChange;
use wm_collections::{Items, both};
use wm_machine::{Record, WorkInfo};
use wm_query::{has_succeeded, info};
use wm_steps::View;

/// What the observers of a state are told of the step of a change. Without an observer nothing is
/// compared, and no memory is taken.
pub fn step_notes(
    alloc: Global,
    view: &View,
    change: &StepChange,
) -> Result<Items<Note>, AllocError>
    requires { IsStepOf view.now change.now }
    ensures { IfOk result (λ told. told
        ≡ notes_between view.entry.now (changed_state change.entry.now view.entry.now)) }
{
    let observers = view.state.observers.as_slice();
    if observers.is_empty() {
        return Ok(Items::new(alloc));
    }
    let pairs = compared_pairs(alloc, view, change)?;
    notes(alloc, observers, pairs.as_slice())
}

/// What is told before and after of each record of which it may differ, and then of each new one.
fn compared_pairs(
    alloc: Global,
    view: &View,
    change: &StepChange,
) -> Result<Items<Pair>, AllocError>
    requires step { IsStepOf view.now change.now }
    ensures { IfOk result (λ pairs. pairs ≡ compared_pairs change.entry.now view.entry.now) }
{
    // what the type of a view keeps is known where a field of it is read
    let _reached = &view.state;
    let places = places_of(alloc, change)?;
    let numbers = nearby(alloc, view, change)?;
    let mut pairs = Items::new(alloc);
    add_old(alloc, &mut pairs, view, change, &places, &numbers)?;
    add_new(
        alloc,
        &mut pairs,
        view,
        change,
        &places,
        change.placed.as_slice(),
    )?;
    Ok(pairs)
}

/// Adds what is told before and after of each record of which it may differ, which are those of these
/// numbers.
fn add_old(
    alloc: Global,
    pairs: &mut Items<Pair>,
    view: &View,
    change: &StepChange,
    places: &Places,
    numbers: &BTreeSet<u64>,
) -> Result<(), AllocError>
    requires step { IsStepOf view.now change.now }
    requires places { ArePlacesOf change.now places.now }
    requires numbers { HaveDiffering change.now view.now.works numbers.now }
    ensures { OnOk result (pairs.new ≡ pairs.old ++ map
        (pair_at change.entry.now view.entry.now.works (changed_state change.entry.now view.entry.now).works)
        (filter (may_differ change.entry.now) view.entry.now.works)) }
{
    let _reached = &view.state;
    for number in numbers {
        add_numbered(alloc, pairs, view, change, places, *number)?;
    }
    Ok(())
}

/// Adds what is told before and after of the record of a number, where it is there.
fn add_numbered(
    alloc: Global,
    pairs: &mut Items<Pair>,
    view: &View,
    change: &StepChange,
    places: &Places,
    number: u64,
) -> Result<(), AllocError>
    requires step { IsStepOf view.now change.now }
    requires places { ArePlacesOf change.now places.now }
    ensures { OnOk result (pairs.new ≡ pairs.old ++ map
        (pair_at change.entry.now view.entry.now.works (changed_state change.entry.now view.entry.now).works)
        (numbered view.entry.now.works (number ∷ []))) }
{
    let _reached = &view.state;
    match view.work(number) {
        Some(work) => {
            pairs.push(pair_at(alloc, view, change, places, work)?)?;
            Ok(())
        }
        None => Ok(()),
    }
}

/// Adds what is told of each of these new records.
fn add_new(
    alloc: Global,
    pairs: &mut Items<Pair>,
    view: &View,
    change: &StepChange,
    places: &Places,
    placed: &[Record],
) -> Result<(), AllocError>
    requires step { IsStepOf view.now change.now }
    requires places { ArePlacesOf change.now places.now }
    requires records { AllByRecursion IsRecord placed.now }
    ensures { OnOk result (pairs.new ≡ pairs.old
        ++ map (new_pair (changed_state change.entry.now view.entry.now).works) placed.entry.now) }
{
    for work in placed {
        let after = info_then(alloc, view, change, places, work)?;
        pairs.push(Pair {
            before: None,
            after: Some(after),
        })?;
    }
    Ok(())
}

/// What is told of a record before and after the change.
fn pair_at(
    alloc: Global,
    view: &View,
    change: &StepChange,
    places: &Places,
    work: &Record,
) -> Result<Pair, AllocError>
    requires step { IsStepOf view.now change.now }
    requires places { ArePlacesOf change.now places.now }
    requires there { work_numbered work.now.seq view.now.works ≡ Some work.now }
    requires record { StaysRecord change.now work.now }
    ensures { IfOk result (λ pair. pair ≡ pair_at change.entry.now view.entry.now.works
        (changed_state change.entry.now view.entry.now).works work.entry.now) }
{
    let before = info_now(alloc, view, work)?;
    let after = info_after(alloc, view, change, places, work);
    let (before, after) = both(before, after)?;
    Ok(Pair {
        before: Some(before),
        after,
    })
}

/// What is told of a record before the change.
fn info_now(alloc: Global, view: &View, work: &Record) -> Result<WorkInfo, AllocError>
    requires there { work_numbered work.now.seq view.now.works ≡ Some work.now }
    requires record { IsRecord work.now }
    ensures { IfOk result (λ info. info ≡ info_of view.entry.now.works work.entry.now) }
{
    info(alloc, work, view.shown_of(work))
}

/// What is told of a record after the change; nothing where it is removed.
fn info_after(
    alloc: Global,
    view: &View,
    change: &StepChange,
    places: &Places,
    work: &Record,
) -> Result<Option<WorkInfo>, AllocError>
    requires step { IsStepOf view.now change.now }
    requires places { ArePlacesOf change.now places.now }
    requires record { StaysRecord change.now work.now }
    ensures { IfOk result (λ info. info
        ≡ option_map (info_of (changed_state change.entry.now view.entry.now).works)
        (then_of change.entry.now work.entry.now)) }
{
    match then_of(change, places, work) {
        Some(then) => Ok(Some(info_then(alloc, view, change, places, then)?)),
        None => Ok(None),
    }
}

/// What is told of a record that is there after the change.
fn info_then(
    alloc: Global,
    view: &View,
    change: &StepChange,
    places: &Places,
    then: &Record,
) -> Result<WorkInfo, AllocError>
    requires step { IsStepOf view.now change.now }
    requires places { ArePlacesOf change.now places.now }
    requires record { IsRecord then.now }
    ensures { IfOk result (λ info. info
        ≡ info_of (changed_state change.entry.now view.entry.now).works then.entry.now) }
{
    let shown = then.phase.shown(all_met_then(view, change, places, then));
    info(alloc, then, shown)
}

/// Whether every prerequisite of a work has succeeded after the change.
#[tactic(auto, unfolding(wm_machine::specs::First::all_met))]
fn all_met_then(view: &View, change: &StepChange, places: &Places, work: &Record) -> bool
    requires step { IsStepOf view.now change.now }
    requires places { ArePlacesOf change.now places.now }
    ensures { result ≡ all_met (changed_state change.now view.now).works work.now }
{
    work.prior
        .as_slice()
        .iter()
        .all(|number| has_succeeded_then(view, change, places, *number))
}

/// Whether the record of this number has succeeded after the change.
fn has_succeeded_then(view: &View, change: &StepChange, places: &Places, number: u64) -> bool
    requires step { IsStepOf view.now change.now }
    requires places { ArePlacesOf change.now places.now }
    ensures { result ≡ has_succeeded (changed_state change.now view.now).works number }
{
    let _reached = &view.state;
    match view.work(number) {
        Some(work) => succeeds(change, places, work),
        None => has_succeeded(change.placed.as_slice(), number),
    }
}

/// Whether a record is there after the change, and has succeeded.
fn succeeds(change: &StepChange, places: &Places, work: &Record) -> bool
    requires { ArePlacesOf change.now places.now }
    ensures { result ≡ succeeds (then_of change.now work.now) }
{
    match then_of(change, places, work) {
        Some(then) => then.phase.is_succeeded(),
        None => false,
    }
}
