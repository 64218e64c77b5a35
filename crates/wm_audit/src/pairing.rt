//! What is told of works before a step and after it.
ghost use Rattle.std.specs.List.{AllByRecursion};
ghost use Rattle.std.specs.Prelude.{◌≡◌, ◌++◌, find, filter, map, nat_le, IfOk, OnOk};
ghost use Rattle.wm_audit.specs.Happened.{new_pair, pair_with, pairs_with};
ghost use Rattle.wm_collections.specs.Lists.{AllLater};
ghost use Rattle.wm_machine.specs.Shown.{info_of};
ghost use Rattle.wm_machine.specs.Valid.{IsBefore, IsRecord};
ghost use Rattle.wm_observe.specs.Notes.{has_number};

use std::alloc::{AllocError, Global};
use wm_collections::{Items, Replica};
use wm_machine::{Record, WorkInfo, work_numbered};
use wm_observe::Pair;
use wm_query::{all_met, info};

/// What is told of each of these works, in ascending number.
pub(crate) fn infos(alloc: Global, works: &[Record]) -> Result<Items<WorkInfo>, AllocError>
    requires in_order { AllLater IsBefore works.now }
    requires records { AllByRecursion IsRecord works.now }
    ensures { IfOk result (λ infos. infos ≡ map (info_of works.entry.now) works.entry.now) }
{
    let mut infos = Items::new(alloc);
    for work in works {
        infos.push(info_of(alloc, works, work)?)?;
    }
    Ok(infos)
}

/// What is told of a work among these.
fn info_of(alloc: Global, works: &[Record], work: &Record) -> Result<WorkInfo, AllocError>
    requires in_order { AllLater IsBefore works.now }
    requires is_record { IsRecord work.now }
    ensures { IfOk result (λ info. info ≡ info_of works.entry.now work.entry.now) }
{
    info(alloc, work, work.phase.shown(all_met(works, work)))
}

/// What is told of the work of this number among these, if it is there.
fn info_numbered(
    alloc: Global,
    works: &[Record],
    number: u64,
) -> Result<Option<WorkInfo>, AllocError>
    requires in_order { AllLater IsBefore works.now }
    requires records { AllByRecursion IsRecord works.now }
    ensures { IfOk result (λ found. found ≡ find (has_number number) (map (info_of works.entry.now) works.entry.now)) }
{
    match work_numbered(works, number) {
        Some(work) => Ok(Some(info_of(alloc, works, work)?)),
        None => Ok(None),
    }
}

/// Each of these infos with what is told now of the same work, among these, and then what is told of
/// those works that are new: they have this number or a greater one.
pub(crate) fn pairs(
    alloc: Global,
    before: &[WorkInfo],
    next: u64,
    works: &[Record],
) -> Result<Items<Pair>, AllocError>
    requires in_order { AllLater IsBefore works.now }
    requires records { AllByRecursion IsRecord works.now }
    ensures { IfOk result (λ pairs. pairs
        ≡ pairs_with before.entry.now next (map (info_of works.entry.now) works.entry.now)) }
{
    let mut pairs = Items::new(alloc);
    add_known(alloc, &mut pairs, before, works)?;
    add_new(alloc, &mut pairs, next, works)?;
    Ok(pairs)
}

/// Adds each of these infos with what is told now of the same work.
fn add_known(
    alloc: Global,
    pairs: &mut Items<Pair>,
    before: &[WorkInfo],
    works: &[Record],
) -> Result<(), AllocError>
    requires in_order { AllLater IsBefore works.now }
    requires records { AllByRecursion IsRecord works.now }
    ensures { OnOk result (pairs.new ≡ pairs.old
        ++ map (pair_with (map (info_of works.entry.now) works.entry.now)) before.entry.now) }
{
    for info in before {
        pairs.push(known(alloc, info, works)?)?;
    }
    Ok(())
}

/// What was told of a work, and what is told of it now.
fn known(alloc: Global, before: &WorkInfo, works: &[Record]) -> Result<Pair, AllocError>
    requires in_order { AllLater IsBefore works.now }
    requires records { AllByRecursion IsRecord works.now }
    ensures { IfOk result (λ pair. pair ≡ pair_with (map (info_of works.entry.now) works.entry.now) before.entry.now) }
{
    let after = info_numbered(alloc, works, before.seq)?;
    Ok(Pair {
        before: Some(before.replica(alloc)?),
        after,
    })
}

/// Adds what is told of those works that have this number or a greater one.
fn add_new(
    alloc: Global,
    pairs: &mut Items<Pair>,
    next: u64,
    works: &[Record],
) -> Result<(), AllocError>
    requires in_order { AllLater IsBefore works.now }
    requires records { AllByRecursion IsRecord works.now }
    ensures { OnOk result (pairs.new ≡ pairs.old
        ++ map new_pair (filter (λ info. nat_le next info.seq) (map (info_of works.entry.now) works.entry.now))) }
{
    for work in works {
        if next <= work.seq {
            let info = info_of(alloc, works, work)?;
            pairs.push(Pair {
                before: None,
                after: Some(info),
            })?;
        }
    }
    Ok(())
}
