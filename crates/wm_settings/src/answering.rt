//! What is told of the works that a query asks for, which are found by the index of the view.
//!
//! After the guide's page "Managing work" (complex work queries). Where a query names ids, only the
//! works of these ids are looked at; else those of the names, or of the tags, that it names; and all
//! works where it names none of them.
ghost use Rattle.std.specs.List.{AllByRecursion};
ghost use Rattle.std.specs.Prelude.{◌≡◌, ◌∷◌, ◌++◌, [], filter, map, IfOk, OnOk};
ghost use Rattle.wm_machine.specs.Queried.{answer_to, matches};
ghost use Rattle.wm_machine.specs.Shown.{info_of};
ghost use Rattle.wm_settings.specs.Told.{infos_numbered, IsThere};

use crate::finding::{numbers_with_ids, numbers_with_names, numbers_with_tags};
use std::alloc::{AllocError, Global};
use wm_collections::Items;
use wm_machine::{Record, WorkInfo, WorkQuery};
use wm_query::{info, matches_work};
use wm_steps::View;

/// What is told of the works that a query asks for, in ascending number. Nothing is copied of the
/// others. Memory that is refused is the only error.
pub fn answer_to(
    alloc: Global,
    view: &View,
    query: &WorkQuery,
) -> Result<Items<WorkInfo>, AllocError>
    ensures { IfOk result (λ works. works ≡ answer_to view.entry.now query.entry.now) }
{
    let works = view.state.works.as_slice();
    if !query.ids.is_empty() {
        let numbers = numbers_with_ids(alloc, view, query.ids.as_slice())?;
        return told_of(alloc, view, query, numbers.as_slice());
    }
    if !query.names.is_empty() {
        let numbers = numbers_with_names(alloc, view, query.names.as_slice())?;
        return told_of(alloc, view, query, numbers.as_slice());
    }
    if !query.tags.is_empty() {
        let numbers = numbers_with_tags(alloc, view, query.tags.as_slice())?;
        return told_of(alloc, view, query, numbers.as_slice());
    }
    told_among(alloc, view, query, works)
}

/// What is told of those of the works of these numbers that a query asks for, in their order.
fn told_of(
    alloc: Global,
    view: &View,
    query: &WorkQuery,
    numbers: &[u64],
) -> Result<Items<WorkInfo>, AllocError>
    ensures { IfOk result (λ told. told
        ≡ filter (matches query.entry.now) (infos_numbered view.entry.now.works numbers.now)) }
{
    let mut told = Items::new(alloc);
    for number in numbers {
        add_numbered(alloc, &mut told, view, query, *number)?;
    }
    Ok(told)
}

/// What is told of those of these works that a query asks for, in their order.
fn told_among(
    alloc: Global,
    view: &View,
    query: &WorkQuery,
    works: &[Record],
) -> Result<Items<WorkInfo>, AllocError>
    requires { AllByRecursion (IsThere view.now.works) works.now }
    ensures { IfOk result (λ told. told
        ≡ filter (matches query.entry.now) (map (info_of view.entry.now.works) works.entry.now)) }
{
    let mut told = Items::new(alloc);
    for work in works {
        add_told(alloc, &mut told, view, query, work)?;
    }
    Ok(told)
}

/// Adds what is told of the work of a number, where there is one and a query asks for it.
fn add_numbered(
    alloc: Global,
    told: &mut Items<WorkInfo>,
    view: &View,
    query: &WorkQuery,
    number: u64,
) -> Result<(), AllocError>
    ensures { OnOk result (told.new ≡ told.old
        ++ filter (matches query.entry.now) (infos_numbered view.entry.now.works (number ∷ []))) }
{
    match view.work(number) {
        Some(work) => add_told(alloc, told, view, query, work),
        None => Ok(()),
    }
}

/// Adds what is told of a work, where a query asks for it.
fn add_told(
    alloc: Global,
    told: &mut Items<WorkInfo>,
    view: &View,
    query: &WorkQuery,
    work: &Record,
) -> Result<(), AllocError>
    requires { IsThere view.now.works work.now }
    ensures { OnOk result (told.new ≡ told.old
        ++ filter (matches query.entry.now) (info_of view.entry.now.works work.entry.now ∷ [])) }
{
    // what the type of a view keeps is known where a field of it is read
    let _reached = &view.state;
    let shown = view.shown_of(work);
    if !matches_work(query, work, shown) {
        return Ok(());
    }
    told.push(info(alloc, work, shown)?)?;
    Ok(())
}
