//! The commands that tell of the works that a query asks for.
ghost use Rattle.std.specs.List.{AllByRecursion};
ghost use Rattle.std.specs.Prelude.{◌≡◌, ◌∷◌, ◌++◌, [], filter, map, IfOk, OnOk};
ghost use Rattle.wm_collections.specs.Lists.{AllLater};
ghost use Rattle.wm_machine.specs.Observed.{observed};
ghost use Rattle.wm_machine.specs.Queried.{answer_to, matches};
ghost use Rattle.wm_machine.specs.Shown.{info_of};
ghost use Rattle.wm_machine.specs.Valid.{IsBefore, IsRecord, Valid};

use crate::counts::shown_of;
use std::alloc::{AllocError, Global};
use wm_collections::{Items, Replica};
use wm_machine::{Record, Refusal, Reply, State, WorkInfo, WorkQuery};
use wm_query::{info, matches_work};

/// The most observers that there are.
const MAX_OBSERVERS: u64 = 100;

/// The command that asks for works, which tells of those that match. It changes nothing.
pub fn query(alloc: Global, state: &State, query: &WorkQuery) -> Result<Reply, AllocError>
    requires valid { Valid state.now }
    ensures { IfOk result (λ reply. reply ≡ Reply.Query (answer_to state.entry.now query.entry.now)) }
{
    Ok(Reply::Query(answer_to(alloc, state, query)?))
}

/// The command that observes works, which gives the observer's number and tells of the works that
/// match. Beside 100 observers it is refused.
pub fn observe(alloc: Global, state: &mut State, query: &WorkQuery) -> Result<Reply, AllocError>
    requires valid { Valid state.old }
    ensures { IfOk result (λ reply. observed state.old query.entry.now ≡ record {
      reply = reply;
      state = state.new;
    }) }
{
    let count = state.observers.len() as u64;
    if count >= MAX_OBSERVERS {
        return Ok(Reply::Refused(Refusal::TooManyObservers { count }));
    }
    let works = answer_to(alloc, state, query)?;
    state.observers.push(query.replica(alloc)?)?;
    Ok(Reply::Observing {
        observer: count as u32 + 1,
        works,
    })
}

/// What is told of the works that a query asks for, in ascending number.
#[tactic(auto, unfolding(wm_machine::specs::Shown::infos_of))]
fn answer_to(alloc: Global, state: &State, query: &WorkQuery) -> Result<Items<WorkInfo>, AllocError>
    requires valid { Valid state.now }
    ensures { IfOk result (λ told. told ≡ answer_to state.entry.now query.entry.now) }
{
    told_among(alloc, state.works.as_slice(), query)
}

/// What is told of those of these works that a query asks for, in their order.
fn told_among(
    alloc: Global,
    works: &[Record],
    query: &WorkQuery,
) -> Result<Items<WorkInfo>, AllocError>
    requires in_order { AllLater IsBefore works.now }
    requires records { AllByRecursion IsRecord works.now }
    ensures { IfOk result (λ told. told
        ≡ filter (matches query.entry.now) (map (info_of works.entry.now) works.entry.now)) }
{
    let mut told = Items::new(alloc);
    for work in works {
        add_told(alloc, &mut told, works, query, work)?;
    }
    Ok(told)
}

/// Adds what is told of a work among these, where a query asks for it.
fn add_told(
    alloc: Global,
    told: &mut Items<WorkInfo>,
    works: &[Record],
    query: &WorkQuery,
    work: &Record,
) -> Result<(), AllocError>
    requires in_order { AllLater IsBefore works.now }
    requires is_record { IsRecord work.now }
    ensures { OnOk result (told.new ≡ told.old
        ++ filter (matches query.entry.now) (info_of works.entry.now work.entry.now ∷ [])) }
{
    let shown = shown_of(works, work);
    if !matches_work(query, work, shown) {
        return Ok(());
    }
    told.push(info(alloc, work, shown)?)?;
    Ok(())
}
