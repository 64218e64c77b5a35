//! The command that cancels works.
ghost use Rattle.std.specs.Prelude.{◌≡◌, count_by, IfOk, MatchOption, OnOk};
ghost use Rattle.wm_replay_commands.specs.Cancels.{IsAccepted, IsRefusedFor};
ghost use Rattle.wm_collections.specs.Lists.{AllLater};
ghost use Rattle.wm_machine.specs.Cancelled.{cancelled, cancelled_each, count_reached, is_cancellable, is_for, is_stored, targeted};
ghost use Rattle.wm_machine.specs.Closed.{with_works_closed};
ghost use Rattle.wm_machine.specs.Plan.{is_unfinished};
ghost use Rattle.wm_machine.specs.Valid.{IsBefore, Valid};
ghost use Rattle.wm_machine.specs.declared.state.State.{State};

use crate::closing_each::close_each;
use std::alloc::{AllocError, Global};
use uuid::Uuid;
use wm_collections::Items;
use wm_machine::{How, Record, Refusal, Reply, State, Target};
use wm_query::{has_tag, is_name};

/// The command that cancels the works that a target is for, each with its unfinished descendants,
/// and counts those that become cancelled. An id that no work has is refused.
pub fn cancel(alloc: Global, state: &mut State, target: &Target) -> Result<Reply, AllocError>
    requires valid { Valid state.old }
    ensures { IfOk result (λ reply. cancelled state.old target.entry.now ≡ record {
      reply = reply;
      state = state.new;
    }) }
{
    match refused_id(state.works.as_slice(), target) {
        Some(id) => Ok(Reply::Refused(Refusal::NoSuchWork { id })),
        None => cancel_each(alloc, state, target),
    }
}

/// Cancels the works that a target is for.
fn cancel_each(alloc: Global, state: &mut State, target: &Target) -> Result<Reply, AllocError>
    requires { AllLater IsBefore state.old.works }
    ensures { IfOk result (λ reply. cancelled_each state.old (targeted target.entry.now state.old.works) ≡ record {
      reply = reply;
      state = state.new;
    }) }
{
    let seqs = targeted(alloc, state.works.as_slice(), target)?;
    let count = cancel_numbered(alloc, state, seqs.as_slice())?;
    Ok(Reply::Cancelled(count))
}

/// Cancels the works of these numbers, and counts those that become cancelled.
fn cancel_numbered(alloc: Global, state: &mut State, seqs: &[u64]) -> Result<u64, AllocError>
    requires { AllLater IsBefore state.old.works }
    ensures count { IfOk result (λ count. count ≡ count_reached seqs.now state.old.works) }
    ensures state { OnOk result (state.new ≡ with_works_closed How.Cancelled seqs.now state.old) }
{
    let before = count_unfinished(state.works.as_slice());
    close_each(alloc, state, seqs, How::Cancelled)?;
    let left = count_unfinished(state.works.as_slice());
    Ok(before - left)
}

/// How many works are unfinished.
fn count_unfinished(works: &[Record]) -> u64
    ensures { result ≡ count_by is_unfinished works.entry.now }
{
    let mut count = 0;
    for work in works {
        if work.phase.is_open() {
            count += 1;
        }
    }
    count
}

/// The id for which a cancel is refused, since no work has it.
fn refused_id(works: &[Record], target: &Target) -> Option<Uuid>
    ensures { (s : State) → s.works ≡ works.entry.now
        → MatchOption result (IsAccepted s target.entry.now) (IsRefusedFor s target.entry.now) }
{
    match target {
        Target::Id(id) if !is_stored(works, *id) => Some(*id),
        Target::Id(_) => None,
        Target::Tag(_) => None,
        Target::Name(_) => None,
        Target::All => None,
    }
}

/// The numbers of the unfinished works that a target is for, ascending.
fn targeted(alloc: Global, works: &[Record], target: &Target) -> Result<Items<u64>, AllocError>
    ensures { IfOk result (λ numbers. numbers ≡ targeted target.entry.now works.entry.now) }
{
    let mut numbers = Items::new(alloc);
    for work in works {
        if is_cancellable(target, work) {
            numbers.push(work.seq)?;
        }
    }
    Ok(numbers)
}

/// Whether a target is for a work that is unfinished.
fn is_cancellable(target: &Target, work: &Record) -> bool
    ensures { result ≡ is_cancellable target.entry.now work.entry.now }
{
    work.phase.is_open() && is_for(target, work)
}

/// Whether a target is for a work.
fn is_for(target: &Target, work: &Record) -> bool
    ensures { result ≡ is_for target.entry.now work.entry.now }
{
    match target {
        Target::Id(id) => work.request.id() == *id,
        Target::Tag(tag) => has_tag(work.request.tags().as_slice(), tag),
        Target::Name(name) => is_name(name, &work.name),
        Target::All => true,
    }
}

/// Whether a record has this id.
fn is_stored(works: &[Record], id: Uuid) -> bool
    ensures { result ≡ is_stored works.entry.now id }
{
    works.iter().any(|work| work.request.id() == id)
}
