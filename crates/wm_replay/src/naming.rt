//! A batch is enqueued under a unique name.
//!
//! After the guide's page "Managing work" (unique work). What the policy of the name comes to is
//! planned first; then the works that are there are kept, or one of them is updated, or the batch is
//! checked and placed.
ghost use Rattle.std.specs.Prelude.{◌≡◌, None, Some, IfErr, IfOk, OnOk};
ghost use Rattle.wm_collections.specs.Lists.{AllLater};
ghost use Rattle.wm_machine.specs.Enqueued.{enqueued, plan_in};
ghost use Rattle.wm_machine.specs.Group.{members_of, numbers_in};
ghost use Rattle.wm_machine.specs.Valid.{IsBefore, Valid};
ghost use Rattle.wm_replay.specs.Planned.{kind_refused_in, IsReplyToFault};
ghost use Rattle.wm_unique.specs.Plans.{grouped, plan_fields, AreNumbersOf, IsPlanFault};

use crate::checking::check_and_place;
use crate::members::update_member;
use std::alloc::{AllocError, Global};
use wm_collections::{Items, Text};
use wm_machine::{Record, Refusal, Reply, State, UniqueName};
use wm_query::is_name;
use wm_request::Batch;
use wm_unique::{GroupPlan, PlanFault, plan};

/// The enqueue of a batch under a unique name.
pub fn enqueue_named(
    alloc: Global,
    state: &mut State,
    named: &Option<UniqueName>,
    unique: &UniqueName,
    batch: &Batch,
) -> Result<Reply, AllocError>
    requires valid { Valid state.old }
    requires named { named.now ≡ Some unique.now }
    ensures { IfOk result (λ reply. enqueued state.old (Some unique.entry.now) batch.entry.now.works ≡ record {
      reply = reply;
      state = state.new;
    }) }
{
    match planned(alloc, state, unique, batch) {
        Ok(plan) => carry_out(alloc, state, named, unique, batch, &plan),
        Err(fault) => fault_reply(fault),
    }
}

/// The reply where nothing is planned, unless memory was refused.
fn fault_reply(fault: PlanFault) -> Result<Reply, AllocError>
    ensures { IfOk result (IsReplyToFault fault) }
{
    match fault {
        PlanFault::KindMismatch { id } => Ok(Reply::Refused(Refusal::KindMismatch { id })),
        PlanFault::Memory => Err(AllocError),
    }
}

/// What the policy of the name comes to.
fn planned(
    alloc: Global,
    state: &State,
    unique: &UniqueName,
    batch: &Batch,
) -> Result<GroupPlan, PlanFault>
    requires valid { Valid state.now }
    ensures ok { IfOk result (λ plan. plan ≡ plan_fields (plan_in state.entry.now unique.entry.now)) }
    ensures fits { OnOk result (kind_refused_in state.entry.now unique.entry.now batch.entry.now.works ≡ None) }
    ensures err { IfErr result (IsPlanFault (kind_refused_in state.entry.now unique.entry.now batch.entry.now.works)) }
{
    let works = state.works.as_slice();
    let group = members(alloc, works, &unique.name)?;
    plan(alloc, works, group.as_slice(), unique.policy, batch)
}

/// The numbers of the works of a name.
fn members(alloc: Global, works: &[Record], name: &Text) -> Result<Items<u64>, AllocError>
    requires { AllLater IsBefore works.now }
    ensures numbers { IfOk result (AreNumbersOf works.now) }
    ensures members { IfOk result (λ group. grouped works.now group ≡ members_of works.now name.now) }
{
    numbers_of_name(alloc, works, name)
}

/// The numbers of the works of a name.
fn numbers_of_name(alloc: Global, works: &[Record], name: &Text) -> Result<Items<u64>, AllocError>
    ensures { IfOk result (λ numbers. numbers ≡ numbers_in (members_of works.now name.now)) }
{
    let mut numbers = Items::new(alloc);
    for work in works {
        if is_name(name, &work.name) {
            numbers.push(work.seq)?;
        }
    }
    Ok(numbers)
}

/// Carries out a plan whose kinds don't mismatch.
fn carry_out(
    alloc: Global,
    state: &mut State,
    named: &Option<UniqueName>,
    unique: &UniqueName,
    batch: &Batch,
    plan: &GroupPlan,
) -> Result<Reply, AllocError>
    requires valid { Valid state.old }
    requires named { named.now ≡ Some unique.now }
    requires planned { plan.now ≡ plan_fields (plan_in state.old unique.now) }
    requires fits { kind_refused_in state.old unique.now batch.now.works ≡ None }
    ensures { IfOk result (λ reply. enqueued state.old (Some unique.entry.now) batch.entry.now.works ≡ record {
      reply = reply;
      state = state.new;
    }) }
{
    if plan.kept {
        Ok(Reply::Kept)
    } else if let Some(number) = plan.update {
        update_member(alloc, state, unique, batch, number)
    } else {
        check_and_place(alloc, state, named, batch, plan)
    }
}
