//! A batch is enqueued under a unique name.
//!
//! After the guide's page "Managing work" (unique work). What the policy of the name comes to is
//! planned first; then the works that are there are kept, or one of them is updated, or the batch is
//! checked and placed.
ghost use Rattle.std.specs.Prelude.{◌≡◌, ◌==◌, false, length, true, Some, None, IfErr, IfOk, IfSome, OnOk};
ghost use Rattle.wm_settings.specs.Builds.{IsExecuted};
ghost use Rattle.wm_commands.specs.Planned.{kind_refused_in};
ghost use Rattle.wm_machine.specs.Outcome.{IsLegalLine};
ghost use Rattle.wm_machine.specs.Enqueued.{plan_in};
ghost use Rattle.wm_machine.specs.Group.{members_of};
ghost use Rattle.wm_machine.specs.Plan.{is_appending};
ghost use Rattle.wm_steps.specs.Covers.{AreLast};
ghost use Rattle.wm_unique.specs.Plans.{grouped, plan_fields, AreNumbersOf, IsPlanFault};

use crate::enqueue::check_and_place;
use crate::member::update_member;
use std::alloc::{AllocError, Global};
use wm_changes::StepChange;
use wm_collections::Text;
use wm_machine::{Command, Policy, Refusal, Reply, UniqueName};
use wm_request::Batch;
use wm_settings::replying;
use wm_steps::View;
use wm_unique::{GroupPlan, PlanFault, plan};

/// What the enqueue of a batch under a unique name comes to.
pub fn execute(
    alloc: Global,
    view: &View,
    line: u32,
    unique: UniqueName,
    batch: Batch,
) -> Result<StepChange, AllocError>
    requires asked { IsLegalLine view.now (Command.Enqueue (Some unique) batch) }
    ensures { IfOk result (IsExecuted view.entry.now line (Command.Enqueue (Some unique) batch)) }
{
    let planned = planned(alloc, view, &unique, &batch);
    match planned {
        Ok(plan) => carry_out(alloc, view, line, unique, batch, plan),
        Err(fault) => not_planned(alloc, view, line, unique, batch, fault),
    }
}

/// Nothing is planned: a kind is refused, or memory was.
fn not_planned(
    alloc: Global,
    view: &View,
    line: u32,
    unique: UniqueName,
    batch: Batch,
    fault: PlanFault,
) -> Result<StepChange, AllocError>
    requires asked { IsLegalLine view.now (Command.Enqueue (Some unique) batch) }
    requires fault { IsPlanFault (kind_refused_in view.now unique batch.works) fault }
    ensures { IfOk result (IsExecuted view.entry.now line (Command.Enqueue (Some unique) batch)) }
{
    match fault {
        PlanFault::KindMismatch { id } => {
            let named = Some(unique);
            let command = Command::Enqueue { named, batch };
            let refusal = Refusal::KindMismatch { id };
            replying(alloc, view, line, command, Reply::Refused(refusal))
        }
        PlanFault::Memory => Err(AllocError),
    }
}

/// What the policy of the name comes to. Where it appends, the last works of the name mostly tell it.
fn planned(
    alloc: Global,
    view: &View,
    unique: &UniqueName,
    batch: &Batch,
) -> Result<GroupPlan, PlanFault>
    ensures ok { IfOk result (λ plan. plan ≡ plan_fields (plan_in view.entry.now unique.entry.now)) }
    ensures let_go { IfOk result (λ plan. AreNumbersOf view.entry.now.works plan.let_go) }
    ensures fits { OnOk result (kind_refused_in view.entry.now unique.entry.now batch.entry.now.works ≡ None) }
    ensures err { IfErr result (IsPlanFault (kind_refused_in view.entry.now unique.entry.now batch.entry.now.works)) }
{
    match unique.policy {
        Policy::Append | Policy::AppendOrReplace => planned_at_end(alloc, view, unique, batch),
        _ => planned_by_all(alloc, view, unique, batch),
    }
}

/// What the policy of the name comes to, which appends.
fn planned_at_end(
    alloc: Global,
    view: &View,
    unique: &UniqueName,
    batch: &Batch,
) -> Result<GroupPlan, PlanFault>
    requires appends { is_appending unique.now.policy ≡ true }
    ensures ok { IfOk result (λ plan. plan ≡ plan_fields (plan_in view.entry.now unique.entry.now)) }
    ensures let_go { IfOk result (λ plan. AreNumbersOf view.entry.now.works plan.let_go) }
    ensures fits { OnOk result (kind_refused_in view.entry.now unique.entry.now batch.entry.now.works ≡ None) }
    ensures err { IfErr result (IsPlanFault (kind_refused_in view.entry.now unique.entry.now batch.entry.now.works)) }
{
    // what the type of a view keeps is known where a field of it is read
    let _reached = &view.state;
    match planned_by_last(alloc, view, unique, batch) {
        Ok(Some(plan)) => Ok(plan),
        Ok(None) => planned_by_all(alloc, view, unique, batch),
        Err(fault) => Err(fault),
    }
}

/// What the policy of the name comes to, by all works of the name.
fn planned_by_all(
    alloc: Global,
    view: &View,
    unique: &UniqueName,
    batch: &Batch,
) -> Result<GroupPlan, PlanFault>
    ensures ok { IfOk result (λ plan. plan ≡ plan_fields (plan_in view.entry.now unique.entry.now)) }
    ensures let_go { IfOk result (λ plan. AreNumbersOf view.entry.now.works plan.let_go) }
    ensures fits { OnOk result (kind_refused_in view.entry.now unique.entry.now batch.entry.now.works ≡ None) }
    ensures err { IfErr result (IsPlanFault (kind_refused_in view.entry.now unique.entry.now batch.entry.now.works)) }
{
    let works = view.state.works.as_slice();
    let group = group_of(view, &unique.name);
    plan(alloc, works, group, unique.policy, batch)
}

/// What the policy of the name comes to, which appends, by the last works of the name. None where all
/// have to be looked at: the batch comes after none of them.
fn planned_by_last(
    alloc: Global,
    view: &View,
    unique: &UniqueName,
    batch: &Batch,
) -> Result<Option<GroupPlan>, PlanFault>
    requires appends { is_appending unique.now.policy ≡ true }
    ensures ok { IfOk result (λ found. IfSome found (λ plan. plan
        ≡ plan_fields (plan_in view.entry.now unique.entry.now))) }
    ensures fits { OnOk result (kind_refused_in view.entry.now unique.entry.now batch.entry.now.works ≡ None) }
    ensures err { IfErr result (IsPlanFault (kind_refused_in view.entry.now unique.entry.now batch.entry.now.works)) }
{
    let works = view.state.works.as_slice();
    let last = last_of(view, &unique.name);
    match plan(alloc, works, last, unique.policy, batch) {
        Ok(plan) => Ok(if_after(plan)),
        Err(fault) => Err(fault),
    }
}

/// A plan, where a batch comes after works by it.
fn if_after(plan: GroupPlan) -> Option<GroupPlan>
    ensures { IfSome result (λ found. (found ≡ plan) × ((length plan.after == 0) ≡ false)) }
{
    if plan.after.is_empty() {
        None
    } else {
        Some(plan)
    }
}

/// The group of a name, by the numbers of its works.
fn group_of<'a>(view: &'a View, name: &Text) -> &'a [u64]
    ensures numbers { AreNumbersOf view.now.works result.now }
    ensures members { grouped view.now.works result.now ≡ members_of view.now.works name.now }
{
    let _reached = &view.state;
    view.members(name)
}

/// The last works of a name, by their numbers, which have the leaves of its group.
fn last_of<'a>(view: &'a View, name: &Text) -> &'a [u64]
    ensures numbers { AreNumbersOf view.now.works result.now }
    ensures last { AreLast (members_of view.now.works name.now) result.now }
{
    let _reached = &view.state;
    view.last_members(name)
}

/// A plan is carried out whose kinds don't mismatch.
fn carry_out(
    alloc: Global,
    view: &View,
    line: u32,
    unique: UniqueName,
    batch: Batch,
    plan: GroupPlan,
) -> Result<StepChange, AllocError>
    requires asked { IsLegalLine view.now (Command.Enqueue (Some unique) batch) }
    requires planned { plan ≡ plan_fields (plan_in view.now unique) }
    requires let_go { AreNumbersOf view.now.works plan.let_go }
    requires fits { kind_refused_in view.now unique batch.works ≡ None }
    ensures { IfOk result (IsExecuted view.entry.now line (Command.Enqueue (Some unique) batch)) }
{
    if plan.kept {
        let named = Some(unique);
        let command = Command::Enqueue { named, batch };
        replying(alloc, view, line, command, Reply::Kept)
    } else if let Some(number) = plan.update {
        update_member(alloc, view, line, unique, batch, number)
    } else {
        check_and_place(alloc, view, line, Some(unique), batch, plan)
    }
}
