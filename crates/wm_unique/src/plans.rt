//! What the policy of a unique name comes to.
ghost use Rattle.std.specs.List.{list_any};
ghost use Rattle.std.specs.Prelude.{◌≡◌, [], None, IfErr, IfOk, OnOk};
ghost use Rattle.wm_collections.specs.Lists.{AllLater};
ghost use Rattle.wm_machine.specs.Group.{leaves_of, numbers_in};
ghost use Rattle.wm_machine.specs.Plan as planned;
ghost use Rattle.wm_machine.specs.Plan.{is_lost, placed_freely, plan_of, replacing};
ghost use Rattle.wm_machine.specs.Valid.{IsBefore};
ghost use Rattle.wm_unique.specs.Plans.{AreNumbersOf, grouped, IsPlanFault, kind_refused, plan_fields, update_fields};

use crate::kinds::mismatch;
use crate::members::{all, any_lost, any_unfinished, first_unfinished, leaves, unfinished};
use std::alloc::{AllocError, Global};
use uuid::Uuid;
use wm_collections::Items;
use wm_machine::{Policy, Record};
use wm_request::Batch;

/// What the policy of a unique name comes to, by the numbers of works. Where nothing is kept and
/// none updated, the batch is placed.
#[derive(Debug, Drop)]
pub struct GroupPlan {
    /// The works that are there are kept, and the batch isn't placed.
    pub kept: bool,
    /// The work that is updated, in place of the batch being placed.
    pub update: Option<u64>,
    /// The works that are cancelled before, ascending.
    pub cancel: Items<u64>,
    /// The works that are let go before, ascending.
    pub let_go: Items<u64>,
    /// The works after which each work of the batch comes that names none, ascending.
    pub after: Items<u64>,
}

/// Why nothing is planned.
#[derive(Clone, Copy, Debug, PartialEq, Eq)]
pub enum PlanFault {
    /// The work of this id is one-time or periodic where the policy can't take it.
    KindMismatch { id: Uuid },
    /// Memory was refused.
    Memory,
}

impl From<AllocError> for PlanFault {
    ghost use Rattle.wm_unique.specs.declared.plans.PlanFault.TheVariants.{Memory};

    ghost from_gives = { λ _ fault. fault ≡ Memory };

    fn from(_refused: AllocError) -> PlanFault {
        PlanFault::Memory
    }
}

impl GroupPlan {
    /// A batch is placed, and nothing becomes of other works. It takes no memory.
    pub fn free(alloc: Global) -> GroupPlan
        ensures { result ≡ plan_fields (planned.Places placed_freely) }
    {
        GroupPlan {
            kept: false,
            update: None,
            cancel: Items::new(alloc),
            let_go: Items::new(alloc),
            after: Items::new(alloc),
        }
    }
    /// Nothing changes.
    fn keeping(alloc: Global) -> GroupPlan
        ensures { result ≡ plan_fields planned.Keeps }
    {
        let mut plan = GroupPlan::free(alloc);
        plan.kept = true;
        plan
    }

    /// The work of this number is updated.
    fn updating(alloc: Global, number: u64) -> GroupPlan
        ensures { result ≡ update_fields number }
    {
        let mut plan = GroupPlan::free(alloc);
        plan.update = Some(number);
        plan
    }

    /// A batch is placed after these works.
    fn after(alloc: Global, leaves: Items<u64>) -> GroupPlan
        ensures { result ≡ plan_fields
            (planned.Places (record { cancel = []; let_go = []; after = leaves })) }
    {
        let mut plan = GroupPlan::free(alloc);
        plan.after = leaves;
        plan
    }
}

/// The unfinished members are cancelled, and all are let go.
fn replacing(alloc: Global, works: &[Record], group: &[u64]) -> Result<GroupPlan, AllocError>
    requires in_order { AllLater IsBefore works.now }
    requires group { AreNumbersOf works.now group.now }
    ensures { IfOk result (λ plan. plan ≡ plan_fields (planned.Places (replacing (grouped works.now group.now)))) }
{
    Ok(GroupPlan {
        kept: false,
        update: None,
        cancel: unfinished(alloc, works, group)?,
        let_go: all(alloc, group)?,
        after: Items::new(alloc),
    })
}

/// Whether a leaf has failed or was cancelled.
fn any_leaf_lost(works: &[Record], group: &[u64], leaves: &[u64]) -> bool
    requires in_order { AllLater IsBefore works.now }
    requires leaves { leaves.now ≡ numbers_in (leaves_of (grouped works.now group.now)) }
    ensures { result ≡ list_any (λ work. is_lost work.phase) (leaves_of (grouped works.now group.now)) }
{
    any_lost(works, leaves)
}

fn keep(alloc: Global, works: &[Record], group: &[u64]) -> Result<GroupPlan, AllocError>
    requires in_order { AllLater IsBefore works.now }
    requires group { AreNumbersOf works.now group.now }
    ensures { IfOk result (λ plan. plan ≡ plan_fields (plan_of Policy.Keep (grouped works.now group.now))) }
{
    if any_unfinished(works, group) {
        Ok(GroupPlan::keeping(alloc))
    } else {
        replacing(alloc, works, group)
    }
}

fn append(alloc: Global, works: &[Record], group: &[u64]) -> Result<GroupPlan, AllocError>
    requires in_order { AllLater IsBefore works.now }
    requires group { AreNumbersOf works.now group.now }
    ensures { IfOk result (λ plan. plan ≡ plan_fields (plan_of Policy.Append (grouped works.now group.now))) }
{
    Ok(GroupPlan::after(alloc, leaves(alloc, works, group)?))
}

fn append_or_replace(
    alloc: Global,
    works: &[Record],
    group: &[u64],
) -> Result<GroupPlan, AllocError>
    requires in_order { AllLater IsBefore works.now }
    requires group { AreNumbersOf works.now group.now }
    ensures { IfOk result (λ plan. plan ≡ plan_fields (plan_of Policy.AppendOrReplace (grouped works.now group.now))) }
{
    let leaves = leaves(alloc, works, group)?;
    if any_leaf_lost(works, group, leaves.as_slice()) {
        replacing(alloc, works, group)
    } else {
        Ok(GroupPlan::after(alloc, leaves))
    }
}

fn update(alloc: Global, works: &[Record], group: &[u64]) -> Result<GroupPlan, AllocError>
    requires in_order { AllLater IsBefore works.now }
    requires group { AreNumbersOf works.now group.now }
    ensures { IfOk result (λ plan. plan ≡ plan_fields (plan_of Policy.Update (grouped works.now group.now))) }
{
    match first_unfinished(works, group) {
        Some(number) => Ok(GroupPlan::updating(alloc, number)),
        None => replacing(alloc, works, group),
    }
}

/// What a policy comes to, whatever the kinds of the works are.
fn plan_by(
    alloc: Global,
    works: &[Record],
    group: &[u64],
    policy: Policy,
) -> Result<GroupPlan, AllocError>
    requires in_order { AllLater IsBefore works.now }
    requires group { AreNumbersOf works.now group.now }
    ensures { IfOk result (λ plan. plan ≡ plan_fields (plan_of policy (grouped works.now group.now))) }
{
    match policy {
        Policy::Keep => keep(alloc, works, group),
        Policy::Replace => replacing(alloc, works, group),
        Policy::CancelAndReenqueue => replacing(alloc, works, group),
        Policy::Append => append(alloc, works, group),
        Policy::AppendOrReplace => append_or_replace(alloc, works, group),
        Policy::Update => update(alloc, works, group),
    }
}

/// What the policy of a unique name comes to, by the members of its group, which are given by their
/// numbers, and the batch. `KindMismatch` where the policy can't take their kinds, unless it keeps
/// the members as they are: its id is that of the first periodic work of the batch, where it has
/// more works or the policy appends; else that of its first work, where it has no periodic one and
/// the policy is for periodic work alone; else that of the first member that is periodic where the
/// policy appends, or one-time where it updates.
pub fn plan(
    alloc: Global,
    works: &[Record],
    group: &[u64],
    policy: Policy,
    batch: &Batch,
) -> Result<GroupPlan, PlanFault>
    requires in_order { AllLater IsBefore works.now }
    requires group { AreNumbersOf works.now group.now }
    ensures ok { IfOk result (λ plan. plan ≡ plan_fields (plan_of policy (grouped works.now group.now))) }
    ensures fits { OnOk result (kind_refused policy (grouped works.now group.now) batch.now.works ≡ None) }
    ensures err { IfErr result (IsPlanFault (kind_refused policy (grouped works.now group.now) batch.now.works)) }
{
    let plan = plan_by(alloc, works, group, policy)?;
    if plan.kept {
        return Ok(plan);
    }
    match mismatch(policy, works, group, batch.works().as_slice()) {
        Some(id) => Err(PlanFault::KindMismatch { id }),
        None => Ok(plan),
    }
}
