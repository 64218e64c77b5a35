//! What the policy of a unique name comes to, by the numbers of works, of `wm_unique`.
ghost use Rattle.std.specs.Int.{to_be_bytes, w128};
ghost use Rattle.std.specs.Prelude.{◌≡◌, [], ◌∷◌, length, IfOk, None};
ghost use Rattle.command_tests.specs.Waiting.{IsPlain};
ghost use Rattle.wm_collections.specs.Lists.{AllLater};
ghost use Rattle.wm_machine.specs.Valid.{IsBefore};
ghost use Rattle.wm_request.specs.Requests.{IsRequest};
ghost use Rattle.wm_request.specs.declared.request.NextRun.TheVariants.{Leave};
ghost use Rattle.wm_unique.specs.Plans.{AreNumbersOf};

use part_tests::requests::within;
use std::alloc::{AllocError, Global};
use std::process::Abort;
use std::test::Fail;
use uuid::Uuid;
use wm_collections::{Items, both, one};
use wm_data::Data;
use wm_machine::{How, Phase, Policy, Record};
use wm_request::{Batch, Builder, Node, Request};
use wm_unique::{GroupPlan, plan};

/// A request of one-time work with this number as its id.
pub fn request(alloc: Global, number: u64) -> Result<Request, AllocError>
    ensures within { IfOk result IsRequest }
    ensures id { IfOk result (λ request. request.id ≡ to_be_bytes w128 number) }
    ensures one_time { IfOk result (λ request. request.period ≡ None) }
    ensures leaves { IfOk result (λ request. request.next ≡ Leave) }
{
    let id = Uuid::from_u128(number as u128);
    let class = String::from_str(alloc, "Echo")?;
    within(Builder::one_time(alloc, id, class).build())
}

/// The record of a work of this number and request, without a name, in this phase, that comes after
/// these.
pub fn record_of(seq: u64, phase: Phase, prior: Items<u64>, request: Request) -> Record
    ensures number { result.seq ≡ seq }
    ensures unnamed { result.name ≡ None }
    ensures request { result.request ≡ request }
    ensures plain { IsPlain phase prior result }
{
    Record {
        seq,
        name: None,
        request,
        prior,
        phase,
        attempt: 1,
        backoff_n: 0,
        runs: 0,
        generation: 0,
        enqueued_at: 0,
        override_at: None,
        finished_at: 0,
        output: Data::empty(),
        progress: Data::empty(),
    }
}

/// The record of a work of this number, without a name, in this phase, that comes after these.
pub fn record(
    alloc: Global,
    seq: u64,
    phase: Phase,
    prior: Items<u64>,
) -> Result<Record, AllocError>
    ensures number { IfOk result (λ work. work.seq ≡ seq) }
    ensures unnamed { IfOk result (λ work. work.name ≡ None) }
    ensures id { IfOk result (λ work. work.request.id ≡ to_be_bytes w128 seq) }
    ensures request { IfOk result (λ work. IsRequest work.request) }
    ensures leaves { IfOk result (λ work. work.request.next ≡ Leave) }
    ensures plain { IfOk result (IsPlain phase prior) }
{
    let (prior, request) = both(prior, request(alloc, seq))?;
    Ok(record_of(seq, phase, prior, request))
}

/// A batch of one work, which names none.
fn batch(alloc: Global) -> Result<Batch, AllocError> {
    let request = request(alloc, 3)?;
    let after = Items::new(alloc);
    Ok(Batch::new(one(alloc, Node { request, after })?))
}

/// Work 2, in this phase, which comes after work 1.
fn second(alloc: Global, phase: Phase) -> Result<Record, AllocError>
    ensures number { IfOk result (λ work. work.seq ≡ 2) }
    ensures unnamed { IfOk result (λ work. work.name ≡ None) }
    ensures id { IfOk result (λ work. work.request.id ≡ to_be_bytes w128 2) }
{
    let prior = one(alloc, 1)?;
    record(alloc, 2, phase, prior)
}

/// Works 1 and 2 in these phases, of which the second comes after the first.
pub fn group(alloc: Global, phases: (Phase, Phase)) -> Result<Items<Record>, AllocError>
    ensures in_order { IfOk result (AllLater IsBefore) }
    ensures numbers { IfOk result (λ works. AreNumbersOf works (1 ∷ 2 ∷ [])) }
    ensures count { IfOk result (λ works. length works ≡ 2) }
{
    let mut works = Items::new(alloc);
    works.push(record(alloc, 1, phases.0, Items::new(alloc))?)?;
    works.push(second(alloc, phases.1)?)?;
    Ok(works)
}

/// Whether a plan keeps the works that are there, and the works that it cancels, lets go, and places
/// a batch after.
type Planned<'a> = (bool, &'a [u64], &'a [u64], &'a [u64]);

/// A plan that updates no work, and is so.
fn expect(rt: &impl Abort, plan: &GroupPlan, planned: Planned) {
    assert_eq!(rt; plan.kept, planned.0);
    assert_eq!(rt; plan.update, None);
    assert_eq!(rt; plan.cancel.as_slice(), planned.1);
    assert_eq!(rt; plan.let_go.as_slice(), planned.2);
    assert_eq!(rt; plan.after.as_slice(), planned.3);
}

/// A policy comes to this for a batch of one work, where works 1 and 2 are in these phases.
fn expect_planned(
    rt: &impl Abort,
    alloc: Global,
    phases: (Phase, Phase),
    policy: Policy,
    planned: Planned,
) -> Result<(), AllocError> {
    let works = group(alloc, phases)?;
    let (works, batch) = both(works, batch(alloc))?;
    let plan = plan(alloc, works.as_slice(), &[1, 2], policy, &batch);
    drop(batch);
    drop(works);
    assert!(rt; plan.is_ok());
    if let Ok(plan) = plan {
        expect(rt, &plan, planned);
    }
    Ok(())
}

#[test]
fn a_group_is_kept_or_replaced_or_appended_to(rt: HostRuntime) -> Result<(), Fail> {
    let alloc = rt.alloc();
    let succeeded = Phase::Done(How::Succeeded);
    let waits = (succeeded, Phase::Waiting);
    let failed = (succeeded, Phase::Done(How::Failed));
    let kept: Planned = (true, &[], &[], &[]);
    let let_go: Planned = (false, &[], &[1, 2], &[]);
    let cancelled: Planned = (false, &[2], &[1, 2], &[]);
    let appended: Planned = (false, &[], &[], &[2]);
    expect_planned(&rt, alloc, waits, Policy::Keep, kept)?;
    expect_planned(&rt, alloc, failed, Policy::Keep, let_go)?;
    expect_planned(&rt, alloc, waits, Policy::Append, appended)?;
    expect_planned(&rt, alloc, waits, Policy::Replace, cancelled)?;
    expect_planned(&rt, alloc, failed, Policy::AppendOrReplace, let_go)?;
    Ok(())
}
