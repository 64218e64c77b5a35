//! The checks of an enqueue, of `wm_unique`, where several of them refuse a batch.
ghost use Rattle.std.specs.Int.{to_be_bytes, w128};
ghost use Rattle.std.specs.Prelude.{◌≡◌, ◌||◌, ◌^◌, ◌≤◌, filter, length, IfOk};
ghost use Rattle.std.specs.Str.{bytes_eq};
ghost use Rattle.command_tests.specs.Waiting.{AreWaiting, IsNumbered};
ghost use Rattle.wm_collections.specs.Lists.{AllLater};
ghost use Rattle.wm_machine.specs.Group.{numbers_in};
ghost use Rattle.wm_machine.specs.Valid.{IsBefore};
ghost use Rattle.wm_request.specs.Batches.{has_id};
ghost use Rattle.wm_request.specs.Requests.{IsRequest, IsShortText};
ghost use Rattle.wm_request.specs.declared.request.NextRun.TheVariants.{Leave};
ghost use Rattle.wm_unique.specs.Plans.{is_named_by, names_id};

use crate::unique::{record, record_of, request};
use part_tests::requests::within;
use std::alloc::{AllocError, Global};
use std::process::Abort;
use std::test::Fail;
use uuid::Uuid;
use wm_chain::batch_of;
use wm_collections::{Items, Text, both, one};
use wm_machine::{NUMBERS_END, Phase, Record, Refusal};
use wm_request::{Batch, Builder, Node, Request, has_id};
use wm_unique::{GroupPlan, check};

/// The most records that a state has.
pub const MAX_WORKS: u64 = 100_000;

/// So many records are few, and of one more than a work may be after, beside two others.
const FEW_WORKS: u64 = 103;

/// An id that no record has.
pub const NEW: u64 = 900_000;

/// The ids that are these numbers, from the first up to the second, without that.
fn ids(alloc: Global, numbers: (u64, u64)) -> Result<Items<Uuid>, AllocError> {
    let mut ids = Items::new(alloc);
    for number in numbers.0..numbers.1 {
        ids.push(Uuid::from_u128(number as u128))?;
    }
    Ok(ids)
}

/// A work with this number as its id, which comes after those of the ids from the first number up to
/// the second, without that.
fn node(alloc: Global, id: u64, after: (u64, u64)) -> Result<Node, AllocError> {
    let after = ids(alloc, after)?;
    let (after, request) = both(after, request(alloc, id))?;
    Ok(Node { request, after })
}

/// A batch of one such work.
fn batch(alloc: Global, id: u64, after: (u64, u64)) -> Result<Batch, AllocError> {
    let works = one(alloc, node(alloc, id, after)?)?;
    batch_of(alloc, works).map_err(|_| AllocError)
}

/// A request of periodic work with this number as its id.
pub fn periodic(alloc: Global, number: u64) -> Result<Request, AllocError>
    ensures within { IfOk result IsRequest }
    ensures id { IfOk result (λ request. request.id ≡ to_be_bytes w128 number) }
    ensures leaves { IfOk result (λ request. request.next ≡ Leave) }
{
    let id = Uuid::from_u128(number as u128);
    let class = String::from_str(alloc, "Echo")?;
    within(Builder::periodic(alloc, id, class, 900_000, None).build())
}

/// The unique name of the first record.
pub fn name(alloc: Global) -> Result<Text, AllocError>
    ensures { IfOk result IsShortText }
{
    Text::from_str(alloc, "n")
}

/// The record of the first work, which waits: it is periodic, and has the name.
fn first(alloc: Global) -> Result<Record, AllocError>
    ensures { IfOk result (IsNumbered 1) }
{
    let name = name(alloc)?;
    let (name, request) = both(name, periodic(alloc, 1))?;
    let mut work = record_of(1, Phase::Waiting, Items::new(alloc), request);
    work.name = Some(name);
    Ok(work)
}

/// The record of a work that waits, of this number: but for the first they are one-time, without a
/// name.
fn numbered(alloc: Global, seq: u64) -> Result<Record, AllocError>
    requires first { 1 ≤ seq }
    requires few { seq ≤ 100000 }
    ensures { IfOk result (IsNumbered seq) }
{
    if seq == 1 {
        return first(alloc);
    }
    record(alloc, seq, Phase::Waiting, Items::new(alloc))
}

/// Records of so many works that wait, numbered from 1 on.
pub fn records(alloc: Global, count: u64) -> Result<Items<Record>, AllocError>
    requires { count ≤ 100000 }
    ensures in_order { IfOk result (AllLater IsBefore) }
    ensures count { IfOk result (λ works. length works ≡ count) }
    ensures waiting { IfOk result AreWaiting }
{
    let mut works = Items::new(alloc);
    for index in 0..count {
        works.push(numbered(alloc, index + 1)?)?;
    }
    Ok(works)
}

/// A refusal: its name, and the number or the id that it tells.
pub type Told = (&'static str, u64);

/// What a refusal tells, with its number as wide as an id.
pub fn told(refusal: &Refusal) -> (&'static str, u128) {
    match refusal {
        Refusal::KindMismatch { id } => ("KindMismatch", id.as_u128()),
        Refusal::TooManyWorks { count } => ("TooManyWorks", *count as u128),
        Refusal::NumbersSpent { next } => ("NumbersSpent", *next as u128),
        Refusal::IdInUse { id } => ("IdInUse", id.as_u128()),
        Refusal::NoSuchPrerequisite { id } => ("NoSuchPrerequisite", id.as_u128()),
        Refusal::PeriodicInChain { id } => ("PeriodicInChain", id.as_u128()),
        Refusal::TooManyPrerequisites { id } => ("TooManyPrerequisites", id.as_u128()),
        _ => ("another", 0),
    }
}

/// A batch of one work: its id, the ids that it is after, and how many works of its unique name it is
/// appended to; and its refusal where records and numbers are few.
type Refused = (u64, (u64, u64), u64, Told);

/// Each of these is refused by another one of the last four checks, and by no other one of them.
const BY_ONE: [Refused; 4] = [
    (103, (0, 0), 0, ("IdInUse", 103)),
    (NEW, (100_001, 100_002), 0, ("NoSuchPrerequisite", 100_001)),
    (NEW, (1, 2), 0, ("PeriodicInChain", 1)),
    (NEW, (0, 0), 101, ("TooManyPrerequisites", NEW)),
];

/// Two of the last four checks refuse each of these, of which the earlier one tells.
const BY_TWO: [Refused; 6] = [
    (103, (104, 105), 0, ("IdInUse", 103)),
    (103, (1, 2), 0, ("IdInUse", 103)),
    (103, (0, 0), 101, ("IdInUse", 103)),
    (NEW, (0, 2), 0, ("NoSuchPrerequisite", 0)),
    (NEW, (4, 105), 0, ("NoSuchPrerequisite", 104)),
    (NEW, (1, 102), 0, ("PeriodicInChain", 1)),
];

/// A plan that appends a batch to so many works, from the second on.
fn appending(alloc: Global, count: u64) -> Result<GroupPlan, AllocError> {
    let mut plan = GroupPlan::free(alloc);
    for index in 0..count {
        plan.after.push(index.wrapping_add(2))?;
    }
    Ok(plan)
}

/// What is told of a refusal, if there is one.
fn told_if(refusal: &Option<Refusal>) -> (&'static str, u128) {
    match refusal {
        Some(refusal) => told(refusal),
        None => ("placed", 0),
    }
}

/// Whether a work has this id or comes after it.
fn has_or_follows(node: &Node, id: Uuid) -> bool
    ensures { result ≡ (bytes_eq node.now.request.id id || has_id node.now.after id) }
{
    node.request.id() == id || has_id(node.after.as_slice(), id)
}

/// Whether a work of a batch has this id or comes after it.
fn names_id(nodes: &[Node], id: Uuid) -> bool
    ensures { result ≡ names_id nodes.now id }
{
    nodes.iter().any(|node| has_or_follows(node, id))
}

/// The numbers of the records that a batch of these works names.
fn named_by(alloc: Global, works: &[Record], nodes: &[Node]) -> Result<Items<u64>, AllocError>
    ensures { IfOk result (λ numbers. numbers ≡ numbers_in (filter (is_named_by nodes.now) works.now)) }
{
    let mut numbers = Items::new(alloc);
    for work in works {
        if names_id(nodes, work.request.id()) {
            numbers.push(work.seq)?;
        }
    }
    Ok(numbers)
}

/// What a batch is told where the next new work gets this number.
fn told_to(
    alloc: Global,
    works: &[Record],
    next: u64,
    batch: &Batch,
    plan: &GroupPlan,
) -> Result<(&'static str, u128), AllocError>
    requires in_order { AllLater IsBefore works.now }
    requires few_works { length works.now ≤ 100000 }
    requires next { next ≤ 2 ^ 53 }
{
    let known = named_by(alloc, works, batch.works().as_slice())?;
    let refusal = check(works, known.as_slice(), batch, plan, next);
    let told = told_if(&refusal);
    drop(refusal);
    Ok(told)
}

/// The batch is refused so, where the next new work gets this number.
fn expect_refused(
    rt: &impl Abort,
    alloc: Global,
    works: &[Record],
    next: u64,
    refused: &Refused,
    expected: Told,
) -> Result<(), AllocError>
    requires in_order { AllLater IsBefore works.now }
    requires few_works { length works.now ≤ 100000 }
    requires next { next ≤ 2 ^ 53 }
{
    let plan = appending(alloc, refused.2)?;
    let (plan, batch) = both(plan, batch(alloc, refused.0, refused.1))?;
    let found = told_to(alloc, works, next, &batch, &plan);
    drop(batch);
    drop(plan);
    let found = found?;
    assert_eq!(rt; found.0, expected.0);
    assert_eq!(rt; found.1, expected.1 as u128);
    Ok(())
}

/// Where numbers are left, each of these is refused as it tells.
fn expect_each(
    rt: &impl Abort,
    alloc: Global,
    works: &[Record],
    batches: &[Refused],
) -> Result<(), AllocError>
    requires in_order { AllLater IsBefore works.now }
    requires few_works { length works.now ≤ 100000 }
{
    for refused in batches {
        expect_refused(rt, alloc, works, NUMBERS_END - 1, refused, refused.3)?;
    }
    Ok(())
}

/// What one of the last four checks refuses is refused so before, where the next new work gets this
/// number.
fn expect_before(
    rt: &impl Abort,
    alloc: Global,
    works: &[Record],
    next: u64,
    expected: Told,
) -> Result<(), AllocError>
    requires in_order { AllLater IsBefore works.now }
    requires few_works { length works.now ≤ 100000 }
    requires next { next ≤ 2 ^ 53 }
{
    for refused in &BY_ONE {
        expect_refused(rt, alloc, works, next, refused, expected)?;
    }
    Ok(())
}

/// No number is left.
pub const SPENT: Told = ("NumbersSpent", NUMBERS_END);

/// There are as many records as there may be.
pub const TOO_MANY: Told = ("TooManyWorks", MAX_WORKS);

/// Few records are there, and numbers are left or not.
fn expect_of_few(rt: &impl Abort, alloc: Global) -> Result<(), AllocError> {
    let few = records(alloc, FEW_WORKS)?;
    expect_each(rt, alloc, few.as_slice(), &BY_ONE)?;
    expect_each(rt, alloc, few.as_slice(), &BY_TWO)?;
    expect_before(rt, alloc, few.as_slice(), NUMBERS_END, SPENT)
}

/// As many records are there as there may be.
fn expect_of_many(rt: &impl Abort, alloc: Global) -> Result<(), AllocError> {
    let many = records(alloc, MAX_WORKS)?;
    expect_before(rt, alloc, many.as_slice(), MAX_WORKS + 1, TOO_MANY)
}

#[test]
fn checks_come_in_their_order(rt: HostRuntime) -> Result<(), Fail> {
    let alloc = rt.alloc();
    expect_of_few(&rt, alloc)?;
    expect_of_many(&rt, alloc)?;
    Ok(())
}

/// No number is left, and so many records are there.
fn expect_spent(rt: &impl Abort, alloc: Global, count: u64, told: Told) -> Result<(), AllocError>
    requires { count ≤ 100000 }
{
    let new = (NEW, (0, 0), 0, SPENT);
    let works = records(alloc, count)?;
    expect_refused(rt, alloc, works.as_slice(), NUMBERS_END, &new, told)
}

#[test]
fn works_are_counted_before_numbers(rt: HostRuntime) -> Result<(), Fail> {
    let alloc = rt.alloc();
    expect_spent(&rt, alloc, MAX_WORKS - 1, SPENT)?;
    expect_spent(&rt, alloc, MAX_WORKS, TOO_MANY)?;
    Ok(())
}
