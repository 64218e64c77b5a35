//! A batch is checked, and placed where no check refuses it.
ghost use Rattle.std.specs.List.{list_any};
ghost use Rattle.std.specs.Prelude.{◌≡◌, ◌^◌, ◌≤◌, ◌+◌, ◌||◌, filter, length, IfOk};
ghost use Rattle.std.specs.Str.{bytes_eq};
ghost use Rattle.wm_machine.specs.Enqueued.{enqueued, made_ready, placing_in, refusal_of_placing};
ghost use Rattle.wm_machine.specs.Group.{numbers_in};
ghost use Rattle.wm_machine.specs.Valid.{Valid};
ghost use Rattle.wm_replay.specs.Placed.{name_in, IsPlacedBy};
ghost use Rattle.wm_request.specs.Batches.{has_id};
ghost use Rattle.wm_unique.specs.Plans.{is_named_by, names_id, placing_by};

use crate::clearing::make_ready;
use crate::placing::place_each;
use std::alloc::{AllocError, Global};
use uuid::Uuid;
use wm_collections::{Items, Replica, Text};
use wm_machine::{Record, Refusal, Reply, State, UniqueName};
use wm_request::{Batch, Node, has_id};
use wm_unique::{GroupPlan, check};

/// Checks a batch, and places it by a plan where no check refuses it.
pub fn check_and_place(
    alloc: Global,
    state: &mut State,
    named: &Option<UniqueName>,
    batch: &Batch,
    plan: &GroupPlan,
) -> Result<Reply, AllocError>
    requires valid { Valid state.old }
    requires placed { IsPlacedBy state.old named.now (placing_by plan.now) batch.now.works }
    ensures { IfOk result (λ reply. enqueued state.old named.entry.now batch.entry.now.works ≡ record {
      reply = reply;
      state = state.new;
    }) }
{
    match checked(alloc, state, batch, plan)? {
        Some(refusal) => Ok(Reply::Refused(refusal)),
        None => place(alloc, state, named, batch, plan),
    }
}

/// Places a batch by a plan.
fn place(
    alloc: Global,
    state: &mut State,
    named: &Option<UniqueName>,
    batch: &Batch,
    plan: &GroupPlan,
) -> Result<Reply, AllocError>
    requires valid { Valid state.old }
    requires room { state.old.next + length batch.now.works ≤ 2 ^ 53 }
    requires placed { enqueued state.old named.now batch.now.works
        ≡ placing_in (made_ready state.old (placing_by plan.now)) (name_in named.now) plan.now.after batch.now.works }
    ensures { IfOk result (λ reply. enqueued state.old named.entry.now batch.entry.now.works ≡ record {
      reply = reply;
      state = state.new;
    }) }
{
    let name = name_in(alloc, named)?;
    make_ready(alloc, state, plan)?;
    let nodes = batch.works().as_slice();
    let numbers = place_each(alloc, state, &name, plan.after.as_slice(), nodes)?;
    Ok(Reply::Enqueued(numbers))
}

/// The unique name that works are placed under.
fn name_in(alloc: Global, named: &Option<UniqueName>) -> Result<Option<Text>, AllocError>
    ensures { IfOk result (λ name. name ≡ name_in named.now) }
{
    match named {
        Some(unique) => Ok(Some(unique.name.replica(alloc)?)),
        None => Ok(None),
    }
}

/// The first check that refuses the batch.
fn checked(
    alloc: Global,
    state: &State,
    batch: &Batch,
    plan: &GroupPlan,
) -> Result<Option<Refusal>, AllocError>
    requires valid { Valid state.now }
    ensures { IfOk result (λ found. found
        ≡ refusal_of_placing state.entry.now (placing_by plan.entry.now) batch.entry.now.works) }
{
    let works = state.works.as_slice();
    let known = named_numbers(alloc, works, batch.works().as_slice())?;
    Ok(check(works, known.as_slice(), batch, plan, state.next))
}

/// The numbers of the records that a batch of these works names.
fn named_numbers(alloc: Global, works: &[Record], nodes: &[Node]) -> Result<Items<u64>, AllocError>
    ensures { IfOk result (λ numbers. numbers ≡ numbers_in (filter (is_named_by nodes.now) works.now)) }
{
    let mut numbers = Items::new(alloc);
    for work in works {
        if names_id(nodes, work.request.id()) {
            numbers.push(work.seq)?;
        }
    }
    Ok(numbers)
}

/// Whether one of these works has this id or comes after it.
fn names_id(nodes: &[Node], id: Uuid) -> bool
    ensures { result ≡ names_id nodes.now id }
{
    nodes.iter().any(|node| names(node, id))
}

/// Whether a work of a batch has this id or comes after it.
fn names(node: &Node, id: Uuid) -> bool
    ensures { result ≡ (bytes_eq node.now.request.id id || has_id node.now.after id) }
{
    node.request.id() == id || has_id(node.after.as_slice(), id)
}
