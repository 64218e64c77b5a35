//! Works as one batch, or the first fault by which they aren't.
ghost use Rattle.std.specs.Prelude.{◌≡◌, ◌≤◌, ◌∷◌, [], find, length, map, option_map, Ok, IfOk, IfErr};
ghost use Rattle.wm_chain.specs.Walk.{again, batched, fault_in, fault_of, IsFaultOf};
ghost use Rattle.wm_request.specs.Batches.{has_id, ids_of, periodic_ids};

use crate::fault::ChainFault;
use std::alloc::{AllocError, Global};
use std::collections::BTreeSet;
use uuid::Uuid;
use wm_collections::Items;
use wm_request::{Batch, Node, has_id, has_work};

/// The batch of these works, at least one, or why they aren't one. The works are looked at in
/// order, and the first fault is told. Of a work:
///
/// - `IdTwice` where an earlier work has its id;
/// - else `IdTwice` with the id that it names a second time among those that it is after;
/// - else `PeriodicInChain` with its own id where it is periodic and is after another one;
/// - else `PeriodicInChain` with the first id of those that it is after which a periodic work of
///   the batch has, also one that stands later.
///
/// Memory is the only other fault. This project's own choice.
pub fn batch_of(alloc: Global, works: Items<Node>) -> Result<Batch, ChainFault>
    requires { 1 ≤ length works }
    ensures ok { IfOk result (λ batch. batched works ≡ Ok batch) }
    ensures err { IfErr result (IsFaultOf (batched works)) }
{
    let periodic = periodic_ids(alloc, works.as_slice())?;
    match fault_in(alloc, works.as_slice(), periodic.as_slice())? {
        Some(fault) => Err(fault),
        None => Ok(Batch::new(works)),
    }
}

/// The ids of the periodic works.
fn periodic_ids(alloc: Global, works: &[Node]) -> Result<Vec<Uuid>, AllocError>
    ensures { IfOk result (λ ids. ids.items ≡ periodic_ids works.now) }
{
    let mut ids = Vec::new(alloc);
    for work in works {
        if work.is_periodic() {
            ids.push(work.request.id())?;
        }
    }
    Ok(ids)
}

/// The first fault of these works, of which those with these ids are periodic.
fn fault_in(
    alloc: Global,
    works: &[Node],
    periodic: &[Uuid],
) -> Result<Option<ChainFault>, AllocError>
    requires { periodic.now ≡ periodic_ids works.now }
    ensures { IfOk result (λ found. found ≡ fault_in works.now) }
{
    for (index, work) in works.iter().enumerate() {
        let fault = fault_of(alloc, &works[..index], work, periodic)?;
        if fault.is_some() {
            return Ok(fault);
        }
    }
    Ok(None)
}

/// The first fault of a work that comes after these, where those with these ids are periodic.
fn fault_of(
    alloc: Global,
    before: &[Node],
    work: &Node,
    periodic: &[Uuid],
) -> Result<Option<ChainFault>, AllocError>
    ensures { IfOk result
        (λ found. found ≡ fault_of periodic.now (ids_of before.now) work.entry.now) }
{
    let id = work.request.id();
    if is_id_used(before, work) {
        return Ok(Some(ChainFault::IdTwice { id }));
    }
    if let Some(id) = again(alloc, work.after.as_slice())? {
        return Ok(Some(ChainFault::IdTwice { id }));
    }
    if work.is_periodic() && !work.after.is_empty() {
        return Ok(Some(ChainFault::PeriodicInChain { id }));
    }
    match first_of(work.after.as_slice(), periodic) {
        Some(id) => Ok(Some(ChainFault::PeriodicInChain { id })),
        None => Ok(None),
    }
}

/// Whether a work comes after one with its id.
fn is_id_used(before: &[Node], work: &Node) -> bool
    ensures { result ≡ has_id (ids_of before.now) work.now.request.id }
{
    has_work(before, work.request.id())
}

/// The first id that stands a second time.
fn again(alloc: Global, ids: &[Uuid]) -> Result<Option<Uuid>, AllocError>
    ensures { IfOk result (λ found. found ≡ again [] ids.now) }
{
    let mut seen = BTreeSet::new(alloc);
    for id in ids {
        if !seen.insert(*id)? {
            return Ok(Some(*id));
        }
    }
    Ok(None)
}

/// The first of these ids that is one of the others.
fn first_of(ids: &[Uuid], others: &[Uuid]) -> Option<Uuid>
    ensures { result ≡ find (has_id others.now) ids.now }
{
    ids.iter().copied().find(|id| has_id(others, *id))
}
