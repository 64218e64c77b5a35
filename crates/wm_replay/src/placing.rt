//! The works of a batch are placed, one after another.
ghost use Rattle.std.specs.Prelude.{◌≡◌, ◌^◌, ◌<◌, ◌≤◌, ◌+◌, ◌==◌, ◌&&◌, ◌++◌, [], filter, length, map, IfOk, OnOk};
ghost use Rattle.std.specs.List.{list_any};
ghost use Rattle.std.specs.Str.{bytes_eq};
ghost use Rattle.wm_machine.specs.Enqueued.{any_in, first_finished_at, first_phase, is_cancelled, is_failed, new_numbers, new_record, numbers_of, placed_after, prior_of, with_work};
ghost use Rattle.wm_request.specs.Requests.{of_record};

use std::alloc::{AllocError, Global};
use uuid::Uuid;
use wm_collections::{Items, Replica, Text};
use wm_data::Data;
use wm_lifecycle::next_moment;
use wm_machine::{How, Phase, Record, State};
use wm_request::{Node, Request};

/// Places works, for which there are numbers, one after another, and gives their numbers. Each that
/// names no other comes after the works of these numbers.
pub fn place_each(
    alloc: Global,
    state: &mut State,
    name: &Option<Text>,
    after: &[u64],
    nodes: &[Node],
) -> Result<Items<u64>, AllocError>
    requires room { state.old.next + length nodes.now ≤ 2 ^ 53 }
    ensures numbers { IfOk result (λ numbers. numbers ≡ new_numbers state.old.next nodes.entry.now) }
    ensures state { OnOk result (state.new
        ≡ placed_after state.old name.entry.now after.entry.now nodes.entry.now) }
{
    let mut numbers = Items::new(alloc);
    for node in nodes {
        numbers.push(state.next)?;
        place(alloc, state, name, after, node)?;
    }
    Ok(numbers)
}

/// Places a work, under the next number.
fn place(
    alloc: Global,
    state: &mut State,
    name: &Option<Text>,
    after: &[u64],
    node: &Node,
) -> Result<(), AllocError>
    requires { state.old.next < 2 ^ 53 }
    ensures { OnOk result (state.new ≡ with_work state.old
        (new_record state.old name.entry.now (prior_of state.old.works after.entry.now node.entry.now.after) node.entry.now)) }
{
    let new = new_record(alloc, state, name, after, node)?;
    state.works.push(new)?;
    state.next += 1;
    Ok(())
}

/// The record of a new work.
fn new_record(
    alloc: Global,
    state: &State,
    name: &Option<Text>,
    after: &[u64],
    node: &Node,
) -> Result<Record, AllocError>
    ensures { IfOk result (λ new. new ≡ new_record state.entry.now name.entry.now
        (prior_of state.entry.now.works after.entry.now node.entry.now.after) node.entry.now) }
{
    let works = state.works.as_slice();
    let prior = prior_of(alloc, works, after, node.after.as_slice())?;
    let phase = first_phase(works, prior.as_slice());
    Ok(Record {
        seq: state.next,
        name: name.replica(alloc)?,
        request: request_of(alloc, node)?,
        prior,
        phase,
        attempt: 0,
        backoff_n: 0,
        runs: 0,
        generation: 0,
        enqueued_at: state.now,
        override_at: next_moment(node.request.next(), None),
        finished_at: first_finished_at(phase, state.now),
        output: Data::empty(),
        progress: Data::empty(),
    })
}

/// The request of a work, as its record has it.
fn request_of(alloc: Global, node: &Node) -> Result<Request, AllocError>
    ensures { IfOk result (λ request. request ≡ of_record node.now.request.id node.now.request.keep node.now.request) }
{
    let request = node.request.replica(alloc)?;
    Ok(request.of_record(node.request.id(), node.request.keep()))
}

/// The numbers of the prerequisites of a work that names these ids, and that comes after works of
/// these numbers where it names none.
fn prior_of(
    alloc: Global,
    works: &[Record],
    after: &[u64],
    ids: &[Uuid],
) -> Result<Items<u64>, AllocError>
    ensures { IfOk result (λ numbers. numbers ≡ prior_of works.entry.now after.entry.now ids.now) }
{
    if ids.is_empty() {
        Ok(Items::from_vec(Vec::from_slice(alloc, after)?))
    } else {
        numbers_of(alloc, works, ids)
    }
}

/// The numbers of the records with these ids, in the order of the ids.
fn numbers_of(alloc: Global, works: &[Record], ids: &[Uuid]) -> Result<Items<u64>, AllocError>
    ensures { IfOk result (λ numbers. numbers ≡ numbers_of works.now ids.now) }
{
    let mut numbers = Items::new(alloc);
    for id in ids {
        add_with_id(&mut numbers, works, *id)?;
    }
    Ok(numbers)
}

/// Adds the numbers of the records with this id.
fn add_with_id(numbers: &mut Items<u64>, works: &[Record], id: Uuid) -> Result<(), AllocError>
    ensures { OnOk result (numbers.new
        ≡ numbers.old ++ map (λ work. work.seq) (filter (λ work. bytes_eq work.request.id id) works.now)) }
{
    for work in works {
        if work.request.id() == id {
            numbers.push(work.seq)?;
        }
    }
    Ok(())
}

/// The phase of new work with these prerequisites.
fn first_phase(works: &[Record], prior: &[u64]) -> Phase
    ensures { result ≡ first_phase works.now prior.now }
{
    if any_failed(works, prior) {
        Phase::Done(How::Failed)
    } else if any_cancelled(works, prior) {
        Phase::Done(How::Cancelled)
    } else {
        Phase::Waiting
    }
}

/// The moment at which new work in this phase has finished: now, where it is finished already.
fn first_finished_at(phase: Phase, now: u64) -> u64
    ensures { result ≡ first_finished_at phase now }
{
    match phase {
        Phase::Done(_) => now,
        _ => 0,
    }
}

/// Whether a record of one of these numbers has failed.
fn any_failed(works: &[Record], numbers: &[u64]) -> bool
    ensures { result ≡ any_in is_failed works.now numbers.now }
{
    numbers.iter().any(|number| has_failed(works, *number))
}

/// Whether the record of this number has failed.
fn has_failed(works: &[Record], number: u64) -> bool
    ensures { result ≡ list_any (λ work. work.seq == number && is_failed work.phase) works.now }
{
    works
        .iter()
        .any(|work| work.seq == number && is_failed(work.phase))
}

/// Whether a phase is that of work that has failed.
fn is_failed(phase: Phase) -> bool
    ensures { result ≡ is_failed phase }
{
    matches!(phase, Phase::Done(How::Failed))
}

/// Whether a record of one of these numbers is cancelled.
fn any_cancelled(works: &[Record], numbers: &[u64]) -> bool
    ensures { result ≡ any_in is_cancelled works.now numbers.now }
{
    numbers.iter().any(|number| has_cancelled(works, *number))
}

/// Whether the record of this number is cancelled.
fn has_cancelled(works: &[Record], number: u64) -> bool
    ensures { result ≡ list_any (λ work. work.seq == number && is_cancelled work.phase) works.now }
{
    works
        .iter()
        .any(|work| work.seq == number && is_cancelled(work.phase))
}

/// Whether a phase is that of work that is cancelled.
fn is_cancelled(phase: Phase) -> bool
    ensures { result ≡ is_cancelled phase }
{
    matches!(phase, Phase::Done(How::Cancelled))
}
