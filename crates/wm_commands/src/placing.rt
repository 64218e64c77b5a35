//! The records of new works, each placed after those before it.
ghost use Rattle.std.specs.Prelude.{◌≡◌, ◌^◌, ◌==◌, ◌≤◌, ◌+◌, ◌&&◌, ◌∷◌, ◌++◌, [], filter, length, map, not, IfOk, OnOk};
ghost use Rattle.std.specs.List.{list_any};
ghost use Rattle.std.specs.Str.{bytes_eq};
ghost use Rattle.wm_collections.specs.Lists.{is_among};
ghost use Rattle.wm_commands.specs.Cleared.{cleared_state, stays, with_cleared};
ghost use Rattle.wm_commands.specs.Placed.{is_done, is_then, placed_record, placed_records, with_placed};
ghost use Rattle.wm_machine.specs.Enqueued.{any_in, first_finished_at, first_phase, numbers_of, prior_of};
ghost use Rattle.wm_request.specs.Requests.{of_record};
ghost use Rattle.wm_changes.specs.StepChanges.{seqs_of};

use crate::clearing::{Clearing, phase_then, stays};
use std::alloc::{AllocError, Global};
use uuid::Uuid;
use wm_collections::{Items, Replica, Text};
use wm_data::Data;
use wm_graph::Numbers;
use wm_lifecycle::next_moment;
use wm_machine::{How, Phase, Record};
use wm_request::{Node, Request};
use wm_steps::View;

/// The records of new works, for which there are numbers, once the records are cleared. Under a name
/// each that names no other comes after the works of these numbers.
pub fn placed_records(
    alloc: Global,
    view: &View,
    clearing: &Clearing,
    name: &Option<Text>,
    after: &[u64],
    works: &[Node],
) -> Result<Items<Record>, AllocError>
    requires room { view.now.next + length works.now ≤ 2 ^ 53 }
    ensures { IfOk result (λ placed. placed
        ≡ placed_records (cleared_state clearing.entry.now view.entry.now) name.entry.now after.entry.now works.now) }
{
    let mut placed = Items::new(alloc);
    for work in works {
        let new = placed_record(alloc, view, clearing, name, after, placed.as_slice(), work)?;
        placed.push(new)?;
    }
    Ok(placed)
}

/// The record of a new work, after those that are placed.
fn placed_record(
    alloc: Global,
    view: &View,
    clearing: &Clearing,
    name: &Option<Text>,
    after: &[u64],
    placed: &[Record],
    work: &Node,
) -> Result<Record, AllocError>
    requires room { view.now.next + length placed.now ≤ 2 ^ 53 }
    ensures { IfOk result (λ new. new
        ≡ placed_record (with_placed (cleared_state clearing.entry.now view.entry.now) placed.entry.now)
        name.entry.now after.entry.now work.entry.now) }
{
    let prior = prior_of(alloc, view, clearing, placed, after, work.after.as_slice())?;
    let phase = first_phase(view, clearing, placed, prior.as_slice());
    Ok(Record {
        seq: view.state.next + placed.len() as u64,
        name: name.replica(alloc)?,
        request: request_of(alloc, work)?,
        prior,
        phase,
        attempt: 0,
        backoff_n: 0,
        runs: 0,
        generation: 0,
        enqueued_at: view.state.now,
        override_at: next_moment(work.request.next(), None),
        finished_at: first_finished_at(phase, view.state.now),
        output: Data::empty(),
        progress: Data::empty(),
    })
}

/// The request of a work, as its record has it.
fn request_of(alloc: Global, work: &Node) -> Result<Request, AllocError>
    ensures { IfOk result (λ request. request ≡ of_record work.now.request.id work.now.request.keep work.now.request) }
{
    let request = work.request.replica(alloc)?;
    Ok(request.of_record(work.request.id(), work.request.keep()))
}

/// The numbers of the prerequisites of a work that names these.
fn prior_of(
    alloc: Global,
    view: &View,
    clearing: &Clearing,
    placed: &[Record],
    after: &[u64],
    ids: &[Uuid],
) -> Result<Items<u64>, AllocError>
    ensures { IfOk result (λ numbers. numbers
        ≡ prior_of (with_cleared clearing.entry.now view.entry.now.works ++ placed.entry.now) after.entry.now ids.now) }
{
    if ids.is_empty() {
        Ok(Items::from_vec(Vec::from_slice(alloc, after)?))
    } else {
        numbers_of(alloc, view, clearing, placed, ids)
    }
}

/// The numbers of the records with these ids, in the order of the ids: of those that are stored, and
/// of those that are placed.
fn numbers_of(
    alloc: Global,
    view: &View,
    clearing: &Clearing,
    placed: &[Record],
    ids: &[Uuid],
) -> Result<Items<u64>, AllocError>
    ensures { IfOk result (λ numbers. numbers
        ≡ numbers_of (with_cleared clearing.entry.now view.entry.now.works ++ placed.now) ids.now) }
{
    let mut numbers = Items::new(alloc);
    for id in ids {
        add_stored(&mut numbers, view, clearing, *id)?;
        add_placed(&mut numbers, placed, *id)?;
    }
    Ok(numbers)
}

/// Adds the numbers of the stored records with this id that stay.
fn add_stored(
    numbers: &mut Items<u64>,
    view: &View,
    clearing: &Clearing,
    id: Uuid,
) -> Result<(), AllocError>
    ensures { OnOk result (numbers.new
        ≡ numbers.old ++ map (λ work. work.seq)
        (filter (λ work. bytes_eq work.request.id id && stays clearing.now.removed work) view.now.works)) }
{
    // what the type of a view keeps is known where a field of it is read
    let _reached = &view.state;
    match view.number_of(id) {
        Some(number) => add_kept(numbers, &clearing.removed, number),
        None => Ok(()),
    }
}

/// Adds a number, where it isn't among those that are removed.
fn add_kept(numbers: &mut Items<u64>, removed: &Numbers, number: u64) -> Result<(), AllocError>
    ensures { OnOk result (numbers.new
        ≡ numbers.old ++ filter (λ one. not (is_among removed.now one)) (number ∷ [])) }
{
    if !removed.has(number) {
        numbers.push(number)?;
    }
    Ok(())
}

/// Adds the numbers of the placed records with this id.
fn add_placed(numbers: &mut Items<u64>, placed: &[Record], id: Uuid) -> Result<(), AllocError>
    ensures { OnOk result (numbers.new
        ≡ numbers.old ++ map (λ work. work.seq) (filter (λ work. bytes_eq work.request.id id) placed.now)) }
{
    for work in placed {
        if work.request.id() == id {
            numbers.push(work.seq)?;
        }
    }
    Ok(())
}

/// The phase of new work with these prerequisites.
fn first_phase(view: &View, clearing: &Clearing, placed: &[Record], prior: &[u64]) -> Phase
    ensures { result ≡ first_phase (with_cleared clearing.now view.now.works ++ placed.now) prior.now }
{
    if any_in(view, clearing, placed, prior, How::Failed) {
        Phase::Done(How::Failed)
    } else if any_in(view, clearing, placed, prior, How::Cancelled) {
        Phase::Done(How::Cancelled)
    } else {
        Phase::Waiting
    }
}

/// The moment at which new work in this phase has finished: now, where it is finished already.
fn first_finished_at(phase: Phase, now: u64) -> u64
    ensures { result ≡ first_finished_at phase now }
{
    match phase {
        Phase::Done(_) => now,
        _ => 0,
    }
}

/// Whether a record of one of these numbers is finished in this way.
fn any_in(view: &View, clearing: &Clearing, placed: &[Record], numbers: &[u64], how: How) -> bool
    ensures { result
        ≡ any_in (is_done how) (with_cleared clearing.now view.now.works ++ placed.now) numbers.now }
{
    numbers
        .iter()
        .any(|number| has_either(view, clearing, placed, *number, how))
}

/// Whether the record of this number, which is stored or placed, is finished in this way.
fn has_either(view: &View, clearing: &Clearing, placed: &[Record], number: u64, how: How) -> bool
    ensures { result
        ≡ list_any (λ work. work.seq == number && is_done how work.phase)
        (with_cleared clearing.now view.now.works ++ placed.now) }
{
    has_stored(view, clearing, number, how) || has_placed(placed, number, how)
}

/// Whether the stored record of this number stays, and is finished in this way then.
fn has_stored(view: &View, clearing: &Clearing, number: u64, how: How) -> bool
    ensures { result
        ≡ list_any (λ work. work.seq == number && is_then clearing.now how work) view.now.works }
{
    let _reached = &view.state;
    match view.work(number) {
        Some(work) => is_then(clearing, how, work),
        None => false,
    }
}

/// Whether a stored record stays, and is finished in this way then.
fn is_then(clearing: &Clearing, how: How, work: &Record) -> bool
    ensures { result ≡ is_then clearing.now how work.now }
{
    stays(&clearing.removed, work) && is_done(phase_then(&clearing.cancelled, work), how)
}

/// Whether the placed record of this number is finished in this way.
fn has_placed(placed: &[Record], number: u64, how: How) -> bool
    ensures { result
        ≡ list_any (λ work. work.seq == number && is_done how work.phase) placed.now }
{
    placed
        .iter()
        .any(|work| work.seq == number && is_done(work.phase, how))
}

/// Whether a phase is that of work that is finished in this way.
fn is_done(phase: Phase, how: How) -> bool
    ensures { result ≡ is_done how phase }
{
    match how {
        How::Succeeded => matches!(phase, Phase::Done(How::Succeeded)),
        How::Failed => matches!(phase, Phase::Done(How::Failed)),
        How::Cancelled => matches!(phase, Phase::Done(How::Cancelled)),
    }
}

/// The numbers of these records.
pub fn seqs_of(alloc: Global, works: &[Record]) -> Result<Items<u64>, AllocError>
    ensures { IfOk result (λ numbers. numbers ≡ seqs_of works.now) }
{
    let mut numbers = Items::new(alloc);
    for work in works {
        numbers.push(work.seq)?;
    }
    Ok(numbers)
}
