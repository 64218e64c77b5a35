//! What becomes of the records where works are cancelled, each with its descendants, and then others
//! are let go: by a cancel, and before a batch is placed under a unique name.
//!
//! After the guide's page "Managing work" (unique work). Nothing but the records that change is
//! made: the others are seen through a [`Clearing`].
ghost use Rattle.std.specs.Prelude.{◌≡◌, ◌&&◌, not, true, IfOk};
ghost use Rattle.std.specs.List.{list_any};
ghost use Rattle.wm_commands.specs.Cleared.{becomes_cancelled, cancelled_in, cancelling, cleared, cleared_by, clearing_of, is_removable_then, is_needed_then, is_run_among, is_touched, phase_then, removed_by, replaced_by_clearing, stays, stopped_by};
ghost use Rattle.wm_machine.specs.Closed.{is_open};
ghost use Rattle.wm_machine.specs.Group.{unnamed};
ghost use Rattle.wm_changes.specs.Nodes.{is_there};
ghost use Rattle.wm_changes.specs.Replacements.{by_numbers, replacement_of};
ghost use Rattle.wm_unique.specs.Plans.{numbered_passes, AreNumbersOf};

use std::alloc::{AllocError, Global};
use wm_changes::Replacement;
use wm_collections::{Items, Replica, merged};
use wm_graph::Numbers;
use wm_lifecycle::closed;
use wm_machine::{How, Phase, Record, Run};
use wm_steps::View;

/// Which records change where works are cancelled and others are let go, by their numbers.
#[derive(Drop)]
pub struct Clearing {
    /// Those that are cancelled where they are unfinished.
    pub cancelled: Numbers,
    /// The moment at which they are, in milliseconds.
    pub at: u64,
    /// Those from which their names are taken.
    pub unnamed: Numbers,
    /// Those that are removed.
    pub removed: Numbers,
}

/// Those of these numbers are cancelled at this moment where they are unfinished.
pub fn cancelling(alloc: Global, at: u64, cancelled: Numbers) -> Clearing
    ensures { result ≡ cancelling at cancelled }
{
    Clearing {
        cancelled,
        at,
        unnamed: Numbers::none(alloc),
        removed: Numbers::none(alloc),
    }
}

/// Which records change where the works of the first numbers are cancelled now, and those of the
/// second are let go then: who is finished and whom no unfinished work needs is removed, however long
/// it was to be kept, and the others lose their names. Where both are none, no record is looked at.
pub fn clearing_of(
    alloc: Global,
    view: &View,
    cancel: &[u64],
    let_go: Items<u64>,
) -> Result<Clearing, AllocError>
    requires { AreNumbersOf view.now.works let_go }
    ensures { IfOk result (λ clearing. clearing ≡ clearing_of view.entry.now.now view.entry.now.works cancel.entry.now let_go) }
{
    let at = view.state.now;
    if cancel.is_empty() && let_go.is_empty() {
        return Ok(cancelling(alloc, at, Numbers::none(alloc)));
    }
    let cancelled = view.descendants_of(cancel)?;
    let removed = removed_by(alloc, view, &cancelled, let_go.as_slice())?;
    Ok(Clearing {
        cancelled,
        at,
        unnamed: Numbers::of(let_go),
        removed,
    })
}

/// The numbers of the current runs whose works are cancelled, where those of these numbers are that
/// are unfinished.
pub fn stopped_by(
    alloc: Global,
    runs: &[Run],
    cancelled: &Numbers,
) -> Result<Items<u64>, AllocError>
    ensures { IfOk result (λ numbers. numbers ≡ stopped_by cancelled.now runs.now) }
{
    let mut numbers = Items::new(alloc);
    for run in runs {
        if is_stopped(cancelled, run) {
            numbers.push(run.run)?;
        }
    }
    Ok(numbers)
}

/// Whether a run is current, and its work is cancelled.
fn is_stopped(cancelled: &Numbers, run: &Run) -> bool
    ensures { result ≡ (run.now.current && is_run_among cancelled.now run.now) }
{
    run.current && cancelled.has(run.seq)
}

/// Whether a record becomes cancelled.
fn becomes_cancelled(cancelled: &Numbers, work: &Record) -> bool
    ensures { result ≡ becomes_cancelled cancelled.now work.now }
{
    work.phase.is_open() && cancelled.has(work.seq)
}

/// The phase of a record once works are cancelled.
pub fn phase_then(cancelled: &Numbers, work: &Record) -> Phase
    ensures { result ≡ phase_then cancelled.now work.now }
{
    if becomes_cancelled(cancelled, work) {
        Phase::Done(How::Cancelled)
    } else {
        work.phase
    }
}

/// The numbers of the records that are removed: of those that are let go.
fn removed_by(
    alloc: Global,
    view: &View,
    cancelled: &Numbers,
    let_go: &[u64],
) -> Result<Numbers, AllocError>
    requires { AreNumbersOf view.now.works let_go.now }
    ensures { IfOk result (λ numbers. numbers ≡ removed_by cancelled.entry.now let_go.entry.now view.entry.now.works) }
{
    let _reached = &view.state;
    let mut numbers = Items::new(alloc);
    for number in let_go {
        if is_removable_then(view, cancelled, *number)? {
            numbers.push(*number)?;
        }
    }
    Ok(Numbers::of(numbers))
}

/// Whether the record of this number is finished then, and isn't needed.
fn is_removable_then(view: &View, cancelled: &Numbers, number: u64) -> Result<bool, AllocError>
    ensures { IfOk result (λ done. done
        ≡ numbered_passes (is_removable_then cancelled.now view.entry.now.works) view.entry.now.works number) }
{
    if is_finished_then(view, cancelled, number) {
        Ok(!is_needed_then(view, cancelled, number)?)
    } else {
        Ok(false)
    }
}

/// Whether there is a record of this number, and it is finished then.
fn is_finished_then(view: &View, cancelled: &Numbers, number: u64) -> bool
    ensures { result ≡ numbered_passes (λ work. not (is_open (phase_then cancelled.now work))) view.now.works number }
{
    match view.work(number) {
        Some(work) => !phase_then(cancelled, work).is_open(),
        None => false,
    }
}

/// Whether a record that is unfinished then comes right after the work of this number, which is there.
pub fn is_needed_then(view: &View, cancelled: &Numbers, number: u64) -> Result<bool, AllocError>
    requires { is_there view.now.works number ≡ true }
    ensures { IfOk result (λ needed. needed ≡ is_needed_then cancelled.now view.entry.now.works number) }
{
    let _reached = &view.state;
    let dependents = view.dependents(number)?;
    Ok(any_open_then(view, cancelled, &dependents))
}

/// Whether a record of one of these numbers is unfinished then.
fn any_open_then(view: &View, cancelled: &Numbers, numbers: &[u64]) -> bool
    ensures { result
        ≡ list_any (numbered_passes (λ work. is_open (phase_then cancelled.now work)) view.now.works) numbers.now }
{
    numbers
        .iter()
        .any(|number| is_open_then(view, cancelled, *number))
}

/// Whether there is a record of this number, and it is unfinished then.
fn is_open_then(view: &View, cancelled: &Numbers, number: u64) -> bool
    ensures { result ≡ numbered_passes (λ work. is_open (phase_then cancelled.now work)) view.now.works number }
{
    match view.work(number) {
        Some(work) => phase_then(cancelled, work).is_open(),
        None => false,
    }
}

/// Whether a record isn't removed.
pub fn stays(removed: &Numbers, work: &Record) -> bool
    ensures { result ≡ stays removed.now work.now }
{
    !removed.has(work.seq)
}

/// The records that take the place of others. None but the cancelled and the unnamed is looked at.
pub fn replaced_by_clearing(
    alloc: Global,
    view: &View,
    clearing: &Clearing,
) -> Result<Items<Replacement>, AllocError>
    ensures { IfOk result (λ replaced. replaced ≡ replaced_by_clearing clearing.entry.now view.entry.now.works) }
{
    let _reached = &view.state;
    let numbers = merged(
        alloc,
        clearing.cancelled.as_slice(),
        clearing.unnamed.as_slice(),
    )?;
    replaced_among(alloc, view, clearing, &numbers)
}

/// The records of these numbers that become other ones, with those.
fn replaced_among(
    alloc: Global,
    view: &View,
    clearing: &Clearing,
    numbers: &[u64],
) -> Result<Items<Replacement>, AllocError>
    ensures { IfOk result (λ replaced. replaced
        ≡ by_numbers (cleared_by clearing.entry.now) numbers.now view.entry.now.works) }
{
    let mut replaced = Items::new(alloc);
    for number in numbers {
        if let Some(replacement) = replacement_of(alloc, view, clearing, *number)? {
            replaced.push(replacement)?;
        }
    }
    Ok(replaced)
}

/// What takes the place of the record of this number, where there is one and it becomes another one.
fn replacement_of(
    alloc: Global,
    view: &View,
    clearing: &Clearing,
    number: u64,
) -> Result<Option<Replacement>, AllocError>
    ensures { IfOk result (λ found. found
        ≡ replacement_of (cleared_by clearing.entry.now) 0 view.entry.now.works number) }
{
    let _reached = &view.state;
    let Some(index) = view.place_of(number) else {
        return Ok(None);
    };
    let work = view.work_at(index);
    if is_touched(clearing, work) {
        let work = cleared(alloc, clearing, work)?;
        Ok(Some(Replacement { index, work }))
    } else {
        Ok(None)
    }
}

/// Whether a record becomes another one.
fn is_touched(clearing: &Clearing, work: &Record) -> bool
    ensures { result ≡ is_touched clearing.now work.now }
{
    stays(&clearing.removed, work)
        && (clearing.unnamed.has(work.seq) || becomes_cancelled(&clearing.cancelled, work))
}

/// A record that isn't removed.
fn cleared(alloc: Global, clearing: &Clearing, work: &Record) -> Result<Record, AllocError>
    ensures { IfOk result (λ changed. changed ≡ cleared clearing.entry.now work.entry.now) }
{
    let changed = cancelled_in(alloc, clearing, work)?;
    Ok(unnamed(clearing, changed))
}

/// A record, cancelled where it becomes so.
fn cancelled_in(alloc: Global, clearing: &Clearing, work: &Record) -> Result<Record, AllocError>
    ensures { IfOk result (λ changed. changed
        ≡ cancelled_in clearing.entry.now.at clearing.entry.now.cancelled work.entry.now) }
{
    if becomes_cancelled(&clearing.cancelled, work) {
        closed(alloc, work, How::Cancelled, clearing.at)
    } else {
        work.replica(alloc)
    }
}

/// A record, without its name where it loses that.
fn unnamed(clearing: &Clearing, work: Record) -> Record
    ensures { result ≡ unnamed clearing.now.unnamed work }
{
    let mut work = work;
    if clearing.unnamed.has(work.seq) {
        work.name = None;
    }
    work
}
