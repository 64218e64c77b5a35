//! The changes of one record: by its own run, by the end of another, and by an update.
ghost use Rattle.std.specs.Prelude.{◌≡◌, false, IfOk};
ghost use Rattle.wm_machine.specs.Closed.{closed};
ghost use Rattle.wm_machine.specs.Ends.{ended, enqueued_again, left_of, not_started, retried, succeeded, with_output};
ghost use Rattle.wm_machine.specs.Runs.{started};
ghost use Rattle.wm_machine.specs.Settings.{put_back};
ghost use Rattle.wm_machine.specs.Updated.{next_moment, one_update_more, updated};

use std::alloc::{AllocError, Global};
use wm_collections::{Replica, both};
use wm_data::Data;
use wm_machine::{End, How, NUMBERS_END, Phase, Record};
use wm_request::{NextRun, Request};

/// Attempts and periods are counted up to this number.
const MAX_COUNT: u32 = 1_000_000;

/// Updates are counted up to this number, 2^53 - 1.
const LAST_GENERATION: u64 = NUMBERS_END - 1;

/// The record of a work whose run begins: one attempt more, without progress.
pub fn started(alloc: Global, work: &Record) -> Result<Record, AllocError>
    ensures { IfOk result (λ changed. changed ≡ started work.entry.now) }
{
    let mut changed = work.replica(alloc)?;
    changed.phase = Phase::Running;
    changed.attempt = work.attempt.saturating_add(1).min(MAX_COUNT);
    changed.progress = Data::empty();
    Ok(changed)
}

/// The record of a work whose run ended so at this moment, in milliseconds. A retry puts it back,
/// with a backoff that counts from its attempt. Else periodic work is enqueued again, and one-time
/// work has succeeded or failed with its output, and finished now. The moment that its next run was
/// given is used up, but where it was set anew since the run began.
pub fn ended(
    alloc: Global,
    work: &Record,
    end: &End,
    now: u64,
    renewed: bool,
) -> Result<Record, AllocError>
    ensures { IfOk result (λ changed. changed ≡ ended renewed now end.now work.entry.now) }
{
    match end {
        End::Retry => retried(alloc, work, now, renewed),
        End::Success(_) | End::Failure(_) if work.request.period().is_some() => {
            enqueued_again(alloc, work, now, renewed)
        }
        End::Success(output) => finished(alloc, work, How::Succeeded, output, now),
        End::Failure(output) => finished(alloc, work, How::Failed, output, now),
    }
}

/// The record of a work whose run had no turn left at this moment: it is put back as for a retry,
/// after a run since which its next one was set anew or wasn't.
pub fn timed_out(
    alloc: Global,
    work: &Record,
    now: u64,
    renewed: bool,
) -> Result<Record, AllocError>
    ensures { IfOk result (λ changed. changed ≡ retried renewed now work.entry.now) }
{
    retried(alloc, work, now, renewed)
}

/// The record of a work whose run is stopped by new conditions: it waits as it did before, in its
/// attempt, without progress.
pub fn stopped(alloc: Global, work: &Record) -> Result<Record, AllocError>
    ensures { IfOk result (λ changed. changed ≡ put_back work.entry.now) }
{
    let mut changed = work.replica(alloc)?;
    changed.phase = Phase::Waiting;
    changed.progress = Data::empty();
    Ok(changed)
}

/// The record of a work that couldn't start at this moment: one-time work has failed without an
/// output, and periodic work is enqueued again, without a moment that its next run was given.
pub fn not_started(alloc: Global, work: &Record, now: u64) -> Result<Record, AllocError>
    ensures { IfOk result (λ changed. changed ≡ not_started now work.entry.now) }
{
    if work.request.period().is_some() {
        return enqueued_again(alloc, work, now, false);
    }
    closed(alloc, work, How::Failed, now)
}

/// The record of a work that is finished in this way at this moment, in milliseconds, without having
/// given anything.
pub fn closed(alloc: Global, work: &Record, how: How, now: u64) -> Result<Record, AllocError>
    ensures { IfOk result (λ changed. changed ≡ closed how now work.entry.now) }
{
    let mut changed = work.replica(alloc)?;
    changed.phase = Phase::Done(how);
    changed.finished_at = now;
    changed.progress = Data::empty();
    Ok(changed)
}

/// The record of a work that nothing holds back from this moment on, from which its delay counts.
pub fn freed(alloc: Global, work: &Record, now: u64) -> Result<Record, AllocError>
    ensures { IfOk result (λ changed. changed ≡ record work.entry.now { enqueued_at = now }) }
{
    let mut free = work.replica(alloc)?;
    free.enqueued_at = now;
    Ok(free)
}

/// The record of a work that is asked for anew: the request is replaced but for its id and its keeping
/// time, it is updated once more, and the moment of its next run is set, cleared or left.
pub fn updated(alloc: Global, work: &Record, request: Request) -> Result<Record, AllocError>
    ensures { IfOk result (λ changed. changed ≡ updated request work.entry.now) }
{
    let (request, mut changed) = both(request, work.replica(alloc))?;
    changed.override_at = next_moment(request.next(), work.override_at);
    changed.request = request.of_record(work.request.id(), work.request.keep());
    changed.generation = one_update_more(work.generation);
    Ok(changed)
}

/// The moment that the next run of a work is given, where it was this before and is asked for so.
pub fn next_moment(next: NextRun, before: Option<u64>) -> Option<u64>
    ensures { result ≡ next_moment next before }
{
    match next {
        NextRun::Leave => before,
        NextRun::At(moment) => Some(moment),
        NextRun::Clear => None,
    }
}

/// The moment that the next run was given, after one run: it is used up, but where it was set anew
/// since that run began.
fn left_of(renewed: bool, before: Option<u64>) -> Option<u64>
    ensures { result ≡ left_of renewed before }
{
    if renewed { before } else { None }
}

/// One more than a number of updates, where it may rise.
pub fn one_update_more(generation: u64) -> u64
    ensures { result ≡ one_update_more generation }
{
    generation.saturating_add(1).min(LAST_GENERATION)
}

/// A work that waits again, for the attempt after this one.
fn retried(alloc: Global, work: &Record, now: u64, renewed: bool) -> Result<Record, AllocError>
    ensures { IfOk result (λ changed. changed ≡ retried renewed now work.entry.now) }
{
    let mut changed = work.replica(alloc)?;
    changed.phase = Phase::Waiting;
    changed.backoff_n = work.attempt;
    changed.enqueued_at = now;
    changed.override_at = left_of(renewed, work.override_at);
    changed.progress = Data::empty();
    Ok(changed)
}

/// A periodic work that waits for its next period.
fn enqueued_again(
    alloc: Global,
    work: &Record,
    now: u64,
    renewed: bool,
) -> Result<Record, AllocError>
    ensures { IfOk result (λ changed. changed ≡ enqueued_again renewed now work.entry.now) }
{
    let mut changed = work.replica(alloc)?;
    changed.phase = Phase::Waiting;
    changed.attempt = 0;
    changed.backoff_n = 0;
    changed.runs = work.runs.saturating_add(1).min(MAX_COUNT);
    changed.enqueued_at = now;
    changed.override_at = left_of(renewed, work.override_at);
    changed.output = Data::empty();
    changed.progress = Data::empty();
    Ok(changed)
}

/// A one-time work that has ended for good with this output, at this moment.
fn finished(
    alloc: Global,
    work: &Record,
    how: How,
    output: &Data,
    now: u64,
) -> Result<Record, AllocError>
    ensures { IfOk result (λ changed. changed ≡ with_output output.now (closed how now work.entry.now)) }
{
    let mut changed = closed(alloc, work, how, now)?;
    changed.output = output.replica(alloc)?;
    Ok(changed)
}
