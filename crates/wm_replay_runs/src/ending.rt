//! What the end of a run makes of the records.
ghost use Rattle.std.specs.Prelude.{◌≡◌, false, None, Some, OnOk};
ghost use Rattle.wm_collections.specs.Lists.{AllLater};
ghost use Rattle.wm_machine.specs.Closed.{with_closed};
ghost use Rattle.wm_machine.specs.Ends.{enqueued_again, period_of, succeeded, with_freed, with_output, works_after_end, works_not_started};
ghost use Rattle.wm_machine.specs.Runs.{changed_work};
ghost use Rattle.wm_machine.specs.Valid.{IsBefore};
ghost use Rattle.wm_replay_runs.specs.Ending.{IsFinal};

use crate::closing::{close_work, free_after};
use crate::work_changes::{Ended, Giving, NotStarted, Retried, Succeeded, change_work};
use std::alloc::{AllocError, Global};
use wm_collections::Items;
use wm_data::Data;
use wm_machine::{End, How, Record, work_numbered};
use wm_schedule::Period;

/// What the end of a run of the work of this number, which was renewed or wasn't, makes of the
/// records at this moment: a retry puts the work back; else periodic work is enqueued again, one-time
/// work that succeeds frees those that wait for it alone, and one that fails takes its unfinished
/// descendants with it.
pub fn end_work(
    alloc: Global,
    works: &mut Items<Record>,
    seq: u64,
    renewed: bool,
    now: u64,
    end: &End,
) -> Result<(), AllocError>
    requires { AllLater IsBefore works.old }
    ensures { OnOk result (works.new
        ≡ works_after_end renewed now seq (period_of seq works.old) end.entry.now works.old) }
{
    match period_of(works.as_slice(), seq) {
        Some(period) => end_periodic(alloc, works, seq, renewed, now, period, end),
        None => end_one_time(alloc, works, seq, renewed, now, end),
    }
}

/// What a start that fails of the work of this number makes of the records at this moment: one-time
/// work has failed with its unfinished descendants, and periodic work is enqueued again.
pub fn fail_start(
    alloc: Global,
    works: &mut Items<Record>,
    seq: u64,
    now: u64,
) -> Result<(), AllocError>
    requires { AllLater IsBefore works.old }
    ensures { OnOk result (works.new ≡ works_not_started now seq (period_of seq works.old) works.old) }
{
    match period_of(works.as_slice(), seq) {
        Some(period) => put_off(alloc, works, seq, now, period),
        None => close_work(alloc, works, seq, How::Failed, now),
    }
}

/// The period of the work of this number, where it is periodic.
fn period_of(works: &[Record], seq: u64) -> Option<Period>
    requires { AllLater IsBefore works.now }
    ensures { result ≡ period_of seq works.now }
{
    match work_numbered(works, seq) {
        Some(work) => work.request.period(),
        None => None,
    }
}

/// A periodic work that couldn't start is enqueued again.
fn put_off(
    alloc: Global,
    works: &mut Items<Record>,
    seq: u64,
    now: u64,
    period: Period,
) -> Result<(), AllocError>
    requires in_order { AllLater IsBefore works.old }
    requires period { period_of seq works.old ≡ Some period }
    ensures { OnOk result (works.new ≡ changed_work (enqueued_again false now) seq works.old) }
{
    change_work(alloc, works, seq, &NotStarted { now })
}

/// What the end of a run of a periodic work makes of the records.
fn end_periodic(
    alloc: Global,
    works: &mut Items<Record>,
    seq: u64,
    renewed: bool,
    now: u64,
    period: Period,
    end: &End,
) -> Result<(), AllocError>
    requires in_order { AllLater IsBefore works.old }
    requires period { period_of seq works.old ≡ Some period }
    ensures { OnOk result (works.new
        ≡ works_after_end renewed now seq (Some period) end.entry.now works.old) }
{
    match end {
        End::Retry => change_work(alloc, works, seq, &Retried { renewed, now }),
        End::Success(_) => enqueue_again(alloc, works, seq, renewed, now, period, end),
        End::Failure(_) => enqueue_again(alloc, works, seq, renewed, now, period, end),
    }
}

/// A periodic work whose run has succeeded or failed is enqueued again.
fn enqueue_again(
    alloc: Global,
    works: &mut Items<Record>,
    seq: u64,
    renewed: bool,
    now: u64,
    period: Period,
    end: &End,
) -> Result<(), AllocError>
    requires in_order { AllLater IsBefore works.old }
    requires period { period_of seq works.old ≡ Some period }
    requires is_final { IsFinal end.now }
    ensures { OnOk result (works.new ≡ changed_work (enqueued_again renewed now) seq works.old) }
{
    change_work(alloc, works, seq, &Ended { renewed, now, end })
}

/// What the end of a run of a one-time work makes of the records.
fn end_one_time(
    alloc: Global,
    works: &mut Items<Record>,
    seq: u64,
    renewed: bool,
    now: u64,
    end: &End,
) -> Result<(), AllocError>
    requires { AllLater IsBefore works.old }
    ensures { OnOk result (works.new ≡ works_after_end renewed now seq None end.entry.now works.old) }
{
    match end {
        End::Retry => change_work(alloc, works, seq, &Retried { renewed, now }),
        End::Success(output) => succeed(alloc, works, seq, now, output),
        End::Failure(output) => fail(alloc, works, seq, now, output),
    }
}

/// A one-time work has succeeded, and those are free that waited for it alone.
fn succeed(
    alloc: Global,
    works: &mut Items<Record>,
    seq: u64,
    now: u64,
    output: &Data,
) -> Result<(), AllocError>
    requires { AllLater IsBefore works.old }
    ensures { OnOk result (works.new
        ≡ with_freed now seq (changed_work (succeeded now output.entry.now) seq works.old)) }
{
    change_work(alloc, works, seq, &Succeeded { now, output })?;
    free_after(alloc, works, seq, now)
}

/// A one-time work has failed, with its unfinished descendants.
fn fail(
    alloc: Global,
    works: &mut Items<Record>,
    seq: u64,
    now: u64,
    output: &Data,
) -> Result<(), AllocError>
    requires { AllLater IsBefore works.old }
    ensures { OnOk result (works.new
        ≡ changed_work (with_output output.entry.now) seq (with_closed How.Failed now seq works.old)) }
{
    close_work(alloc, works, seq, How::Failed, now)?;
    change_work(alloc, works, seq, &Giving { output })
}
