//! Which records the end of a work reaches, and what becomes of them.
ghost use Rattle.std.specs.Prelude.{◌≡◌, ◌==◌, ◌&&◌, ◌||◌, filter, reverse, IfOk, OnOk};
ghost use Rattle.std.specs.List.{list_any};
ghost use Rattle.wm_collections.specs.Lists.{AllLater, is_among};
ghost use Rattle.wm_machine.specs.Closed.{descendants, is_open, is_reached, with_closed};
ghost use Rattle.wm_machine.specs.Ends.{is_freed, with_freed};
ghost use Rattle.wm_machine.specs.Group.{numbers_in};
ghost use Rattle.wm_machine.specs.Valid.{IsBefore};

use crate::changing::{Change, change_items};
use std::alloc::{AllocError, Global};
use wm_collections::{Items, is_among};
use wm_machine::{How, Record};
use wm_query::all_met;

/// Finishes each unfinished descendant of the work of this number in this way, at this moment.
pub fn close_work(
    alloc: Global,
    works: &mut Items<Record>,
    seq: u64,
    how: How,
    now: u64,
) -> Result<(), AllocError>
    requires { AllLater IsBefore works.old }
    ensures { OnOk result (works.new ≡ with_closed how now seq works.old) }
{
    let numbers = reached(alloc, works.as_slice(), seq)?;
    change_items(alloc, works, &Closing { numbers, how, now })
}

/// Has those free from this moment on that wait for the work of this number, which has succeeded,
/// and for no other.
pub fn free_after(
    alloc: Global,
    works: &mut Items<Record>,
    seq: u64,
    now: u64,
) -> Result<(), AllocError>
    requires { AllLater IsBefore works.old }
    ensures { OnOk result (works.new ≡ with_freed now seq works.old) }
{
    let numbers = freed(alloc, works.as_slice(), seq)?;
    change_items(alloc, works, &Freeing { numbers, now })
}

/// The numbers of the unfinished descendants of the work of this number, ascending.
pub fn reached(alloc: Global, works: &[Record], seq: u64) -> Result<Items<u64>, AllocError>
    ensures { IfOk result (λ numbers. numbers ≡ numbers_in (filter (is_reached seq works.now) works.now)) }
{
    let descendants = descendants(alloc, works, seq)?;
    open_among(alloc, works, descendants.as_slice())
}

/// The numbers of the descendants of the work of this number, ascending. Prerequisites have smaller
/// numbers, so one pass finds them all.
fn descendants(alloc: Global, works: &[Record], seq: u64) -> Result<Items<u64>, AllocError>
    ensures { IfOk result (λ numbers. numbers ≡ reverse (descendants seq (reverse works.now))) }
{
    let mut numbers = Items::new(alloc);
    for work in works {
        if joins(numbers.as_slice(), seq, work) {
            numbers.push(work.seq)?;
        }
    }
    Ok(numbers)
}

/// Whether a work is the one of this number, or has one of these as a prerequisite.
fn joins(numbers: &[u64], seq: u64, work: &Record) -> bool
    ensures { result ≡ (work.entry.now.seq == seq || list_any (is_among numbers.now) work.entry.now.prior) }
{
    work.seq == seq || any_among(numbers, work.prior.as_slice())
}

/// Whether one of the second numbers is one of the first.
fn any_among(numbers: &[u64], others: &[u64]) -> bool
    ensures { result ≡ list_any (is_among numbers.now) others.now }
{
    others.iter().any(|number| is_among(numbers, *number))
}

/// The numbers of the unfinished works of these numbers.
fn open_among(alloc: Global, works: &[Record], numbers: &[u64]) -> Result<Items<u64>, AllocError>
    ensures { IfOk result (λ left. left
        ≡ numbers_in (filter (λ work. is_open work.phase && is_among numbers.now work.seq) works.now)) }
{
    let mut left = Items::new(alloc);
    for work in works {
        if work.phase.is_open() && is_among(numbers, work.seq) {
            left.push(work.seq)?;
        }
    }
    Ok(left)
}

/// The numbers of the works that wait for the work of this number, and for no other.
fn freed(alloc: Global, works: &[Record], seq: u64) -> Result<Items<u64>, AllocError>
    requires { AllLater IsBefore works.now }
    ensures { IfOk result (λ numbers. numbers ≡ numbers_in (filter (is_freed seq works.now) works.now)) }
{
    let mut numbers = Items::new(alloc);
    for work in works {
        if is_freed(works, seq, work) {
            numbers.push(work.seq)?;
        }
    }
    Ok(numbers)
}

/// Whether a work waits for the work of this number, and for no other.
fn is_freed(works: &[Record], seq: u64, work: &Record) -> bool
    requires { AllLater IsBefore works.now }
    ensures { result ≡ is_freed seq works.now work.now }
{
    work.phase.is_waiting() && is_among(work.prior.as_slice(), seq) && all_met(works, work)
}

/// The works of these numbers are finished in this way, at a moment.
#[derive(Drop)]
struct Closing {
    numbers: Items<u64>,
    how: How,
    now: u64,
}

impl Change<Record> for Closing {
    ghost use Rattle.wm_collections.specs.Lists.{is_among};
    ghost use Rattle.wm_machine.specs.Closed.{closed};

    ghost meant = { λ c work. is_among c.numbers work.seq };

    ghost made = { λ c work. closed c.how c.now work };

    fn is_meant(&self, work: &Record) -> bool {
        is_among(self.numbers.as_slice(), work.seq)
    }

    fn make(&self, alloc: Global, work: &mut Record) -> Result<(), AllocError> {
        *work = wm_lifecycle::closed(alloc, work, self.how, self.now)?;
        Ok(())
    }
}

/// The works of these numbers are free from this moment on.
#[derive(Drop)]
struct Freeing {
    numbers: Items<u64>,
    now: u64,
}

impl Change<Record> for Freeing {
    ghost use Rattle.wm_replay_runs.specs.Closings.{free_from};
    ghost use Rattle.wm_collections.specs.Lists.{is_among};

    ghost meant = { λ c work. is_among c.numbers work.seq };

    ghost made = { λ c work. free_from c.now work };

    fn is_meant(&self, work: &Record) -> bool {
        is_among(self.numbers.as_slice(), work.seq)
    }

    fn make(&self, alloc: Global, work: &mut Record) -> Result<(), AllocError> {
        *work = wm_lifecycle::freed(alloc, work, self.now)?;
        Ok(())
    }
}
