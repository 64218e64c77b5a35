//! What a keeper that gathers leaves in the inner keeper.
ghost use Rattle.std.specs.Prelude.{IfOk};
ghost use Rattle.wm_keeper.specs.Keeper.{Ascends, AreOfDifferentNumbers};

use crate::gathering::Gathering;
use std::alloc::{AllocError, Global};
use std::process::Abort;
use std::test::Fail;
use wm_collections::{Items, Text};
use wm_keeper::{Change, KeepFault, Keeper, MemoryKeeper, Row};

/// What is done to it.
#[derive(Clone, Copy)]
enum Step {
    /// The row of this number is put, with this attempt.
    Put(i64, i64),
    /// The row of this number is removed.
    Remove(i64),
    Flush,
    Load,
}

/// A text without a letter.
fn no_text(alloc: Global) -> Text {
    Text::from_string(String::new(alloc))
}

/// A row of this number and attempt, whose other fields are none, 0 or empty.
fn row(alloc: Global, seq: i64, attempt: i64) -> Row {
    Row {
        version: 1,
        seq,
        id: Items::new(alloc),
        name: None,
        class: no_text(alloc),
        kind: 0,
        period: 0,
        flex: 0,
        delay: 0,
        policy: 0,
        wait: 0,
        merger: 0,
        network: 0,
        flags: 0,
        phase: 0,
        attempt,
        backoff_n: 0,
        runs: 0,
        generation: 0,
        enqueued_at: 0,
        input: no_text(alloc),
        output: no_text(alloc),
        prior: Items::new(alloc),
        tags: Items::new(alloc),
        next_at: -1,
        keep_for: 0,
        finished_at: 0,
    }
}

/// The rows that the inner keeper begins with: row 1.
fn first_rows(alloc: Global) -> Result<Vec<Row>, AllocError>
    ensures { IfOk result (λ rows. Ascends rows.items) }
{
    let mut rows = Vec::new(alloc);
    rows.push(row(alloc, 1, 0))?;
    Ok(rows)
}

/// A keeper over one of row 1, of whose calls that of this number fails.
fn over_row_1(alloc: Global, failing: u32) -> Result<Gathering<MemoryKeeper>, AllocError> {
    let failing = Vec::from_array(alloc, [failing])?;
    let rows = first_rows(alloc)?;
    Ok(Gathering::new(alloc, MemoryKeeper::new(rows, failing)))
}

/// The one change.
fn alone(alloc: Global, change: Change) -> Result<Vec<Change>, AllocError>
    ensures { IfOk result (λ changes. AreOfDifferentNumbers changes.items) }
{
    let mut changes = Vec::new(alloc);
    changes.push(change)?;
    Ok(changes)
}

/// Commits one change, and answers the fault.
fn committed<K: Keeper>(
    alloc: Global,
    keeper: &mut K,
    change: Change,
) -> Result<Option<KeepFault>, AllocError> {
    let changes = alone(alloc, change)?;
    Ok(keeper.commit(changes.as_slice()).err())
}

/// Does this, and answers the fault.
fn done<K: Keeper>(
    alloc: Global,
    keeper: &mut Gathering<K>,
    step: Step,
) -> Result<Option<KeepFault>, AllocError> {
    match step {
        Step::Put(seq, attempt) => {
            let row = row(alloc, seq, attempt);
            committed(alloc, keeper, Change::Put(row))
        }
        Step::Remove(seq) => committed(alloc, keeper, Change::Remove(seq)),
        Step::Flush => Ok(keeper.flush().err()),
        Step::Load => Ok(keeper.load("work").err()),
    }
}

/// Does all of this, and answers the faults.
fn all_done<K: Keeper>(
    alloc: Global,
    keeper: &mut Gathering<K>,
    steps: &[Step],
) -> Result<Vec<Option<KeepFault>>, AllocError> {
    let mut faults = Vec::new(alloc);
    for step in steps {
        faults.push(done(alloc, keeper, *step)?)?;
    }
    Ok(faults)
}

/// The numbers and the attempts of rows.
fn numbers_of(alloc: Global, rows: &[Row]) -> Result<Vec<(i64, i64)>, AllocError> {
    let mut numbers = Vec::new(alloc);
    for row in rows {
        numbers.push((row.seq, row.attempt))?;
    }
    Ok(numbers)
}

/// After these steps, of whose calls of the inner keeper that of this number fails, there were these
/// faults, so many changes wait, and the inner keeper has these rows.
fn expect(
    rt: &impl Abort,
    alloc: Global,
    failing: u32,
    steps: &[Step],
    faults: &[Option<KeepFault>],
    waiting: usize,
    rows: &[(i64, i64)],
) -> Result<(), Fail> {
    let mut keeper = over_row_1(alloc, failing)?;
    let met = all_done(alloc, &mut keeper, steps);
    let waits = keeper.waiting().len();
    let inner = keeper.into_inner();
    let held = numbers_of(alloc, inner.rows());
    drop(inner);
    assert_eq!(rt; met?.as_slice(), faults);
    assert_eq!(rt; waits, waiting);
    assert_eq!(rt; held?.as_slice(), rows);
    Ok(())
}

const NONE: Option<KeepFault> = None;

const FAILED: Option<KeepFault> = Some(KeepFault::Failed);

const MEMORY: Option<KeepFault> = Some(KeepFault::Memory);

/// The number of the call of the inner keeper that fails, or 0; the steps with their faults; and then
/// how many changes wait, and which rows the inner keeper has.
type Case<'a> = (
    u32,
    &'a [Step],
    &'a [Option<KeepFault>],
    usize,
    &'a [(i64, i64)],
);

#[test]
fn what_waits_is_kept_by_one_commit(rt: HostRuntime) -> Result<(), Fail> {
    let alloc = rt.alloc();
    use Step::{Flush, Load, Put, Remove};
    let cases: [Case; 10] = [
        (0, &[Put(1, 1)], &[NONE], 1, &[(1, 0)]),
        (0, &[Put(1, 1), Put(1, 2), Flush], &[NONE; 3], 0, &[(1, 2)]),
        (0, &[Put(2, 0), Remove(2), Flush], &[NONE; 3], 0, &[(1, 0)]),
        (0, &[Remove(1), Put(1, 5), Flush], &[NONE; 3], 0, &[(1, 5)]),
        (0, &[Remove(7), Flush], &[NONE; 2], 0, &[(1, 0)]),
        (
            2,
            &[Put(3, 0), Put(2, 0), Remove(1), Flush],
            &[NONE; 4],
            0,
            &[(2, 0), (3, 0)],
        ),
        (
            2,
            &[Put(2, 0), Flush, Flush, Put(2, 1), Flush],
            &[NONE, NONE, NONE, NONE, FAILED],
            1,
            &[(1, 0), (2, 0)],
        ),
        (1, &[Flush], &[NONE], 0, &[(1, 0)]),
        (
            1,
            &[Put(2, 0), Flush, Put(3, 0), Flush],
            &[NONE, FAILED, NONE, NONE],
            0,
            &[(1, 0), (2, 0), (3, 0)],
        ),
        (
            0,
            &[Load, Remove(1), Load, Flush, Load],
            &[NONE, NONE, MEMORY, NONE, NONE],
            0,
            &[],
        ),
    ];
    for (failing, steps, faults, waiting, rows) in cases {
        expect(&rt, alloc, failing, steps, faults, waiting, rows)?;
    }
    Ok(())
}
