//! Keepers of rows, of `wm_keeper`.
ghost use Rattle.std.specs.Prelude.{◌≡◌, ◌≢◌, IfOk, IfSome};
ghost use Rattle.wm_keeper.specs.Keeper.{Ascends, AreOfDifferentNumbers, changed_number};

use std::alloc::{AllocError, Global};
use std::process::Abort;
use std::test::Fail;
use wm_collections::{Items, Text};
use wm_keeper::{Change, KeepFault, Keeper, MemoryKeeper, Row, SureKeeper};

/// A text without a letter.
fn no_text(alloc: Global) -> Text {
    Text::from_string(String::new(alloc))
}

/// A row of this number and attempt, whose other fields are none, 0 or empty.
fn row(alloc: Global, seq: i64, attempt: i64) -> Row
    ensures { result.seq ≡ seq }
{
    Row {
        version: 1,
        seq,
        id: Items::new(alloc),
        name: None,
        class: no_text(alloc),
        kind: 0,
        period: 0,
        flex: 0,
        delay: 0,
        policy: 0,
        wait: 0,
        merger: 0,
        network: 0,
        flags: 0,
        phase: 0,
        attempt,
        backoff_n: 0,
        runs: 0,
        generation: 0,
        enqueued_at: 0,
        input: no_text(alloc),
        output: no_text(alloc),
        prior: Items::new(alloc),
        tags: Items::new(alloc),
        next_at: -1,
        keep_for: 0,
        finished_at: 0,
    }
}

/// The one row 1.
fn first_row(alloc: Global) -> Result<Vec<Row>, AllocError>
    ensures { IfOk result (λ rows. Ascends rows.items) }
{
    let mut rows = Vec::new(alloc);
    rows.push(row(alloc, 1, 0))?;
    Ok(rows)
}

/// The numbers and the attempts of rows.
fn numbers_of(alloc: Global, rows: &[Row]) -> Result<Vec<(i64, i64)>, AllocError> {
    let mut numbers = Vec::new(alloc);
    for row in rows {
        numbers.push((row.seq, row.attempt))?;
    }
    Ok(numbers)
}

/// The numbers and the attempts of the rows that a keeper loads.
fn loaded<K: Keeper>(alloc: Global, keeper: &mut K) -> Result<Vec<(i64, i64)>, Fail> {
    let rows = keeper.load("work")?;
    Ok(numbers_of(alloc, rows.as_slice())?)
}

/// A change of one row: the row of this number is put with an attempt, or removed with none.
fn change(alloc: Global, seq: i64, attempt: Option<i64>) -> Change
    ensures { changed_number result ≡ seq }
{
    match attempt {
        Some(attempt) => Change::Put(row(alloc, seq, attempt)),
        None => Change::Remove(seq),
    }
}

/// Commits changes.
fn commit<K: Keeper>(keeper: &mut K, changes: Vec<Change>) -> Result<(), KeepFault>
    requires { AreOfDifferentNumbers changes.items }
{
    keeper.commit(changes.as_slice())
}

/// A change, and a second one of another number where there is any.
fn changes(alloc: Global, first: Change, second: Option<Change>) -> Result<Vec<Change>, AllocError>
    requires { IfSome second (λ other. changed_number first ≢ changed_number other) }
    ensures { IfOk result (λ changes. AreOfDifferentNumbers changes.items) }
{
    let mut changes = Vec::new(alloc);
    changes.push(first)?;
    if let Some(second) = second {
        changes.push(second)?;
    }
    Ok(changes)
}

/// The rows once one was put with an attempt, or removed with none.
fn after_change<K: Keeper>(
    alloc: Global,
    keeper: &mut K,
    seq: i64,
    attempt: Option<i64>,
) -> Result<Vec<(i64, i64)>, Fail> {
    let changes = changes(alloc, change(alloc, seq, attempt), None)?;
    commit(keeper, changes)?;
    loaded(alloc, keeper)
}

/// Puts and removes at each place of a keeper without rows.
fn edits<K: Keeper>(rt: &impl Abort, alloc: Global, keeper: &mut K) -> Result<(), Fail> {
    assert!(rt; loaded(alloc, keeper)?.is_empty());
    let steps: [(i64, Option<i64>, &[(i64, i64)]); 12] = [
        (1, None, &[]),
        (1, Some(0), &[(1, 0)]),
        (1, None, &[]),
        (5, Some(0), &[(5, 0)]),
        (9, Some(0), &[(5, 0), (9, 0)]),
        (7, Some(0), &[(5, 0), (7, 0), (9, 0)]),
        (-1, Some(0), &[(-1, 0), (5, 0), (7, 0), (9, 0)]),
        (7, Some(1), &[(-1, 0), (5, 0), (7, 1), (9, 0)]),
        (8, None, &[(-1, 0), (5, 0), (7, 1), (9, 0)]),
        (7, None, &[(-1, 0), (5, 0), (9, 0)]),
        (-1, None, &[(5, 0), (9, 0)]),
        (9, None, &[(5, 0)]),
    ];
    for (seq, attempt, expected) in steps {
        let rows = after_change(alloc, keeper, seq, attempt)?;
        assert_eq!(rt; rows.as_slice(), expected, "after {seq}");
    }
    Ok(())
}

#[test]
fn changes_are_made_at_each_place(rt: HostRuntime) -> Result<(), Fail> {
    let alloc = rt.alloc();
    let mut memory = MemoryKeeper::new(Vec::new(alloc), Vec::new(alloc));
    let edited = edits(&rt, alloc, &mut memory);
    drop(memory);
    edited?;
    let mut sure = SureKeeper::new(Vec::new(alloc));
    edits(&rt, alloc, &mut sure)
}

/// The faults of a load, of a put of row 2, and of a put of row 3 with a removal of row 1.
fn faults<K: Keeper>(alloc: Global, keeper: &mut K) -> Result<[Option<KeepFault>; 3], AllocError> {
    let load = keeper.load("work").err();
    let second = changes(alloc, change(alloc, 2, Some(0)), None)?;
    let put = commit(keeper, second).err();
    let third = changes(alloc, change(alloc, 3, Some(0)), Some(Change::Remove(1)))?;
    let both = commit(keeper, third).err();
    Ok([load, put, both])
}

/// A keeper of row 1 has these faults, and these rows after them.
fn expect_faults<K: Keeper + Drop>(
    rt: &impl Abort,
    alloc: Global,
    mut keeper: K,
    expected: [Option<KeepFault>; 3],
    rows: &[(i64, i64)],
) -> Result<(), Fail> {
    assert_eq!(rt; faults(alloc, &mut keeper)?, expected);
    assert_eq!(rt; loaded(alloc, &mut keeper)?.as_slice(), rows);
    Ok(())
}

/// A keeper of row 1, of whose calls that of this number fails.
fn failing_at(alloc: Global, call: u32) -> Result<MemoryKeeper, AllocError> {
    let failing = Vec::from_array(alloc, [call])?;
    let rows = first_row(alloc)?;
    Ok(MemoryKeeper::new(rows, failing))
}

#[test]
fn a_call_that_fails_leaves_what_was_there(rt: HostRuntime) -> Result<(), Fail> {
    let alloc = rt.alloc();
    let failed = Some(KeepFault::Failed);
    let cases: [(u32, [Option<KeepFault>; 3], &[(i64, i64)]); 4] = [
        (0, [None, None, None], &[(2, 0), (3, 0)]),
        (1, [failed, None, None], &[(2, 0), (3, 0)]),
        (2, [None, failed, None], &[(3, 0)]),
        (3, [None, None, failed], &[(1, 0), (2, 0)]),
    ];
    for (failing, faults, rows) in cases {
        expect_faults(&rt, alloc, failing_at(alloc, failing)?, faults, rows)?;
    }
    let sure = SureKeeper::new(first_row(alloc)?);
    expect_faults(&rt, alloc, sure, [None, None, None], &[(2, 0), (3, 0)])
}
