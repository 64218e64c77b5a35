//! Whole runs over SQLite stores in files, in which rows stand that were committed before.
use crate::rows::one;
use crate::runs::{Told, commit_in, execute_in, rows_in, run_over};
use sqlite_disk::{Files, Fuse, Memory};
use std::alloc::{AllocError, Global};
use std::process::Abort;
use std::test::Fail;
use wm_cli::Status;
use wm_collections::{Items, Text};
use wm_keeper::{Change, KeepFault, Row};

/// The files of a store in memory, which don't fail. The disk is the one that the sweep takes, so that
/// a run over it is proved and built once.
type Store = Files<Fuse<Memory>>;

/// A store without a file.
fn empty(alloc: Global) -> Store {
    let disk = || Fuse::new(Memory::new(alloc), u64::MAX);
    Files {
        log: disk(),
        db: disk(),
    }
}

/// The id of the work that is stored.
const ID: [u8; 16] = [0, 0, 0, 0, 0, 0, 0, 0, 0, 0, 0, 0, 0, 0, 0, 1];

/// What stored rows differ in.
#[derive(Clone, Copy)]
struct Stored<'a> {
    seq: i64,
    phase: i64,
    attempt: i64,
    output: &'a str,
    prior: &'a [i64],
}

/// The row of one-time work of class Echo with an input, as a request with the defaults stores it.
fn row_of(alloc: Global, stored: &Stored<'_>) -> Result<Row, AllocError> {
    Ok(Row {
        version: 2,
        seq: stored.seq,
        id: Items::from_vec(Vec::from_slice(alloc, &ID)?),
        name: None,
        class: Text::from_str(alloc, "Echo")?,
        kind: 0,
        period: 0,
        flex: 0,
        delay: 0,
        policy: 1,
        wait: 30_000,
        merger: 0,
        network: 0,
        flags: 0,
        phase: stored.phase,
        attempt: stored.attempt,
        backoff_n: 0,
        runs: 0,
        generation: 0,
        enqueued_at: 0,
        input: Text::from_str(alloc, "{\"a\":{\"int\":7}}")?,
        output: Text::from_str(alloc, stored.output)?,
        prior: Items::from_vec(Vec::from_slice(alloc, stored.prior)?),
        tags: Items::new(alloc),
        next_at: -1,
        keep_for: 0,
        finished_at: 0,
    })
}

/// A store to which a keeper committed this row.
fn store_of(alloc: Global, row: Row) -> Result<Store, KeepFault> {
    let changes = one(alloc, Change::Put(row))?;
    commit_in(alloc, empty(alloc), changes)
}

/// The number, the phase and the attempt of each row.
fn standings(alloc: Global, rows: &[Row]) -> Result<Vec<(i64, i64, i64)>, AllocError> {
    let mut standings = Vec::new(alloc);
    for row in rows {
        standings.push((row.seq, row.phase, row.attempt))?;
    }
    Ok(standings)
}

/// Those of the rows of a store; none where it can't be loaded.
fn standings_in(alloc: Global, store: Store) -> Result<Vec<(i64, i64, i64)>, AllocError> {
    let (rows, store) = rows_in(alloc, store)?;
    drop(store);
    match rows {
        Some(rows) => standings(alloc, rows.as_slice()),
        None => Ok(Vec::new(alloc)),
    }
}

const QUERY: &str = "{\"cmd\":\"query\"}";

const ENQUEUE: &str =
    "{\"cmd\":\"enqueue\",\"works\":[{\"class\":\"Echo\",\"id\":\"00000000-0000-0000-0000-000000000007\"}]}";

const NUMBERS_SPENT: &str = "{\"error\":\"NumbersSpent\",\"line\":1,\"next\":9007199254740992}\n";

const OPENED_AGAIN: &str =
    "{\"line\":1,\"ok\":\"query\",\"works\":[{\"attempt\":1,\"due\":0,\"generation\":0,\"id\":\"00000000-0000-0000-0000-000000000001\",\"output\":{},\"progress\":{},\"seq\":1,\"state\":\"ENQUEUED\",\"tags\":[]}]}\n";

/// Stored rows that are opened or refused, each with a script, how the run ends, what it writes, and
/// the number, the phase and the attempt that the row has then.
fn cases() -> [(
    Stored<'static>,
    &'static str,
    Status,
    &'static str,
    (i64, i64, i64),
); 3] {
    let unsound = Stored {
        seq: 5,
        phase: 0,
        attempt: 0,
        output: "{}",
        prior: &[9],
    };
    let last = Stored {
        seq: 9_007_199_254_740_991,
        phase: 3,
        attempt: 0,
        output: "{}",
        prior: &[],
    };
    let running = Stored {
        seq: 1,
        phase: 1,
        attempt: 1,
        output: "{}",
        prior: &[],
    };
    let refused = Status::BadStore {
        seq: 5,
        bad_row: false,
    };
    [
        (unsound, QUERY, refused, "", (5, 0, 0)),
        (
            last,
            ENQUEUE,
            Status::Done,
            NUMBERS_SPENT,
            (9_007_199_254_740_991, 3, 0),
        ),
        (running, QUERY, Status::Done, OPENED_AGAIN, (1, 2, 2)),
    ]
}

/// A run ended so, and wrote this.
fn expect(rt: &impl Abort, told: &Told, status: Status, written: &str) {
    assert_eq!(rt; told.status, status);
    assert_eq!(rt; told.written.as_slice(), written.as_bytes());
}

#[test]
fn a_stored_row_is_opened_or_refused(rt: HostRuntime) -> Result<(), Fail> {
    let alloc = rt.alloc();
    for (stored, script, status, replies, row) in cases() {
        let store = store_of(alloc, row_of(alloc, &stored)?)?;
        let left = run_over(&rt, alloc, store, script)?;
        expect(&rt, &left.told, status, replies);
        let rows = standings_in(alloc, left.files)?;
        assert_eq!(rt; rows.as_slice(), [row].as_slice());
    }
    Ok(())
}

/// A finished Echo's row, of number 7.
fn finished() -> Stored<'static> {
    Stored {
        seq: 7,
        phase: 2,
        attempt: 1,
        output: "{\"a\":{\"int\":7}}",
        prior: &[],
    }
}

#[test]
fn a_row_with_seven_bytes_of_prerequisites_is_refused(rt: HostRuntime) -> Result<(), Fail> {
    let alloc = rt.alloc();
    let store = store_of(alloc, row_of(alloc, &finished())?)?;
    let left = run_over(&rt, alloc, store, "")?;
    expect(&rt, &left.told, Status::Done, "");
    let statement = "UPDATE work2 SET prior = x'01020304050607'";
    let store = execute_in(alloc, left.files, statement)?;
    let left = run_over(&rt, alloc, store, QUERY)?;
    let refused = Status::BadStore {
        seq: 7,
        bad_row: true,
    };
    expect(&rt, &left.told, refused, "");
    Ok(())
}

/// A line that enqueues so many works, which wait for moment 1.
fn enqueue_of(alloc: Global, count: u32) -> Result<String, AllocError> {
    let mut line = String::from_str(alloc, "{\"cmd\":\"enqueue\",\"works\":[")?;
    for number in 0..count {
        let comma = if number == 0 { "" } else { "," };
        let work = format!(in alloc;
            "{comma}{{\"class\":\"Echo\",\"delay\":1,\"id\":\"{number:032x}\"}}"
        )?;
        line.push_str(work.as_str())?;
    }
    line.push_str("]}")?;
    Ok(line)
}

const SUMMARY: &str = "{\"cmd\":\"summary\"}";

const THOUSAND_ENQUEUED: &str =
    "{\"attempts\":0,\"blocked\":0,\"cancelled\":0,\"enqueued\":1000,\"failed\":0,\"line\":1,\"ok\":\"summary\",\"running\":0,\"succeeded\":0}\n";

#[test]
fn a_thousand_works_of_one_line_are_there_in_the_next_run(rt: HostRuntime) -> Result<(), Fail> {
    let alloc = rt.alloc();
    let line = enqueue_of(alloc, 1_000)?;
    let left = run_over(&rt, alloc, empty(alloc), line.as_str())?;
    assert_eq!(rt; left.told.status, Status::Done);
    let left = run_over(&rt, alloc, left.files, SUMMARY)?;
    expect(&rt, &left.told, Status::Done, THOUSAND_ENQUEUED);
    Ok(())
}
