//! A stop after each number of calls of the disk.
use crate::runs::{Left, Told, rows_in, run_over};
use sqlite_disk::{Crash, Disk, Files, Fuse, Memory};
use std::alloc::{AllocError, Global};
use std::io;
use std::sync::Wait;
use std::test::Fail;
use std::thread::Threads;
use wm_cli::Status;
use wm_collections::both;
use wm_keeper::Row;

const SCRIPT: &str =
    r#"{"cmd":"enqueue","works":[{"class":"Echo","id":"00000000-0000-0000-0000-000000000001"},{"class":"FailUntil","id":"00000000-0000-0000-0000-000000000002","after":["00000000-0000-0000-0000-000000000001"]},{"class":"Count","id":"00000000-0000-0000-0000-000000000003","after":["00000000-0000-0000-0000-000000000001"],"input":{"turns":{"int":2}}},{"class":"Echo","id":"00000000-0000-0000-0000-000000000004","after":["00000000-0000-0000-0000-000000000002","00000000-0000-0000-0000-000000000003"]}]}
{"cmd":"cancel","id":"00000000-0000-0000-0000-000000000003"}
{"cmd":"prune"}
{"cmd":"enqueue","works":[{"class":"RetryUntil","id":"00000000-0000-0000-0000-000000000009"}]}
"#;

/// A script one of whose events both takes a row away and puts one: a name whose work succeeded passes
/// to another work.
const REPLACES: &str =
    r#"{"cmd":"enqueue","works":[{"class":"Echo","id":"00000000-0000-0000-0000-000000000001"}],"name":"a","policy":"REPLACE"}
{"cmd":"settle"}
{"cmd":"enqueue","works":[{"class":"Echo","id":"00000000-0000-0000-0000-000000000002"}],"name":"a","policy":"REPLACE"}
"#;

/// A disk that fails from some call on.
trait Stopping: Crash {
    /// An empty one, with so many calls left.
    fn with_calls(alloc: Global, calls: u64) -> Self;

    /// One that doesn't fail and holds what was written to this one, whether synced or not.
    fn copied(&self, alloc: Global) -> io::Result<Self>;
}

impl Stopping for Fuse<Memory> {
    fn with_calls(alloc: Global, calls: u64) -> Fuse<Memory> {
        Fuse::new(Memory::new(alloc), calls)
    }

    fn copied(&self, alloc: Global) -> io::Result<Fuse<Memory>> {
        let mut memory = Memory::new(alloc);
        memory.write_at(0, self.inner().bytes())?;
        memory.sync()?;
        Ok(Fuse::new(memory, u64::MAX))
    }
}

/// Which of the two files fail.
#[derive(Clone, Copy)]
enum Failing {
    /// The log and the database file, each after as many calls of its own.
    Both,
    /// The database file, whose calls are few: where both fail, the log is first.
    Database,
}

/// New files, of which those that fail have so many calls left.
fn new_files<D: Stopping>(alloc: Global, failing: Failing, calls: u64) -> Files<D> {
    let log = match failing {
        Failing::Both => calls,
        Failing::Database => u64::MAX,
    };
    Files {
        log: D::with_calls(alloc, log),
        db: D::with_calls(alloc, calls),
    }
}

/// The files after the process ended, which keep what was written to them.
fn copies_of<D: Stopping + Drop>(alloc: Global, files: &Files<D>) -> io::Result<Files<D>> {
    let log = files.log.copied(alloc)?;
    let db = files.db.copied(alloc)?;
    Ok(Files { log, db })
}

/// The files after a crash of the machine, which lost what wasn't synced.
fn crashed<D: Crash>(files: Files<D>) -> Files<D> {
    let mut files = files;
    files.log.crash();
    files.db.crash();
    files
}

/// The rows that are loaded from these files, over which a run without a line is then done; none
/// where one of these can't be had.
fn next_finds<R: Threads + Wait + Sync, D: Disk + Send + Drop>(
    rt: &R,
    alloc: Global,
    files: Files<D>,
) -> Result<Option<Vec<Row>>, AllocError> {
    let (rows, files) = rows_in(alloc, files)?;
    let status = status_of(run_over(rt, alloc, files, ""));
    let (rows, status) = both(rows, status)?;
    Ok(if status == Status::Done { rows } else { None })
}

/// How a run ended.
fn status_of<D: Disk + Drop>(left: Result<Left<D>, AllocError>) -> Result<Status, AllocError> {
    Ok(left?.told.status)
}

/// A run that was stopped, and what the next one finds.
#[derive(Drop)]
struct Stop {
    /// What it told.
    told: Told,
    /// The rows that are found after the process ended.
    written: Option<Vec<Row>>,
    /// The rows that are found after a crash of the machine.
    synced: Option<Vec<Row>>,
}

/// A run of a script over new files, and what the next one finds in them and in copies of them.
fn stop_in<R: Threads + Wait + Sync, D: Stopping + Send + Drop>(
    rt: &R,
    alloc: Global,
    files: Files<D>,
    script: &str,
) -> Result<Stop, AllocError> {
    let left = run_over(rt, alloc, files, script)?;
    let copies = copies_of(alloc, &left.files);
    let Left { told, files } = left;
    let synced = next_finds(rt, alloc, crashed(files));
    let written = written_in(rt, alloc, copies);
    let (synced, written) = both(synced?, written)?;
    Ok(Stop {
        told,
        written,
        synced,
    })
}

/// What the next run finds in copies.
fn written_in<R: Threads + Wait + Sync, D: Disk + Send + Drop>(
    rt: &R,
    alloc: Global,
    copies: io::Result<Files<D>>,
) -> Result<Option<Vec<Row>>, AllocError> {
    match copies {
        Ok(copies) => next_finds(rt, alloc, copies),
        Err(_) => Err(AllocError),
    }
}

/// The runs of a script that are stopped after 0, 1, 2 and so on calls of the files that fail, up to
/// the one that isn't stopped.
fn stops<R: Threads + Wait + Sync, D: Stopping + Send + Drop>(
    rt: &R,
    alloc: Global,
    failing: Failing,
    script: &str,
) -> Result<Vec<Stop>, AllocError> {
    let mut stops = Vec::new(alloc);
    for calls in 0..10_000 {
        let stop = stop_in(rt, alloc, new_files::<D>(alloc, failing, calls), script)?;
        let status = stop.told.status;
        stops.push(stop)?;
        if status != Status::KeeperFault {
            break;
        }
    }
    Ok(stops)
}

/// The same in memory.
fn stops_in_memory<R: Threads + Wait + Sync>(
    rt: &R,
    alloc: Global,
    failing: Failing,
    script: &str,
) -> Result<Vec<Stop>, AllocError> {
    stops::<R, Fuse<Memory>>(rt, alloc, failing, script)
}

/// What is found after a stop.
#[derive(Clone, Copy, Debug, PartialEq, Eq)]
enum Found {
    /// The rows of the log that the run handed back.
    Log,
    /// Those with the one event further that changes rows next.
    Further,
    /// Other rows, or none, since the next run wasn't done.
    Other,
}

/// Whether these rows are found.
fn finds(found: &Option<Vec<Row>>, rows: &[Row]) -> bool {
    match found {
        Some(found) => found.as_slice() == rows,
        None => false,
    }
}

/// What is found after a stop, before one whose log is longer.
fn found_after(found: &Option<Vec<Row>>, stop: &Stop, further: Option<&Stop>) -> Found {
    if finds(found, stop.told.rows.as_slice()) {
        return Found::Log;
    }
    match further {
        Some(further) => if finds(found, further.told.rows.as_slice()) {
            Found::Further
        } else {
            Found::Other
        },
        None => Found::Other,
    }
}

/// The first of the stops with a longer log than so many events. An event that changes no row makes no
/// call of the disk, so just one of those that it has more changes rows.
fn further(stops: &[Stop], events: usize) -> Option<&Stop> {
    stops.iter().find(|stop| stop.told.events > events)
}

/// How many stops find the rows of the log, those with one further event, and others.
type Counts = (usize, usize, usize);

/// The counts with one more.
fn counted(counts: Counts, found: Found) -> Counts {
    let (log, further, other) = counts;
    match found {
        Found::Log => (log.saturating_add(1), further, other),
        Found::Further => (log, further.saturating_add(1), other),
        Found::Other => (log, further, other.saturating_add(1)),
    }
}

/// The counts after the process ended, and after a crash of the machine.
fn count(stops: &[Stop]) -> (Counts, Counts) {
    let (mut written, mut synced) = ((0, 0, 0), (0, 0, 0));
    for stop in stops {
        let further = further(stops, stop.told.events);
        written = counted(written, found_after(&stop.written, stop, further));
        synced = counted(synced, found_after(&stop.synced, stop, further));
    }
    (written, synced)
}

/// How a run ended, and how many events its log has.
type End = (Status, usize);

/// The end of a stop.
fn end_of(stop: &Stop) -> End {
    (stop.told.status, stop.told.events)
}

/// What the stops of a script come to.
#[derive(Clone, Copy, Debug, PartialEq, Eq)]
struct Outcome {
    /// How many runs there are, the last of which isn't stopped.
    runs: usize,
    /// The end of the first.
    first: Option<End>,
    /// The end of the last.
    last: Option<End>,
    /// How many find the rows with one further event after the process ended, and other rows.
    written: (usize, usize),
    /// The same after a crash of the machine.
    synced: (usize, usize),
}

/// What these stops come to.
fn outcome_of(stops: &[Stop]) -> Outcome {
    let (written, synced) = count(stops);
    Outcome {
        runs: stops.len(),
        first: stops.first().map(end_of),
        last: stops.last().map(end_of),
        written: (written.1, written.2),
        synced: (synced.1, synced.2),
    }
}

/// What the stops of a script come to, where these files fail.
fn swept<R: Threads + Wait + Sync>(
    rt: &R,
    alloc: Global,
    failing: Failing,
    script: &str,
) -> Result<Outcome, AllocError> {
    let stops = stops_in_memory(rt, alloc, failing, script)?;
    Ok(outcome_of(stops.as_slice()))
}

/// The scripts, which of the files fail, how many runs there are then, how many events the last of
/// them has, and how many stops find the rows with one further event after the process ended.
const SWEEPS: [(&str, Failing, usize, usize, usize); 3] = [
    (SCRIPT, Failing::Both, 89, 13, 11),
    (SCRIPT, Failing::Database, 20, 13, 0),
    (REPLACES, Failing::Both, 64, 7, 6),
];

#[test]
fn a_stop_at_any_call_of_the_files_leaves_the_log_or_one_event_more(
    rt: HostRuntime,
) -> Result<(), Fail> {
    for (script, failing, runs, events, further) in SWEEPS {
        let sound = Outcome {
            runs,
            first: Some((Status::KeeperFault, 0)),
            last: Some((Status::Done, events)),
            written: (further, 0),
            synced: (0, 0),
        };
        let outcome = swept(&rt, rt.alloc(), failing, script)?;
        println!(rt; "{outcome:?}")?;
        assert_eq!(rt; outcome, sound);
    }
    Ok(())
}
