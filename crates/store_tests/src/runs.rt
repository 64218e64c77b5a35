//! Runs over a store in files, on whatever disk.
ghost use Rattle.std.specs.Prelude.{◌≤◌, vec_len, IfOk};
ghost use Rattle.wm_bench.specs.Places.{most_hands};
ghost use Rattle.wm_keeper.specs.Keeper.{AreOfDifferentNumbers};

use crate::rows::commit;
use crate::state_rows::rows_of;
use sqlite::{Alter, Connection};
use sqlite_disk::{Disk, Files};
use sqlite_pager::Options;
use sqlite_store::FileStore;
use std::alloc::{AllocError, Global};
use std::sync::Wait;
use std::test::Fail;
use std::thread::Threads;
use wm_bench::Hand;
use wm_cli::{Ended, Status, run};
use wm_collections::{Text, both};
use wm_io::{MemorySink, MemorySource};
use wm_keeper::{Change, KeepFault, Keeper, Row};
use wm_pool::OpenGate;
use wm_sqlite::SqliteKeeper;
use wm_stock::AnyStock;

/// What a run told.
#[derive(Drop)]
pub(crate) struct Told {
    /// How it ended.
    pub(crate) status: Status,
    /// How many events its log has.
    pub(crate) events: usize,
    /// The rows of the state that its log led to.
    pub(crate) rows: Vec<Row>,
    /// What it wrote.
    pub(crate) written: Vec<u8>,
}

/// What is left of a run.
#[derive(Drop)]
pub(crate) struct Left<D: Disk> {
    /// What it told.
    pub(crate) told: Told,
    /// The files, as they are then.
    pub(crate) files: Files<D>,
}

/// A keeper over a store in files.
type FilesKeeper<D> = SqliteKeeper<FileStore<D>>;

/// A stock worker of this kind, for the class of its name.
fn hand(alloc: Global, worker: AnyStock) -> Result<Hand<AnyStock>, AllocError> {
    let class = Text::from_str(alloc, worker.name())?;
    Ok(Hand { class, worker })
}

/// A stock worker of each kind that the script needs.
fn hands(alloc: Global) -> Result<Vec<Hand<AnyStock>>, AllocError>
    ensures { IfOk result (λ hands. vec_len hands ≤ most_hands) }
{
    let mut hands = Vec::new(alloc);
    hands.push(hand(alloc, AnyStock::Echo)?)?;
    hands.push(hand(alloc, AnyStock::FailUntil)?)?;
    hands.push(hand(alloc, AnyStock::Count)?)?;
    hands.push(hand(alloc, AnyStock::RetryUntil)?)?;
    Ok(hands)
}

/// The words of the program's command line.
fn words(alloc: Global) -> Result<Vec<String>, AllocError> {
    let mut words = Vec::new(alloc);
    words.push(String::from_str(alloc, "--store")?)?;
    words.push(String::from_str(alloc, "any-name")?)?;
    Ok(words)
}

/// How a run of a script over a store ends.
fn run_with<R: Threads + Wait + Sync, K: Keeper + Send + Drop>(
    rt: &R,
    alloc: Global,
    keeper: K,
    script: &str,
) -> Result<Ended<K, MemorySink, AnyStock>, AllocError> {
    let words = words(alloc)?;
    let hands = hands(alloc)?;
    let bytes = Vec::from_slice(alloc, script.as_bytes())?;
    let mut source = MemorySource::new(bytes, 1_000, Vec::new(alloc));
    let sink = MemorySink::new(1_000, Vec::new(alloc));
    Ok(run(
        rt,
        alloc,
        &words,
        hands,
        &mut source,
        sink,
        keeper,
        &OpenGate,
    ))
}

/// What a run told that ended so.
fn told_of<K: Keeper + Drop>(
    alloc: Global,
    ended: &Ended<K, MemorySink, AnyStock>,
) -> Result<Told, AllocError> {
    let rows = rows_of(alloc, ended.last.works.as_slice())?;
    let (rows, written) = both(rows, Vec::from_slice(alloc, ended.sink.bytes()))?;
    Ok(Told {
        status: ended.status,
        events: ended.log.len(),
        rows,
        written,
    })
}

/// The keeper that comes back from a run.
fn keeper_of<K: Keeper + Drop>(ended: Ended<K, MemorySink, AnyStock>) -> K {
    ended.keeper
}

/// What a run of a script over a store told, with its keeper.
fn tell<R: Threads + Wait + Sync, K: Keeper + Send + Drop>(
    rt: &R,
    alloc: Global,
    keeper: K,
    script: &str,
) -> Result<(Told, K), AllocError> {
    let ended = run_with(rt, alloc, keeper, script)?;
    let told = told_of(alloc, &ended);
    let keeper = keeper_of(ended);
    Ok((told?, keeper))
}

/// The same over any store.
fn tell_over<R: Threads + Wait + Sync, A: Alter + Send + Drop>(
    rt: &R,
    alloc: Global,
    keeper: SqliteKeeper<A>,
    script: &str,
) -> Result<(Told, SqliteKeeper<A>), AllocError> {
    tell(rt, alloc, keeper, script)
}

/// What a run told that opened nothing.
fn nothing(alloc: Global) -> Told {
    Told {
        status: Status::KeeperFault,
        events: 0,
        rows: Vec::new(alloc),
        written: Vec::new(alloc),
    }
}

/// A small cache, since each opening makes one, and a log that is copied into the database file every
/// few commits.
fn options() -> Options {
    Options {
        cache_pages: 16,
        spill_pages: 2_000,
        checkpoint_frames: 8,
        seed: 1,
    }
}

/// A keeper over the store in these files, which come back where it can't be opened.
fn open<D: Disk + Drop>(
    alloc: Global,
    files: Files<D>,
) -> Result<Result<FilesKeeper<D>, Files<D>>, AllocError> {
    if !files.may_be_used() {
        return Err(AllocError);
    }
    match Connection::open_files(alloc, files, options()) {
        Ok(connection) => Ok(Ok(SqliteKeeper::adopt(connection))),
        Err(refused) => {
            let (_, leftover) = refused;
            Ok(Err(leftover.into_files()))
        }
    }
}

/// The files of a keeper.
fn files_of<D: Disk + Drop>(keeper: FilesKeeper<D>) -> Files<D> {
    keeper.into_connection().into_store().close()
}

/// Runs a script over the store in these files.
pub(crate) fn run_over<R: Threads + Wait + Sync, D: Disk + Send + Drop>(
    rt: &R,
    alloc: Global,
    files: Files<D>,
    script: &str,
) -> Result<Left<D>, AllocError> {
    match open(alloc, files)? {
        Ok(keeper) => {
            let (told, keeper) = tell_over(rt, alloc, keeper, script)?;
            let files = files_of(keeper);
            Ok(Left { told, files })
        }
        Err(files) => Ok(Left {
            told: nothing(alloc),
            files,
        }),
    }
}

/// The rows that a keeper loads; none where it can't.
fn loaded<A: Alter>(keeper: &mut SqliteKeeper<A>) -> Option<Vec<Row>> {
    keeper.load("any name").ok()
}

/// The rows in the store in these files, with the files; none where it can't be opened or loaded.
pub(crate) fn rows_in<D: Disk + Drop>(
    alloc: Global,
    files: Files<D>,
) -> Result<(Option<Vec<Row>>, Files<D>), AllocError> {
    match open(alloc, files)? {
        Ok(keeper) => {
            let mut keeper = keeper;
            let rows = loaded(&mut keeper);
            Ok((rows, files_of(keeper)))
        }
        Err(files) => Ok((None, files)),
    }
}

/// Makes these changes in the store in these files, in one commit.
pub(crate) fn commit_in<D: Disk + Drop>(
    alloc: Global,
    files: Files<D>,
    changes: Vec<Change>,
) -> Result<Files<D>, KeepFault>
    requires { AreOfDifferentNumbers changes.items }
{
    match open(alloc, files)? {
        Ok(keeper) => {
            let mut keeper = keeper;
            let committed = commit(&mut keeper, changes);
            let files = files_of(keeper);
            match committed {
                Ok(()) => Ok(files),
                Err(fault) => Err(fault),
            }
        }
        Err(_) => Err(KeepFault::Failed),
    }
}

/// Runs a statement on the store in these files.
pub(crate) fn execute_in<D: Disk + Drop>(
    alloc: Global,
    files: Files<D>,
    statement: &str,
) -> Result<Files<D>, Fail> {
    match open(alloc, files)? {
        Ok(keeper) => {
            let mut connection = keeper.into_connection();
            connection.execute_batch(statement)?;
            Ok(connection.into_store().close())
        }
        Err(_) => Err(AllocError.into()),
    }
}
