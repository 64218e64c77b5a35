//! A serial run over a large input that a seed gives.
ghost use Rattle.std.specs.List.{AllByRecursion};
ghost use Rattle.std.specs.Prelude.{◌≡◌, ◌≤◌, ◌<◌, ◌^◌, length, vec_len};
ghost use Rattle.wm_beginning.specs.Begun.{AreInputs};
ghost use Rattle.wm_beginning.specs.Loading.{MayBegin};
ghost use Rattle.wm_bench.specs.Places.{most_hands};
ghost use Rattle.wm_ended.specs.Tells.{tells_of};
ghost use Rattle.wm_machine.specs.Outcome.{IsAskable};

use std::alloc::{AllocError, Global};
use std::marker::Brand;
use std::test::Fail;
use wm_beginning::{Loaded, begin, load};
use wm_bench::Hand;
use wm_cli::{Ended, Status, open_book};
use wm_collections::{Items, both};
use wm_generator::generate;
use wm_io::{Sink, StdSink};
use wm_keeper::{Keeper, SureKeeper};
use wm_machine::Command;
use wm_pool::OpenGate;
use wm_program::stock_hands;
use wm_session::run_serial;
use wm_table::Mark;
use wm_worker::Worker;

/// How a run ended.
fn status_of<K: Drop, W: Drop, B: Drop>(ended: Ended<K, W, B>) -> Status {
    ended.status
}

/// How a serial run of these commands ends over the rows that were loaded. The mark is what the run
/// is given.
fn serial_over<K: Keeper + Drop, W: Sink + Drop, B: Worker, M: Mark>(
    alloc: Global,
    loaded: Loaded<K, W, B>,
    commands: Items<Command>,
) -> Status
    requires may { MayBegin K.store B.kind_of loaded }
    requires inputs { AreInputs (tells_of K.store W.given W.faults B.kind_of B.diary_of) M.inputs loaded commands }
    requires askable { AllByRecursion IsAskable commands }
    requires few { length commands < 2 ^ 32 }
{
    let begun = match begin::<K, W, B, M>(alloc, loaded) {
        Ok(begun) => begun,
        Err(back) => {
            drop(commands);
            return back.status;
        }
    };
    match open_book(alloc, begun, commands) {
        Ok(book) => status_of(run_serial(alloc, book, &OpenGate)),
        Err(ended) => status_of(ended),
    }
}

/// How a serial run of these commands ends over the rows of a keeper.
fn serial_with<K: Keeper + Drop, W: Sink + Drop, B: Worker>(
    alloc: Global,
    commands: Items<Command>,
    hands: Vec<Hand<B>>,
    sink: W,
    keeper: K,
) -> Status
    requires few_hands { vec_len hands ≤ most_hands }
    requires askable { AllByRecursion IsAskable commands }
    requires few { length commands < 2 ^ 32 }
{
    match load(alloc, "a", hands, sink, keeper) {
        Ok(loaded) => serial_over::<K, W, B, Brand>(alloc, loaded, commands),
        Err(back) => {
            drop(commands);
            back.status
        }
    }
}

/// How a serial run ends of what seed 1 gives with 10,000 groups, over a keeper in memory, and what it
/// writes.
fn large_run(alloc: Global) -> Result<(Status, Vec<u8>), AllocError> {
    let commands = generate(alloc, 1, 10_000)?;
    let (commands, hands) = both(commands, stock_hands(alloc))?;
    let mut written = Vec::new(alloc);
    let sink = StdSink::new(&mut written);
    let keeper = SureKeeper::new(Vec::new(alloc));
    let status = serial_with(alloc, commands, hands, sink, keeper);
    Ok((status, written))
}

const LARGE_SUMMARY: &str =
    r#"{"attempts":42500,"blocked":0,"cancelled":7500,"enqueued":0,"failed":5000,"line":10010,"ok":"summary","running":0,"succeeded":37500}
"#;

/// 50,000 works come to their ends within the time of a test.
#[test]
fn generated_large(rt: HostRuntime) -> Result<(), Fail> {
    let (status, written) = large_run(rt.alloc())?;
    assert_eq!(rt; status, Status::Done);
    assert_eq!(rt; written.as_slice(), LARGE_SUMMARY.as_bytes());
    Ok(())
}
