//! Runs the cases, and tells what came of them.
ghost use Rattle.std.specs.Prelude.{◌≤◌, vec_len};
ghost use Rattle.wm_bench.specs.Places.{most_hands};

use crate::audit::tell_audit;
use crate::ends::{End, tell_bytes, tell_end};
use crate::holds::Holds;
use crate::part::{Failing, Part};
use std::alloc::{AllocError, Global};
use std::sync::Wait;
use std::thread::Threads;
use wm_bench::Hand;
use wm_collections::Replica;
use wm_ended::{Ended, NotBegun};
use wm_io::{MemorySink, MemorySource};
use wm_keeper::{Change, Keeper, MemoryKeeper, Row, SureKeeper};
use wm_live_program::LiveEnded;
use wm_outcome::{Outcome, program};
use wm_program::stock_hands;
use wm_worker::Worker;

/// What comes of the parts of a case file, one after another.
pub fn tell_cases<R: Threads + Wait + Sync>(
    rt: &R,
    alloc: Global,
    parts: &[Part],
) -> Result<String, AllocError> {
    let mut told = String::new(alloc);
    let mut store = SureKeeper::new(Vec::new(alloc));
    for part in parts {
        if part.name.is_some() {
            store = SureKeeper::new(Vec::new(alloc));
        }
        put_rows(alloc, &mut store, &part.rows)?;
        store = tell_part(rt, alloc, &mut told, part, &mut store)?;
    }
    Ok(told)
}

/// Puts the rows that stand before a run.
fn put_rows(alloc: Global, store: &mut SureKeeper, rows: &[Row]) -> Result<(), AllocError> {
    for row in rows {
        let copy = row.replica(alloc)?;
        store.commit(&[Change::Put(copy)]).map_err(|_| AllocError)?;
    }
    Ok(())
}

/// Runs a part on these rows, once for each choice of failing calls, and answers the rows that the
/// last run kept.
fn tell_part<R: Threads + Wait + Sync>(
    rt: &R,
    alloc: Global,
    told: &mut String,
    part: &Part,
    store: &mut SureKeeper,
) -> Result<SureKeeper, AllocError> {
    if part.failing.is_empty() {
        return tell_run(rt, alloc, told, part, &Failing::none(alloc), store);
    }
    let mut kept = SureKeeper::new(Vec::new(alloc));
    for failing in &part.failing {
        kept = tell_run(rt, alloc, told, part, failing, store)?;
    }
    Ok(kept)
}

/// Runs a part with these calls failing and the workers of the program: see [`tell_run_of`]. Where no
/// call fails, its audit is looked at too.
fn tell_run<R: Threads + Wait + Sync>(
    rt: &R,
    alloc: Global,
    told: &mut String,
    part: &Part,
    failing: &Failing,
    store: &mut SureKeeper,
) -> Result<SureKeeper, AllocError> {
    let hands = stock_hands(alloc)?;
    let kept = tell_run_of(rt, alloc, told, part, failing, store, hands)?;
    if !part.brief && part.failing.is_empty() {
        tell_audit(rt, alloc, told, part, store)?;
    }
    Ok(kept)
}

/// Runs a part on these rows with these calls failing and these workers, tells what came of it, and
/// answers the rows that it kept.
fn tell_run_of<R: Threads + Wait + Sync, B: Worker + Send>(
    rt: &R,
    alloc: Global,
    told: &mut String,
    part: &Part,
    failing: &Failing,
    store: &mut SureKeeper,
    hands: Vec<Hand<B>>,
) -> Result<SureKeeper, AllocError>
    requires few_hands { vec_len hands ≤ most_hands }
{
    told.push_str(heading(alloc, part, failing)?.as_str())?;
    let (outcome, missed) = outcome_of(rt, alloc, part, failing, store, hands)?;
    let text = told_of(alloc, &outcome, missed, part.brief);
    let keeper = keeper_in(outcome);
    told.push_str(text?.as_str())?;
    Ok(SureKeeper::new(keeper.into_rows()))
}

/// What the words of a part come to on these rows, with these calls failing and these workers, and whether
/// a thread that was held was let go before what it waited for had come.
fn outcome_of<R: Threads + Wait + Sync, B: Worker + Send>(
    rt: &R,
    alloc: Global,
    part: &Part,
    failing: &Failing,
    store: &mut SureKeeper,
    hands: Vec<Hand<B>>,
) -> Result<(Outcome<MemoryKeeper, MemorySink, B>, bool), AllocError>
    requires few_hands { vec_len hands ≤ most_hands }
{
    let mut source = source_of(alloc, part, failing)?;
    let sink = MemorySink::new(part.moves, Vec::from_slice(alloc, &failing.sink)?);
    let keeper = keeper_of(alloc, store, failing)?;
    let holds = Holds::of(alloc, &part.holds)?;
    let outcome = program(
        rt,
        alloc,
        &part.words,
        hands,
        &mut source,
        sink,
        keeper,
        &holds,
    );
    Ok((outcome, holds.missed()))
}

/// What is told of what the words came to.
fn told_of<B: Worker>(
    alloc: Global,
    outcome: &Outcome<MemoryKeeper, MemorySink, B>,
    missed: bool,
    brief: bool,
) -> Result<String, AllocError> {
    let mut told = String::new(alloc);
    if missed {
        told.push_str("missed\n")?;
    }
    told.push_str(status_line(alloc, outcome)?.as_str())?;
    tell_outcome(alloc, &mut told, outcome, brief)?;
    Ok(told)
}

/// Tells an outcome, below its status.
fn tell_outcome<B: Worker>(
    alloc: Global,
    told: &mut String,
    outcome: &Outcome<MemoryKeeper, MemorySink, B>,
    brief: bool,
) -> Result<(), AllocError> {
    let end = match outcome {
        Outcome::Run(ended) => end_of(ended, &[], ended.sink.bytes()),
        Outcome::Export(exported) => end_of(&exported.ended, &[], exported.sink.bytes()),
        Outcome::Check(checked) => return tell_bytes(alloc, told, checked.sink.bytes()),
        Outcome::Live(ended) => end_of_live(ended),
        Outcome::LiveNotBegun(unbegun) => end_unbegun(unbegun),
        Outcome::Callers(called) => {
            end_of(&called.ended, &called.callers, called.ended.sink.bytes())
        }
    };
    tell_end(alloc, told, &end, brief)
}

/// What is told of a run, whose first events these callers called, and of what was written.
fn end_of<'a, W, B>(
    ended: &'a Ended<MemoryKeeper, W, B>,
    callers: &'a [u32],
    written: &'a [u8],
) -> End<'a, B> {
    End {
        began: ended.began,
        at_opening: ended.at_opening,
        log: ended.log.as_slice(),
        callers,
        hands: &ended.hands,
        keeper: &ended.keeper,
        written,
    }
}

/// What is told of a test driver.
fn end_of_live<B>(ended: &LiveEnded<MemoryKeeper, MemorySink, B>) -> End<'_, B> {
    End {
        began: true,
        at_opening: false,
        log: ended.end.table.log.as_slice(),
        callers: &[],
        hands: &ended.end.hands,
        keeper: &ended.end.table.keeper,
        written: ended.sink.bytes(),
    }
}

/// What is told of a test driver that wasn't begun.
fn end_unbegun<B>(unbegun: &NotBegun<MemoryKeeper, MemorySink, B>) -> End<'_, B> {
    End {
        began: false,
        at_opening: unbegun.at_opening,
        log: &[],
        callers: &[],
        hands: &unbegun.hands,
        keeper: &unbegun.keeper,
        written: unbegun.sink.bytes(),
    }
}

/// The keeper that an outcome hands back.
fn keeper_in<W: Drop, B: Drop>(outcome: Outcome<MemoryKeeper, W, B>) -> MemoryKeeper {
    match outcome {
        Outcome::Run(ended) => ended.keeper,
        Outcome::Export(exported) => exported.ended.keeper,
        Outcome::Check(checked) => checked.keeper,
        Outcome::Live(ended) => ended.end.table.keeper,
        Outcome::LiveNotBegun(unbegun) => unbegun.keeper,
        Outcome::Callers(called) => called.ended.keeper,
    }
}

/// The first line of what is told of a run.
fn heading(alloc: Global, part: &Part, failing: &Failing) -> Result<String, AllocError> {
    let begins = match &part.name {
        Some(name) => format!(in alloc; "case {name}")?,
        None => String::from_str(alloc, "then")?,
    };
    if failing.text.is_empty() {
        format!(in alloc; "{begins}\n")
    } else {
        format!(in alloc; "{begins}, fails {}\n", failing.text)
    }
}

/// A source of the script.
pub fn source_of(
    alloc: Global,
    part: &Part,
    failing: &Failing,
) -> Result<MemorySource, AllocError> {
    let script = Vec::from_slice(alloc, &part.script)?;
    let failing = Vec::from_slice(alloc, &failing.source)?;
    Ok(MemorySource::new(script, part.moves, failing))
}

/// A keeper of the store's rows.
pub fn keeper_of(
    alloc: Global,
    store: &mut SureKeeper,
    failing: &Failing,
) -> Result<MemoryKeeper, AllocError> {
    let failing = Vec::from_slice(alloc, &failing.keeper)?;
    match store.load("") {
        Ok(rows) => Ok(MemoryKeeper::new(rows, failing)),
        Err(_) => Err(AllocError),
    }
}

/// What the words came to: the status with its code, and its text where it has one.
fn status_line<K, W, B>(alloc: Global, outcome: &Outcome<K, W, B>) -> Result<String, AllocError> {
    let name = status_name(alloc, outcome)?;
    let code = outcome.code();
    let text = outcome.text(alloc)?;
    if text.is_empty() {
        format!(in alloc; "status {name}, code {code}\n")
    } else {
        format!(in alloc; "status {name}, code {code}: {text}\n")
    }
}

/// The name of the status, with what it says besides.
fn status_name<K, W, B>(alloc: Global, outcome: &Outcome<K, W, B>) -> Result<String, AllocError> {
    match outcome {
        Outcome::Run(ended) => format!(in alloc; "{:?}", ended.status),
        Outcome::Export(exported) => format!(in alloc; "{:?}", exported.status),
        Outcome::Check(checked) => format!(in alloc; "{:?}", checked.status),
        Outcome::Live(ended) => format!(in alloc; "{:?}", ended.status),
        Outcome::LiveNotBegun(unbegun) => format!(in alloc; "{:?}", unbegun.status),
        Outcome::Callers(called) => format!(in alloc; "{:?}", called.ended.status),
    }
}
