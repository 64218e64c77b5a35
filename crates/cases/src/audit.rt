//! The audit of a case: the log of its run is exported, and checked.

use crate::ends::tell_line;
use crate::outcome::{keeper_of, source_of};
use crate::part::{Failing, Part};
use std::alloc::{AllocError, Global};
use std::sync::Wait;
use std::thread::Threads;
use wm_audit::{Verdict, check};
use wm_audit_program::{SureSink, export_run};
use wm_cli::Status;
use wm_keeper::SureKeeper;
use wm_machine::State;
use wm_pool::OpenGate;
use wm_program::stock_hands;

/// Runs a part on these rows once more, and tells what is wrong with the audit of that run: nothing where
/// its log replays by the slow step to its last state, and its text is what was written.
pub fn tell_audit<R: Threads + Wait + Sync>(
    rt: &R,
    alloc: Global,
    told: &mut String,
    part: &Part,
    store: &mut SureKeeper,
) -> Result<(), AllocError> {
    let failing = Failing::none(alloc);
    let mut source = source_of(alloc, part, &failing)?;
    let keeper = keeper_of(alloc, store, &failing)?;
    let hands = stock_hands(alloc)?;
    let sink = SureSink::new(alloc);
    let exported = export_run(
        rt,
        alloc,
        &part.words,
        hands,
        &mut source,
        sink,
        keeper,
        &OpenGate,
    );
    if exported.status == Status::Done {
        tell_verdict(alloc, told, exported.sink.bytes(), &exported.ended.last)
    } else {
        Ok(())
    }
}

/// Tells what is wrong with an audit, or with its last state, which is to be this one.
fn tell_verdict(
    alloc: Global,
    told: &mut String,
    audit: &[u8],
    last: &State,
) -> Result<(), AllocError> {
    match check(alloc, audit)? {
        Verdict::Sound { last: found } => tell_difference(alloc, told, &found, last),
        Verdict::WrongLine { line } => {
            tell_line(told, "audit ", format!(in alloc; "line {line}")?.as_str())
        }
        Verdict::WrongText { at } => {
            tell_line(told, "audit ", format!(in alloc; "text {at}")?.as_str())
        }
    }
}

/// Tells that two states differ, where they do.
fn tell_difference(
    alloc: Global,
    told: &mut String,
    found: &State,
    last: &State,
) -> Result<(), AllocError> {
    let found = format!(in alloc; "{found:?}")?;
    let last = format!(in alloc; "{last:?}")?;
    if found == last {
        Ok(())
    } else {
        tell_line(told, "audit ", "state")
    }
}
