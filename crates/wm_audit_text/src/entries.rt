//! What the line of an event tells, read.
ghost use Rattle.std.specs.Prelude.{◌≡◌, ◌≤◌, IfOk, IfSome, Some};
ghost use Rattle.serde_json.specs.Data.{depth};
ghost use Rattle.serde_json.specs.Read.{max_depth};
ghost use Rattle.serde_json.specs.View.{view};
ghost use Rattle.wm_audit_text.specs.Entries as entries;
ghost use Rattle.wm_audit_text.specs.Lines.{MayBeTold};
ghost use Rattle.wm_audit_text.specs.declared.entry.Entry.TheVariants.{Run};

use crate::entry::Entry;
use crate::fields::{data_at, data_of, number_at, own_text_at, small_at, text_at};
use serde_json::Value;
use std::alloc::{AllocError, Global};
use wm_data::Data;
use wm_machine::{Cause, End, Event};
use wm_spelling::command_in;

/// What a value tells.
#[tactic(auto, unfolding(crate::specs::Entries::entry_in))]
pub(crate) fn entry_in(alloc: Global, value: &Value) -> Result<Option<Entry>, AllocError>
    requires { depth (view value.now) ≤ max_depth }
    ensures entry { IfOk result (λ entry. entry ≡ entries.entry_in (view value.now)) }
    ensures may_be { IfOk result (λ entry. IfSome entry MayBeTold) }
{
    entry_under(alloc, text_at(value, "event"), value)
}

/// What a value of this name tells.
fn entry_under(alloc: Global, name: &str, value: &Value) -> Result<Option<Entry>, AllocError>
    requires { depth (view value.now) ≤ max_depth }
    ensures entry { IfOk result (λ entry. entry ≡ entries.entry_under name.now (view value.now)) }
    ensures may_be { IfOk result (λ entry. IfSome entry MayBeTold) }
{
    match name {
        "command" => command_entry(alloc, value),
        "start" => told(start_in(alloc, value)?),
        "start_failed" => told(failed_in(alloc, value)?),
        "turn" => told(turn_in(alloc, value)?),
        "finish" => told(finish_in(alloc, value)?),
        "timed_out" => told(Event::TimedOut {
            run: number_at(value, "run"),
        }),
        "late" => told(Event::Late {
            run: number_at(value, "run"),
        }),
        _ => Ok(None),
    }
}

/// An event that is told.
fn told(event: Event) -> Result<Option<Entry>, AllocError>
    requires { entries.entry_of event ≡ Run event }
    ensures entry { IfOk result (λ entry. entry ≡ Some (Run event)) }
    ensures may_be { IfOk result (λ entry. IfSome entry MayBeTold) }
{
    Ok(Some(Entry::Run(event)))
}

/// A command under the number of its line.
fn command_entry(alloc: Global, value: &Value) -> Result<Option<Entry>, AllocError>
    requires { depth (view value.now) ≤ max_depth }
    ensures entry { IfOk result (λ entry. entry ≡ entries.command_entry (view value.now)) }
    ensures may_be { IfOk result (λ entry. IfSome entry MayBeTold) }
{
    match value.get("command") {
        Some(asked) => Ok(Some(Entry::Command {
            line: small_at(value, "line"),
            command: command_in(alloc, asked)?,
        })),
        None => Ok(None),
    }
}

/// The start of a run.
fn start_in(alloc: Global, value: &Value) -> Result<Event, AllocError>
    ensures { IfOk result (λ event. event ≡ entries.start_in (view value.now)) }
{
    Ok(Event::Start {
        run: number_at(value, "run"),
        seq: number_at(value, "seq"),
        instance: small_at(value, "instance"),
        input: data_at(alloc, value, "input")?,
    })
}

/// The start of a run that failed.
fn failed_in(alloc: Global, value: &Value) -> Result<Event, AllocError>
    ensures { IfOk result (λ event. event ≡ entries.failed_in (view value.now)) }
{
    Ok(Event::StartFailed {
        seq: number_at(value, "seq"),
        cause: cause_in(alloc, value)?,
    })
}

/// The cause of a start that failed.
fn cause_in(alloc: Global, value: &Value) -> Result<Cause, AllocError>
    ensures { IfOk result (λ cause. cause ≡ entries.cause_in (view value.now)) }
{
    Ok(match text_at(value, "cause") {
        "Conflict" => Cause::Conflict {
            key: own_text_at(alloc, value, "key")?,
        },
        "TooLarge" => Cause::TooLarge {
            size: number_at(value, "size"),
        },
        _ => Cause::NoWorker,
    })
}

/// A turn.
fn turn_in(alloc: Global, value: &Value) -> Result<Event, AllocError>
    ensures { IfOk result (λ event. event ≡ entries.turn_in (view value.now)) }
{
    Ok(Event::Turn {
        run: number_at(value, "run"),
        progress: progress_in(alloc, value)?,
    })
}

/// The progress of a turn, where it gave some.
fn progress_in(alloc: Global, value: &Value) -> Result<Option<Data>, AllocError>
    ensures { IfOk result (λ progress. progress ≡ entries.progress_in (view value.now)) }
{
    match value.get("progress") {
        Some(json) => Ok(Some(data_of(alloc, json)?)),
        None => Ok(None),
    }
}

/// The end of a run.
fn finish_in(alloc: Global, value: &Value) -> Result<Event, AllocError>
    ensures { IfOk result (λ event. event ≡ entries.finish_in (view value.now)) }
{
    Ok(Event::Finish {
        run: number_at(value, "run"),
        end: end_in(alloc, value)?,
    })
}

/// How a run ended.
fn end_in(alloc: Global, value: &Value) -> Result<End, AllocError>
    ensures { IfOk result (λ end. end ≡ entries.end_in (view value.now)) }
{
    Ok(match text_at(value, "end") {
        "success" => End::Success(data_at(alloc, value, "output")?),
        "failure" => End::Failure(data_at(alloc, value, "output")?),
        _ => End::Retry,
    })
}
