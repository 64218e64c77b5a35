//! The line of an event, written.
ghost use Rattle.std.specs.Prelude.{◌≡◌, Some, IfOk};
ghost use Rattle.serde_json.specs.View.{view};
ghost use Rattle.wm_audit_text.specs.Entries as entries;
ghost use Rattle.wm_data.specs.DataJson.{data_json};

use crate::entry::Entry;
use serde_json::{Value, json};
use std::alloc::{AllocError, Global};
use wm_data::Data;
use wm_machine::{Cause, Command, End, Event};
use wm_spelling::spelled;

/// The line of an event, as JSON. The reply to a command isn't written.
pub(crate) fn event_value(alloc: Global, event: &Event) -> Result<Value, AllocError>
    ensures { IfOk result (λ value. view value ≡ entries.event_json event.now) }
{
    match event {
        Event::Command { line, command, .. } => command_value(alloc, *line, command.value()),
        Event::Start {
            run,
            seq,
            instance,
            input,
        } => start_value(alloc, *run, *seq, *instance, input),
        Event::StartFailed { seq, cause } => failed_value(alloc, *seq, cause),
        Event::Turn { run, progress } => turn_value(alloc, *run, progress),
        Event::Finish { run, end } => finish_value(alloc, *run, end),
        Event::TimedOut { run } => run_value(alloc, "timed_out", *run),
        Event::Late { run } => run_value(alloc, "late", *run),
    }
}

/// The line that tells this, as JSON.
pub(crate) fn entry_value(alloc: Global, entry: &Entry) -> Result<Value, AllocError>
    ensures { IfOk result (λ value. view value ≡ entries.entry_json entry.now) }
{
    match entry {
        Entry::Command { line, command } => command_value(alloc, *line, command),
        Entry::Run(event) => event_value(alloc, event),
    }
}

/// A command under the number of its line.
fn command_value(alloc: Global, line: u32, command: &Command) -> Result<Value, AllocError>
    ensures { IfOk result (λ value. view value ≡ entries.command_json line command.now) }
{
    let asked = spelled(alloc, command)?;
    json!(in alloc; {"command": asked, "event": "command", "line": line})
}

/// The start of a run.
fn start_value(
    alloc: Global,
    run: u64,
    seq: u64,
    instance: u32,
    input: &Data,
) -> Result<Value, AllocError>
    ensures { IfOk result (λ value. view value ≡ entries.start_json run seq instance input.now) }
{
    let input = data_value(alloc, input)?;
    json!(in alloc; {
        "event": "start",
        "input": input,
        "instance": instance,
        "run": run,
        "seq": seq
    })
}

/// The start of a run that failed, by its cause.
fn failed_value(alloc: Global, seq: u64, cause: &Cause) -> Result<Value, AllocError>
    ensures { IfOk result (λ value. view value ≡ entries.failed_json seq cause.now) }
{
    match cause {
        Cause::NoWorker => {
            json!(in alloc; {"cause": "NoWorker", "event": "start_failed", "seq": seq})
        }
        Cause::Conflict { key } => {
            json!(in alloc; {"cause": "Conflict", "event": "start_failed", "key": key.as_str(), "seq": seq})
        }
        Cause::TooLarge { size } => {
            json!(in alloc; {"cause": "TooLarge", "event": "start_failed", "seq": seq, "size": *size})
        }
    }
}

/// A turn, with its progress where it gave some.
fn turn_value(alloc: Global, run: u64, progress: &Option<Data>) -> Result<Value, AllocError>
    ensures { IfOk result (λ value. view value ≡ entries.turn_json run progress.now) }
{
    match progress {
        Some(progress) => progress_value(alloc, run, progress),
        None => run_value(alloc, "turn", run),
    }
}

/// A turn that gave progress.
fn progress_value(alloc: Global, run: u64, progress: &Data) -> Result<Value, AllocError>
    ensures { IfOk result (λ value. view value ≡ entries.turn_json run (Some progress.now)) }
{
    let progress = data_value(alloc, progress)?;
    json!(in alloc; {"event": "turn", "progress": progress, "run": run})
}

/// The end of a run by its own report.
fn finish_value(alloc: Global, run: u64, end: &End) -> Result<Value, AllocError>
    ensures { IfOk result (λ value. view value ≡ entries.finish_json run end.now) }
{
    match end {
        End::Success(output) => ended_value(alloc, "success", run, output),
        End::Failure(output) => ended_value(alloc, "failure", run, output),
        End::Retry => json!(in alloc; {"end": "retry", "event": "finish", "run": run}),
    }
}

/// An end of this name with its output.
fn ended_value(alloc: Global, name: &str, run: u64, output: &Data) -> Result<Value, AllocError>
    ensures { IfOk result (λ value. view value ≡ entries.ended_json name.now run output.now) }
{
    let output = data_value(alloc, output)?;
    json!(in alloc; {"end": name, "event": "finish", "output": output, "run": run})
}

/// An event of a run that tells no more.
fn run_value(alloc: Global, name: &str, run: u64) -> Result<Value, AllocError>
    ensures { IfOk result (λ value. view value ≡ entries.run_json name.now run) }
{
    json!(in alloc; {"event": name, "run": run})
}

/// The JSON of Data. Memory that is refused is the only error.
fn data_value(alloc: Global, told: &Data) -> Result<Value, AllocError>
    ensures { IfOk result (λ value. view value ≡ data_json told.now) }
{
    told.to_json(alloc).map_err(|_| AllocError)
}
