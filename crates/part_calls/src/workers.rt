//! What the stock workers answer to a turn, of `wm_stock`.
ghost use Rattle.std.specs.Prelude.{◌≡◌, IfOk};

use crate::told::{data as data_told, named, string};
use case_files::fields::{RowFault, both, count, data, has_only, text, unless_refused};
use case_files::names::kind_named;
use serde_json::Value;
use std::alloc::{AllocError, Global};
use wm_stock::{Count, Echo, FailUntil, RetryUntil, Sum, Wait};
use wm_worker::{Answer, Kind, Signal, Task, Worker};

/// The run whose turn is taken.
const RUN: u64 = 7;

/// An answer by its name, with its data.
fn answer_told(alloc: Global, answer: &Answer) -> Result<Value, AllocError> {
    match answer {
        Answer::More(None) => string(alloc, "More"),
        Answer::Retry => string(alloc, "Retry"),
        Answer::Cut(raised) => Ok(Value::String(format!(in alloc; "Cut {}", raised.run())?)),
        Answer::More(Some(progress)) => named(alloc, "More", data_told(alloc, progress)),
        Answer::Success(output) => named(alloc, "Success", data_told(alloc, output)),
        Answer::Failure(output) => named(alloc, "Failure", data_told(alloc, output)),
    }
}

/// Whether the signal of a row is raised.
fn is_raised(row: &Value) -> Result<bool, RowFault> {
    match text(row, "signal")? {
        "raised" => Ok(true),
        "not raised" => Ok(false),
        _ => Err(RowFault::Value),
    }
}

/// The signal of a row: it is raised, could be, or never can be where the row says nothing.
fn signal(alloc: Global, row: &Value) -> Result<Signal, RowFault>
    ensures { IfOk result (λ signal. signal.run ≡ RUN) }
{
    if row.get("signal").is_none() {
        return Ok(Signal::never(RUN));
    }
    let raised = is_raised(row)?;
    let signal = Signal::new(alloc, RUN)?;
    if raised {
        signal.raise();
    }
    Ok(signal)
}

/// The attempt of a row, 1 where it has none.
fn attempt(row: &Value) -> Result<u32, RowFault> {
    match row.get("attempt") {
        Some(_) => count(row, "attempt"),
        None => Ok(1),
    }
}

fn task(alloc: Global, row: &Value) -> Result<Task, RowFault>
    ensures { IfOk result (λ task. task.run ≡ RUN) }
{
    Ok(Task {
        run: RUN,
        attempt: attempt(row)?,
        input: data(alloc, row, "input")?,
    })
}

/// What a worker answers to turn `k` of a task.
fn turn_of<W: Worker>(
    alloc: Global,
    mut worker: W,
    task: &Task,
    k: u32,
    signal: &Signal,
) -> Result<Value, AllocError>
    requires { signal.now.run ≡ task.now.run }
{
    worker.begin(alloc, task)?;
    let told = worker.turn(alloc, task, k, signal)?;
    answer_told(alloc, told.answer())
}

/// What the worker of this kind answers.
fn turn_of_kind(
    alloc: Global,
    kind: Kind,
    task: &Task,
    k: u32,
    signal: &Signal,
) -> Result<Value, AllocError>
    requires { signal.now.run ≡ task.now.run }
{
    match kind {
        Kind::Sum => turn_of(alloc, Sum::new(), task, k, signal),
        Kind::FailUntil => turn_of(alloc, FailUntil::new(), task, k, signal),
        Kind::RetryUntil => turn_of(alloc, RetryUntil::new(), task, k, signal),
        Kind::Count => turn_of(alloc, Count::new(), task, k, signal),
        Kind::Wait => turn_of(alloc, Wait::new(), task, k, signal),
        Kind::Echo | Kind::Custom => turn_of(alloc, Echo::new(), task, k, signal),
    }
}

/// What a stock worker answers to a turn.
pub fn turn(alloc: Global, row: &Value) -> Result<Value, RowFault> {
    has_only(row, &["kind", "input", "attempt", "k", "signal"])?;
    let kind = kind_named(text(row, "kind")?).ok_or(RowFault::Value)?;
    let k = count(row, "k")?;
    let signal = signal(alloc, row)?;
    let (signal, task) = both(signal, task(alloc, row))?;
    unless_refused(turn_of_kind(alloc, kind, &task, k, &signal))
}
