//! The lines of a session, read.
ghost use Rattle.std.specs.Prelude.{◌≡◌, Err, IfErr, IfOk, Ok, Result, Some};
ghost use Rattle.serde_json.specs.View.{view};
ghost use Rattle.wm_machine.specs.declared.command.LineFault.{LineFault};
ghost use Rattle.wm_serve_text.specs.Lines.{alone, beat_of, failure_of, id_at, line_of, IsAlwaysLegal, named_line, of_id, or_faulty, own_line, progress_of, retry_of, said_by, served, success_of};
ghost use Rattle.wm_serve_text.specs.Parts.{IsUnread};
ghost use Rattle.wm_serve_text.specs.declared.lines.SessionLine.{SessionLine};

use crate::lines::{Met, SessionLine};
use crate::parts::{Unread, bad, data_at, progress_at, run_of, runs_in};
use serde_json::Value;
use std::alloc::{AllocError, Global};
use uuid::Uuid;
use wm_machine::{Command, End, LineFault};
use wm_script::lines::{id_under, value_of};
use wm_script::{command_of, has_only};

/// What a line of a session says, which is given without its LF. One that isn't in the grammar, or has a
/// fault, is a faulty command: that it isn't in the grammar comes first, then the first fault of its Data.
/// Memory that is refused is the only error.
pub fn line_of(alloc: Global, line: &[u8]) -> Result<SessionLine, AllocError>
    ensures line { IfOk result (λ said. said ≡ line_of line.now) }

    // What follows of a command.
    ensures legal { IfOk result IsAlwaysLegal }
{
    match own_line(alloc, line)? {
        Some(said) => Ok(said),
        None => Ok(SessionLine::Command(served(command_of(alloc, line)?))),
    }
}

/// A command of a script as one of a session, whose lines neither set the moment nor settle.
fn served(command: Command) -> Command
    ensures { result ≡ served command }
{
    match command {
        Command::Moment(_) | Command::Settle => Command::Faulty(LineFault::Bad),
        asked => asked,
    }
}

/// What a line says that is no command.
fn own_line(alloc: Global, line: &[u8]) -> Result<Option<SessionLine>, AllocError>
    ensures { IfOk result (λ said. said ≡ own_line line.now) }
{
    match value_of(alloc, line)? {
        Some(value) => said_by(alloc, &value),
        None => Ok(None),
    }
}

/// What a value says that is no command's.
#[tactic(auto, unfolding(crate::specs::Lines::said_by))]
fn said_by(alloc: Global, value: &Value) -> Result<Option<SessionLine>, AllocError>
    ensures { IfOk result (λ said. said ≡ said_by (view value.now)) }
{
    match value.get("cmd").and_then(Value::as_str) {
        Some(name) => named_line(alloc, name, value),
        None => Ok(None),
    }
}

/// What a value of this name says, by the reader of that name.
fn named_line(alloc: Global, name: &str, value: &Value) -> Result<Option<SessionLine>, AllocError>
    ensures { IfOk result (λ said. said ≡ named_line name.now (view value.now)) }
{
    match name {
        "progress" => or_faulty(progress_of(alloc, value)),
        "success" => or_faulty(success_of(alloc, value)),
        "failure" => or_faulty(failure_of(alloc, value)),
        "retry" => or_faulty(retry_of(alloc, value)),
        "beat" => or_faulty(beat_of(alloc, value)),
        "close" => or_faulty(alone(SessionLine::Close, value)),
        "delay_met" => or_faulty(delay_met_of(value)),
        "period_met" => or_faulty(period_met_of(value)),
        "constraints_met" => or_faulty(constraints_met_of(value)),
        "wake" => or_faulty(alone(SessionLine::Wake, value)),
        _ => Ok(None),
    }
}

/// What was read, or that the line has a fault.
fn or_faulty(read: Result<SessionLine, Unread>) -> Result<Option<SessionLine>, AllocError>
    ensures { (part : Result SessionLine LineFault) → IfOk read (λ said. part ≡ Ok said)
        → IfErr read (IsUnread part) → IfOk result (λ said. said ≡ Some (or_faulty part)) }
{
    match read {
        Ok(said) => Ok(Some(said)),
        Err(Unread::Fault(fault)) => Ok(Some(SessionLine::Command(Command::Faulty(fault)))),
        Err(Unread::Memory) => Err(AllocError),
    }
}

/// A run goes on, and may tell its progress.
#[tactic(auto, unfolding(crate::specs::Lines::progress_of))]
fn progress_of(alloc: Global, value: &Value) -> Result<SessionLine, Unread>
    ensures ok { IfOk result (λ said. progress_of (view value.now) ≡ Ok said) }
    ensures err { IfErr result (IsUnread (progress_of (view value.now))) }
{
    let run = run_of(alloc, value, &["cmd", "data", "run"])?;
    let progress = progress_at(alloc, value.get("data"))?;
    Ok(SessionLine::Progress { run, progress })
}

/// A run succeeded.
#[tactic(auto, unfolding(crate::specs::Lines::success_of))]
fn success_of(alloc: Global, value: &Value) -> Result<SessionLine, Unread>
    ensures ok { IfOk result (λ said. success_of (view value.now) ≡ Ok said) }
    ensures err { IfErr result (IsUnread (success_of (view value.now))) }
{
    let run = run_of(alloc, value, &["cmd", "data", "run"])?;
    let end = End::Success(data_at(alloc, value.get("data"))?);
    Ok(SessionLine::Report { run, end })
}

/// A run failed.
#[tactic(auto, unfolding(crate::specs::Lines::failure_of))]
fn failure_of(alloc: Global, value: &Value) -> Result<SessionLine, Unread>
    ensures ok { IfOk result (λ said. failure_of (view value.now) ≡ Ok said) }
    ensures err { IfErr result (IsUnread (failure_of (view value.now))) }
{
    let run = run_of(alloc, value, &["cmd", "data", "run"])?;
    let end = End::Failure(data_at(alloc, value.get("data"))?);
    Ok(SessionLine::Report { run, end })
}

/// A run is to be tried again.
#[tactic(auto, unfolding(crate::specs::Lines::retry_of))]
fn retry_of(alloc: Global, value: &Value) -> Result<SessionLine, Unread>
    ensures ok { IfOk result (λ said. retry_of (view value.now) ≡ Ok said) }
    ensures err { IfErr result (IsUnread (retry_of (view value.now))) }
{
    let run = run_of(alloc, value, &["cmd", "run"])?;
    let end = End::Retry;
    Ok(SessionLine::Report { run, end })
}

/// Runs are still at work.
#[tactic(auto, unfolding(crate::specs::Lines::beat_of))]
fn beat_of(alloc: Global, value: &Value) -> Result<SessionLine, Unread>
    ensures ok { IfOk result (λ said. beat_of (view value.now) ≡ Ok said) }
    ensures err { IfErr result (IsUnread (beat_of (view value.now))) }
{
    if !has_only(value, &["cmd", "runs"]) {
        return Err(bad());
    }
    match value.get("runs") {
        Some(list) => Ok(SessionLine::Beat {
            runs: runs_in(alloc, list)?,
        }),
        None => Err(bad()),
    }
}

/// A line, where it has no further key.
fn alone(said: SessionLine, value: &Value) -> Result<SessionLine, Unread>
    ensures ok { IfOk result (λ read. alone said (view value.now) ≡ Ok read) }
    ensures err { IfErr result (IsUnread (alone said (view value.now))) }
{
    if has_only(value, &["cmd"]) {
        Ok(said)
    } else {
        Err(bad())
    }
}

/// The delay of a work is to be met.
fn delay_met_of(value: &Value) -> Result<SessionLine, Unread>
    ensures ok { IfOk result (λ said. of_id Met.Delay (view value.now) ≡ Ok said) }
    ensures err { IfErr result (IsUnread (of_id Met.Delay (view value.now))) }
{
    Ok(SessionLine::Met(Met::Delay(id_of(value)?)))
}

/// The period of a work is to be met.
fn period_met_of(value: &Value) -> Result<SessionLine, Unread>
    ensures ok { IfOk result (λ said. of_id Met.Period (view value.now) ≡ Ok said) }
    ensures err { IfErr result (IsUnread (of_id Met.Period (view value.now))) }
{
    Ok(SessionLine::Met(Met::Period(id_of(value)?)))
}

/// The constraints of a work are to be met.
fn constraints_met_of(value: &Value) -> Result<SessionLine, Unread>
    ensures ok { IfOk result (λ said. of_id Met.Constraints (view value.now) ≡ Ok said) }
    ensures err { IfErr result (IsUnread (of_id Met.Constraints (view value.now))) }
{
    Ok(SessionLine::Met(Met::Constraints(id_of(value)?)))
}

/// The id of a work, under the one further key.
fn id_of(value: &Value) -> Result<Uuid, Unread>
    ensures ok { IfOk result (λ id. id_at (view value.now) ≡ Ok id) }
    ensures err { IfErr result (IsUnread (id_at (view value.now))) }
{
    match id_under(value, "id") {
        Some(id) => Ok(id),
        None => Err(bad()),
    }
}
