//! The lines of sessions, of `wm_serve_text`.

use crate::lines::command_name;
use case_files::fields::{RowFault, count, has_only, letters, text};
use part_calls::told::{Told, id, list, named, string};
use serde_json::Value;
use std::alloc::{AllocError, Global};
use wm_collections::Text;
use wm_data::Data;
use wm_machine::{Command, End, LineFault};
use wm_serve_text::{Met, SessionLine, line_of};

/// A fault by its name, with its key or its size.
fn fault_text(alloc: Global, fault: &LineFault) -> Result<String, AllocError> {
    match fault {
        LineFault::Bad => String::from_str(alloc, "Bad"),
        LineFault::EmptyKey => String::from_str(alloc, "EmptyKey"),
        LineFault::BadData { key } => format!(in alloc; "BadData {}", key.as_str()),
        LineFault::TooLarge { size } => format!(in alloc; "TooLarge {size}"),
        _ => String::from_str(alloc, "another fault"),
    }
}

/// The name of a command, or its fault.
fn command_told(alloc: Global, command: &Command) -> Result<Value, AllocError> {
    match command {
        Command::Faulty(fault) => Ok(Value::String(fault_text(alloc, fault)?)),
        _ => string(alloc, command_name(command)),
    }
}

/// A report on a run, with the Data that it has.
fn report_told(
    alloc: Global,
    name: &str,
    run: &Text,
    given: Option<&Data>,
) -> Result<Value, AllocError> {
    let mut told = Told::new(alloc);
    told.text("report", name);
    told.text("run", run.as_str());
    if let Some(given) = given {
        told.data("data", given);
    }
    told.into_value()
}

/// A report that a run is over.
fn end_told(alloc: Global, run: &Text, end: &End) -> Result<Value, AllocError> {
    match end {
        End::Success(output) => report_told(alloc, "success", run, Some(output)),
        End::Failure(output) => report_told(alloc, "failure", run, Some(output)),
        End::Retry => report_told(alloc, "retry", run, None),
    }
}

/// What is to be met, with the id of its work.
fn met_told(alloc: Global, met: Met) -> Result<Value, AllocError> {
    match met {
        Met::Delay(work) => named(alloc, "delay_met", id(alloc, work)),
        Met::Period(work) => named(alloc, "period_met", id(alloc, work)),
        Met::Constraints(work) => named(alloc, "constraints_met", id(alloc, work)),
    }
}

/// What a line says.
fn said_told(alloc: Global, said: &SessionLine) -> Result<Value, AllocError> {
    match said {
        SessionLine::Command(command) => command_told(alloc, command),
        SessionLine::Progress { run, progress } => {
            report_told(alloc, "progress", run, progress.as_ref())
        }
        SessionLine::Report { run, end } => end_told(alloc, run, end),
        SessionLine::Beat { runs } => named(alloc, "beat", list(alloc, runs.as_slice())),
        SessionLine::Close => string(alloc, "close"),
        SessionLine::Met(met) => met_told(alloc, *met),
        SessionLine::Wake => string(alloc, "wake"),
    }
}

/// What a line of a session says.
pub fn said(alloc: Global, row: &Value) -> Result<Value, RowFault> {
    has_only(row, &["line"])?;
    let line = text(row, "line")?;
    let said = line_of(alloc, line.as_bytes())?;
    let told = said_told(alloc, &said);
    drop(said);
    Ok(told?)
}

/// A beat that names so many runs.
fn beat_line(alloc: Global, runs: u32) -> Result<String, AllocError> {
    let mut line = String::from_str(alloc, r#"{"cmd":"beat","runs":["1-0""#)?;
    for run in 1..runs {
        line.push_str(format!(in alloc; ",\"1-{run}\"")?.as_str())?;
    }
    line.push_str("]}")?;
    Ok(line)
}

/// How many runs a beat names, or what else a line says.
fn count_told(alloc: Global, said: &SessionLine) -> Result<Value, AllocError> {
    match said {
        SessionLine::Beat { runs } => Ok(Value::from(runs.len())),
        other => said_told(alloc, other),
    }
}

/// How many runs are read of a beat that names so many, or the fault.
pub fn counted(alloc: Global, row: &Value) -> Result<Value, RowFault> {
    has_only(row, &["names"])?;
    let line = beat_line(alloc, count(row, "names")?)?;
    let said = line_of(alloc, line.as_bytes())?;
    drop(line);
    let told = count_told(alloc, &said);
    drop(said);
    Ok(told?)
}

/// That a line says no command, or what the command is.
fn report_or_fault(alloc: Global, said: &SessionLine) -> Result<Value, AllocError> {
    match said {
        SessionLine::Report { .. } => string(alloc, "read"),
        other => said_told(alloc, other),
    }
}

/// A success with a text of so many letters.
fn long_report(alloc: Global, row: &Value) -> Result<String, RowFault> {
    let letters = letters(alloc, count(row, "letters")? as usize)?;
    let data = format!(in alloc; "{{\"a\":{{\"text\":\"{letters}\"}}}}")?;
    Ok(format!(in alloc; "{{\"cmd\":\"success\",\"run\":\"1-1\",\"data\":{data}}}")?)
}

/// Whether such a success is read, or the fault.
pub fn long(alloc: Global, row: &Value) -> Result<Value, RowFault> {
    has_only(row, &["letters"])?;
    let line = long_report(alloc, row)?;
    let said = line_of(alloc, line.as_bytes())?;
    drop(line);
    let told = report_or_fault(alloc, &said);
    drop(said);
    Ok(told?)
}
