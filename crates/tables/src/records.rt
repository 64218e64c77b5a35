//! How one record changes where a run of its work begins, ends, is stopped, or can't begin, where it is
//! closed and where it becomes free, of `wm_lifecycle`, and the row of a record, of `wm_rows`.
use crate::names::{how_named, phase_name, phase_named};
use case_files::fields::{
    RowFault, both, count, data, field, flag, has_only, list, name, number, number_if, text,
    unless_refused,
};
use case_files::rows::numbers_of;
use part_calls::requests::request;
use part_calls::told::{Told, list as list_told, string};
use serde_json::{Value, push};
use std::alloc::{AllocError, Global};
use wm_collections::{Items, Text};
use wm_data::Data;
use wm_keeper::Row;
use wm_lifecycle::{closed, ended, freed, not_started, started, stopped, timed_out};
use wm_machine::{End, How, Phase, Record};
use wm_request::Request;
use wm_rows::{fits_row, to_row};

/// The numbers of a record, and its phase.
#[derive(Clone, Copy)]
struct Plain {
    seq: u64,
    phase: Phase,
    attempt: u32,
    backoff_n: u32,
    runs: u32,
    generation: u64,
    enqueued_at: u64,
    override_at: Option<u64>,
    finished_at: u64,
}

fn phase(row: &Value) -> Result<Phase, RowFault> {
    phase_named(text(row, "phase")?).ok_or(RowFault::Value)
}

fn plain_of(row: &Value) -> Result<Plain, RowFault> {
    Ok(Plain {
        seq: number(row, "seq")?,
        phase: phase(row)?,
        attempt: count(row, "attempt")?,
        backoff_n: count(row, "backoff_n")?,
        runs: count(row, "runs")?,
        generation: number(row, "generation")?,
        enqueued_at: number(row, "enqueued_at")?,
        override_at: number_if(row, "override_at")?,
        finished_at: number(row, "finished_at")?,
    })
}

/// What a record owns beside its request.
#[derive(Drop)]
struct Owned {
    name: Option<Text>,
    prior: Items<u64>,
    output: Data,
    progress: Data,
}

fn owned_of(alloc: Global, row: &Value) -> Result<Owned, RowFault> {
    let (name, prior) = both(name(alloc, row)?, list(alloc, row, "prior"))?;
    let named = (name, prior);
    let (named, output) = both(named, data(alloc, row, "output"))?;
    let (both_of, progress) = both((named, output), data(alloc, row, "progress"))?;
    let ((name, prior), output) = both_of;
    Ok(Owned {
        name,
        prior,
        output,
        progress,
    })
}

fn record_of(plain: Plain, owned: Owned, request: Request) -> Record {
    Record {
        seq: plain.seq,
        name: owned.name,
        request,
        prior: owned.prior,
        phase: plain.phase,
        attempt: plain.attempt,
        backoff_n: plain.backoff_n,
        runs: plain.runs,
        generation: plain.generation,
        enqueued_at: plain.enqueued_at,
        override_at: plain.override_at,
        finished_at: plain.finished_at,
        output: owned.output,
        progress: owned.progress,
    }
}

/// The record of a row.
fn record(alloc: Global, row: &Value) -> Result<Record, RowFault> {
    let row = field(row, "record")?;
    let plain = plain_of(row)?;
    let asked = field(row, "request")?;
    let owned = owned_of(alloc, row)?;
    let (owned, request) = both(owned, request(alloc, asked))?;
    Ok(record_of(plain, owned, request))
}

/// How a run ended, which a row says by a name, with the Data that it gave.
fn end(alloc: Global, row: &Value) -> Result<End, RowFault> {
    match text(row, "end")? {
        "Success" => Ok(End::Success(data(alloc, row, "output")?)),
        "Failure" => Ok(End::Failure(data(alloc, row, "output")?)),
        "Retry" => Ok(End::Retry),
        _ => Err(RowFault::Value),
    }
}

/// How a work is closed.
fn how(row: &Value) -> Result<How, RowFault> {
    how_named(text(row, "how")?).ok_or(RowFault::Value)
}

/// The record of a work whose run ended.
fn after_end(alloc: Global, row: &Value, work: &Record) -> Result<Record, RowFault> {
    let now = number(row, "now")?;
    let renewed = flag(row, "renewed")?;
    let end = end(alloc, row)?;
    let changed = ended(alloc, work, &end, now, renewed);
    drop(end);
    unless_refused(changed)
}

/// The record of a work whose run had no turn left.
fn after_time_out(alloc: Global, row: &Value, work: &Record) -> Result<Record, RowFault> {
    let now = number(row, "now")?;
    let renewed = flag(row, "renewed")?;
    unless_refused(timed_out(alloc, work, now, renewed))
}

/// What becomes of a record.
fn changed(alloc: Global, row: &Value, work: &Record) -> Result<Record, RowFault> {
    match text(row, "call")? {
        "started" => unless_refused(started(alloc, work)),
        "stopped" => unless_refused(stopped(alloc, work)),
        "ended" => after_end(alloc, row, work),
        "timed out" => after_time_out(alloc, row, work),
        "not started" => unless_refused(not_started(alloc, work, number(row, "now")?)),
        "closed" => unless_refused(closed(alloc, work, how(row)?, number(row, "now")?)),
        "freed" => unless_refused(freed(alloc, work, number(row, "now")?)),
        _ => Err(RowFault::NoSuchCall),
    }
}

/// What becomes of a record: what a change of it can tell.
pub fn change(alloc: Global, row: &Value) -> Result<Value, RowFault> {
    has_only(row, &["record", "end", "output", "how", "now", "renewed"])?;
    let work = record(alloc, row)?;
    let changed = changed(alloc, row, &work);
    drop(work);
    told_of(alloc, changed?)
}

/// What a change of a record can tell.
fn told_of(alloc: Global, work: Record) -> Result<Value, RowFault> {
    let told = change_told(alloc, &work);
    drop(work);
    Ok(told?)
}

fn change_told(alloc: Global, work: &Record) -> Result<Value, AllocError> {
    let mut told = Told::new(alloc);
    told.text("phase", phase_name(work.phase));
    told.number("attempt", u64::from(work.attempt));
    told.number("backoff_n", u64::from(work.backoff_n));
    told.number("runs", u64::from(work.runs));
    told.number("enqueued_at", work.enqueued_at);
    if let Some(moment) = work.override_at {
        told.number("override_at", moment);
    }
    if !work.phase.is_open() {
        told.number("finished_at", work.finished_at);
    }
    told.data("output", &work.output);
    told.data("progress", &work.progress);
    told.into_value()
}

/// The row of a record, whose numbers are within their limits.
pub fn row_of(alloc: Global, work: &Record) -> Result<Row, RowFault> {
    if !fits_row(work) {
        return Err(RowFault::Value);
    }
    unless_refused(to_row(alloc, work))
}

/// The row of a record.
pub fn row(alloc: Global, row: &Value) -> Result<Value, RowFault> {
    has_only(row, &["record"])?;
    let work = record(alloc, row)?;
    let row = row_of(alloc, &work);
    drop(work);
    let row = row?;
    let told = row_told(alloc, &row);
    drop(row);
    Ok(told?)
}

/// Numbers with a sign.
fn signed(alloc: Global, numbers: &[i64]) -> Result<Value, AllocError> {
    let mut list = Vec::new(alloc);
    for number in numbers {
        push(&mut list, Value::from(*number))?;
    }
    Ok(Value::Array(list))
}

/// The bytes of an id.
fn bytes(alloc: Global, id: &[u8]) -> Result<Value, AllocError> {
    let mut list = Vec::new(alloc);
    for byte in id {
        push(&mut list, Value::from(*byte))?;
    }
    Ok(Value::Array(list))
}

/// A unique name, null where there is none.
fn name_told(alloc: Global, name: &Option<Text>) -> Result<Value, AllocError> {
    match name {
        Some(name) => string(alloc, name.as_str()),
        None => Ok(Value::Null),
    }
}

/// What a row has, by the names of its fields; its numbers in one list.
pub fn row_told(alloc: Global, row: &Row) -> Result<Value, AllocError> {
    let mut told = Told::new(alloc);
    told.put("numbers", signed(alloc, &numbers_of(row)));
    told.put("id", bytes(alloc, row.id.as_slice()));
    told.put("name", name_told(alloc, &row.name));
    told.text("class", row.class.as_str());
    told.text("input", row.input.as_str());
    told.text("output", row.output.as_str());
    told.put("prior", signed(alloc, row.prior.as_slice()));
    told.put("tags", list_told(alloc, row.tags.as_slice()));
    told.into_value()
}
