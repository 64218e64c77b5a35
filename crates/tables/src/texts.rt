//! The texts of events, of `wm_texts`.

use crate::infos::infos;
use crate::names::applied_named;
use crate::notes::notes_of;
use case_files::fields::{
    RowFault, both, count, field, has_only, id, list, number, text, unless_refused,
};
use part_calls::told::pair;
use serde_json::Value;
use std::alloc::{AllocError, Global};
use wm_collections::{Replica, Shared, Text};
use wm_machine::{Applied, Command, Counts, Event, LineFault, Refusal, Reply};
use wm_observe::Note;
use wm_texts::event_text;

/// What an update did.
fn applied(form: &Value) -> Result<Applied, RowFault> {
    applied_named(text(form, "result")?).ok_or(RowFault::Value)
}

fn updated(form: &Value) -> Result<Reply, RowFault> {
    Ok(Reply::Updated {
        result: applied(form)?,
        generation: number(form, "generation")?,
    })
}

fn observing(alloc: Global, form: &Value) -> Result<Reply, RowFault> {
    let observer = count(form, "observer")?;
    Ok(Reply::Observing {
        observer,
        works: infos(alloc, form)?,
    })
}

fn counts(form: &Value) -> Result<Counts, RowFault> {
    Ok(Counts {
        enqueued: number(form, "enqueued")?,
        running: number(form, "running")?,
        succeeded: number(form, "succeeded")?,
        failed: number(form, "failed")?,
        blocked: number(form, "blocked")?,
        cancelled: number(form, "cancelled")?,
        attempts: number(form, "attempts")?,
    })
}

/// A reply that has neither works nor numbers.
fn bare_reply(name: &str) -> Result<Reply, RowFault> {
    match name {
        "Kept" => Ok(Reply::Kept),
        "Moment" => Ok(Reply::Moment),
        "Settled" => Ok(Reply::Settled),
        "Hushed" => Ok(Reply::Hushed),
        _ => Err(RowFault::Value),
    }
}

/// The reply that a value says.
fn reply(alloc: Global, form: &Value) -> Result<Reply, RowFault> {
    match text(form, "reply")? {
        "Enqueued" => Ok(Reply::Enqueued(list(alloc, form, "works")?)),
        "Updated" => updated(form),
        "Cancelled" => Ok(Reply::Cancelled(number(form, "count")?)),
        "Conditions" => Ok(Reply::Conditions {
            stopped: number(form, "stopped")?,
        }),
        "Pruned" => Ok(Reply::Pruned(number(form, "count")?)),
        "Query" => Ok(Reply::Query(infos(alloc, form)?)),
        "Observing" => observing(alloc, form),
        "Retired" => Ok(Reply::Retired(count(form, "count")?)),
        "Summary" => Ok(Reply::Summary(counts(form)?)),
        "Refused" => Ok(Reply::Refused(refusal(alloc, form)?)),
        name => bare_reply(name),
    }
}

/// The refusal that a value says.
fn refusal(alloc: Global, form: &Value) -> Result<Refusal, RowFault> {
    match text(form, "why")? {
        "IdInUse" => Ok(Refusal::IdInUse {
            id: id(form, "id")?,
        }),
        "TooManyWorks" => Ok(Refusal::TooManyWorks {
            count: number(form, "count")?,
        }),
        "NumbersSpent" => Ok(Refusal::NumbersSpent {
            next: number(form, "next")?,
        }),
        "TooManyObservers" => Ok(Refusal::TooManyObservers {
            count: number(form, "count")?,
        }),
        "MomentBack" => Ok(Refusal::MomentBack {
            now: number(form, "now")?,
        }),
        "NoSuchClass" => Ok(Refusal::NoSuchClass),
        name => Ok(Refusal::Line(line_fault(alloc, name, form)?)),
    }
}

/// What is wrong with a line.
fn line_fault(alloc: Global, name: &str, form: &Value) -> Result<LineFault, RowFault> {
    match name {
        "Bad" => Ok(LineFault::Bad),
        "BadData" => Ok(LineFault::BadData {
            key: Text::from_str(alloc, text(form, "key")?)?,
        }),
        "TooLarge" => Ok(LineFault::TooLarge {
            size: number(form, "size")?,
        }),
        _ => Err(RowFault::Value),
    }
}

/// A replica of the reply that a value says.
fn replica(alloc: Global, form: &Value) -> Result<Reply, RowFault> {
    let reply = reply(alloc, form)?;
    let copy = reply.replica(alloc);
    drop(reply);
    unless_refused(copy)
}

/// A line with its reply. The texts of lines don't depend on their commands.
fn line(alloc: Global, line: u32, reply: Reply) -> Result<Event, RowFault> {
    let command = unless_refused(Shared::new(alloc, Command::Settle).map_err(AllocError::from));
    let (reply, command) = both(reply, command)?;
    Ok(Event::Command {
        line,
        command,
        reply,
    })
}

/// The event of a row: the time-out or the late return of a run, or a line with its reply.
fn event(alloc: Global, row: &Value) -> Result<Event, RowFault> {
    if row.get("timed_out").is_some() {
        return Ok(Event::TimedOut {
            run: number(row, "timed_out")?,
        });
    }
    if row.get("late").is_some() {
        return Ok(Event::Late {
            run: number(row, "late")?,
        });
    }
    let number = count(row, "line")?;
    let reply = replica(alloc, field(row, "told")?)?;
    line(alloc, number, reply)
}

/// The text of an event with its notes where the state after it is hushed, or isn't.
fn text_told(
    alloc: Global,
    event: &Event,
    notes: &[Note],
    hushed: bool,
) -> Result<Value, AllocError> {
    let bytes = event_text(alloc, event, notes, hushed)?;
    Ok(Value::String(String::from_utf8_lossy(alloc, bytes.as_slice())?))
}

/// Both texts of an event with its notes.
fn texts(alloc: Global, event: &Event, notes: &[Note]) -> Result<Value, AllocError> {
    let plain = text_told(alloc, event, notes, false)?;
    let hushed = text_told(alloc, event, notes, true)?;
    pair(alloc, plain, hushed)
}

/// The text of an event with its notes, and the one where the state after it is hushed.
pub fn told(alloc: Global, row: &Value) -> Result<Value, RowFault> {
    has_only(row, &["line", "told", "timed_out", "late", "notes"])?;
    let (event, notes) = both(event(alloc, row)?, notes_of(alloc, row))?;
    let told = texts(alloc, &event, notes.as_slice());
    drop(event);
    drop(notes);
    Ok(told?)
}
