//! The texts of events, replies and notes.
ghost use Rattle.std.specs.Prelude.{◌≡◌, ◌++◌, IfOk, OnOk, OnErr};
ghost use Rattle.serde_json.specs.View.{view, members_view};
ghost use Rattle.wm_data.specs.DataJson.{data_json};
ghost use Rattle.wm_texts.specs.Texts as texts;

use serde_json::{Map, Value, json, push, put};
use std::alloc::{AllocError, Global};
use uuid::Uuid;
use wm_collections::Text;
use wm_data::Data;
use wm_machine::{Applied, Counts, Event, LineFault, Refusal, Reply, Shown, WorkInfo};
use wm_observe::Note;

/// What is written for an event with its notes, where the state after it is hushed or isn't: the reply
/// to a line, where it is written, and where it isn't hushed the notes, each as one compact JSON
/// object, keys in ascending byte order, and LF. Memory that is refused is the only error.
#[tactic(auto, unfolding(crate::specs::Texts::text_of))]
pub fn event_text(
    alloc: Global,
    event: &Event,
    notes: &[Note],
    hushed: bool,
) -> Result<Vec<u8>, AllocError>
    ensures { IfOk result (λ text. text.items ≡ texts.text_of event.now notes.now hushed) }
{
    let mut text = answer_text(alloc, event, hushed)?;
    if !hushed {
        add_notes(alloc, &mut text, notes)?;
    }
    Ok(text)
}

// The text of a reply, where it is written.
fn answer_text(alloc: Global, event: &Event, hushed: bool) -> Result<Vec<u8>, AllocError>
    ensures { IfOk result (λ text. text.items ≡ texts.answer_text event.now hushed) }
{
    let Event::Command { line, reply, .. } = event else {
        return Ok(Vec::new(alloc));
    };
    if is_written(reply, hushed) {
        reply_text(alloc, *line, reply)
    } else {
        Ok(Vec::new(alloc))
    }
}

// Puts the texts of notes behind a text.
fn add_notes(alloc: Global, text: &mut Vec<u8>, notes: &[Note]) -> Result<(), AllocError>
    ensures { OnOk result (text.new.items ≡ text.old.items ++ texts.notes_text notes.now) }
{
    for note in notes {
        let line = note_text(alloc, note)?;
        text.extend_from_slice(&line)?;
    }
    Ok(())
}

// A note, and LF.
#[tactic(auto, using(crate::proofs::TextsLemmas::note_has_no_float))]
fn note_text(alloc: Global, note: &Note) -> Result<Vec<u8>, AllocError>
    ensures { IfOk result (λ text. text.items ≡ texts.note_text note.now) }
{
    let mut text = note_value(alloc, note)?.to_vec(alloc)?;
    text.push(b'\n')?;
    Ok(text)
}

fn note_value(alloc: Global, note: &Note) -> Result<Value, AllocError>
    ensures { IfOk result (λ value. view value ≡ texts.note_json note.now) }
{
    match note {
        Note::Info { observer, info } => {
            let info = info_value(alloc, info)?;
            json!(in alloc; {"info": info, "note": *observer})
        }
        Note::Gone { observer, seq } => json!(in alloc; {"gone": *seq, "note": *observer}),
    }
}

// Whether a reply is written, where the state after it is hushed or isn't.
fn is_written(reply: &Reply, hushed: bool) -> bool
    ensures { result ≡ texts.is_written reply.now hushed }
{
    match reply {
        Reply::Hushed => false,
        Reply::Summary(_) => true,
        _ => !hushed,
    }
}

// The reply to a line, and LF.
#[tactic(auto, using(crate::proofs::TextsLemmas::reply_has_no_float))]
fn reply_text(alloc: Global, line: u32, reply: &Reply) -> Result<Vec<u8>, AllocError>
    ensures { IfOk result (λ text. text.items ≡ texts.reply_text line reply.now) }
{
    let mut text = reply_value(alloc, line, reply)?.to_vec(alloc)?;
    text.push(b'\n')?;
    Ok(text)
}

fn reply_value(alloc: Global, line: u32, reply: &Reply) -> Result<Value, AllocError>
    ensures { IfOk result (λ value. view value ≡ texts.reply_json line reply.now) }
{
    match reply {
        Reply::Enqueued(works) => enqueued_value(alloc, line, works.as_slice()),
        Reply::Kept => done_value(alloc, line, "kept"),
        Reply::Updated { result, generation } => {
            updated_value(alloc, line, *result, *generation)
        }
        Reply::Cancelled(count) => counted_value(alloc, line, "cancelled", *count),
        Reply::Moment => done_value(alloc, line, "moment"),
        Reply::Conditions { stopped } => conditions_value(alloc, line, *stopped),
        Reply::Pruned(count) => counted_value(alloc, line, "pruned", *count),
        Reply::Query(works) => query_value(alloc, line, works.as_slice()),
        Reply::Observing { observer, works } => {
            observing_value(alloc, line, *observer, works.as_slice())
        }
        Reply::Retired(dropped) => retired_value(alloc, line, *dropped),
        Reply::Settled => done_value(alloc, line, "settled"),
        Reply::Hushed => Ok(Value::Null),
        Reply::Summary(counts) => summary_value(alloc, line, counts),
        Reply::Refused(refusal) => refused_value(alloc, line, refusal),
    }
}

// A reply that tells what was done, and no more.
fn done_value(alloc: Global, line: u32, done: &str) -> Result<Value, AllocError>
    ensures { IfOk result (λ value. view value ≡ texts.done_json line done.now) }
{
    json!(in alloc; {"line": line, "ok": done})
}

// A reply that tells how many works it was done to.
fn counted_value(alloc: Global, line: u32, done: &str, count: u64) -> Result<Value, AllocError>
    ensures { IfOk result (λ value. view value ≡ texts.counted_json line done.now count) }
{
    json!(in alloc; {"count": count, "line": line, "ok": done})
}

fn enqueued_value(alloc: Global, line: u32, works: &[u64]) -> Result<Value, AllocError>
    ensures { IfOk result
        (λ value. view value ≡ texts.reply_json line (Reply.Enqueued works.now)) }
{
    let numbers = numbers_value(alloc, works)?;
    json!(in alloc; {"line": line, "ok": "enqueued", "works": numbers})
}

fn updated_value(
    alloc: Global,
    line: u32,
    applied: Applied,
    generation: u64,
) -> Result<Value, AllocError>
    ensures { IfOk result
        (λ value. view value ≡ texts.reply_json line (Reply.Updated applied generation)) }
{
    let applied = applied_name(applied);
    json!(in alloc; {"generation": generation, "line": line, "ok": "updated", "result": applied})
}

fn conditions_value(alloc: Global, line: u32, stopped: u64) -> Result<Value, AllocError>
    ensures { IfOk result (λ value. view value ≡ texts.reply_json line (Reply.Conditions stopped)) }
{
    json!(in alloc; {"line": line, "ok": "conditions", "stopped": stopped})
}

fn query_value(alloc: Global, line: u32, works: &[WorkInfo]) -> Result<Value, AllocError>
    ensures { IfOk result (λ value. view value ≡ texts.reply_json line (Reply.Query works.now)) }
{
    let infos = infos_value(alloc, works)?;
    json!(in alloc; {"line": line, "ok": "query", "works": infos})
}

fn observing_value(
    alloc: Global,
    line: u32,
    observer: u32,
    works: &[WorkInfo],
) -> Result<Value, AllocError>
    ensures { IfOk result
        (λ value. view value ≡ texts.reply_json line (Reply.Observing observer works.now)) }
{
    let infos = infos_value(alloc, works)?;
    json!(in alloc; {"line": line, "observer": observer, "ok": "observing", "works": infos})
}

fn retired_value(alloc: Global, line: u32, dropped: u32) -> Result<Value, AllocError>
    ensures { IfOk result (λ value. view value ≡ texts.reply_json line (Reply.Retired dropped)) }
{
    json!(in alloc; {"dropped": dropped, "line": line, "ok": "retired"})
}

fn summary_value(alloc: Global, line: u32, counts: &Counts) -> Result<Value, AllocError>
    ensures { IfOk result (λ value. view value ≡ texts.summary_json line counts.now) }
{
    json!(in alloc; {
        "attempts": counts.attempts,
        "blocked": counts.blocked,
        "cancelled": counts.cancelled,
        "enqueued": counts.enqueued,
        "failed": counts.failed,
        "line": line,
        "ok": "summary",
        "running": counts.running,
        "succeeded": counts.succeeded
    })
}

fn refused_value(alloc: Global, line: u32, refusal: &Refusal) -> Result<Value, AllocError>
    ensures { IfOk result
        (λ value. view value ≡ texts.reply_json line (Reply.Refused refusal.now)) }
{
    let name = Value::try_from_str(alloc, refusal_name(refusal))?;
    let mut members = Map::new(alloc);
    put(&mut members, alloc, "error", name)?;
    put(&mut members, alloc, "line", Value::from(line))?;
    put_shown(&mut members, alloc, refusal)?;
    Ok(Value::Object(members))
}

fn numbers_value(alloc: Global, works: &[u64]) -> Result<Value, AllocError>
    ensures { IfOk result (λ value. view value ≡ texts.numbers works.now) }
{
    let mut values = Vec::new(alloc);
    for work in works {
        push(&mut values, Value::from(*work))?;
    }
    Ok(Value::Array(values))
}

fn infos_value(alloc: Global, works: &[WorkInfo]) -> Result<Value, AllocError>
    ensures { IfOk result (λ value. view value ≡ texts.infos works.now) }
{
    let mut values = Vec::new(alloc);
    for info in works {
        push(&mut values, info_value(alloc, info)?)?;
    }
    Ok(Value::Array(values))
}

// What is told of one work.
fn info_value(alloc: Global, info: &WorkInfo) -> Result<Value, AllocError>
    ensures { IfOk result (λ value. view value ≡ texts.info_json info.now) }
{
    let mut members = info_members(alloc, info)?;
    put_due(&mut members, alloc, info.due)?;
    put_name(&mut members, alloc, &info.name)?;
    Ok(Value::Object(members))
}

// What is told of every work.
fn info_members(alloc: Global, info: &WorkInfo) -> Result<Map<String, Value>, AllocError>
    ensures { IfOk result (λ members. members_view members.entries
        ≡ texts.info_members info.now) }
{
    let mut members = Map::new(alloc);
    put(&mut members, alloc, "attempt", Value::from(info.attempt))?;
    let generation = Value::from(info.generation);
    put(&mut members, alloc, "generation", generation)?;
    put(&mut members, alloc, "id", id_value(alloc, &info.id)?)?;
    let output = data_value(alloc, &info.output)?;
    put(&mut members, alloc, "output", output)?;
    let progress = data_value(alloc, &info.progress)?;
    put(&mut members, alloc, "progress", progress)?;
    put(&mut members, alloc, "seq", Value::from(info.seq))?;
    let state = Value::try_from_str(alloc, state_name(info.state))?;
    put(&mut members, alloc, "state", state)?;
    let tags = tags_value(alloc, info.tags.as_slice())?;
    put(&mut members, alloc, "tags", tags)?;
    Ok(members)
}

// The JSON of Data. Memory that is refused is the only error.
fn data_value(alloc: Global, told: &Data) -> Result<Value, AllocError>
    ensures { IfOk result (λ value. view value ≡ data_json told.now) }
{
    told.to_json(alloc).map_err(|_| AllocError)
}

fn tags_value(alloc: Global, tags: &[Text]) -> Result<Value, AllocError>
    ensures { IfOk result (λ value. view value ≡ texts.texts tags.now) }
{
    let mut values = Vec::new(alloc);
    for tag in tags {
        push(&mut values, Value::try_from_str(alloc, tag.as_str())?)?;
    }
    Ok(Value::Array(values))
}

// Puts the moment at which the work is due, where it shows one.
fn put_due(
    members: &mut Map<String, Value>,
    alloc: Global,
    due: Option<u64>,
) -> Result<(), AllocError>
    ensures ok { OnOk result (members_view members.new.entries
        ≡ texts.with_due due (members_view members.old.entries)) }
    ensures err { OnErr result (members.new.entries ≡ members.old.entries) }
{
    match due {
        Some(due) => put(members, alloc, "due", Value::from(due)),
        None => Ok(()),
    }
}

// Puts the unique name of the work, where it has one.
fn put_name(
    members: &mut Map<String, Value>,
    alloc: Global,
    name: &Option<Text>,
) -> Result<(), AllocError>
    ensures ok { OnOk result (members_view members.new.entries
        ≡ texts.with_name name.now (members_view members.old.entries)) }
    ensures err { OnErr result (members.new.entries ≡ members.old.entries) }
{
    match name {
        Some(name) => {
            let shown = Value::try_from_str(alloc, name.as_str())?;
            put(members, alloc, "name", shown)
        }
        None => Ok(()),
    }
}

/// An id, hyphenated and in lower case.
pub fn id_value(alloc: Global, id: &Uuid) -> Result<Value, AllocError>
    ensures { IfOk result (λ value. view value ≡ texts.id_text id.now) }
{
    let mut buffer = Uuid::encode_buffer();
    Value::try_from_str(alloc, id.hyphenated().encode_lower(&mut buffer))
}

// The name of what an update did, after `androidx.work.WorkManager.UpdateResult`.
fn applied_name(applied: Applied) -> &'static str
    ensures { result.now ≡ texts.applied_name applied }
{
    match applied {
        Applied::NotApplied => "NOT_APPLIED",
        Applied::Immediately => "APPLIED_IMMEDIATELY",
        Applied::ForNextRun => "APPLIED_FOR_NEXT_RUN",
    }
}

/// The name of a state, after `androidx.work.WorkInfo.State`.
pub fn state_name(state: Shown) -> &'static str
    ensures { result.now ≡ texts.state_name state }
{
    match state {
        Shown::Enqueued => "ENQUEUED",
        Shown::Running => "RUNNING",
        Shown::Succeeded => "SUCCEEDED",
        Shown::Failed => "FAILED",
        Shown::Blocked => "BLOCKED",
        Shown::Cancelled => "CANCELLED",
    }
}

fn fault_name(fault: &LineFault) -> &'static str
    ensures { result.now ≡ texts.fault_name fault.now }
{
    match fault {
        LineFault::Bad => "Bad",
        LineFault::EmptyKey => "EmptyKey",
        LineFault::BadData { .. } => "BadData",
        LineFault::TooLarge { .. } => "TooLarge",
        LineFault::NoClass => "NoClass",
        LineFault::TooManyTags => "TooManyTags",
        LineFault::DelayTooLong => "DelayTooLong",
        LineFault::IdTwice { .. } => "IdTwice",
        LineFault::PeriodicInChain { .. } => "PeriodicInChain",
    }
}

fn refusal_name(refusal: &Refusal) -> &'static str
    ensures { result.now ≡ texts.refusal_name refusal.now }
{
    match refusal {
        Refusal::Line(fault) => fault_name(fault),
        Refusal::MomentBack { .. } => "MomentBack",
        Refusal::NoSuchWork { .. } => "NoSuchWork",
        Refusal::KindMismatch { .. } => "KindMismatch",
        Refusal::TooManyWorks { .. } => "TooManyWorks",
        Refusal::NumbersSpent { .. } => "NumbersSpent",
        Refusal::IdInUse { .. } => "IdInUse",
        Refusal::NoSuchPrerequisite { .. } => "NoSuchPrerequisite",
        Refusal::PeriodicInChain { .. } => "PeriodicInChain",
        Refusal::TooManyPrerequisites { .. } => "TooManyPrerequisites",
        Refusal::TooManyObservers { .. } => "TooManyObservers",
        Refusal::NoSuchClass => "NoSuchClass",
    }
}

// Puts the value that shows the fault under its own name.
fn put_fault(
    members: &mut Map<String, Value>,
    alloc: Global,
    fault: &LineFault,
) -> Result<(), AllocError>
    ensures ok { OnOk result (members_view members.new.entries
        ≡ texts.with_fault fault.now (members_view members.old.entries)) }
    ensures err { OnErr result (members.new.entries ≡ members.old.entries) }
{
    match fault {
        LineFault::BadData { key } => {
            let shown = Value::try_from_str(alloc, key.as_str())?;
            put(members, alloc, "key", shown)
        }
        LineFault::TooLarge { size } => put(members, alloc, "size", Value::from(*size)),
        LineFault::IdTwice { id } | LineFault::PeriodicInChain { id } => {
            put(members, alloc, "id", id_value(alloc, id)?)
        }
        _ => Ok(()),
    }
}

// Puts the value that shows the refusal under its own name.
fn put_shown(
    members: &mut Map<String, Value>,
    alloc: Global,
    refusal: &Refusal,
) -> Result<(), AllocError>
    ensures ok { OnOk result (members_view members.new.entries
        ≡ texts.with_refusal refusal.now (members_view members.old.entries)) }
    ensures err { OnErr result (members.new.entries ≡ members.old.entries) }
{
    match refusal {
        Refusal::Line(fault) => put_fault(members, alloc, fault),
        Refusal::MomentBack { now } => put(members, alloc, "now", Value::from(*now)),
        Refusal::NoSuchWork { id }
        | Refusal::KindMismatch { id }
        | Refusal::IdInUse { id }
        | Refusal::NoSuchPrerequisite { id }
        | Refusal::PeriodicInChain { id }
        | Refusal::TooManyPrerequisites { id } => {
            put(members, alloc, "id", id_value(alloc, id)?)
        }
        Refusal::TooManyWorks { count } | Refusal::TooManyObservers { count } => {
            put(members, alloc, "count", Value::from(*count))
        }
        Refusal::NumbersSpent { next } => put(members, alloc, "next", Value::from(*next)),
        Refusal::NoSuchClass => Ok(()),
    }
}
