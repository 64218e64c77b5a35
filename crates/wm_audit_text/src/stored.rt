//! The line of a row, written and read.
ghost use Rattle.std.specs.Prelude.{◌≡◌, codes, length, IfOk, OnOk};
ghost use Rattle.serde_json.specs.Data as json;
ghost use Rattle.serde_json.specs.View.{members_view, view};
ghost use Rattle.wm_audit_text.specs.Fields.{text_in, whole_at};
ghost use Rattle.wm_audit_text.specs.StoredRows as stored;
ghost use Rattle.wm_data.specs.DataJson.{list_of, whole};
ghost use Rattle.wm_spelling.specs.Works.{id_json, texts_json};

use crate::fields::{id_at, own_text_at, text_in, texts_at, whole_at, wholes_at};
use crate::ranges::id_of;
use serde_json::{Map, Value, json, push, put};
use std::alloc::{AllocError, Global};
use uuid::Uuid;
use wm_collections::Text;
use wm_keeper::Row;

/// The line of a row, as JSON.
pub(crate) fn row_value(alloc: Global, row: &Row) -> Result<Value, AllocError>
    requires { length row.now.id ≡ 16 }
    ensures { IfOk result (λ value. view value ≡ stored.row_json row.now) }
{
    let members = row_members(alloc, row)?;
    let inner = Value::Object(members);
    json!(in alloc; {"row": inner})
}

/// Each field of a row under its name.
fn row_members(alloc: Global, row: &Row) -> Result<Map<String, Value>, AllocError>
    requires { length row.now.id ≡ 16 }
    ensures { IfOk result (λ members. members_view members.entries ≡ stored.row_members row.now) }
{
    let mut members = Map::new(alloc);
    put_asked(&mut members, alloc, row)?;
    put_standing(&mut members, alloc, row)?;
    put_moments(&mut members, alloc, row)?;
    put_texts(&mut members, alloc, row)?;
    put_name(&mut members, alloc, &row.name)?;
    Ok(members)
}

/// Puts the numbers that say what was asked for.
fn put_asked(members: &mut Map<String, Value>, alloc: Global, row: &Row) -> Result<(), AllocError>
    ensures { OnOk result (members_view members.new.entries
        ≡ stored.with_asked row.now (members_view members.old.entries)) }
{
    put(members, alloc, "kind", Value::from(row.kind))?;
    put(members, alloc, "period", Value::from(row.period))?;
    put(members, alloc, "flex", Value::from(row.flex))?;
    put(members, alloc, "delay", Value::from(row.delay))?;
    put(members, alloc, "policy", Value::from(row.policy))?;
    put(members, alloc, "wait", Value::from(row.wait))?;
    put(members, alloc, "merger", Value::from(row.merger))?;
    put(members, alloc, "network", Value::from(row.network))?;
    put(members, alloc, "flags", Value::from(row.flags))
}

/// Puts the numbers that say how far the work has come.
fn put_standing(
    members: &mut Map<String, Value>,
    alloc: Global,
    row: &Row,
) -> Result<(), AllocError>
    ensures { OnOk result (members_view members.new.entries
        ≡ stored.with_standing row.now (members_view members.old.entries)) }
{
    put_attempts(members, alloc, row)?;
    put(members, alloc, "runs", Value::from(row.runs))?;
    put(members, alloc, "generation", Value::from(row.generation))?;
    put(members, alloc, "enqueued_at", Value::from(row.enqueued_at))
}

/// Puts the phase and the attempts.
fn put_attempts(
    members: &mut Map<String, Value>,
    alloc: Global,
    row: &Row,
) -> Result<(), AllocError>
    ensures { OnOk result (members_view members.new.entries
        ≡ stored.with_attempts row.now (members_view members.old.entries)) }
{
    put(members, alloc, "phase", Value::from(row.phase))?;
    put(members, alloc, "attempt", Value::from(row.attempt))?;
    put(members, alloc, "backoff_n", Value::from(row.backoff_n))
}

/// Puts the moments, the form and the number.
fn put_moments(members: &mut Map<String, Value>, alloc: Global, row: &Row) -> Result<(), AllocError>
    ensures { OnOk result (members_view members.new.entries
        ≡ stored.with_moments row.now (members_view members.old.entries)) }
{
    put(members, alloc, "version", Value::from(row.version))?;
    put(members, alloc, "seq", Value::from(row.seq))?;
    put(members, alloc, "next_at", Value::from(row.next_at))?;
    put(members, alloc, "keep_for", Value::from(row.keep_for))?;
    put(members, alloc, "finished_at", Value::from(row.finished_at))
}

/// Puts the texts and the lists.
fn put_texts(members: &mut Map<String, Value>, alloc: Global, row: &Row) -> Result<(), AllocError>
    requires { length row.now.id ≡ 16 }
    ensures { OnOk result (members_view members.new.entries
        ≡ stored.with_texts row.now (members_view members.old.entries)) }
{
    put(members, alloc, "id", id_value(alloc, row.id.as_slice())?)?;
    put(members, alloc, "class", text_value(alloc, &row.class)?)?;
    put(members, alloc, "input", text_value(alloc, &row.input)?)?;
    put(members, alloc, "output", text_value(alloc, &row.output)?)?;
    put(
        members,
        alloc,
        "prior",
        wholes_value(alloc, row.prior.as_slice())?,
    )?;
    put(
        members,
        alloc,
        "tags",
        texts_value(alloc, row.tags.as_slice())?,
    )
}

/// Puts the name, where there is one.
fn put_name(
    members: &mut Map<String, Value>,
    alloc: Global,
    name: &Option<Text>,
) -> Result<(), AllocError>
    ensures { OnOk result (members_view members.new.entries
        ≡ stored.with_name name.now (members_view members.old.entries)) }
{
    match name {
        Some(name) => put(members, alloc, "name", text_value(alloc, name)?),
        None => Ok(()),
    }
}

/// A text.
fn text_value(alloc: Global, text: &Text) -> Result<Value, AllocError>
    ensures { IfOk result (λ value. view value ≡ json.string text.now) }
{
    Value::try_from_str(alloc, text.as_str())
}

/// An id by its sixteen bytes, hyphenated and in lower case.
fn id_value(alloc: Global, bytes: &[u8]) -> Result<Value, AllocError>
    requires { length bytes.now ≡ 16 }
    ensures { IfOk result (λ value. view value ≡ id_json bytes.now) }
{
    let mut buffer = Uuid::encode_buffer();
    Value::try_from_str(alloc, id_of(bytes).hyphenated().encode_lower(&mut buffer))
}

/// A list of numbers.
fn wholes_value(alloc: Global, wholes: &[i64]) -> Result<Value, AllocError>
    ensures { IfOk result (λ value. view value ≡ list_of whole wholes.now) }
{
    let mut values = Vec::new(alloc);
    for whole in wholes {
        push(&mut values, Value::from(*whole))?;
    }
    Ok(Value::Array(values))
}

/// A list of texts.
fn texts_value(alloc: Global, texts: &[Text]) -> Result<Value, AllocError>
    ensures { IfOk result (λ value. view value ≡ texts_json texts.now) }
{
    let mut values = Vec::new(alloc);
    for text in texts {
        push(&mut values, text_value(alloc, text)?)?;
    }
    Ok(Value::Array(values))
}

/// The row that a value is read as.
pub(crate) fn row_in(alloc: Global, value: &Value) -> Result<Row, AllocError>
    ensures row { IfOk result (λ row. row ≡ stored.row_in (view value.now)) }
    ensures sixteen { IfOk result (λ row. length row.id ≡ 16) }
{
    let name = name_in(alloc, value)?;
    let id = id_at(alloc, value, "id")?;
    let class = own_text_at(alloc, value, "class")?;
    let input = own_text_at(alloc, value, "input")?;
    let output = own_text_at(alloc, value, "output")?;
    let prior = wholes_at(alloc, value, "prior")?;
    let tags = texts_at(alloc, value, "tags")?;
    let asked = asked_in(value);
    let standing = standing_in(value);
    let moments = moments_in(value);
    Ok(Row {
        version: moments.version,
        seq: moments.seq,
        id,
        name,
        class,
        kind: asked.kind,
        period: asked.period,
        flex: asked.flex,
        delay: asked.delay,
        policy: asked.policy,
        wait: asked.wait,
        merger: asked.merger,
        network: asked.network,
        flags: asked.flags,
        phase: standing.phase,
        attempt: standing.attempt,
        backoff_n: standing.backoff_n,
        runs: standing.runs,
        generation: standing.generation,
        enqueued_at: standing.enqueued_at,
        input,
        output,
        prior,
        tags,
        next_at: moments.next_at,
        keep_for: moments.keep_for,
        finished_at: moments.finished_at,
    })
}

/// The numbers of a row that say what was asked for.
#[derive(Clone, Copy)]
struct Asked {
    kind: i64,
    period: i64,
    flex: i64,
    delay: i64,
    policy: i64,
    wait: i64,
    merger: i64,
    network: i64,
    flags: i64,
}

/// Those that say how far the work has come.
#[derive(Clone, Copy)]
struct Standing {
    phase: i64,
    attempt: i64,
    backoff_n: i64,
    runs: i64,
    generation: i64,
    enqueued_at: i64,
}

/// The form, the number and the moments.
#[derive(Clone, Copy)]
struct Moments {
    version: i64,
    seq: i64,
    next_at: i64,
    keep_for: i64,
    finished_at: i64,
}

/// What was asked for.
fn asked_in(value: &Value) -> Asked
    ensures { result ≡ record {
      kind = whole_at (codes "kind") (view value.now);
      period = whole_at (codes "period") (view value.now);
      flex = whole_at (codes "flex") (view value.now);
      delay = whole_at (codes "delay") (view value.now);
      policy = whole_at (codes "policy") (view value.now);
      wait = whole_at (codes "wait") (view value.now);
      merger = whole_at (codes "merger") (view value.now);
      network = whole_at (codes "network") (view value.now);
      flags = whole_at (codes "flags") (view value.now);
    } }
{
    Asked {
        kind: whole_at(value, "kind"),
        period: whole_at(value, "period"),
        flex: whole_at(value, "flex"),
        delay: whole_at(value, "delay"),
        policy: whole_at(value, "policy"),
        wait: whole_at(value, "wait"),
        merger: whole_at(value, "merger"),
        network: whole_at(value, "network"),
        flags: whole_at(value, "flags"),
    }
}

/// How far the work has come.
fn standing_in(value: &Value) -> Standing
    ensures { result ≡ record {
      phase = whole_at (codes "phase") (view value.now);
      attempt = whole_at (codes "attempt") (view value.now);
      backoff_n = whole_at (codes "backoff_n") (view value.now);
      runs = whole_at (codes "runs") (view value.now);
      generation = whole_at (codes "generation") (view value.now);
      enqueued_at = whole_at (codes "enqueued_at") (view value.now);
    } }
{
    Standing {
        phase: whole_at(value, "phase"),
        attempt: whole_at(value, "attempt"),
        backoff_n: whole_at(value, "backoff_n"),
        runs: whole_at(value, "runs"),
        generation: whole_at(value, "generation"),
        enqueued_at: whole_at(value, "enqueued_at"),
    }
}

/// The form, the number and the moments.
fn moments_in(value: &Value) -> Moments
    ensures { result ≡ record {
      version = whole_at (codes "version") (view value.now);
      seq = whole_at (codes "seq") (view value.now);
      next_at = whole_at (codes "next_at") (view value.now);
      keep_for = whole_at (codes "keep_for") (view value.now);
      finished_at = whole_at (codes "finished_at") (view value.now);
    } }
{
    Moments {
        version: whole_at(value, "version"),
        seq: whole_at(value, "seq"),
        next_at: whole_at(value, "next_at"),
        keep_for: whole_at(value, "keep_for"),
        finished_at: whole_at(value, "finished_at"),
    }
}

/// The name, where there is one.
fn name_in(alloc: Global, value: &Value) -> Result<Option<Text>, AllocError>
    ensures { IfOk result (λ name. name ≡ text_in (codes "name") (view value.now)) }
{
    match text_in(value, "name") {
        Some(name) => Ok(Some(Text::from_str(alloc, name)?)),
        None => Ok(None),
    }
}
