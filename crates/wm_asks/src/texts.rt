//! What is written for the answers that are no replies.
ghost use Rattle.std.specs.Prelude.{◌≡◌, IfOk, OnOk, OnErr};
ghost use Rattle.serde_json.specs.View.{view, members_view};
ghost use Rattle.wm_asks.specs.AskTexts as texts;

use crate::ask::{LiveRefusal, LiveReply};
use serde_json::{Map, Value, json, put};
use std::alloc::{AllocError, Global};
use wm_texts::texts::{id_value, state_name};

/// What is written for an answer to the ask of a line, where the state is hushed or isn't: one compact
/// JSON object, keys in ascending byte order, and LF. For a reply that is nothing, since its event has
/// a text of its own. Memory that is refused is the only error.
pub fn answer_text(
    alloc: Global,
    line: u32,
    answer: &LiveReply,
    hushed: bool,
) -> Result<Vec<u8>, AllocError>
    ensures { IfOk result (λ text. text.items ≡ texts.answer_text line answer.now hushed) }
{
    if hushed || is_reply(answer) {
        return Ok(Vec::new(alloc));
    }
    line_text(alloc, line, answer)
}

/// Whether an answer is a reply.
fn is_reply(answer: &LiveReply) -> bool
    ensures { result ≡ texts.is_reply answer.now }
{
    matches!(answer, LiveReply::Did(_))
}

/// The text of an answer, and LF.
#[tactic(auto, using(crate::proofs::AskTextsLemmas::answer_has_no_float))]
fn line_text(alloc: Global, line: u32, answer: &LiveReply) -> Result<Vec<u8>, AllocError>
    ensures { IfOk result (λ text. text.items ≡ texts.line_text line answer.now) }
{
    let mut text = answer_value(alloc, line, answer)?.to_vec(alloc)?;
    text.push(b'\n')?;
    Ok(text)
}

fn answer_value(alloc: Global, line: u32, answer: &LiveReply) -> Result<Value, AllocError>
    ensures { IfOk result (λ value. view value ≡ texts.answer_json line answer.now) }
{
    match answer {
        LiveReply::Did(_) => Ok(Value::Null),
        LiveReply::Ticked => json!(in alloc; {"line": line, "ok": "tick"}),
        LiveReply::Wake(Some(at)) => json!(in alloc; {"at": *at, "line": line, "ok": "wake"}),
        LiveReply::Wake(None) => json!(in alloc; {"line": line, "ok": "wake"}),
        LiveReply::Refused(refusal) => refused_value(alloc, line, refusal),
    }
}

fn refused_value(alloc: Global, line: u32, refusal: &LiveRefusal) -> Result<Value, AllocError>
    ensures { IfOk result (λ value. view value ≡ texts.refused_json line refusal.now) }
{
    let name = Value::try_from_str(alloc, refusal_name(refusal))?;
    let mut members = Map::new(alloc);
    put(&mut members, alloc, "error", name)?;
    put(&mut members, alloc, "line", Value::from(line))?;
    put_shown(&mut members, alloc, refusal)?;
    Ok(Value::Object(members))
}

/// Puts the values that show the refusal under their own names.
fn put_shown(
    members: &mut Map<String, Value>,
    alloc: Global,
    refusal: &LiveRefusal,
) -> Result<(), AllocError>
    ensures ok { OnOk result (members_view members.new.entries
        ≡ texts.with_shown refusal.now (members_view members.old.entries)) }
{
    match refusal {
        LiveRefusal::NoSuchWork { id } | LiveRefusal::KindMismatch { id } => {
            put(members, alloc, "id", id_value(alloc, id)?)
        }
        LiveRefusal::NotWaiting { id, state } => {
            put(members, alloc, "id", id_value(alloc, id)?)?;
            let state = Value::try_from_str(alloc, state_name(*state))?;
            put(members, alloc, "state", state)
        }
        LiveRefusal::NeverDue { id, due } => {
            put(members, alloc, "due", Value::from(*due))?;
            put(members, alloc, "id", id_value(alloc, id)?)
        }
    }
}

fn refusal_name(refusal: &LiveRefusal) -> &'static str
    ensures { result.now ≡ texts.refusal_name refusal.now }
{
    match refusal {
        LiveRefusal::NoSuchWork { .. } => "NoSuchWork",
        LiveRefusal::KindMismatch { .. } => "KindMismatch",
        LiveRefusal::NotWaiting { .. } => "NotWaiting",
        LiveRefusal::NeverDue { .. } => "NeverDue",
    }
}
