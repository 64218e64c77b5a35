//! What is answered to the lines of a session that are no commands.
ghost use Rattle.std.specs.Prelude.{◌≡◌, IfOk, false};
ghost use Rattle.serde_json.specs.View.{view};
ghost use Rattle.serde_json.specs.Written.{has_float};
ghost use Rattle.wm_serve_text.specs.Answers as answers;
ghost use Rattle.wm_texts.specs.Texts.{done_json, texts};

use serde_json::{Value, json, push};
use std::alloc::{AllocError, Global};
use wm_collections::Text;

/// What is answered to a line that names a run.
#[derive(Clone, Copy, Debug, PartialEq, Eq)]
pub enum RunReply {
    /// The run goes on.
    Progress,
    /// The run is over, as was reported.
    Reported,
    /// The run was stopped, so that what was said comes too late.
    Late,
    /// The run has no further turn, so that its progress isn't taken.
    NoTurnLeft,
    /// No run that is out has the name.
    NoSuchRun,
}

/// The text of a value, and LF.
pub(crate) fn line_text(alloc: Global, value: &Value) -> Result<Vec<u8>, AllocError>
    requires { has_float (view value.now) ≡ false }
    ensures { IfOk result (λ text. text.items ≡ answers.line_text (view value.now)) }
{
    let mut text = value.to_vec(alloc)?;
    text.push(b'\n')?;
    Ok(text)
}

/// What is answered to a line that names a run, with the name as it was given: one compact JSON object,
/// keys in ascending byte order, and LF. Memory that is refused is the only error.
#[tactic(auto, using(crate::proofs::AnswersLemmas::run_reply_has_no_float))]
pub fn run_reply_text(
    alloc: Global,
    line: u32,
    run: &str,
    reply: RunReply,
) -> Result<Vec<u8>, AllocError>
    ensures { IfOk result (λ text. text.items ≡ answers.run_reply_text line run.now reply) }
{
    let value = run_reply_value(alloc, line, run, reply)?;
    line_text(alloc, &value)
}

fn run_reply_value(
    alloc: Global,
    line: u32,
    run: &str,
    reply: RunReply,
) -> Result<Value, AllocError>
    ensures { IfOk result (λ value. view value ≡ answers.run_reply_json line run.now reply) }
{
    match reply {
        RunReply::Progress => run_done_value(alloc, line, "progress", run),
        RunReply::Reported => run_done_value(alloc, line, "reported", run),
        RunReply::Late => run_done_value(alloc, line, "late", run),
        RunReply::NoTurnLeft => run_refused_value(alloc, line, "NoTurnLeft", run),
        RunReply::NoSuchRun => run_refused_value(alloc, line, "NoSuchRun", run),
    }
}

fn run_done_value(alloc: Global, line: u32, done: &str, run: &str) -> Result<Value, AllocError>
    ensures { IfOk result (λ value. view value ≡ answers.run_done_json line done.now run.now) }
{
    json!(in alloc; {"line": line, "ok": done, "run": run})
}

fn run_refused_value(alloc: Global, line: u32, why: &str, run: &str) -> Result<Value, AllocError>
    ensures { IfOk result (λ value. view value ≡ answers.run_refused_json line why.now run.now) }
{
    json!(in alloc; {"error": why, "line": line, "run": run})
}

/// What is answered to a beat, in the form of other answers: the names that no run that is out has, and
/// those of runs that were stopped. Memory that is refused is the only error.
pub fn beat_text(
    alloc: Global,
    line: u32,
    gone: &[Text],
    late: &[Text],
) -> Result<Vec<u8>, AllocError>
    ensures { IfOk result (λ text. text.items ≡ answers.beat_text line gone.now late.now) }
{
    let value = beat_value(alloc, line, gone, late)?;
    line_text(alloc, &value)
}

fn beat_value(alloc: Global, line: u32, gone: &[Text], late: &[Text]) -> Result<Value, AllocError>
    ensures { IfOk result (λ value. view value ≡ answers.beat_json line gone.now late.now) }
{
    let gone = names_value(alloc, gone)?;
    let late = names_value(alloc, late)?;
    json!(in alloc; {"gone": gone, "late": late, "line": line, "ok": "beat"})
}

pub(crate) fn names_value(alloc: Global, names: &[Text]) -> Result<Value, AllocError>
    ensures { IfOk result (λ value. view value ≡ texts names.now) }
{
    let mut values = Vec::new(alloc);
    for name in names {
        push(&mut values, Value::try_from_str(alloc, name.as_str())?)?;
    }
    Ok(Value::Array(values))
}

/// What is answered to a close of a session that is closing already. Memory that is refused is the only
/// error.
pub fn closing_text(alloc: Global, line: u32) -> Result<Vec<u8>, AllocError>
    ensures { IfOk result (λ text. text.items ≡ answers.closing_text line) }
{
    let value = done_value(alloc, line, "closing")?;
    line_text(alloc, &value)
}

/// That a session is over, which the line of this number closed. Memory that is refused is the only error.
pub fn closed_text(alloc: Global, line: u32) -> Result<Vec<u8>, AllocError>
    ensures { IfOk result (λ text. text.items ≡ answers.closed_text line) }
{
    let value = done_value(alloc, line, "closed")?;
    line_text(alloc, &value)
}

fn done_value(alloc: Global, line: u32, done: &str) -> Result<Value, AllocError>
    ensures { IfOk result (λ value. view value ≡ done_json line done.now) }
{
    json!(in alloc; {"line": line, "ok": done})
}
