//! The verdict on an audit, as a status and a line.
ghost use Rattle.std.specs.Prelude.{◌≡◌, false, IfOk};
ghost use Rattle.serde_json.specs.View.{view};
ghost use Rattle.serde_json.specs.Written.{compact_text, has_float};
ghost use Rattle.wm_audit_program.specs.Judged.{IsJudged};
ghost use Rattle.wm_audit_program.specs.Statuses.{status_of, verdict_json, verdict_line};
ghost use Rattle.wm_audit_text.specs.Audits.{with_lf};

use crate::status::CheckStatus;
use serde_json::{Value, json};
use std::alloc::{AllocError, Global};
use wm_audit::{Verdict, check};

/// A verdict: how a check ends with it, and the line that tells it.
#[derive(Drop)]
pub(crate) struct Judged {
    pub status: CheckStatus,
    pub line: Vec<u8>,
}

/// The verdict on the bytes of an audit. Memory that is refused is the only error.
pub(crate) fn judge(alloc: Global, bytes: &[u8]) -> Result<Judged, AllocError>
    ensures { IfOk result (λ judged. IsJudged bytes.now judged) }
{
    let verdict = check(alloc, bytes)?;
    let line = verdict_line(alloc, &verdict)?;
    let status = status_of(&verdict);
    Ok(Judged { status, line })
}

/// How a check ends with a verdict.
fn status_of(verdict: &Verdict) -> CheckStatus
    ensures { result ≡ status_of verdict.entry.now }
{
    match verdict {
        Verdict::Sound { .. } => CheckStatus::Sound,
        Verdict::WrongLine { line } => CheckStatus::WrongLine { line: *line },
        Verdict::WrongText { at } => CheckStatus::WrongText { at: *at },
    }
}

/// The line of a verdict.
fn verdict_line(alloc: Global, verdict: &Verdict) -> Result<Vec<u8>, AllocError>
    ensures { IfOk result (λ line. line.items ≡ verdict_line verdict.entry.now) }
{
    let value = verdict_value(alloc, verdict)?;
    line_of(alloc, &value)
}

/// A verdict, as JSON.
fn verdict_value(alloc: Global, verdict: &Verdict) -> Result<Value, AllocError>
    ensures { IfOk result (λ value. view value ≡ verdict_json verdict.entry.now) }
{
    match verdict {
        Verdict::Sound { .. } => json!(in alloc; {"ok": "sound"}),
        Verdict::WrongLine { line } => json!(in alloc; {"line": *line, "wrong": "line"}),
        Verdict::WrongText { at } => json!(in alloc; {"at": *at, "wrong": "text"}),
    }
}

/// The compact text of a value, with its LF.
fn line_of(alloc: Global, value: &Value) -> Result<Vec<u8>, AllocError>
    requires { has_float (view value.now) ≡ false }
    ensures { IfOk result (λ line. line.items ≡ with_lf (compact_text (view value.now))) }
{
    let mut line = value.to_vec(alloc)?;
    line.push(b'\n')?;
    Ok(line)
}
