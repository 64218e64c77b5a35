//! The lines of a script as asks.
ghost use Rattle.std.specs.Prelude.{◌≡◌, ◌<◌, ◌≤◌, length, Err, IfErr, IfOk, None, OnErr, OnOk, Some};
ghost use Rattle.std.specs.List.{AllByRecursion};
ghost use Rattle.serde_json.specs.View.{view};
ghost use Rattle.wm_live_program.specs.Asks.{alone, ask_of, asked_by, asks_in, named_ask, own_ask, HasAskable};
ghost use Rattle.wm_script.specs.Limits.{first_limit, IsFaultOf};

use serde_json::Value;
use std::alloc::{AllocError, Global};
use wm_asks::Ask;
use wm_script::lines::{id_under, value_of};
use wm_script::{Limit, ScriptFault, command_of, first_limit, first_line, has_only};

/// The asks of a script's lines, in their order: one for each line. A line that isn't in the grammar, or
/// whose works have a fault, gives a faulty command.
///
/// `TooLong` with the first limit that the script passes, and nothing of it is read. The empty script has
/// no line, and takes no memory.
pub fn read_asks(alloc: Global, bytes: &[u8]) -> Result<Vec<Ask>, ScriptFault>
    ensures asks { IfOk result (λ asks. asks.items ≡ asks_in bytes.now) }
    ensures within { OnOk result (first_limit bytes.now ≡ None) }
    ensures too_long { (limit : Limit) → first_limit bytes.now ≡ Some limit
        → result ≡ Err (ScriptFault.TooLong limit) }
    ensures fault { IfErr result (IsFaultOf bytes.now) }

    // What follows of the asks.
    ensures askable { IfOk result (λ asks. AllByRecursion HasAskable asks.items) }
    ensures few { IfOk result (λ asks. length asks.items ≤ length bytes.now) }
{
    if let Some(limit) = first_limit(bytes) {
        return Err(ScriptFault::TooLong(limit));
    }
    match asks_in(alloc, bytes) {
        Ok(asks) => Ok(asks),
        Err(_refused) => Err(ScriptFault::Memory),
    }
}

/// The asks of lines, in their order. Where there is no line it takes no memory.
fn asks_in(alloc: Global, bytes: &[u8]) -> Result<Vec<Ask>, AllocError>
    ensures asks { IfOk result (λ asks. asks.items ≡ asks_in bytes.now) }
    ensures some { OnErr result (0 < length bytes.now) }
    ensures few { IfOk result (λ asks. length asks.items ≤ length bytes.now) }
{
    let mut asks = Vec::new(alloc);
    let mut rest = bytes;
    'lines: while !rest.is_empty() {
        let (line, others) = first_line(rest);
        asks.push(ask_of(alloc, line)?)?;
        rest = others;
    }
    Ok(asks)
}

/// The ask of a line, which is given without its LF: one of its own name, or the command of the line.
/// Memory that is refused is the only error.
pub fn ask_of(alloc: Global, line: &[u8]) -> Result<Ask, AllocError>
    ensures { IfOk result (λ ask. ask ≡ ask_of line.now) }
{
    match own_ask(alloc, line)? {
        Some(ask) => Ok(ask),
        None => Ok(Ask::Line(command_of(alloc, line)?)),
    }
}

/// The ask of a line that is no command.
fn own_ask(alloc: Global, line: &[u8]) -> Result<Option<Ask>, AllocError>
    ensures { IfOk result (λ ask. ask ≡ own_ask line.now) }
{
    match value_of(alloc, line)? {
        Some(value) => Ok(asked_by(&value)),
        None => Ok(None),
    }
}

/// The ask of a value that is no command's.
#[tactic(auto, unfolding(crate::specs::Asks::asked_by))]
fn asked_by(value: &Value) -> Option<Ask>
    ensures { result ≡ asked_by (view value.now) }
{
    match value.get("cmd").and_then(Value::as_str) {
        Some(name) => named_ask(name, value),
        None => None,
    }
}

/// The ask of this name, by the reader of that ask.
fn named_ask(name: &str, value: &Value) -> Option<Ask>
    ensures { result ≡ named_ask name.now (view value.now) }
{
    match name {
        "delay_met" => id_under(value, "id").map(Ask::DelayMet),
        "period_met" => id_under(value, "id").map(Ask::PeriodMet),
        "constraints_met" => id_under(value, "id").map(Ask::ConstraintsMet),
        "tick" => alone(Ask::Tick, value),
        "wake" => alone(Ask::Wake, value),
        _ => None,
    }
}

/// An ask, where it has no further key.
fn alone(ask: Ask, value: &Value) -> Option<Ask>
    ensures { result ≡ alone ask (view value.now) }
{
    has_only(value, &["cmd"]).then_some(ask)
}
