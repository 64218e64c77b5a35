//! The lines of an audit, written and read. None is given or taken with its LF.
ghost use Rattle.std.specs.Prelude.{◌≡◌, ◌≤◌, false, length, option_map, IfOk, IfSome, OnOk, Some};
ghost use Rattle.std.specs.Str.{bytes_eq};
ghost use Rattle.serde_json.specs.Data.{depth};
ghost use Rattle.serde_json.specs.Read.{max_depth};
ghost use Rattle.serde_json.specs.View.{view};
ghost use Rattle.serde_json.specs.Written.{compact_text, has_float};
ghost use Rattle.wm_audit_text.specs.Lines as lines;
ghost use Rattle.wm_machine.specs.Opened.{AreFresh};
ghost use Rattle.wm_script.specs.Lines.{value_of};

use crate::entries::entry_in;
use crate::entry::Entry;
use crate::events::{entry_value, event_value};
use crate::headers::{Header, end_in, end_value, header_in, header_value};
use crate::ranges::{read_event, read_row};
use crate::stored::{row_in, row_value};
use serde_json::Value;
use std::alloc::{AllocError, Global};
use wm_keeper::Row;
use wm_machine::{Event, Instance};

/// The first line: the hands, and how many rows follow.
pub fn header_line(alloc: Global, hands: &[Instance], rows: u64) -> Result<Vec<u8>, AllocError>
    ensures line { IfOk result (λ line. line.items ≡ lines.header_line hands.now rows) }
    ensures told { OnOk result (AreFresh hands.now → lines.IsHeaderOf hands.now rows) }
{
    let value = header_value(alloc, hands, rows)?;
    text_of(alloc, &value)
}

/// The line of a row.
pub fn row_line(alloc: Global, row: &Row) -> Result<Vec<u8>, AllocError>
    requires { length row.now.id ≡ 16 }
    ensures line { IfOk result (λ line. line.items ≡ lines.row_line row.now) }
    ensures told { OnOk result (lines.IsToldRow row.now) }
{
    read_row(row);
    let value = row_value(alloc, row)?;
    text_of(alloc, &value)
}

/// The line of an event. The reply to a command isn't in it.
pub fn event_line(alloc: Global, event: &Event) -> Result<Vec<u8>, AllocError>
    ensures line { IfOk result (λ line. line.items ≡ lines.event_line event.now) }
    ensures told { OnOk result (lines.IsToldCanonical event.now) }
{
    read_event(event);
    let value = event_value(alloc, event)?;
    text_of(alloc, &value)
}

/// The line before the text, which has so many bytes.
pub fn end_line(alloc: Global, size: u64) -> Result<Vec<u8>, AllocError>
    ensures line { IfOk result (λ line. line.items ≡ lines.end_line size) }
    ensures told { OnOk result (lines.end_of (lines.end_line size) ≡ Some size) }
{
    let value = end_value(alloc, size)?;
    text_of(alloc, &value)
}

/// The compact text of a value.
#[tactic(auto, using(crate::proofs::LineValues::value_of_read))]
fn text_of(alloc: Global, value: &Value) -> Result<Vec<u8>, AllocError>
    requires plain { has_float (view value.now) ≡ false }
    requires shallow { depth (view value.now) ≤ max_depth }
    ensures text { IfOk result (λ text. text.items ≡ compact_text (view value.now)) }
    ensures read { OnOk result (value_of (compact_text (view value.now)) ≡ Some (view value.now)) }
{
    value.to_vec(alloc)
}

/// What the first line says, if it is spelled as one.
#[tactic(auto, unfolding(crate::specs::Lines::header_of))]
pub fn header_of(alloc: Global, line: &[u8]) -> Result<Option<Header>, AllocError>
    ensures { IfOk result (λ header. header ≡ lines.header_of line.now) }
{
    let Some(value) = value_of(alloc, line)? else {
        return Ok(None);
    };
    let Some(header) = header_in(alloc, &value)? else {
        return Ok(None);
    };
    let written = header_value(alloc, header.hands.as_slice(), header.rows)?;
    if is_text_of(alloc, &written, line)? {
        Ok(Some(header))
    } else {
        Ok(None)
    }
}

/// The row of a line, if it is spelled as one.
#[tactic(auto, unfolding(crate::specs::Lines::row_of))]
pub fn row_of(alloc: Global, line: &[u8]) -> Result<Option<Row>, AllocError>
    ensures { IfOk result (λ row. row ≡ lines.row_of line.now) }
{
    let Some(value) = value_of(alloc, line)? else {
        return Ok(None);
    };
    let Some(inner) = value.get("row") else {
        return Ok(None);
    };
    let row = row_in(alloc, inner)?;
    let written = row_value(alloc, &row)?;
    if is_text_of(alloc, &written, line)? {
        Ok(Some(row))
    } else {
        Ok(None)
    }
}

/// What a line tells of an event, if it is spelled as one.
#[tactic(auto, unfolding(crate::specs::Lines::entry_at))]
pub fn entry_of(alloc: Global, line: &[u8]) -> Result<Option<Entry>, AllocError>
    ensures entry { IfOk result (λ entry. entry ≡ lines.entry_at line.now) }
    ensures may_be { IfOk result (λ entry. IfSome entry lines.MayBeTold) }
{
    let Some(value) = value_of(alloc, line)? else {
        return Ok(None);
    };
    let Some(entry) = entry_in(alloc, &value)? else {
        return Ok(None);
    };
    let written = entry_value(alloc, &entry)?;
    if is_text_of(alloc, &written, line)? {
        Ok(Some(entry))
    } else {
        Ok(None)
    }
}

/// How many bytes of text follow a line, if it is spelled as the one before the text.
#[tactic(auto, unfolding(crate::specs::Lines::end_of))]
pub fn end_of(alloc: Global, line: &[u8]) -> Result<Option<u64>, AllocError>
    ensures { IfOk result (λ size. size ≡ lines.end_of line.now) }
{
    let Some(value) = value_of(alloc, line)? else {
        return Ok(None);
    };
    let size = end_in(&value);
    let written = end_value(alloc, size)?;
    if is_text_of(alloc, &written, line)? {
        Ok(Some(size))
    } else {
        Ok(None)
    }
}

/// Whether bytes are the compact text of a value.
fn is_text_of(alloc: Global, value: &Value, line: &[u8]) -> Result<bool, AllocError>
    requires { has_float (view value.now) ≡ false }
    ensures { IfOk result (λ is. is ≡ bytes_eq (compact_text (view value.now)) line.now) }
{
    let text = value.to_vec(alloc)?;
    Ok(text.as_slice() == line)
}

/// The JSON value of a line, if it has one. Memory that is refused is the only error.
#[tactic(auto, using(wm_script::proofs::LinesLemmas::values))]
fn value_of(alloc: Global, line: &[u8]) -> Result<Option<Value>, AllocError>
    ensures value { IfOk result (λ value. option_map view value ≡ value_of line.now) }
    ensures shallow { IfOk result (λ value. IfSome value (λ value. depth (view value) ≤ max_depth)) }
{
    match Value::from_slice(alloc, line) {
        Ok(value) => Ok(Some(value)),
        Err(error) => {
            if error.is_memory() {
                Err(AllocError)
            } else {
                Ok(None)
            }
        }
    }
}
