//! The calls by their names.

use crate::{infos, lines, notes, records, rows, sessions, spellings, texts};
use case_files::fields::{RowFault, field, text};
use part_calls::{chains, conditions, data, requests, schedule, workers};
use serde_json::Value;
use std::alloc::Global;

/// What comes of the call of this name with what a row gives it.
fn answer_of(alloc: Global, call: &str, row: &Value) -> Result<Value, RowFault> {
    match call {
        "wait" => schedule::waited(row),
        "backoff delay" => schedule::backoff_delay(row),
        "period" => schedule::period(alloc, row),
        "due" => schedule::due_at(row),
        "conditions needed" => conditions::needed(alloc, row),
        "met at opening" => conditions::met_at_opening(row),
        "opening conditions" => conditions::opening(alloc, row),
        "no constraints" => conditions::no_constraints(alloc, row),
        "data" => data::read(alloc, row),
        "data of letters" => data::read_long(alloc, row),
        "build data" => data::build(alloc, row),
        "merge" => data::merged(alloc, row),
        "merge letters" => data::merged_long(alloc, row),
        _ => answer_of_works(alloc, call, row),
    }
}

/// The same of the calls that are about works.
fn answer_of_works(alloc: Global, call: &str, row: &Value) -> Result<Value, RowFault> {
    match call {
        "request" => requests::built(alloc, row),
        "request of letters" => requests::limits(alloc, row),
        "batch" => chains::batch(alloc, row),
        "chain" => chains::combined(alloc, row),
        "turn" => workers::turn(alloc, row),
        "started" | "ended" | "timed out" | "stopped" | "not started" | "closed" | "freed" => {
            records::change(alloc, row)
        }
        "row" => records::row(alloc, row),
        "row again" => rows::again(alloc, row),
        "store" => rows::store(alloc, row),
        "store of many" => rows::many(alloc, row),
        "lines" => lines::read(alloc, row),
        "session line" => sessions::said(alloc, row),
        "beat of names" => sessions::counted(alloc, row),
        "report of letters" => sessions::long(alloc, row),
        "spelling" => spellings::written(alloc, row),
        "event text" => texts::told(alloc, row),
        "answer" => infos::answered(alloc, row),
        "matches" => infos::matched(alloc, row),
        "notes" => notes::noted(alloc, row),
        _ => Err(RowFault::NoSuchCall),
    }
}

/// The name of a row's call, and what it answers where that isn't what the row says.
pub fn difference(alloc: Global, row: &Value) -> Result<Option<String>, RowFault> {
    let expected = field(row, "answers")?.to_string(alloc)?;
    let came = answer_of(alloc, text(row, "call")?, row)?.to_string(alloc)?;
    if came == expected {
        return Ok(None);
    }
    Ok(Some(came))
}
