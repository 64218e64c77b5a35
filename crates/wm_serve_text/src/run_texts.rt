//! What a session writes of its runs unasked.
ghost use Rattle.std.specs.Prelude.{◌≡◌, IfOk};
ghost use Rattle.serde_json.specs.View.{members_view, view};
ghost use Rattle.wm_data.specs.DataJson.{data_json};
ghost use Rattle.wm_serve_text.specs.RunTexts as runs;
ghost use Rattle.wm_texts.specs.Texts.{texts};

use crate::answers::{line_text, names_value};
use serde_json::{Map, Value, json, put};
use std::alloc::{AllocError, Global};
use uuid::Uuid;
use wm_data::Data;
use wm_machine::{Cause, Record, Run, Shown};
use wm_texts::texts::{id_value, state_name};

/// That the run of this name begins: what it took, the record of its work, and its slot, which is how
/// many instances of its class stand before its own. One compact JSON object, keys in ascending byte order,
/// and LF. Memory that is refused is the only error.
pub fn start_text(
    alloc: Global,
    name: &str,
    run: &Run,
    work: &Record,
    slot: u32,
) -> Result<Vec<u8>, AllocError>
    ensures { IfOk result (λ text. text.items ≡ runs.start_text name.now run.now work.now slot) }
{
    let value = start_value(alloc, name, run, work, slot)?;
    line_text(alloc, &value)
}

fn start_value(
    alloc: Global,
    name: &str,
    run: &Run,
    work: &Record,
    slot: u32,
) -> Result<Value, AllocError>
    ensures { IfOk result (λ value. view value ≡ runs.start_json name.now run.now work.now slot) }
{
    let mut members = Map::new(alloc);
    put(&mut members, alloc, "attempt", Value::from(run.attempt))?;
    let class = Value::try_from_str(alloc, work.request.class().as_str())?;
    put(&mut members, alloc, "class", class)?;
    let generation = Value::from(work.generation);
    put(&mut members, alloc, "generation", generation)?;
    let id = id_value(alloc, &work.request.id())?;
    put(&mut members, alloc, "id", id)?;
    put(&mut members, alloc, "input", data_value(alloc, &run.input)?)?;
    let name = Value::try_from_str(alloc, name)?;
    put(&mut members, alloc, "run", name)?;
    put(&mut members, alloc, "seq", Value::from(run.seq))?;
    put(&mut members, alloc, "slot", Value::from(slot))?;
    put(&mut members, alloc, "start", Value::from(true))?;
    let tags = names_value(alloc, work.request.tags().as_slice())?;
    put(&mut members, alloc, "tags", tags)?;
    Ok(Value::Object(members))
}

/// The JSON of Data. Memory that is refused is the only error.
fn data_value(alloc: Global, told: &Data) -> Result<Value, AllocError>
    ensures { IfOk result (λ value. view value ≡ data_json told.now) }
{
    told.to_json(alloc).map_err(|_| AllocError)
}

/// That the work of this id and number can't start, for this cause. Memory that is refused is the only
/// error.
#[tactic(auto, using(crate::proofs::AnswersLemmas::failed_start_has_no_float))]
pub fn failed_start_text(
    alloc: Global,
    id: &Uuid,
    seq: u64,
    cause: &Cause,
) -> Result<Vec<u8>, AllocError>
    ensures { IfOk result (λ text. text.items ≡ runs.failed_start_text id.now seq cause.now) }
{
    let value = failed_start_value(alloc, id, seq, cause)?;
    line_text(alloc, &value)
}

fn failed_start_value(
    alloc: Global,
    id: &Uuid,
    seq: u64,
    cause: &Cause,
) -> Result<Value, AllocError>
    ensures { IfOk result (λ value. view value ≡ runs.failed_start_json id.now seq cause.now) }
{
    let id = id_value(alloc, id)?;
    match cause {
        Cause::NoWorker => {
            json!(in alloc; {"cause": "NoWorker", "id": id, "seq": seq, "start": false})
        }
        Cause::Conflict { key } => {
            json!(in alloc; {"cause": "Conflict", "id": id, "key": key.as_str(), "seq": seq, "start": false})
        }
        Cause::TooLarge { size } => {
            json!(in alloc; {"cause": "TooLarge", "id": id, "seq": seq, "size": *size, "start": false})
        }
    }
}

/// That the run of this name was stopped, with the state that is shown of its work, where that is there.
/// Memory that is refused is the only error.
#[tactic(auto, using(crate::proofs::AnswersLemmas::stop_has_no_float))]
pub fn stop_text(alloc: Global, name: &str, state: Option<Shown>) -> Result<Vec<u8>, AllocError>
    ensures { IfOk result (λ text. text.items ≡ runs.stop_text name.now state) }
{
    let value = stop_value(alloc, name, state)?;
    line_text(alloc, &value)
}

fn stop_value(alloc: Global, name: &str, state: Option<Shown>) -> Result<Value, AllocError>
    ensures { IfOk result (λ value. view value ≡ runs.stop_json name.now state) }
{
    match state {
        Some(state) => json!(in alloc; {"state": state_name(state), "stop": name}),
        None => json!(in alloc; {"stop": name}),
    }
}

/// That the lease of the run of this name is over. Memory that is refused is the only error.
pub fn expired_text(alloc: Global, name: &str) -> Result<Vec<u8>, AllocError>
    ensures { IfOk result (λ text. text.items ≡ runs.expired_text name.now) }
{
    let value = expired_value(alloc, name)?;
    line_text(alloc, &value)
}

fn expired_value(alloc: Global, name: &str) -> Result<Value, AllocError>
    ensures { IfOk result (λ value. view value ≡ runs.expired_json name.now) }
{
    json!(in alloc; {"expired": name})
}
