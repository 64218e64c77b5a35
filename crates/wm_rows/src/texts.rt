//! How the texts of a row are read. Each answers none where its text isn't in the grammar.
ghost use Rattle.std.specs.List.{list_all};
ghost use Rattle.std.specs.Prelude.{◌≡◌, IfOk, option_map};
ghost use Rattle.std.specs.Result.{result_ok};
ghost use Rattle.serde_json.specs.View.{view};
ghost use Rattle.serde_json.specs.Read.{read};
ghost use Rattle.wm_data.specs.DataRead.{read_data};
ghost use Rattle.wm_request.specs.Building.{is_short};
ghost use Rattle.wm_rows.specs.Fields.{are_tags, ascend, data_in, id_in, name_in, output_in};

use crate::fields::has_given;
use serde_json::Value;
use std::alloc::{AllocError, Global};
use uuid::Uuid;
use wm_collections::{Replica, Text};
use wm_data::{Data, DataFault};
use wm_machine::Phase;
use wm_request::{MAX_TAGS, MAX_TEXT_BYTES};

/// The sixteen bytes of an id.
pub(crate) fn id_in(bytes: &[u8]) -> Option<Uuid>
    ensures { result ≡ id_in bytes.now }
{
    Uuid::from_slice(bytes).ok()
}

/// Whether a text has 1 to 200 bytes.
pub(crate) fn is_short(text: &Text) -> bool
    ensures { result ≡ is_short text.now }
{
    !text.is_empty() && text.len() <= MAX_TEXT_BYTES
}

/// A unique name of 1 to 200 bytes, where there is one.
pub(crate) fn name_in(
    alloc: Global,
    name: &Option<Text>,
) -> Result<Option<Option<Text>>, AllocError>
    ensures { IfOk result (λ read. read ≡ name_in name.now) }
{
    match name {
        Some(name) => {
            if is_short(name) {
                Ok(Some(Some(name.replica(alloc)?)))
            } else {
                Ok(None)
            }
        }
        None => Ok(Some(None)),
    }
}

/// Whether these are at most 32 texts of 1 to 200 bytes, each of which comes before the next.
pub(crate) fn are_tags(tags: &[Text]) -> bool
    ensures { result ≡ are_tags tags.now }
{
    tags.len() <= MAX_TAGS && all_short(tags) && ascend(tags)
}

/// Whether each of these has 1 to 200 bytes.
fn all_short(tags: &[Text]) -> bool
    ensures { result ≡ list_all is_short tags.now }
{
    tags.iter().all(is_short)
}

/// Whether each of these comes before the next by its bytes.
fn ascend(tags: &[Text]) -> bool
    ensures { result ≡ ascend tags.now }
{
    for index in 1..tags.len() {
        if tags[index - 1].as_str() >= tags[index].as_str() {
            return false;
        }
    }
    true
}

/// The Data of a canonical text.
#[tactic(auto, unfolding(crate::specs::Fields::data_in))]
pub(crate) fn data_in(alloc: Global, text: &Text) -> Result<Option<Data>, AllocError>
    ensures { IfOk result (λ read. read ≡ data_in text.now) }
{
    let Some(json) = json_in(alloc, text.as_str())? else {
        return Ok(None);
    };
    let Some(data) = data_of(alloc, &json)? else {
        return Ok(None);
    };
    if data.to_text(alloc)? == *text {
        Ok(Some(data))
    } else {
        Ok(None)
    }
}

/// What JSON a text is.
fn json_in(alloc: Global, text: &str) -> Result<Option<Value>, AllocError>
    ensures { IfOk result (λ json. option_map view json ≡ read text.now) }
{
    match Value::from_str(alloc, text) {
        Ok(json) => Ok(Some(json)),
        Err(error) => if error.is_memory() {
            Err(AllocError)
        } else {
            Ok(None)
        },
    }
}

/// The Data that JSON is.
fn data_of(alloc: Global, json: &Value) -> Result<Option<Data>, AllocError>
    ensures { IfOk result (λ read. read ≡ result_ok (read_data (view json.now))) }
{
    match Data::from_json(alloc, json) {
        Ok(data) => Ok(Some(data)),
        Err(DataFault::Memory) => Err(AllocError),
        Err(_) => Ok(None),
    }
}

/// An output; it is empty where work in this phase hasn't given anything.
#[tactic(auto, unfolding(crate::specs::Fields::output_in))]
pub(crate) fn output_in(
    alloc: Global,
    phase: Phase,
    text: &Text,
) -> Result<Option<Data>, AllocError>
    ensures { IfOk result (λ read. read ≡ output_in phase text.now) }
{
    let Some(output) = data_in(alloc, text)? else {
        return Ok(None);
    };
    if has_given(phase) || output.is_empty() {
        Ok(Some(output))
    } else {
        Ok(None)
    }
}
