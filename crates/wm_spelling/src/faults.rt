//! What is wrong with a line, as it is spelled in the place of a command, and as it is read there.
ghost use Rattle.std.specs.Prelude.{◌≡◌, codes, option_map, IfOk};
ghost use Rattle.serde_json.specs.Data as json;
ghost use Rattle.serde_json.specs.View.{view};
ghost use Rattle.wm_machine.specs.declared.command.LineFault.TheVariants.{BadData};
ghost use Rattle.wm_script.specs.Values.{id_in};
ghost use Rattle.wm_spelling.specs.Faults.{fault_json, fault_of, fault_under, id_of, key_of, named_fault, size_of};
ghost use Rattle.wm_spelling.specs.Works.{id_json};

use crate::spell::id_value;
use serde_json::{Value, json};
use std::alloc::{AllocError, Global};
use uuid::Uuid;
use wm_collections::Text;
use wm_machine::LineFault;

/// The fault by its name, with its field under the field's name.
pub(crate) fn fault_value(alloc: Global, fault: &LineFault) -> Result<Value, AllocError>
    ensures { IfOk result (λ value. view value ≡ fault_json fault.now) }
{
    match fault {
        LineFault::Bad => json!(in alloc; {"faulty": "Bad"}),
        LineFault::EmptyKey => json!(in alloc; {"faulty": "EmptyKey"}),
        LineFault::BadData { key } => {
            json!(in alloc; {"faulty": "BadData", "key": key.as_str()})
        }
        LineFault::TooLarge { size } => json!(in alloc; {"faulty": "TooLarge", "size": *size}),
        LineFault::NoClass => json!(in alloc; {"faulty": "NoClass"}),
        LineFault::TooManyTags => json!(in alloc; {"faulty": "TooManyTags"}),
        LineFault::DelayTooLong => json!(in alloc; {"faulty": "DelayTooLong"}),
        LineFault::IdTwice { id } => id_fault_value(alloc, "IdTwice", id),
        LineFault::PeriodicInChain { id } => id_fault_value(alloc, "PeriodicInChain", id),
    }
}

/// The fault of this name that shows an id.
fn id_fault_value(alloc: Global, name: &str, id: &Uuid) -> Result<Value, AllocError>
    ensures { IfOk result (λ value. view value ≡ named_fault name.now
        (json.member (codes "id") (id_json id.now) json.no_members)) }
{
    let id = id_value(alloc, id)?;
    json!(in alloc; {"faulty": name, "id": id})
}

/// The fault that a value is.
#[tactic(auto, unfolding(crate::specs::Faults::fault_of))]
pub(crate) fn fault_of(alloc: Global, value: &Value) -> Result<Option<LineFault>, AllocError>
    ensures { IfOk result (λ fault. fault ≡ fault_of (view value.now)) }
{
    match value.get("faulty").and_then(Value::as_str) {
        Some(name) => fault_under(alloc, name, value),
        None => Ok(None),
    }
}

/// The fault of this name that a value is.
fn fault_under(alloc: Global, name: &str, value: &Value) -> Result<Option<LineFault>, AllocError>
    ensures { IfOk result (λ fault. fault ≡ fault_under name.now (view value.now)) }
{
    match name {
        "Bad" => Ok(Some(LineFault::Bad)),
        "EmptyKey" => Ok(Some(LineFault::EmptyKey)),
        "BadData" => bad_data_of(alloc, value),
        "TooLarge" => Ok(size_of(value).map(|size| LineFault::TooLarge { size })),
        "NoClass" => Ok(Some(LineFault::NoClass)),
        "TooManyTags" => Ok(Some(LineFault::TooManyTags)),
        "DelayTooLong" => Ok(Some(LineFault::DelayTooLong)),
        "IdTwice" => Ok(id_of(value).map(|id| LineFault::IdTwice { id })),
        "PeriodicInChain" => Ok(id_of(value).map(|id| LineFault::PeriodicInChain { id })),
        _ => Ok(None),
    }
}

/// The fault of a key, where there is one.
fn bad_data_of(alloc: Global, value: &Value) -> Result<Option<LineFault>, AllocError>
    ensures { IfOk result (λ fault. fault ≡ option_map BadData (key_of (view value.now))) }
{
    match key_of(value) {
        Some(key) => Ok(Some(LineFault::BadData {
            key: Text::from_str(alloc, key)?,
        })),
        None => Ok(None),
    }
}

/// The text under the key of a fault's key.
#[tactic(auto, unfolding(crate::specs::Faults::key_of))]
fn key_of(value: &Value) -> Option<&str>
    ensures { option_map (λ key. key.now) result ≡ key_of (view value.now) }
{
    value.get("key").and_then(Value::as_str)
}

/// The number under the key of a fault's size.
#[tactic(auto, unfolding(crate::specs::Faults::size_of))]
fn size_of(value: &Value) -> Option<u64>
    ensures { result ≡ size_of (view value.now) }
{
    value.get("size").and_then(Value::as_u64)
}

/// The id under the key of a fault's id.
#[tactic(auto, unfolding(crate::specs::Faults::id_of))]
fn id_of(value: &Value) -> Option<Uuid>
    ensures { result ≡ id_of (view value.now) }
{
    id_in(value.get("id")?)
}

/// An id, in any of `uuid`'s forms.
#[tactic(auto, unfolding(wm_script::specs::Values::id_in))]
fn id_in(value: &Value) -> Option<Uuid>
    ensures { result ≡ id_in (view value.now) }
{
    Uuid::try_parse(value.as_str()?).ok()
}
