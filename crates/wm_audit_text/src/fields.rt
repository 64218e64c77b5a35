//! What stands under a key of a line. What isn't there, or is something else, is read as nothing.
ghost use Rattle.std.specs.Prelude.{◌≡◌, length, option_map, IfOk};
ghost use Rattle.serde_json.specs.View.{items_view, view};
ghost use Rattle.wm_audit_text.specs.Fields as fields;
ghost use Rattle.wm_data.specs.DataRead.{item_list};
ghost use Rattle.wm_script.specs.Values.{id_in};

use serde_json::Value;
use std::alloc::{AllocError, Global};
use uuid::Uuid;
use wm_collections::{Items, Text};
use wm_data::{Data, DataFault};

/// A number without a sign.
#[tactic(auto, unfolding(crate::specs::Fields::number_at))]
pub(crate) fn number_at(value: &Value, key: &str) -> u64
    ensures { result ≡ fields.number_at key.now (view value.now) }
{
    value.get(key).and_then(Value::as_u64).unwrap_or(0)
}

/// A number without a sign that fits 32 bits.
#[tactic(auto, unfolding(crate::specs::Fields::small_at))]
pub(crate) fn small_at(value: &Value, key: &str) -> u32
    ensures { result ≡ fields.small_at key.now (view value.now) }
{
    u32::try_from(number_at(value, key)).unwrap_or(0)
}

/// A whole number.
#[tactic(auto, unfolding(crate::specs::Fields::whole_at))]
pub(crate) fn whole_at(value: &Value, key: &str) -> i64
    ensures { result ≡ fields.whole_at key.now (view value.now) }
{
    value.get(key).and_then(Value::as_i64).unwrap_or(0)
}

/// A text, where there is one.
#[tactic(auto, unfolding(crate::specs::Fields::text_in))]
pub(crate) fn text_in<'v>(value: &'v Value, key: &str) -> Option<&'v str>
    ensures { option_map (λ text. text.now) result ≡ fields.text_in key.now (view value.now) }
{
    value.get(key).and_then(Value::as_str)
}

/// A text; an empty one where there is none.
#[tactic(auto, unfolding(crate::specs::Fields::text_at))]
pub(crate) fn text_at<'v>(value: &'v Value, key: &str) -> &'v str
    ensures { result.now ≡ fields.text_at key.now (view value.now) }
{
    match text_in(value, key) {
        Some(text) => text,
        None => "",
    }
}

/// A text of its own.
pub(crate) fn own_text_at(alloc: Global, value: &Value, key: &str) -> Result<Text, AllocError>
    ensures { IfOk result (λ text. text ≡ fields.text_at key.now (view value.now)) }
{
    Text::from_str(alloc, text_at(value, key))
}

/// The sixteen bytes of an id; all are zero where there is none.
pub(crate) fn id_at(alloc: Global, value: &Value, key: &str) -> Result<Items<u8>, AllocError>
    ensures id { IfOk result (λ id. id ≡ fields.id_at key.now (view value.now)) }
    ensures sixteen { IfOk result (λ id. length id ≡ 16) }
{
    bytes_of(alloc, &uuid_at(value, key))
}

/// An id; one whose bytes are all zero where there is none.
#[tactic(auto, unfolding(crate::specs::Fields::id_at))]
fn uuid_at(value: &Value, key: &str) -> Uuid
    ensures { result ≡ fields.id_at key.now (view value.now) }
{
    value.get(key).and_then(id_in).unwrap_or(Uuid::nil())
}

/// An id, in any of `uuid`'s forms.
#[tactic(auto, unfolding(wm_script::specs::Values::id_in))]
fn id_in(value: &Value) -> Option<Uuid>
    ensures { result ≡ id_in (view value.now) }
{
    Uuid::try_parse(value.as_str()?).ok()
}

/// The sixteen bytes of an id.
fn bytes_of(alloc: Global, id: &Uuid) -> Result<Items<u8>, AllocError>
    ensures bytes { IfOk result (λ bytes. bytes ≡ id.now) }
    ensures sixteen { IfOk result (λ bytes. length bytes ≡ 16) }
{
    let mut bytes = Vec::with_capacity(alloc, 16)?;
    bytes.extend_from_slice(id.as_bytes())?;
    Ok(Items::from_vec(bytes))
}

/// Data; none of it where there is none.
#[tactic(auto, unfolding(crate::specs::Fields::data_at))]
pub(crate) fn data_at(alloc: Global, value: &Value, key: &str) -> Result<Data, AllocError>
    ensures { IfOk result (λ read. read ≡ fields.data_at key.now (view value.now)) }
{
    match value.get(key) {
        Some(json) => data_of(alloc, json),
        None => Ok(Data::empty()),
    }
}

/// The Data that a value is; none of it where it is none.
pub(crate) fn data_of(alloc: Global, json: &Value) -> Result<Data, AllocError>
    ensures { IfOk result (λ read. read ≡ fields.data_of (view json.now)) }
{
    match Data::from_json(alloc, json) {
        Ok(data) => Ok(data),
        Err(DataFault::Memory) => Err(AllocError),
        Err(_) => Ok(Data::empty()),
    }
}

/// The items of a list; none where there is no list.
#[tactic(auto, unfolding(crate::specs::Fields::items_at))]
pub(crate) fn items_at<'v>(value: &'v Value, key: &str) -> &'v [Value]
    ensures { item_list (items_view result.now) ≡ fields.items_at key.now (view value.now) }
{
    match value.get(key).and_then(Value::as_array) {
        Some(items) => items.as_slice(),
        None => &[],
    }
}

/// The items of a list that are whole numbers.
#[tactic(auto, unfolding(crate::specs::Fields::wholes_at))]
pub(crate) fn wholes_at(alloc: Global, value: &Value, key: &str) -> Result<Items<i64>, AllocError>
    ensures { IfOk result (λ wholes. wholes ≡ fields.wholes_at key.now (view value.now)) }
{
    let mut wholes = Items::new(alloc);
    for item in items_at(value, key) {
        if let Some(whole) = item.as_i64() {
            wholes.push(whole)?;
        }
    }
    Ok(wholes)
}

/// The items of a list that are texts.
#[tactic(auto, unfolding(crate::specs::Fields::texts_at))]
pub(crate) fn texts_at(alloc: Global, value: &Value, key: &str) -> Result<Items<Text>, AllocError>
    ensures { IfOk result (λ texts. texts ≡ fields.texts_at key.now (view value.now)) }
{
    let mut texts = Items::new(alloc);
    for item in items_at(value, key) {
        if let Some(text) = item.as_str() {
            texts.push(Text::from_str(alloc, text)?)?;
        }
    }
    Ok(texts)
}
