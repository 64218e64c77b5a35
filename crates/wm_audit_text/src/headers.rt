//! The first line of an audit and the one before its text, written and read.
ghost use Rattle.std.specs.Prelude.{◌≡◌, ◌≤◌, length, IfOk};
ghost use Rattle.serde_json.specs.View.{items_view, view};
ghost use Rattle.wm_audit_text.specs.Headers as headers;
ghost use Rattle.wm_audit_text.specs.Lines.{header_in};
ghost use Rattle.wm_data.specs.DataJson.{list_of};
ghost use Rattle.wm_data.specs.DataRead.{item_list};

use crate::fields::{items_at, number_at, own_text_at, text_at};
use serde_json::{Value, json, push};
use std::alloc::{AllocError, Global};
use wm_collections::Items;
use wm_machine::Instance;
use wm_worker::Kind;

/// The most hands of a run.
const MAX_HANDS: usize = 10_000;

/// What the first line of an audit says: the hands, as instances that are numbered from 0 and are
/// neither out nor retired, and how many rows follow.
#[derive(Debug, Drop)]
pub struct Header {
    pub hands: Items<Instance>,
    pub rows: u64,
}

/// The hands and the number of rows, as JSON.
pub(crate) fn header_value(
    alloc: Global,
    hands: &[Instance],
    rows: u64,
) -> Result<Value, AllocError>
    ensures { IfOk result (λ value. view value ≡ headers.header_json hands.now rows) }
{
    let hands = hands_value(alloc, hands)?;
    json!(in alloc; {"hands": hands, "rows": rows})
}

/// A list of hands.
fn hands_value(alloc: Global, hands: &[Instance]) -> Result<Value, AllocError>
    ensures { IfOk result (λ value. view value ≡ list_of headers.hand_json hands.now) }
{
    let mut values = Vec::new(alloc);
    for hand in hands {
        push(&mut values, hand_value(alloc, hand)?)?;
    }
    Ok(Value::Array(values))
}

/// A hand: its class and its kind.
fn hand_value(alloc: Global, hand: &Instance) -> Result<Value, AllocError>
    ensures { IfOk result (λ value. view value ≡ headers.hand_json hand.now) }
{
    json!(in alloc; {"class": hand.class.as_str(), "kind": kind_name(hand.kind)})
}

/// The name of a kind.
fn kind_name(kind: Kind) -> &'static str
    ensures { result.now ≡ headers.kind_name kind }
{
    match kind {
        Kind::Echo => "Echo",
        Kind::Sum => "Sum",
        Kind::FailUntil => "FailUntil",
        Kind::RetryUntil => "RetryUntil",
        Kind::Count => "Count",
        Kind::Wait => "Wait",
        Kind::Custom => "Custom",
    }
}

/// The number of bytes of the text, as JSON.
pub(crate) fn end_value(alloc: Global, size: u64) -> Result<Value, AllocError>
    ensures { IfOk result (λ value. view value ≡ headers.end_json size) }
{
    json!(in alloc; {"text": size})
}

/// What a value says as the first line.
pub(crate) fn header_in(alloc: Global, value: &Value) -> Result<Option<Header>, AllocError>
    ensures { IfOk result (λ header. header ≡ header_in (view value.now)) }
{
    match hands_in(alloc, value)? {
        Some(hands) => Ok(Some(Header {
            hands,
            rows: number_at(value, "rows"),
        })),
        None => Ok(None),
    }
}

/// The hands, where they are at most 10,000.
#[tactic(auto, unfolding(crate::specs::Headers::hands_in), using(wm_script::proofs::PartsLemmas::count_items))]
fn hands_in(alloc: Global, value: &Value) -> Result<Option<Items<Instance>>, AllocError>
    ensures { IfOk result (λ hands. hands ≡ headers.hands_in (view value.now)) }
{
    let items = items_at(value, "hands");
    if items.len() <= MAX_HANDS {
        Ok(Some(hands_of(alloc, items)?))
    } else {
        Ok(None)
    }
}

/// The hands that items are, numbered from 0.
fn hands_of(alloc: Global, items: &[Value]) -> Result<Items<Instance>, AllocError>
    requires { length items.now ≤ 10000 }
    ensures { IfOk result (λ hands. hands ≡ headers.hands_from 0 (item_list (items_view items.now))) }
{
    let mut hands = Items::new(alloc);
    let mut number = 0;
    for item in items {
        hands.push(hand_in(alloc, number, item)?)?;
        number += 1;
    }
    Ok(hands)
}

/// The hand of this number, as a run is given it.
fn hand_in(alloc: Global, number: u32, value: &Value) -> Result<Instance, AllocError>
    ensures { IfOk result (λ hand. hand ≡ headers.hand_in number (view value.now)) }
{
    Ok(Instance {
        number,
        class: own_text_at(alloc, value, "class")?,
        kind: kind_in(value),
        out: false,
        retired: false,
    })
}

/// The kind of a hand.
fn kind_in(value: &Value) -> Kind
    ensures { result ≡ headers.kind_in (view value.now) }
{
    match text_at(value, "kind") {
        "Echo" => Kind::Echo,
        "Sum" => Kind::Sum,
        "FailUntil" => Kind::FailUntil,
        "RetryUntil" => Kind::RetryUntil,
        "Count" => Kind::Count,
        "Wait" => Kind::Wait,
        _ => Kind::Custom,
    }
}

/// The number of bytes of the text.
#[tactic(auto, unfolding(crate::specs::Headers::end_in))]
pub(crate) fn end_in(value: &Value) -> u64
    ensures { result ≡ headers.end_in (view value.now) }
{
    number_at(value, "text")
}
