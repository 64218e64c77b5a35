//! The batch that the works of an enqueue are.
ghost use Rattle.std.specs.Prelude.{◌≡◌, ◌≤◌, length, nat_le, option_map, IfErr, IfOk, None, Ok, Some};
ghost use Rattle.std.specs.List.{AllByRecursion};
ghost use Rattle.serde_json.specs.View.{items_view, view};
ghost use Rattle.wm_chain.specs.Layers.{chained, no_layer};
ghost use Rattle.wm_data.specs.DataRead.{item_list};
ghost use Rattle.wm_script.specs.Batches.{are_few, batch_in, count_in, layers_in, total, works_in};
ghost use Rattle.wm_script.specs.Parts.{IsFaultOf};

use crate::parts::{Part, Unread, some_in};
use serde_json::Value;
use std::alloc::{AllocError, Global};
use wm_chain::{Continuation, batch_of};
use wm_collections::Items;
use wm_request::{Batch, Node, Request};

/// The most works of an enqueue.
const MAX_WORKS: usize = 1_000;

/// A layer: a list of 1 to 1,000 works without the key `after`.
impl Part for Items<Request> {
    ghost use Rattle.wm_script.specs.Batches.{layer_in};

    ghost reading = { layer_in };

    #[tactic(auto, unfolding(crate::specs::Batches::layer_in))]
    fn read(alloc: Global, value: &Value) -> Result<Items<Request>, Unread> {
        some_in(alloc, value)
    }
}

/// The batch of works, each after those that it names, or of layers, each after the one before;
/// exactly one of the two stands there. Else its first fault: that of its works, and then that of
/// the batch.
#[tactic(auto, unfolding(crate::specs::Batches::batch_in))]
pub fn batch_in(
    alloc: Global,
    works: Option<&Value>,
    layers: Option<&Value>,
) -> Result<Batch, Unread>
    ensures ok { IfOk result (λ batch. batch_in (option_map (λ found. view found.now) works.entry)
        (option_map (λ found. view found.now) layers.entry) ≡ Ok batch) }
    ensures err { IfErr result (IsFaultOf (batch_in (option_map (λ found. view found.now) works.entry)
        (option_map (λ found. view found.now) layers.entry))) }
{
    match (works, layers) {
        (Some(works), None) => batch_of_works(alloc, works),
        (None, Some(layers)) => batch_of_layers(alloc, layers),
        _ => Err(Unread::Form),
    }
}

/// The batch of works, each after those that it names.
#[tactic(auto, unfolding(crate::specs::Batches::batch_in))]
fn batch_of_works(alloc: Global, works: &Value) -> Result<Batch, Unread>
    ensures ok { IfOk result (λ batch. batch_in (Some (view works.now)) None ≡ Ok batch) }
    ensures err { IfErr result (IsFaultOf (batch_in (Some (view works.now)) None)) }
{
    let nodes = works_in(alloc, works)?;
    Ok(batch_of(alloc, nodes)?)
}

/// The batch of layers, each after the one before.
#[tactic(auto, unfolding(crate::specs::Batches::batch_in), using(crate::proofs::BatchesLemmas::fault_of_layers))]
fn batch_of_layers(alloc: Global, layers: &Value) -> Result<Batch, Unread>
    ensures ok { IfOk result (λ batch. batch_in None (Some (view layers.now)) ≡ Ok batch) }
    ensures err { IfErr result (IsFaultOf (batch_in None (Some (view layers.now)))) }
{
    let layers = layers_in(alloc, layers)?;
    let chain = chain_of(alloc, layers)?;
    Ok(chain.batch()?)
}

/// A list of 1 to 1,000 works.
#[tactic(auto, unfolding(crate::specs::Batches::works_in))]
fn works_in(alloc: Global, value: &Value) -> Result<Items<Node>, Unread>
    ensures ok { IfOk result (λ nodes. works_in (view value.now) ≡ Ok nodes) }
    ensures err { IfErr result (IsFaultOf (works_in (view value.now))) }
    ensures some { IfOk result (λ nodes. 1 ≤ length nodes) }
{
    some_in(alloc, value)
}

/// A list of 1 to 1,000 layers, of at most 1,000 works together.
#[tactic(auto, unfolding(crate::specs::Batches::layers_in))]
fn layers_in(alloc: Global, value: &Value) -> Result<Items<Items<Request>>, Unread>
    ensures ok { IfOk result (λ layers. layers_in (view value.now) ≡ Ok layers) }
    ensures err { IfErr result (IsFaultOf (layers_in (view value.now))) }
    ensures some { IfOk result (λ layers. 1 ≤ length layers) }
    ensures full { IfOk result (λ layers. AllByRecursion (λ layer. 1 ≤ length layer) layers) }
{
    if are_few(value) {
        some_in(alloc, value)
    } else {
        Err(Unread::Form)
    }
}

/// Whether the lists of a list have at most 1,000 items together.
#[tactic(auto, unfolding(crate::specs::Batches::are_few))]
fn are_few(value: &Value) -> bool
    ensures { result ≡ are_few (view value.now) }
{
    match value.as_array() {
        Some(items) => have_room(items.as_slice()),
        None => true,
    }
}

/// Whether lists have at most 1,000 items together.
fn have_room(items: &[Value]) -> bool
    ensures { result ≡ nat_le (total (item_list (items_view items.now))) 1000 }
{
    let mut room = MAX_WORKS;
    for item in items {
        let count = count_in(item);
        if count > room {
            return false;
        }
        room -= count;
    }
    true
}

/// How many items a list has; none where it is no list.
#[tactic(auto, using(crate::proofs::PartsLemmas::count_items))]
fn count_in(value: &Value) -> usize
    ensures { result ≡ count_in (view value.now) }
{
    match value.as_array() {
        Some(items) => items.len(),
        None => 0,
    }
}

/// The chain of layers, each after the one before.
fn chain_of(alloc: Global, layers: Items<Items<Request>>) -> Result<Continuation, AllocError>
    requires some { 1 ≤ length layers }
    requires full { AllByRecursion (λ layer. 1 ≤ length layer) layers }
    ensures { IfOk result (λ chain. chain ≡ chained no_layer layers) }
{
    let mut layers = layers.into_vec();
    let first = layers.remove(0);
    let mut chain = Continuation::begin_with(alloc, first.into_vec())?;
    for layer in layers {
        chain = chain.then(layer.into_vec())?;
    }
    Ok(chain)
}
