//! Chains and the batches that they are, of `wm_chain`.
ghost use Rattle.std.specs.Prelude.{◌≤◌, length, IfOk};

use crate::requests::begin;
use crate::told::{Tell, id as id_told, list as list_told, named, pair};
use case_files::fields::{RowFault, both, flag, given, has_only, id, items, list, unless_refused};
use serde_json::Value;
use std::alloc::{AllocError, Global};
use uuid::Uuid;
use wm_chain::{ChainFault, Continuation, batch_of};
use wm_collections::Items;
use wm_request::{Batch, Node, Request};

/// What is read of a chain, as it stands in a row.
trait FromRow: Drop {
    fn read(alloc: Global, value: &Value) -> Result<Self, RowFault>;
}

/// What values are read as, at least one.
fn read_some<T: FromRow>(alloc: Global, values: &[Value]) -> Result<Vec<T>, RowFault>
    ensures { IfOk result (λ some. 1 ≤ length some.items) }
{
    let mut some = Vec::new(alloc);
    for value in values {
        let one = T::read(alloc, value)?;
        some.push(one)?;
    }
    if some.is_empty() {
        return Err(RowFault::Value);
    }
    Ok(some)
}

/// A request of this id, which repeats where there is a period.
fn request(alloc: Global, id: Uuid, period: Option<u64>) -> Result<Request, RowFault> {
    let class = String::from_str(alloc, "Echo")?;
    given(begin(alloc, id, class, period, None).build())
}

/// The period of a work of a batch, where it repeats.
fn period(form: &Value) -> Result<Option<u64>, RowFault> {
    if flag(form, "periodic")? {
        return Ok(Some(900_000));
    }
    Ok(None)
}

/// A work of a batch.
impl FromRow for Node {
    fn read(alloc: Global, value: &Value) -> Result<Node, RowFault> {
        let (id, period) = (id(value, "id")?, period(value)?);
        let after = list(alloc, value, "after")?;
        let (after, request) = both(after, request(alloc, id, period))?;
        Ok(Node { request, after })
    }
}

/// The batch that works are, or why they aren't one.
pub fn batch(alloc: Global, row: &Value) -> Result<Value, RowFault> {
    has_only(row, &["works"])?;
    let works = read_some(alloc, items(row, "works")?)?;
    unless_refused(batch_told(alloc, batch_of(alloc, Items::from_vec(works))))
}

/// The works of a batch, or the fault.
fn batch_told(alloc: Global, batch: Result<Batch, ChainFault>) -> Result<Value, AllocError> {
    match batch {
        Ok(batch) => list_told(alloc, batch.works().as_slice()),
        Err(fault) => fault_told(alloc, fault),
    }
}

/// The id of a work, with those that it is after.
impl Tell for Node {
    fn tell(&self, alloc: Global) -> Result<Value, AllocError> {
        let after = list_told(alloc, self.after.as_slice())?;
        pair(alloc, id_told(alloc, self.request.id())?, after)
    }
}

/// A fault by its name, with its id.
fn fault_told(alloc: Global, fault: ChainFault) -> Result<Value, AllocError> {
    match fault {
        ChainFault::IdTwice { id } => named(alloc, "IdTwice", id_told(alloc, id)),
        ChainFault::PeriodicInChain { id } => named(alloc, "PeriodicInChain", id_told(alloc, id)),
        ChainFault::Memory => Err(AllocError),
    }
}

/// A one-time request of a layer, by the number that its id is.
impl FromRow for Request {
    fn read(alloc: Global, value: &Value) -> Result<Request, RowFault> {
        let number = value.as_u64().ok_or(RowFault::Value)?;
        request(alloc, Uuid::from_u128(u128::from(number)), None)
    }
}

/// The requests of a layer, at least one.
fn layer(alloc: Global, value: &Value) -> Result<Vec<Request>, RowFault>
    ensures { IfOk result (λ layer. 1 ≤ length layer.items) }
{
    read_some(alloc, value.as_array().ok_or(RowFault::Value)?)
}

/// A chain with one layer more.
fn with_layer(alloc: Global, chain: Continuation, value: &Value) -> Result<Continuation, RowFault> {
    let (chain, layer) = both(chain, layer(alloc, value))?;
    unless_refused(chain.then(layer))
}

/// A chain with further layers.
fn with_layers(
    alloc: Global,
    chain: Continuation,
    layers: &[Value],
) -> Result<Continuation, RowFault> {
    let mut chain = chain;
    for value in layers {
        chain = with_layer(alloc, chain, value)?;
    }
    Ok(chain)
}

/// A chain is a list of layers, at least one.
impl FromRow for Continuation {
    fn read(alloc: Global, value: &Value) -> Result<Continuation, RowFault> {
        let layers = value.as_array().ok_or(RowFault::Value)?;
        let Some((first, others)) = layers.split_first() else {
            return Err(RowFault::Value);
        };
        let begun = unless_refused(Continuation::begin_with(alloc, layer(alloc, first)?))?;
        with_layers(alloc, begun, others)
    }
}

/// The batch that chains are which become one, with further layers after them.
pub fn combined(alloc: Global, row: &Value) -> Result<Value, RowFault> {
    has_only(row, &["chains", "then"])?;
    let chain = joined(alloc, items(row, "chains")?, items(row, "then")?)?;
    unless_refused(batch_told(alloc, chain.batch()))
}

/// The chain that chains become, with further layers after them.
fn joined(alloc: Global, chains: &[Value], layers: &[Value]) -> Result<Continuation, RowFault> {
    let chains = read_some(alloc, chains)?;
    let chain = unless_refused(Continuation::combine(alloc, chains))?;
    with_layers(alloc, chain, layers)
}
