//! A chain of works that is put together layer by layer.
ghost use Rattle.std.specs.Prelude.{◌≡◌, ◌≤◌, ◌++◌, length, map, Ok, IfOk, IfErr, OnOk};
ghost use Rattle.wm_chain.specs.Layers.{combined, layered, node_after, no_layer, request_ids};
ghost use Rattle.wm_chain.specs.Walk.{batched, IsFaultOf};

use crate::batching::batch_of;
use crate::fault::ChainFault;
use std::alloc::{AllocError, Global};
use std::marker::Model;
use uuid::Uuid;
use wm_collections::Items;
use wm_request::{Batch, Node, Request};

/// A chain of works that is being put together, after `androidx.work.WorkContinuation`: its works,
/// at least one, and the ids of its last layer. A contract sees it as the record of these.
#[derive(Debug, Drop)]
pub struct Continuation {
    works: Vec<Node>,
    last: Vec<Uuid>,
    alloc: Global,
}

impl Model for Continuation {
    ghost use Rattle.std.specs.Prelude.{◌≤◌, length};
    ghost use Rattle.wm_chain.specs.Layers.{ContinuationFields};

    ghost Value = { ContinuationFields };

    ghost view = { λ c. record { works = c.works.items; last = c.last.items } };

    ghost invariant = { λ c. 1 ≤ length c.works.items };
}

impl Continuation {
    /// The chain of one layer, whose works are after nothing. Memory that is refused is the only
    /// error.
    pub fn begin_with(alloc: Global, layer: Vec<Request>) -> Result<Continuation, AllocError>
        requires { 1 ≤ length layer.items }
        ensures { IfOk result (λ chain. chain ≡ layered no_layer layer.items) }
    {
        let last = request_ids(alloc, layer.as_slice())?;
        let works = nodes_after(alloc, layer, &[])?;
        Ok(Continuation { works, last, alloc })
    }

    /// The chain with one layer more: each of its works is after every work of the layer before, in
    /// the order of that layer. Memory that is refused is the only error.
    pub fn then(mut self, layer: Vec<Request>) -> Result<Continuation, AllocError>
        requires { 1 ≤ length layer.items }
        ensures { IfOk result (λ chain. chain ≡ layered self layer.items) }
    {
        let last = request_ids(self.alloc, layer.as_slice())?;
        let mut nodes = nodes_after(self.alloc, layer, self.last.as_slice())?;
        self.works.append(&mut nodes)?;
        self.last = last;
        Ok(self)
    }

    /// Chains, at least one, as one: its works are those of the chains in order, and its last layer
    /// is their last layers in order. Memory that is refused is the only error.
    pub fn combine(alloc: Global, parts: Vec<Continuation>) -> Result<Continuation, AllocError>
        requires { 1 ≤ length parts.items }
        ensures { IfOk result (λ chain. chain ≡ combined parts.items) }
    {
        let mut works = Vec::new(alloc);
        let mut last = Vec::new(alloc);
        for part in parts {
            part.move_into(&mut works, &mut last)?;
        }
        Ok(Continuation { works, last, alloc })
    }

    /// Puts its works and the ids of its last layer at the end of these.
    fn move_into(mut self, works: &mut Vec<Node>, last: &mut Vec<Uuid>) -> Result<(), AllocError>
        ensures works { OnOk result (works.new.items ≡ works.old.items ++ self.works) }
        ensures last { OnOk result (last.new.items ≡ last.old.items ++ self.last) }
        ensures not_empty { 1 ≤ length self.works }
    {
        works.append(&mut self.works)?;
        last.append(&mut self.last)?;
        Ok(())
    }

    /// The batch of its works, or why they aren't one, as [`batch_of`] says.
    pub fn batch(self) -> Result<Batch, ChainFault>
        ensures ok { IfOk result (λ batch. batched self.works ≡ Ok batch) }
        ensures err { IfErr result (IsFaultOf (batched self.works)) }
    {
        batch_of(self.alloc, Items::from_vec(self.works))
    }
}

/// The ids of requests.
fn request_ids(alloc: Global, layer: &[Request]) -> Result<Vec<Uuid>, AllocError>
    ensures { IfOk result (λ ids. ids.items ≡ request_ids layer.now) }
{
    let mut ids = Vec::new(alloc);
    for request in layer {
        ids.push(request.id())?;
    }
    Ok(ids)
}

/// A work of each request, after these ids.
fn nodes_after(alloc: Global, layer: Vec<Request>, after: &[Uuid]) -> Result<Vec<Node>, AllocError>
    ensures { IfOk result (λ nodes. nodes.items ≡ map (node_after after.now) layer.items) }
{
    let mut nodes = Vec::new(alloc);
    for request in layer {
        let after = Items::from_vec(Vec::from_slice(alloc, after)?);
        nodes.push(Node { request, after })?;
    }
    Ok(nodes)
}
