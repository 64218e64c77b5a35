//! The graph of the records that a store opens to.
ghost use Rattle.std.specs.List.{AllByRecursion};
ghost use Rattle.std.specs.Prelude.{◌≡◌, filter, IfOk};
ghost use Rattle.wm_collections.specs.Lists.{AllLater};
ghost use Rattle.wm_machine.specs.Valid.{IsBefore, IsRecord};
ghost use Rattle.wm_changes.specs.Nodes.{is_there, nodes_of};

use std::alloc::{AllocError, Global};
use wm_graph::Graph;
use wm_machine::{Record, work_numbered};

/// The graph of these records.
pub(crate) fn graph_of(alloc: Global, works: &[Record]) -> Result<Graph, AllocError>
    requires in_order { AllLater IsBefore works.now }
    requires records { AllByRecursion IsRecord works.now }
    ensures { IfOk result (λ graph. graph ≡ nodes_of works.now) }
{
    let mut graph = Graph::new(alloc);
    for work in works {
        let before = those_there(alloc, works, work.prior.as_slice())?;
        graph.add(work.seq, before.as_slice(), work.phase.is_succeeded())?;
    }
    Ok(graph)
}

/// Those of these numbers whose records are there.
fn those_there(alloc: Global, works: &[Record], numbers: &[u64]) -> Result<Vec<u64>, AllocError>
    requires { AllLater IsBefore works.now }
    ensures { IfOk result (λ there. there.items ≡ filter (is_there works.now) numbers.now) }
{
    let mut there = Vec::new(alloc);
    for number in numbers {
        if is_there(works, *number) {
            there.push(*number)?;
        }
    }
    Ok(there)
}

/// Whether the record of this number is there.
fn is_there(works: &[Record], number: u64) -> bool
    requires { AllLater IsBefore works.now }
    ensures { result ≡ is_there works.now number }
{
    work_numbered(works, number).is_some()
}
