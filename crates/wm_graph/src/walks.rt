//! What some nodes reach, along their edges.
ghost use Rattle.std.specs.Prelude.{◌≡◌, ◌||◌, ℕ, reverse, IfOk, OnOk};
ghost use Rattle.wm_graph.specs.Descendants.{descendants};
ghost use Rattle.wm_collections.specs.Sets.{has_number};
ghost use Rattle.wm_graph.specs.Edges.{has_edge, AreAfter, AreJoined, AreNumbered, AreParted, AreRising, BeginsAt, IsWalk, KeepsOthers};
ghost use Rattle.wm_graph.specs.Kept.{nodes_of, IsKept};

use crate::node::Node;
use std::alloc::{AllocError, Global};
use std::collections::{BTreeMap, BTreeSet};

/// The nodes right after a node, ascending.
pub fn dependents_of(
    alloc: Global,
    edges: &BTreeSet<(u64, u64)>,
    seq: u64,
) -> Result<Vec<u64>, AllocError>
    requires { AreNumbered edges.now }
    ensures { IfOk result (λ found. AreAfter edges.now seq found.items) }
{
    let mut found = Vec::new(alloc);
    for edge in edges.range((seq, 0)..=(seq, u64::MAX)) {
        found.push(edge.1)?;
    }
    Ok(found)
}

/// Adds the nodes right after a node.
fn add_dependents(
    todo: &mut BTreeSet<u64>,
    edges: &BTreeSet<(u64, u64)>,
    number: u64,
) -> Result<(), AllocError>
    requires { AreNumbered edges.now }
    ensures { OnOk result ((other : ℕ) → has_number todo.new other
        ≡ (has_number todo.old other || has_edge edges.now number other)) }
{
    for edge in edges.range((number, 0)..=(number, u64::MAX)) {
        todo.insert(edge.1)?;
    }
    Ok(())
}

/// Adds the edges from each of these numbers to another. Where memory is refused, some may have been
/// added.
pub fn add_edges(
    edges: &mut BTreeSet<(u64, u64)>,
    before: &[u64],
    seq: u64,
) -> Result<(), AllocError>
    ensures ok { OnOk result (AreJoined before.now seq edges.old edges.new) }
    ensures others { KeepsOthers before.now seq edges.old edges.new }
{
    for number in before {
        edges.insert((*number, seq))?;
    }
    Ok(())
}

/// Takes the edges from each of these numbers to another away. It takes no memory.
pub fn drop_edges(edges: &mut BTreeSet<(u64, u64)>, before: &[u64], seq: u64)
    ensures { AreParted before.now seq edges.old edges.new }
{
    for number in before {
        edges.remove(&(*number, seq));
    }
}

/// These numbers and all that they reach, ascending: the least number that is left is the next one,
/// since what comes right after it is greater.
pub fn walked(
    alloc: Global,
    edges: &BTreeSet<(u64, u64)>,
    starts: BTreeSet<u64>,
) -> Result<Vec<u64>, AllocError>
    requires numbered { AreNumbered edges.now }
    requires rising { AreRising edges.now }
    ensures { IfOk result (λ found. IsWalk edges.entry.now starts found.items) }
{
    let mut todo = starts;
    let mut found = Vec::new(alloc);
    while let Some(number) = todo.pop_first() {
        add_dependents(&mut todo, edges, number)?;
        found.push(number)?;
    }
    Ok(found)
}

/// Those of these numbers that are nodes.
pub fn starts_of(
    alloc: Global,
    nodes: &BTreeMap<u64, Node>,
    seqs: &[u64],
) -> Result<BTreeSet<u64>, AllocError>
    ensures { IfOk result (λ starts. BeginsAt (nodes_of nodes.now.entries) seqs.now starts) }
{
    let mut starts = BTreeSet::new(alloc);
    for seq in seqs {
        if nodes.contains_key(seq) {
            starts.insert(*seq)?;
        }
    }
    Ok(starts)
}

/// The numbers of the nodes that are these or that one of these reaches, ascending.
pub fn reached(
    alloc: Global,
    nodes: &BTreeMap<u64, Node>,
    edges: &BTreeSet<(u64, u64)>,
    seqs: &[u64],
) -> Result<Vec<u64>, AllocError>
    requires { IsKept nodes.now.entries edges.now }
    ensures { IfOk result (λ found. found.items
        ≡ reverse (descendants seqs.now (reverse (nodes_of nodes.now.entries)))) }
{
    let starts = starts_of(alloc, nodes, seqs)?;
    walked(alloc, edges, starts)
}
