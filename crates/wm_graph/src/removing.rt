//! How a node is taken away, with its edges.
ghost use Rattle.std.specs.Prelude.{◌≡◌, ◌<◌, length, take, true, MatchOption};
ghost use Rattle.wm_graph.specs.Edges.{has_edge, AreNumbered, IsCutFrom, NoneAfter};
ghost use Rattle.wm_graph.specs.Kept.{forgotten_after, nodes_of, IsKept, LosesLast};
ghost use Rattle.wm_graph.specs.Nodes.{HasNode, without};

use crate::node::{Node, forget, is_met};
use crate::walks::drop_edges;
use std::collections::{BTreeMap, BTreeSet};

/// The least of the nodes right after a node.
fn first_after(edges: &BTreeSet<(u64, u64)>, seq: u64) -> Option<u64>
    requires { AreNumbered edges.now }
    ensures { MatchOption result (NoneAfter edges.now seq)
        (λ number. has_edge edges.now seq number ≡ true) }
{
    match edges.range((seq, 0)..=(seq, u64::MAX)).next() {
        Some(edge) => Some(edge.1),
        None => None,
    }
}

/// Takes away the edges from a node, which was marked or wasn't, and the node from the
/// prerequisites of each that comes right after it.
fn forget_each(
    nodes: &mut BTreeMap<u64, Node>,
    edges: &mut BTreeSet<(u64, u64)>,
    seq: u64,
    was_done: bool,
)
    requires { AreNumbered edges.old }
    ensures nodes { nodes.new.entries ≡ forgotten_after edges.old seq was_done nodes.old.entries }
    ensures edges { IsCutFrom seq edges.old edges.new }
{
    while let Some(number) = first_after(edges, seq) {
        edges.remove(&(seq, number));
        forget(nodes, number, seq, was_done);
    }
}

/// Takes a node away, and its place among the prerequisites of others. It takes no memory.
pub fn remove_node(nodes: &mut BTreeMap<u64, Node>, edges: &mut BTreeSet<(u64, u64)>, seq: u64)
    requires kept { IsKept nodes.old.entries edges.old }
    requires there { HasNode (nodes_of nodes.old.entries) seq }
    ensures kept { IsKept nodes.new.entries edges.new }
    ensures without { nodes_of nodes.new.entries ≡ without seq (nodes_of nodes.old.entries) }
{
    let was_done = is_met(nodes, seq);
    forget_each(nodes, edges, seq, was_done);
    if let Some(node) = nodes.remove(&seq) {
        drop_edges(edges, node.prerequisites(), seq);
    }
}

/// Takes the last node away.
fn remove_last(nodes: &mut BTreeMap<u64, Node>, edges: &mut BTreeSet<(u64, u64)>)
    requires kept { IsKept nodes.old.entries edges.old }
    requires some { 0 < length nodes.old.entries }
    ensures kept { IsKept nodes.new.entries edges.new }
    ensures last { LosesLast nodes.old.entries nodes.new.entries }
{
    if let Some((last, node)) = nodes.pop_last() {
        drop_edges(edges, node.prerequisites(), last);
    }
}

/// Takes away all nodes but so many first ones. It takes no memory.
pub fn truncate_nodes(
    nodes: &mut BTreeMap<u64, Node>,
    edges: &mut BTreeSet<(u64, u64)>,
    count: usize,
)
    requires kept { IsKept nodes.old.entries edges.old }
    ensures kept { IsKept nodes.new.entries edges.new }
    ensures first { nodes.new.entries ≡ take count nodes.old.entries }
{
    while nodes.len() > count {
        remove_last(nodes, edges);
    }
}
