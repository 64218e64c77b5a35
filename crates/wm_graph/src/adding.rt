//! How a node is added, with its edges.
ghost use Rattle.std.specs.Prelude.{◌≡◌, ◌<◌, ◌≤◌, length, not, IfOk, OnErr, OnOk};
ghost use Rattle.std.specs.List.{AllByRecursion};
ghost use Rattle.wm_graph.specs.Added.{with_entry, IsNewNode};
ghost use Rattle.wm_graph.specs.Kept.{nodes_of, IsKept};
ghost use Rattle.wm_graph.specs.Marks.{unmet_of};
ghost use Rattle.wm_graph.specs.Nodes.{AreAscending, NamesNodes};

use crate::node::{Node, is_met};
use crate::walks::{add_edges, drop_edges};
use std::alloc::{AllocError, Global};
use std::collections::{BTreeMap, BTreeSet};

/// How many of these prerequisites aren't marked.
fn unmet_count(nodes: &BTreeMap<u64, Node>, before: &[u64]) -> usize
    requires { AreAscending (nodes_of nodes.now.entries) }
    ensures { result ≡ length (unmet_of (nodes_of nodes.now.entries) before.now) }
{
    before
        .iter()
        .filter(|number| !is_met(nodes, **number))
        .count()
}

/// A node after these prerequisites.
pub fn new_node(
    alloc: Global,
    nodes: &BTreeMap<u64, Node>,
    before: &[u64],
    done: bool,
) -> Result<Node, AllocError>
    requires ascending { AreAscending (nodes_of nodes.now.entries) }
    requires few { length before.now ≤ 100 }
    ensures { IfOk result (IsNewNode (nodes_of nodes.entry.now.entries) before.entry.now done) }
{
    let unmet = unmet_count(nodes, before) as u32;
    Ok(Node {
        before: Vec::from_slice(alloc, before)?,
        done,
        unmet,
    })
}

/// Adds a node at the end. Where memory is refused, the edges are as they were.
pub fn add_node(
    nodes: &mut BTreeMap<u64, Node>,
    edges: &mut BTreeSet<(u64, u64)>,
    seq: u64,
    before: &[u64],
    node: Node,
) -> Result<(), AllocError>
    requires kept { IsKept nodes.old.entries edges.old }
    requires above { AllByRecursion (λ node. node.seq < seq) (nodes_of nodes.old.entries) }
    requires few { length before.now ≤ 100 }
    requires names { NamesNodes (nodes_of nodes.old.entries) before.now }
    requires node { IsNewNode (nodes_of nodes.old.entries) before.now node.done node }
    ensures kept { IsKept nodes.new.entries edges.new }
    ensures ok { OnOk result (nodes.new.entries ≡ with_entry seq node nodes.old.entries) }
    ensures err { OnErr result (nodes.new.entries ≡ nodes.old.entries) }
{
    if add_edges(edges, before, seq).is_err() {
        drop_edges(edges, before, seq);
        return Err(AllocError);
    }
    match nodes.insert(seq, node) {
        Ok(_before) => Ok(()),
        Err(refused) => {
            drop(refused);
            drop_edges(edges, before, seq);
            Err(AllocError)
        }
    }
}
