//! The graph: nodes in ascending number, and what is asked of them.
ghost use Rattle.std.specs.Prelude.{◌≡◌, ◌<◌, ◌≤◌, [], ◌∷◌, ◌++◌, length, reverse, take, false, IfOk, OnOk, OnErr};
ghost use Rattle.std.specs.List.{AllByRecursion};
ghost use Rattle.wm_graph.specs.Descendants.{dependents, descendants, AreDescendants, BeginsWith};
ghost use Rattle.wm_graph.specs.Marks.{freed_by, frees, is_met, unmet, with_marked};
ghost use Rattle.wm_graph.specs.Leaves.{leaves};
ghost use Rattle.wm_graph.specs.Nodes.{HasNode, NamesNodes, without};

use crate::adding::{add_node, new_node};
use crate::freeing::freed_by;
use crate::last::drop_needed;
use crate::node::{Node, is_met, lower_each, mark};
use crate::removing::{remove_node, truncate_nodes};
use crate::walks::{dependents_of, reached, starts_of};
use std::alloc::{AllocError, Global};
use std::collections::{BTreeMap, BTreeSet};
use std::marker::Model;
use wm_collections::listed;

/// Nodes in ascending number, each with its prerequisites and a mark. A contract sees it as their
/// list. A prerequisite is a node before it, and a node has at most 100, which differ.
#[derive(Debug, Drop)]
pub struct Graph {
    nodes: BTreeMap<u64, Node>,
    /// Each prerequisite with each node that has it, so that the dependents of a node stand
    /// together and ascend.
    edges: BTreeSet<(u64, u64)>,
    alloc: Global,
}

impl Model for Graph {
    ghost use Rattle.std.specs.Prelude.{List};
    ghost use Rattle.wm_graph.specs.Nodes.{NodeFields};
    ghost use Rattle.wm_graph.specs.Kept.{nodes_of, IsKept};

    ghost Value = { List NodeFields };

    ghost view = { λ g. nodes_of g.nodes.entries };

    ghost invariant = { λ g. IsKept g.nodes.entries g.edges };
}

impl Graph {
    /// The graph without a node, which takes no memory.
    pub fn new(alloc: Global) -> Graph
        ensures { result ≡ [] }
    {
        Graph {
            nodes: BTreeMap::new(alloc),
            edges: BTreeSet::new(alloc),
            alloc,
        }
    }

    /// Adds a node at the end, after these prerequisites. Where memory is refused, the graph is as
    /// it was.
    pub fn add(&mut self, seq: u64, before: &[u64], done: bool) -> Result<(), AllocError>
        requires above { AllByRecursion (λ node. node.seq < seq) self.old }
        requires few { length before.now ≤ 100 }
        requires names { NamesNodes self.old before.now }
        ensures ok { OnOk result
            (self.new ≡ self.old ++ (record { seq = seq; before = before.now; done = done }) ∷ []) }
        ensures err { OnErr result (self.new ≡ self.old) }
    {
        let node = new_node(self.alloc, &self.nodes, before, done)?;
        add_node(&mut self.nodes, &mut self.edges, seq, before, node)
    }

    /// How many nodes there are.
    pub fn len(&self) -> usize
        ensures { result ≡ length self.now }
    {
        self.nodes.len()
    }

    /// Whether a node is marked. It takes no memory.
    pub fn is_done(&self, seq: u64) -> bool
        ensures { result ≡ is_met self.now seq }
    {
        is_met(&self.nodes, seq)
    }

    /// The numbers of the nodes that have a node as a prerequisite, ascending. The number of a node
    /// that isn't there has none. Memory that is refused is the only error.
    pub fn dependents(&self, seq: u64) -> Result<Vec<u64>, AllocError>
        ensures { IfOk result (λ found. found.items ≡ dependents self.now seq) }
    {
        dependents_of(self.alloc, &self.edges, seq)
    }

    /// The numbers of a node and of all that it reaches, ascending, the node itself first. Memory
    /// that is refused is the only error.
    pub fn descendants(&self, seq: u64) -> Result<Vec<u64>, AllocError>
        requires { HasNode self.now seq }
        ensures found { IfOk result
            (λ found. found.items ≡ reverse (descendants (seq ∷ []) (reverse self.now))) }

        // What follows of the numbers found.
        ensures descendants { IfOk result (λ found. AreDescendants self.now (seq ∷ []) found.items) }
        ensures itself_first { IfOk result (λ found. BeginsWith seq found.items) }
    {
        reached(self.alloc, &self.nodes, &self.edges, &[seq])
    }

    /// The numbers of some nodes and of all that any of them reaches, ascending. Numbers of nodes
    /// that aren't there reach nothing. Memory that is refused is the only error.
    pub fn descendants_of(&self, seqs: &[u64]) -> Result<Vec<u64>, AllocError>
        ensures found { IfOk result
            (λ found. found.items ≡ reverse (descendants seqs.now (reverse self.now))) }

        // What follows of the numbers found.
        ensures descendants { IfOk result (λ found. AreDescendants self.now seqs.now found.items) }
    {
        reached(self.alloc, &self.nodes, &self.edges, seqs)
    }

    /// The given nodes that aren't a prerequisite of a given node, ascending. Memory that is refused
    /// is the only error.
    pub fn leaves(&self, among: &[u64]) -> Result<Vec<u64>, AllocError>
        requires { NamesNodes self.now among.now }
        ensures { IfOk result (λ last. last.items ≡ leaves self.now among.now) }
    {
        let mut last = starts_of(self.alloc, &self.nodes, among)?;
        drop_needed(&mut last, &self.nodes, among);
        listed(self.alloc, &last)
    }

    /// How many prerequisites of a node aren't marked, at most 100. It takes no memory.
    pub fn unmet(&self, seq: u64) -> u32
        requires { HasNode self.now seq }
        ensures unmet { result ≡ unmet self.now seq }
        ensures few { result ≤ 100 }
    {
        match self.nodes.get(&seq) {
            Some(node) => node.unmet(),
            None => 0,
        }
    }

    /// The nodes whose one unmarked prerequisite is this node, ascending. Memory that is refused is
    /// the only error.
    pub fn frees(&self, seq: u64) -> Result<Vec<u64>, AllocError>
        requires node { HasNode self.now seq }
        requires unmarked { is_met self.now seq ≡ false }
        ensures freed { IfOk result (λ freed. freed.items ≡ frees self.now seq) }

        // In other words: those that nothing holds back once this node is marked.
        ensures freed_by { IfOk result (λ freed. freed.items ≡ freed_by self.now seq) }
    {
        freed_by(self.alloc, &self.nodes, &self.edges, seq)
    }

    /// Marks a node. It takes no memory.
    pub fn succeed(&mut self, seq: u64)
        requires node { HasNode self.old seq }
        requires unmarked { is_met self.old seq ≡ false }
        ensures { self.new ≡ with_marked seq self.old }
    {
        lower_each(&mut self.nodes, &self.edges, seq);
        mark(&mut self.nodes, seq);
    }

    /// Takes a node away, and its place among the prerequisites of others, so that a dependent of
    /// an unmarked node has one unmet prerequisite less. It takes no memory.
    pub fn remove(&mut self, seq: u64)
        requires { HasNode self.old seq }
        ensures { self.new ≡ without seq self.old }
    {
        remove_node(&mut self.nodes, &mut self.edges, seq);
    }

    /// Takes away all nodes but the first ones, of which there are so many. It takes no memory.
    pub fn truncate(&mut self, count: usize)
        ensures { self.new ≡ take count self.old }
    {
        truncate_nodes(&mut self.nodes, &mut self.edges, count);
    }
}
