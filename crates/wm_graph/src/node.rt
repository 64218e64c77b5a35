//! What is kept of a node, and how it changes with the nodes that it depends on.
ghost use Rattle.std.specs.Prelude.{◌≡◌};
ghost use Rattle.wm_graph.specs.Edges.{AreNumbered};
ghost use Rattle.wm_graph.specs.Kept.{changed_at, done, forgotten, lowered, lowered_after, lowered_at, nodes_of};
ghost use Rattle.wm_graph.specs.Marks.{before_of, is_met};
ghost use Rattle.wm_graph.specs.Nodes.{AreAscending};

use std::collections::{BTreeMap, BTreeSet};
use std::marker::Model;

/// A node's prerequisites, whether it is marked, and how many of its prerequisites aren't. A
/// contract sees it as the record of its fields.
#[derive(Debug, Drop)]
pub struct Node {
    pub(crate) before: Vec<u64>,
    pub(crate) done: bool,
    pub(crate) unmet: u32,
}

impl Model for Node {
    ghost use Rattle.wm_graph.specs.Kept.{Kept};

    ghost Value = { Kept };

    ghost view = { λ n. record { before = n.before.items; done = n.done; unmet = n.unmet } };
}

impl Node {
    pub(crate) fn prerequisites(&self) -> &[u64]
        ensures { result.now ≡ self.now.before }
    {
        self.before.as_slice()
    }

    pub(crate) fn unmet(&self) -> u32
        ensures { result ≡ self.now.unmet }
    {
        self.unmet
    }

    pub(crate) fn is_done(&self) -> bool
        ensures { result ≡ self.now.done }
    {
        self.done
    }

    fn mark(&mut self)
        ensures { self.new ≡ done self.old }
    {
        self.done = true;
    }

    /// One of its prerequisites is marked.
    fn lower(&mut self)
        ensures { self.new ≡ lowered self.old }
    {
        self.unmet = self.unmet.saturating_sub(1);
    }

    /// One of its prerequisites, which was marked or wasn't, is none any more.
    fn forget(&mut self, seq: u64, was_done: bool)
        ensures { self.new ≡ forgotten seq was_done self.old }
    {
        self.before.retain(|number| *number != seq);
        if !was_done {
            self.unmet = self.unmet.saturating_sub(1);
        }
    }
}

/// Whether the node of a number is marked.
pub(crate) fn is_met(nodes: &BTreeMap<u64, Node>, number: u64) -> bool
    requires { AreAscending (nodes_of nodes.now.entries) }
    ensures { result ≡ is_met (nodes_of nodes.now.entries) number }
{
    match nodes.get(&number) {
        Some(node) => node.is_done(),
        None => false,
    }
}

/// The prerequisites of the node of a number.
pub(crate) fn before_of(nodes: &BTreeMap<u64, Node>, number: u64) -> &[u64]
    ensures { result.now ≡ before_of (nodes_of nodes.now.entries) number }
{
    match nodes.get(&number) {
        Some(node) => node.prerequisites(),
        None => &[],
    }
}

/// Marks the node of a number.
pub(crate) fn mark(nodes: &mut BTreeMap<u64, Node>, number: u64)
    ensures { nodes.new.entries ≡ changed_at done number nodes.old.entries }
{
    if let Some(node) = nodes.get_mut(&number) {
        node.mark();
    }
}

/// One prerequisite less of a node is unmet.
fn lower(nodes: &mut BTreeMap<u64, Node>, number: u64)
    ensures { nodes.new.entries ≡ lowered_at number nodes.old.entries }
{
    if let Some(node) = nodes.get_mut(&number) {
        node.lower();
    }
}

/// A number, whose node was marked or wasn't, is no prerequisite of a node any more.
pub(crate) fn forget(nodes: &mut BTreeMap<u64, Node>, number: u64, seq: u64, was_done: bool)
    ensures { nodes.new.entries ≡ changed_at (forgotten seq was_done) number nodes.old.entries }
{
    if let Some(node) = nodes.get_mut(&number) {
        node.forget(seq, was_done);
    }
}

/// One prerequisite less is unmet of each node that comes right after this one.
pub(crate) fn lower_each(nodes: &mut BTreeMap<u64, Node>, edges: &BTreeSet<(u64, u64)>, number: u64)
    requires { AreNumbered edges.now }
    ensures { nodes.new.entries ≡ lowered_after edges.now number nodes.old.entries }
{
    for edge in edges.range((number, 0)..=(number, u64::MAX)) {
        lower(nodes, edge.1);
    }
}
