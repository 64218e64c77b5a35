//! How the graph of the records follows a step: nodes are added before the commit, since they take
//! memory, and marked and taken away after it.
ghost use Rattle.std.specs.Prelude.{◌≡◌, ◌++◌, ℕ, length, map, take, OnOk};
ghost use Rattle.std.specs.List.{AllByRecursion};
ghost use Rattle.wm_graph.specs.Nodes.{HasNode, NamesNodes};
ghost use Rattle.wm_steps.specs.Following.{followed, nodes_by, placed_node, with_followed, without_all, AreAddable};

use std::alloc::AllocError;
use wm_changes::{Replacement, StepChange};
use wm_graph::Graph;
use wm_machine::Record;

/// Adds the nodes of new records. Where memory is refused, some may have been added.
pub fn add_nodes(graph: &mut Graph, placed: &[Record]) -> Result<(), AllocError>
    requires { AreAddable graph.old (map placed_node placed.now) }
    ensures ok { OnOk result (graph.new ≡ graph.old ++ map placed_node placed.now) }
    ensures first { take (length graph.old) graph.new ≡ graph.old }
{
    for work in placed {
        graph.add(work.seq, work.prior.as_slice(), work.phase.is_succeeded())?;
    }
    Ok(())
}

/// Marks the nodes of the records that have succeeded, and takes those of the removed ones away.
pub fn change_nodes(graph: &mut Graph, change: &StepChange)
    requires there { AllByRecursion (λ replaced. HasNode graph.old replaced.work.seq) change.now.replaced }
    requires removed { NamesNodes graph.old change.now.removed }
    ensures { graph.new ≡ nodes_by change.now graph.old }
{
    follow_each(graph, change.replaced.as_slice());
    remove_each(graph, change.removed.as_slice());
}

/// Marks the nodes of those of these records that have succeeded.
fn follow_each(graph: &mut Graph, replaced: &[Replacement])
    requires { AllByRecursion (λ replaced. HasNode graph.old replaced.work.seq) replaced.now }
    ensures nodes { graph.new ≡ with_followed replaced.now graph.old }
    ensures there { (number : ℕ) → HasNode graph.old number → HasNode graph.new number }
{
    for replacement in replaced {
        follow(graph, &replacement.work);
    }
}

/// Marks the node of a record, where it has succeeded.
fn follow(graph: &mut Graph, work: &Record)
    requires { HasNode graph.old work.now.seq }
    ensures { graph.new ≡ followed work.now graph.old }
{
    if work.phase.is_succeeded() && !graph.is_done(work.seq) {
        graph.succeed(work.seq);
    }
}

/// Takes the nodes of these numbers away.
fn remove_each(graph: &mut Graph, numbers: &[u64])
    requires { NamesNodes graph.old numbers.now }
    ensures { graph.new ≡ without_all numbers.now graph.old }
{
    for number in numbers {
        graph.remove(*number);
    }
}
