//! The graph of works and their prerequisites, of `wm_graph`.
ghost use Rattle.std.specs.Prelude.{◌≡◌, IfOk};
ghost use Rattle.part_tests.specs.Three.{three_nodes};
ghost use Rattle.wm_graph.specs.Marks.{with_marked};
ghost use Rattle.wm_graph.specs.Nodes.{without};

use std::alloc::{AllocError, Global};
use std::process::Abort;
use std::test::Fail;
use wm_graph::Graph;

/// Adds three nodes to an empty graph: the second is after the first, and the third after both.
fn three_nodes(alloc: Global) -> Result<Graph, AllocError>
    ensures { IfOk result (λ graph. graph ≡ three_nodes) }
{
    let mut graph = Graph::new(alloc);
    graph.add(1, &[], false)?;
    graph.add(2, &[1], false)?;
    graph.add(3, &[1, 2], false)?;
    Ok(graph)
}

/// The numbers of nodes that were found are these.
fn expect(
    rt: &impl Abort,
    found: Result<Vec<u64>, AllocError>,
    expected: &[u64],
) -> Result<(), AllocError> {
    assert_eq!(rt; found?.as_slice(), expected);
    Ok(())
}

/// What depends on the nodes, what they reach, which are the last of some, and what a node frees,
/// where none is marked.
fn expect_unmarked(rt: &impl Abort, graph: &Graph) -> Result<(), AllocError>
    requires { graph.now ≡ three_nodes }
{
    expect(rt, graph.dependents(1), &[2, 3])?;
    expect(rt, graph.descendants(1), &[1, 2, 3])?;
    expect(rt, graph.descendants(2), &[2, 3])?;
    expect(rt, graph.descendants(3), &[3])?;
    expect(rt, graph.leaves(&[1, 2]), &[2])?;
    expect(rt, graph.leaves(&[3, 1]), &[3])?;
    expect(rt, graph.leaves(&[]), &[])?;
    assert_eq!(rt; (graph.unmet(1), graph.unmet(2), graph.unmet(3)), (0, 1, 2));
    expect(rt, graph.frees(1), &[2])?;
    expect(rt, graph.frees(2), &[])
}

/// What is unmet and freed once the first node is marked.
fn expect_marked(rt: &impl Abort, graph: &Graph) -> Result<(), AllocError>
    requires { graph.now ≡ with_marked 1 three_nodes }
{
    assert_eq!(rt; (graph.unmet(2), graph.unmet(3)), (0, 1));
    expect(rt, graph.frees(2), &[3])
}

/// What is left once the second node is taken away too.
fn expect_removed(rt: &impl Abort, graph: &Graph) -> Result<(), AllocError>
    requires { graph.now ≡ without 2 (with_marked 1 three_nodes) }
{
    assert_eq!(rt; graph.unmet(3), 0);
    expect(rt, graph.descendants(1), &[1, 3])
}

#[test]
fn a_graph_tells_what_its_nodes_reach_and_wait_for(rt: HostRuntime) -> Result<(), Fail> {
    let mut graph = three_nodes(rt.alloc())?;
    let unmarked = expect_unmarked(&rt, &graph);
    graph.succeed(1);
    let marked = expect_marked(&rt, &graph);
    graph.remove(2);
    let removed = expect_removed(&rt, &graph);
    drop(graph);
    unmarked?;
    marked?;
    removed?;
    Ok(())
}
