//! The edges of a graph that are available.
ghost use Rattle.std.specs.Prelude.{◌≡◌, [], ◌∷◌, ◌++◌, IfOk, OnOk, if◌then◌else◌};
ghost use Rattle.tips_graph.specs.Graph.{last_of, status_of};
ghost use Rattle.alto_drill.specs.Edges.{edges_by, edges_from, is_here};

use alto_rows::RowStore;
use std::alloc::{AllocError, Global};
use tips_graph::{EdgeStatus, Graph};

/// The available edges of a graph, by their beginnings and then by their ends. Asks for the status of each pair of
/// numbers.
#[tactic(auto, unfolding(crate::specs::Edges::edges_by))]
pub(crate) fn edges_of<R: RowStore>(
    alloc: Global,
    graph: &Graph<R>,
) -> Result<Vec<(u64, u64)>, AllocError>
    ensures { IfOk result (λ edges. edges.items ≡ edges_by (status_of graph.now) (last_of graph.now)) }
{
    let mut edges = Vec::new(alloc);
    for i in 0..graph.last() + 1 {
        add_edges_from(graph, i, &mut edges)?;
    }
    Ok(edges)
}

/// Adds the available edges from a number, by their ends.
fn add_edges_from<R: RowStore>(
    graph: &Graph<R>,
    i: u64,
    edges: &mut Vec<(u64, u64)>,
) -> Result<(), AllocError>
    ensures { OnOk result (edges.new.items
        ≡ edges.old.items ++ edges_from (status_of graph.now) (last_of graph.now) i) }
{
    for j in 0..graph.last() + 1 {
        add_edge(graph.status(i, j), (i, j), edges)?;
    }
    Ok(())
}

/// Adds an edge where it is available.
fn add_edge(
    status: EdgeStatus,
    edge: (u64, u64),
    edges: &mut Vec<(u64, u64)>,
) -> Result<(), AllocError>
    ensures { OnOk result (edges.new.items
        ≡ edges.old.items ++ (if is_here status then edge ∷ [] else [])) }
{
    match status {
        EdgeStatus::Here => {
            edges.push(edge)?;
            Ok(())
        }
        _ => Ok(()),
    }
}
