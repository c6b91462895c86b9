// The function that an edge leads back from, by the graph alone.
ghost use Rattle.std.specs.Prelude.{◌≡◌};
ghost use Rattle.c_tree.specs.WellFormed.{IsWellFormed};
ghost use Rattle.c_tree.specs.declared.program.Program.{Program};
ghost use Rattle.c_graph.specs.Executes.{callee_at, callee_of_leave, ctx_at, enters_into, function_of};
ghost use Rattle.c_graph.specs.Ways.{IsGraphOf, LeavesBack};

use crate::graph::{Action, Edge, Graph, NodeKind, Way};

fn ctx_at(graph: &Graph, node: usize) -> Option<usize>
    ensures { result ≡ ctx_at graph.now node }
{
    match graph.nodes.get(node) {
        None => None,
        Some(node) => Some(node.ctx),
    }
}

fn callee_at(graph: &Graph, node: usize) -> Option<usize>
    ensures { result ≡ callee_at graph.now node }
{
    match &graph.nodes.get(node)?.kind {
        NodeKind::Act(Action::Call(callee, _)) => Some(*callee),
        _ => None,
    }
}

fn enters_into(graph: &Graph, ctx: usize, edge: &Edge) -> bool
    ensures { result ≡ enters_into graph.now ctx edge.now }
{
    match edge.way {
        Way::Enter => match ctx_at(graph, edge.to) {
            None => false,
            Some(to) => to == ctx,
        },
        _ => false,
    }
}

fn function_of(graph: &Graph, ctx: usize) -> Option<usize>
    ensures { result ≡ function_of graph.now ctx }
{
    let edges = graph.edges.as_slice();
    for edge in edges {
        if enters_into(graph, ctx, edge) {
            return callee_at(graph, edge.from);
        }
    }
    None
}

/// The function of the context that an edge leads back from. It looks at all edges, so an analysis asks once for a context.
pub fn callee_of_leave(graph: &Graph, edge: &Edge) -> Option<usize>
    ensures callee { result ≡ callee_of_leave graph.now edge.now }
    ensures right { (p : Program) → IsWellFormed p → IsGraphOf p graph.now → LeavesBack p edge.now result }
{
    match ctx_at(graph, edge.from) {
        None => None,
        Some(ctx) => function_of(graph, ctx),
    }
}
