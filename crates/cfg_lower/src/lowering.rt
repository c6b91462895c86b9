// The control flow graph of a program in its contexts.
ghost use Rattle.std.specs.Prelude.{◌≡◌, ◌≤◌, ◌<◌, length, IfOk};
ghost use Rattle.c_tree.specs.WellFormed.{IsWellFormed};
ghost use Rattle.call_contexts.specs.Contexts.{contexts as contexts_in};
ghost use Rattle.c_graph.specs.Nodes.{graph as graph_of};
ghost use Rattle.cfg_lower.specs.Lockstep.{RunsAs};

use crate::growing::{add_contexts, add_exits};
use crate::numbers::tables;
use crate::source::Source;
use c_graph::Graph;
use c_tree::{Limit, Program, Refusal};
use call_contexts::Contexts;
use mf_list::Seq;
use std::alloc::Global;

/// The control flow graph of a program in the contexts.
///
/// # Errors
/// `Limit(Nodes)` where it has more than 10,000 nodes.
pub fn lower(alloc: Global, program: &Program, contexts: &Contexts) -> Result<Graph, Refusal>
    ensures ok { IfOk result (λ g. g ≡ graph_of program.now contexts.now.list) }
    ensures lockstep { IsWellFormed program.now → contexts.now.list ≡ contexts_in program.now → IfOk result (RunsAs program.now) }
    ensures within { IfOk result (λ g. length g.nodes ≤ 10000) }
    ensures only { (l : Limit) → result ≡ Err (Refusal.Limit l) → l ≡ Limit.Nodes }
    ensures limit { result ≡ Err (Refusal.Limit Limit.Nodes) → 10000 < length (graph_of program.now contexts.now.list).nodes }
{
    let tables = tables(alloc, program, contexts)?;
    let source = Source {
        program,
        contexts,
        tables: &tables,
    };
    let mut graph = Graph {
        nodes: Seq::new(alloc),
        edges: Seq::new(alloc),
    };
    add_contexts(alloc, &mut graph, source)?;
    add_exits(&mut graph, source)?;
    Ok(graph)
}
