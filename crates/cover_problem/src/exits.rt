// The triples at exits.
ghost use Rattle.std.specs.Prelude.{◌≡◌, ◌++◌, IfOk, OnOk};
ghost use Rattle.ts_domain.specs.Cover.{is_exit, is_exit_at};
ghost use Rattle.cover_problem.specs.Parts.{exit_if, exits_of};

use c_graph::{Graph, NodeKind};
use mf_list::{Memory, Seq};
use mf_set::BitSet;
use std::alloc::Global;
use ts_domain::Triple;

fn is_exit(kind: &NodeKind) -> bool
    ensures { result ≡ is_exit kind.now }
{
    match kind {
        NodeKind::Gap(_, _) => false,
        NodeKind::Act(_) => false,
        NodeKind::Exit(_) => true,
    }
}

fn is_exit_at(graph: &Graph, node: usize) -> bool
    ensures { result ≡ is_exit_at graph.now node }
{
    match graph.nodes.get(node) {
        None => false,
        Some(node) => is_exit(&node.kind),
    }
}

fn push_exit(
    alloc: Global,
    list: &mut Seq<(usize, usize, BitSet)>,
    graph: &Graph,
    triple: &Triple,
) -> Result<(), Memory>
    ensures { OnOk result (list.new ≡ list.old ++ exit_if (is_exit_at graph.now triple.now.node) triple.now) }
{
    if !is_exit_at(graph, triple.node) {
        return Ok(());
    }
    let puts = triple.puts.copy(alloc)?;
    list.push((triple.mark.site, triple.node, puts))
}

/// Of each triple at an exit its site, the exit and its candidates.
pub fn exits_of(
    alloc: Global,
    graph: &Graph,
    triples: &[Triple],
) -> Result<Seq<(usize, usize, BitSet)>, Memory>
    ensures { IfOk result (λ list. list ≡ exits_of graph.now triples.now) }
{
    let mut list = Seq::new(alloc);
    for triple in triples {
        push_exit(alloc, &mut list, graph, triple)?;
    }
    Ok(list)
}
