// Triples over the edges from their node.
ghost use Rattle.std.specs.Prelude.{◌≡◌, [], ◌∷◌, true, false, cond, Err, IfOk, OnOk};
ghost use Rattle.std.specs.List.{All, list_any};
ghost use Rattle.ts_domain.specs.declared.marks.Step.{Step};
ghost use Rattle.ts_domain.specs.Deeds.{edge_deeds};
ghost use Rattle.ts_domain.specs.Marks.{knowledge, step};
ghost use Rattle.ts_domain.specs.Post.{is_gap, is_wide_edge, leaves_gap, post};
ghost use Rattle.typestate_fixpoint.specs.Gaps.{HasMore};
ghost use Rattle.ts_domain.specs.Reaching.{BeginsAt};
ghost use Rattle.typestate_fixpoint.specs.Steps.{AreTables, HasWide, Passes, PassesAll};

use crate::steps::add_steps;
use crate::tables::Tables;
use c_graph::{Edge, Graph, NodeKind};
use c_tree::{Limit, Refusal};
use indexmap::IndexSet;
use mf_list::Memory;
use mf_set::BitSet;
use smallvec::SmallVec;
use std::alloc::Global;
use ts_domain::{Deed, Facts, Known, Mark, Names, Step, Triple, copied, deeds_post};

fn is_gap(kind: &NodeKind) -> bool
    ensures { result ≡ is_gap kind.now }
{
    match kind {
        NodeKind::Gap(_, _) => true,
        NodeKind::Act(_) => false,
        NodeKind::Exit(_) => false,
    }
}

fn leaves_gap(graph: &Graph, edge: Edge) -> bool
    ensures { result ≡ leaves_gap graph.now edge }
{
    match graph.nodes.get(edge.from) {
        None => false,
        Some(node) => is_gap(&node.kind),
    }
}

fn single(alloc: Global, mark: &Mark) -> Result<SmallVec<Step, 4>, Memory>
    ensures { IfOk result (λ steps. steps.items ≡ step mark.now false ∷ []) }
{
    let mark = copied(alloc, mark)?;
    let mut steps = SmallVec::new(alloc);
    steps.push(Step {
        mark,
        touched: false,
    })?;
    Ok(steps)
}

/// The posts of a mark over an edge whose deeds are at hand.
fn edge_post(
    alloc: Global,
    graph: &Graph,
    names: &Names,
    facts: &Facts,
    edge: Edge,
    deeds: &[Deed],
    mark: &Mark,
) -> Result<SmallVec<Step, 4>, Refusal>
    requires { deeds.now ≡ edge_deeds names.now graph.now edge }
    ensures ok { IfOk result (λ steps. steps.items ≡ post names.now graph.now facts.now edge mark.now) }
    ensures narrow { IfOk result (λ steps. is_wide_edge names.now graph.now facts.now edge mark.now ≡ false) }
    ensures only { (l : Limit) → result ≡ Err (Refusal.Limit l) → l ≡ Limit.States }
    ensures limit { result ≡ Err (Refusal.Limit Limit.States) → is_wide_edge names.now graph.now facts.now edge mark.now ≡ true }
{
    if leaves_gap(graph, edge) {
        let steps = single(alloc, mark)?;
        return Ok(steps);
    }
    let known = Known {
        names,
        graph,
        facts,
        node: edge.from,
    };
    deeds_post(alloc, known, deeds, mark)
}

fn any_touched(steps: &[Step]) -> bool
    ensures { result ≡ list_any (λ (s : Step). s.touched) steps.now }
{
    steps.iter().any(|step| step.touched)
}

fn forbid_if(forbidden: &mut BitSet, touched: bool, puts: &BitSet)
    requires { forbidden.old.room ≡ puts.now.room }
    ensures { HasMore (cond touched puts.now.items []) forbidden.old forbidden.new }
{
    if touched {
        forbidden.union_with(puts);
    }
}

/// Takes a triple over an edge, with the candidates behind its node; where that touches, its own are forbidden.
fn over_edge(
    alloc: Global,
    graph: &Graph,
    names: &Names,
    facts: &Facts,
    edge: Edge,
    deeds: &[Deed],
    triple: &Triple,
    held: &BitSet,
    triples: &mut IndexSet<Triple>,
    forbidden: &mut BitSet,
) -> Result<(), Refusal>
    requires deeds { deeds.now ≡ edge_deeds names.now graph.now edge }
    requires rooms { forbidden.old.room ≡ triple.now.puts.room }
    ensures ok { OnOk result (Passes names.now graph.now facts.now edge triple.now held.now triples.old.keys triples.new.keys forbidden.old forbidden.new) }
    ensures only { (l : Limit) → result ≡ Err (Refusal.Limit l) → l ≡ Limit.States }
    ensures limit { result ≡ Err (Refusal.Limit Limit.States) → is_wide_edge names.now graph.now facts.now edge triple.now.mark ≡ true }
{
    let steps = edge_post(alloc, graph, names, facts, edge, deeds, &triple.mark)?;
    add_steps(alloc, edge.to, held, steps.as_slice(), triples)?;
    forbid_if(forbidden, any_touched(steps.as_slice()), &triple.puts);
    Ok(())
}

/// Takes a triple over all edges from its node, by their places.
pub fn over_edges(
    alloc: Global,
    graph: &Graph,
    names: &Names,
    facts: &Facts,
    tables: &Tables,
    places: &[usize],
    triple: &Triple,
    held: &BitSet,
    triples: &mut IndexSet<Triple>,
    forbidden: &mut BitSet,
) -> Result<(), Refusal>
    requires tables { AreTables names.now graph.now tables.now }
    requires places { All (BeginsAt graph.now triple.now.node) places.now }
    requires rooms { forbidden.old.room ≡ triple.now.puts.room }
    ensures ok { OnOk result (PassesAll names.now graph.now facts.now triple.now held.now places.now triples.old.keys triples.new.keys forbidden.old forbidden.new) }
    ensures only { (l : Limit) → result ≡ Err (Refusal.Limit l) → l ≡ Limit.States }
    ensures limit { result ≡ Err (Refusal.Limit Limit.States) → HasWide names.now graph.now facts.now triple.now }
{
    for place in places {
        let edge = *graph.edges.at(*place);
        over_edge(
            alloc,
            graph,
            names,
            facts,
            edge,
            tables.deeds.at(*place).as_slice(),
            triple,
            held,
            triples,
            forbidden,
        )?;
    }
    Ok(())
}
