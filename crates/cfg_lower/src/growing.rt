// A graph that grows context by context, and by its exits.
ghost use Rattle.std.specs.Prelude.{◌≡◌, ◌++◌, ◌∷◌, [], map, length, IfOk, OnOk};
ghost use Rattle.std.specs.List.{flat_map};
ghost use Rattle.c_meaning.specs.Place.{result_slot};
ghost use Rattle.c_graph.specs.Nodes.{exit_at, exits, placed_at, placed_from, placed_in, spot_at as spot_in};
ghost use Rattle.cfg_lower.specs.Growth.{edge_by, kind_at};
ghost use Rattle.cfg_lower.specs.Meant.{spot_of};
ghost use Rattle.cfg_lower.specs.Sources.{IsHere, IsSource, contexts_of, grown_in, program_of};

use crate::actions::action_from;
use crate::forms::{Instruction, Spot};
use crate::places::spot_at;
use crate::source::Source;
use crate::steps::{here, steps_at};
use crate::tables::{Here, Step};
use c_graph::{Edge, Graph, Node, NodeKind};
use c_tree::Duplicate;
use mf_list::{Memory, Seq};
use std::alloc::Global;

fn kind_of(alloc: Global, spot: Spot) -> Result<Option<NodeKind>, Memory>
    ensures { IfOk result (λ kind. kind ≡ kind_at (spot_of spot.entry)) }
{
    match spot {
        Spot::AtGap(gap) => {
            let frees = gap.frees.duplicate(alloc)?;
            Ok(Some(NodeKind::Gap(gap.number, frees)))
        }
        Spot::AtAction(action) => Ok(Some(NodeKind::Act(action_from(alloc, action)?))),
        Spot::Nowhere => Ok(None),
    }
}

fn add_edges(edges: &mut Seq<Edge>, from: usize, steps: &[Step]) -> Result<(), Memory>
    ensures { OnOk result (edges.new ≡ edges.old ++ map (edge_by from) steps.now) }
{
    for step in steps {
        edges.push(Edge {
            from,
            to: step.to,
            way: step.way,
        })?;
    }
    Ok(())
}

/// One more node, and the edges from there.
fn add_node(graph: &mut Graph, node: Node, steps: &[Step]) -> Result<(), Memory>
    ensures nodes { OnOk result (graph.new.nodes ≡ graph.old.nodes ++ node ∷ []) }
    ensures edges { OnOk result (graph.new.edges ≡ graph.old.edges ++ map (edge_by (length graph.old.nodes)) steps.now) }
{
    let from = graph.nodes.len();
    graph.nodes.push(node)?;
    add_edges(&mut graph.edges, from, steps)
}

/// The node of a place in a context.
#[tactic(auto, using(crate::proofs::Grown::grown_both, crate::proofs::Grown::grown_nothing))]
fn add_place(
    alloc: Global,
    graph: &mut Graph,
    source: Source,
    here: &Here,
    path: &[usize],
) -> Result<(), Memory>
    requires source { IsSource source }
    requires here { IsHere source here.now }
    ensures { OnOk result (graph.new ≡ grown_in source.entry graph.old (placed_at (program_of source.entry) (contexts_of source.entry) here.now.ctx here.now.fun path.now (spot_in (program_of source.entry) here.now.fun path.now))) }
{
    let spot = spot_at(source.program, here.fun, here.slot, path);
    let Some(kind) = kind_of(alloc, spot)? else {
        return Ok(());
    };
    let steps = steps_at(alloc, source, here, path, spot)?;
    let ctx = here.ctx;
    add_node(graph, Node { ctx, kind }, steps.as_slice())
}

/// The nodes of a context.
#[tactic(auto, using(crate::proofs::Grown::grown_both, crate::proofs::Grown::grown_nothing))]
fn add_context(
    alloc: Global,
    graph: &mut Graph,
    source: Source,
    ctx: usize,
    fun: usize,
) -> Result<(), Memory>
    requires { IsSource source }
    ensures { OnOk result (graph.new ≡ grown_in source.entry graph.old (placed_in (program_of source.entry) (contexts_of source.entry) ctx fun)) }
{
    let Some(row) = source.tables.rows.get(fun) else {
        return Ok(());
    };
    let here = here(alloc, source, ctx, fun, row.slot)?;
    let paths = row.places.as_slice();
    for path in paths {
        add_place(alloc, graph, source, &here, path.as_slice())?;
    }
    Ok(())
}

/// The nodes of all contexts in turn.
#[tactic(auto, using(crate::proofs::Grown::grown_both, crate::proofs::Grown::grown_nothing))]
pub fn add_contexts(alloc: Global, graph: &mut Graph, source: Source) -> Result<(), Memory>
    requires { IsSource source }
    ensures { OnOk result (graph.new ≡ grown_in source.entry graph.old (placed_from (program_of source.entry) (contexts_of source.entry) 0 (contexts_of source.entry))) }
{
    let list = source.contexts.list.as_slice();
    for ctx in 0..list.len() {
        add_context(alloc, graph, source, ctx, list[ctx].fun)?;
    }
    Ok(())
}

/// The exit behind a place of `main`.
#[tactic(auto, using(crate::proofs::Grown::grown_both, crate::proofs::Grown::grown_nothing))]
fn add_exit(
    graph: &mut Graph,
    source: Source,
    slot: Option<usize>,
    path: &[usize],
) -> Result<(), Memory>
    requires { slot ≡ result_slot (program_of source) (program_of source).main }
    ensures { OnOk result (graph.new ≡ grown_in source.entry graph.old (exit_at path.now (spot_in (program_of source.entry) (program_of source.entry).main path.now))) }
{
    match spot_at(source.program, source.program.main, slot, path) {
        Spot::AtAction(Instruction::Return(_, at) | Instruction::Close(_, at)) => {
            let kind = NodeKind::Exit(at);
            add_node(graph, Node { ctx: 0, kind }, &[])
        }
        _ => Ok(()),
    }
}

/// The exits.
#[tactic(auto, using(crate::proofs::Grown::grown_both, crate::proofs::Grown::grown_nothing))]
pub fn add_exits(graph: &mut Graph, source: Source) -> Result<(), Memory>
    requires { IsSource source }
    ensures { OnOk result (graph.new ≡ grown_in source.entry graph.old (exits (program_of source.entry))) }
{
    let Some(row) = source.tables.rows.get(source.program.main) else {
        return Ok(());
    };
    let paths = row.places.as_slice();
    for path in paths {
        add_exit(graph, source, row.slot, path.as_slice())?;
    }
    Ok(())
}
