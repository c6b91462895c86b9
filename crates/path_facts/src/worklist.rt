// Sets of facts at nodes, which shrink over the edges from nodes that are pending until none is.
ghost use Rattle.std.specs.Prelude.{◌≡◌, ◌<◌, [], true, map, length, slice_get, IfOk, OnOk};
ghost use Rattle.std.specs.List.{All};
ghost use Rattle.mf_set.specs.Numbers.{has};
ghost use Rattle.ts_domain.specs.Deeds.{edge_deeds};
ghost use Rattle.ts_domain.specs.Facts.{before_deeds};
ghost use Rattle.ts_domain.specs.Rows.{AreRows, row};
ghost use Rattle.path_facts.specs.Numbering.{IsNumbering, room_of};
ghost use Rattle.path_facts.specs.Paths.{BeginsAt, EndsWithin, from_of};
ghost use Rattle.path_facts.specs.Worklist.{Adds, Applies, AreRooms, Good, IsSized, Meets, Passing, Solved, Steps};

use crate::deeds::over_deeds;
use crate::numbering::Numbering;
use c_graph::{Edge, Graph};
use mf_list::{Memory, Seq};
use mf_set::BitSet;
use std::alloc::Global;
use ts_domain::{Deed, Names, row};

/// The facts at each node, the nodes whose edges have to be gone over, and the nodes that edges lead to.
#[derive(Debug, Drop)]
pub struct Solving {
    pub at: Seq<BitSet>,
    pub pending: BitSet,
    pub reached: BitSet,
}

/// Keeps what another set has too, and says whether that is less.
fn meet(sets: &mut Seq<BitSet>, to: usize, other: &BitSet) -> bool
    requires within { to < length sets.old }
    requires rooms { AreRooms other.now.room sets.old }
    ensures { Meets to other.now result sets.old sets.new }
{
    sets.at_mut(to).meet_with(other)
}

/// Adds a node to a set, and says whether it is new.
fn add(set: &mut BitSet, node: usize) -> bool
    requires { node < set.old.room }
    ensures { Adds node result set.old set.new }
{
    let fresh = !set.contains(node);
    set.insert(node);
    fresh
}

/// Carries the facts at the first node of an edge to the other.
fn over_edge(
    alloc: Global,
    names: &Names,
    numbering: &Numbering,
    edge: Edge,
    deeds: &[Deed],
    state: &mut Solving,
) -> Result<(), Memory>
    requires numbering { IsNumbering names.now numbering.now }
    requires sized { IsSized names.now state.old }
    requires from { edge.from < length state.old.at }
    requires to { edge.to < length state.old.at }
    ensures { OnOk result (Applies names.now (before_deeds names.now deeds.now) edge.from edge.to state.old state.new) }
{
    let carried = over_deeds(alloc, names, numbering, deeds, state.at.at(edge.from))?;
    let smaller = meet(&mut state.at, edge.to, &carried);
    let fresh = add(&mut state.reached, edge.to);
    if smaller || fresh {
        state.pending.insert(edge.to);
    }
    Ok(())
}

/// The edges from a node, by their places.
fn over_node(
    alloc: Global,
    graph: &Graph,
    names: &Names,
    numbering: &Numbering,
    deeds: &Seq<Seq<Deed>>,
    places: &[usize],
    node: usize,
    state: &mut Solving,
) -> Result<(), Memory>
    requires numbering { IsNumbering names.now numbering.now }
    requires deeds { deeds.now ≡ map (edge_deeds names.now graph.now) graph.now.edges }
    requires ends { EndsWithin (length state.old.at) graph.now }
    requires places { All (BeginsAt graph.now node) places.now }
    requires good { Good names.now graph.now node places.now state.old }
    requires reached { has state.old.reached.items node ≡ true }
    ensures { OnOk result (Passing names.now graph.now node [] state.old state.new) }
{
    for place in places {
        let edge = *graph.edges.at(*place);
        over_edge(
            alloc,
            names,
            numbering,
            edge,
            deeds.at(*place).as_slice(),
            state,
        )?;
    }
    Ok(())
}

/// Goes over the edges from one node that is pending, and says whether there was one.
fn step(
    alloc: Global,
    graph: &Graph,
    names: &Names,
    numbering: &Numbering,
    deeds: &Seq<Seq<Deed>>,
    rows: &Seq<Seq<usize>>,
    state: &mut Solving,
) -> Result<bool, Memory>
    requires numbering { IsNumbering names.now numbering.now }
    requires deeds { deeds.now ≡ map (edge_deeds names.now graph.now) graph.now.edges }
    requires rows { AreRows (map from_of graph.now.edges) rows.now }
    requires ends { EndsWithin (length state.old.at) graph.now }
    requires good { Good names.now graph.now 0 [] state.old }
    ensures { IfOk result (λ more. Steps names.now graph.now more state.old state.new) }
{
    match state.pending.next_from(0) {
        None => Ok(false),
        Some(node) => {
            state.pending.remove(node);
            let places = row(rows.as_slice(), node);
            over_node(alloc, graph, names, numbering, deeds, places, node, state)?;
            Ok(true)
        }
    }
}

/// Goes over edges until no node is pending.
pub fn solve(
    alloc: Global,
    graph: &Graph,
    names: &Names,
    numbering: &Numbering,
    deeds: &Seq<Seq<Deed>>,
    rows: &Seq<Seq<usize>>,
    state: &mut Solving,
) -> Result<(), Memory>
    requires numbering { IsNumbering names.now numbering.now }
    requires deeds { deeds.now ≡ map (edge_deeds names.now graph.now) graph.now.edges }
    requires rows { AreRows (map from_of graph.now.edges) rows.now }
    requires ends { EndsWithin (length state.old.at) graph.now }
    requires good { Good names.now graph.now 0 [] state.old }
    ensures { OnOk result (Solved names.now graph.now state.old state.new) }
{
    while step(alloc, graph, names, numbering, deeds, rows, state)? {}
    Ok(())
}
