// The facts that hold on every path to each node.
ghost use Rattle.std.specs.Prelude.{◌≡◌, ◌<◌, ◌≤◌, length, map, take, IfOk};
ghost use Rattle.ts_domain.specs.Holding.{IsPathOfRuns};
ghost use Rattle.ts_domain.specs.Path.{IsPath};
ghost use Rattle.path_facts.specs.Numbering.{IsNumbering, room_of};
ghost use Rattle.path_facts.specs.Paths.{AreFacts, Counts, EndsWithin, from_of};
ghost use Rattle.path_facts.specs.Start.{IsFull, IsStart, StartsAll, StartsAt, Begins};

use crate::numbering::{Numbering, numbering_of};
use crate::start::{full, start_set};
use crate::worklist::{Solving, solve};
use c_graph::{Edge, Graph};
use mf_list::{Memory, Seq};
use mf_set::BitSet;
use std::alloc::{AllocError, Global};
use ts_domain::{Names, Path, all_deeds, rows_of};

fn from_keys(alloc: Global, edges: &[Edge]) -> Result<Seq<Option<usize>>, Memory>
    ensures { IfOk result (λ keys. keys ≡ map from_of edges.now) }
{
    let mut keys = Seq::new(alloc);
    for edge in edges {
        keys.push(Some(edge.from))?;
    }
    Ok(keys)
}

fn above(bound: usize, node: usize) -> Result<usize, Memory>
    ensures { IfOk result (λ b. (bound ≤ b) × (node < b)) }
{
    match node.checked_add(1) {
        None => Err(AllocError),
        Some(next) => Ok(bound.max(next)),
    }
}

/// A number that all nodes and all ends of edges are below.
fn count_of(graph: &Graph) -> Result<usize, Memory>
    ensures { IfOk result (Counts graph.now) }
{
    let mut count = graph.nodes.len().max(1);
    for edge in graph.edges.as_slice() {
        count = above(above(count, edge.from)?, edge.to)?;
    }
    Ok(count)
}

/// The set that a node begins with.
fn first_set(
    alloc: Global,
    names: &Names,
    start: &BitSet,
    all: &BitSet,
    node: usize,
) -> Result<BitSet, Memory>
    requires start { IsStart names.now start.now }
    requires all { IsFull (room_of names.now) all.now }
    ensures { IfOk result (StartsAt names.now node) }
{
    if node == 0 {
        start.copy(alloc)
    } else {
        all.copy(alloc)
    }
}

fn first_sets(
    alloc: Global,
    names: &Names,
    start: &BitSet,
    all: &BitSet,
    count: usize,
) -> Result<Seq<BitSet>, Memory>
    requires start { IsStart names.now start.now }
    requires all { IsFull (room_of names.now) all.now }
    ensures { IfOk result (StartsAll names.now count) }
{
    let mut sets = Seq::new(alloc);
    for node in 0..count {
        sets.push(first_set(alloc, names, start, all, node)?)?;
    }
    Ok(sets)
}

/// All facts at each node, but at the first only those that are true before a run; it alone is pending.
fn begin(
    alloc: Global,
    names: &Names,
    numbering: &Numbering,
    count: usize,
) -> Result<Solving, Memory>
    requires numbering { IsNumbering names.now numbering.now }
    requires some { 0 < count }
    ensures { IfOk result (Begins names.now count) }
{
    let all = full(alloc, numbering.count)?;
    let start = start_set(alloc, names, numbering, &all)?;
    let at = first_sets(alloc, names, &start, &all, count)?;
    let mut pending = BitSet::with_room(alloc, count)?;
    pending.insert(0);
    let reached = pending.copy(alloc)?;
    Ok(Solving {
        at,
        pending,
        reached,
    })
}

/// The facts at each node, and at others that edges may lead to.
fn facts_of(
    alloc: Global,
    graph: &Graph,
    names: &Names,
    count: usize,
) -> Result<Seq<BitSet>, Memory>
    requires { Counts graph.now count }
    ensures { IfOk result (AreFacts names.now graph.now count) }
{
    let numbering = numbering_of(alloc, names)?;
    let deeds = all_deeds(alloc, graph, names)?;
    let keys = from_keys(alloc, graph.edges.as_slice())?;
    let rows = rows_of(alloc, &keys)?;
    let mut state = begin(alloc, names, &numbering, count)?;
    solve(alloc, graph, names, &numbering, &deeds, &rows, &mut state)?;
    let Solving { at, .. } = state;
    Ok(at)
}

/// The first sets.
fn shortened(sets: Seq<BitSet>, count: usize) -> Seq<BitSet>
    ensures { result ≡ take count sets }
{
    let mut kept = sets.into_vec();
    kept.truncate(count);
    Seq::from_vec(kept)
}

/// The numbers of the facts that hold at each node, whatever way leads there.
pub fn path(alloc: Global, graph: &Graph, names: &Names) -> Result<Path, Memory>
    ensures exact { IfOk result (IsPath names.now graph.now) }
    ensures runs { IfOk result (IsPathOfRuns names.now graph.now) }
{
    let count = count_of(graph)?;
    let sets = facts_of(alloc, graph, names, count)?;
    let nodes = graph.nodes.len();
    Ok(Path {
        at: shortened(sets, nodes),
    })
}
