// The nodes to which edges lead from the first one.
ghost use Rattle.std.specs.Prelude.{◌≡◌, ◌↔◌, ℕ, map, nat_eq, IfOk, OnOk};
ghost use Rattle.std.specs.List.{Contains, flat_map};
ghost use Rattle.indexmap.specs.IndexSet.{insert_all, insert_key};
ghost use Rattle.ts_domain.specs.Path.{Reached};
ghost use Rattle.ts_domain.specs.Rows.{AreRows};
ghost use Rattle.ts_domain.specs.Reaching.{from_of, target};

use crate::rows::row;
use c_graph::Graph;
use indexmap::IndexSet;
use mf_list::{Memory, Seq};
use std::alloc::Global;

fn add_node(nodes: &mut IndexSet<usize>, node: usize) -> Result<(), Memory>
    ensures { OnOk result (nodes.new.keys ≡ insert_key nat_eq nodes.old.keys node) }
{
    nodes.insert(node)?;
    Ok(())
}

fn add_target(graph: &Graph, place: usize, nodes: &mut IndexSet<usize>) -> Result<(), Memory>
    ensures { OnOk result (nodes.new.keys ≡ insert_all nat_eq nodes.old.keys (target graph.now place)) }
{
    match graph.edges.get(place) {
        None => Ok(()),
        Some(edge) => add_node(nodes, edge.to),
    }
}

fn add_targets(graph: &Graph, places: &[usize], nodes: &mut IndexSet<usize>) -> Result<(), Memory>
    ensures { OnOk result (nodes.new.keys ≡ insert_all nat_eq nodes.old.keys (flat_map (target graph.now) places.now)) }
{
    for place in places {
        add_target(graph, *place, nodes)?;
    }
    Ok(())
}

/// The nodes that are reached, each once.
pub fn reached(
    alloc: Global,
    graph: &Graph,
    outgoing: &[Seq<usize>],
) -> Result<IndexSet<usize>, Memory>
    requires { AreRows (map from_of graph.now.edges) outgoing.now }
    ensures { IfOk result (λ nodes. (v : ℕ) → Contains nodes.keys v ↔ Reached graph.now v) }
{
    let mut nodes = IndexSet::new(alloc);
    add_node(&mut nodes, 0)?;
    let mut done: usize = 0;
    while done < nodes.len() {
        let node = nodes.as_slice()[done];
        add_targets(graph, row(outgoing, node), &mut nodes)?;
        done += 1;
    }
    Ok(nodes)
}
