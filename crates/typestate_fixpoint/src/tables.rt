// What is looked up for each triple: the edges from a node, what edges do to pointers, and the puts of gaps.
ghost use Rattle.std.specs.Prelude.{◌≡◌, map, IfOk};
ghost use Rattle.ts_domain.specs.Reaching.{from_of};
ghost use Rattle.typestate_fixpoint.specs.Steps.{AreTables};

use crate::freed::{Puts, puts_of};
use c_graph::{Edge, Graph};
use mf_list::{Memory, Seq};
use std::alloc::Global;
use ts_domain::{Deed, Names, all_deeds, rows_of};

/// The places of the edges from each node, what each edge does to pointers, and the puts.
#[derive(Debug, Drop)]
pub struct Tables {
    pub outgoing: Seq<Seq<usize>>,
    pub deeds: Seq<Seq<Deed>>,
    pub puts: Puts,
}

fn from_keys(alloc: Global, edges: &[Edge]) -> Result<Seq<Option<usize>>, Memory>
    ensures { IfOk result (λ keys. keys ≡ map from_of edges.now) }
{
    let mut keys = Seq::new(alloc);
    for edge in edges {
        keys.push(Some(edge.from))?;
    }
    Ok(keys)
}

pub fn tables_of(alloc: Global, graph: &Graph, names: &Names) -> Result<Tables, Memory>
    ensures { IfOk result (AreTables names.now graph.now) }
{
    let keys = from_keys(alloc, graph.edges.as_slice())?;
    let outgoing = rows_of(alloc, &keys)?;
    let deeds = all_deeds(alloc, graph, names)?;
    let puts = puts_of(alloc, names)?;
    Ok(Tables {
        outgoing,
        deeds,
        puts,
    })
}
