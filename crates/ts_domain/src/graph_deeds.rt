// What goes over the edges of a graph does to pointers.
ghost use Rattle.std.specs.Prelude.{◌≡◌, map, slice_get, IfOk};
ghost use Rattle.c_graph.specs.Executes.{callee_in};
ghost use Rattle.ts_domain.specs.Deeds.{action_deeds, edge_deeds, kind_deeds};
ghost use Rattle.ts_domain.specs.Rows.{row};
ghost use Rattle.ts_domain.specs.Tables.{callee_by, row_any, AreTables};

use crate::deed::Deed;
use crate::edges::action_deeds;
use crate::names::Names;
use crate::rows::first;
use crate::tables::{Tables, callee_by, callee_in, row_any, tables_of};
use c_graph::{Edge, Graph, Node, NodeKind};
use mf_list::{Memory, Seq};
use std::alloc::Global;

/// What stands at a node does over an edge, with the place of the first edge that leads into its context.
fn kind_deeds(
    alloc: Global,
    graph: &Graph,
    names: &Names,
    tables: &Tables,
    edge: Edge,
    entering: Option<usize>,
    kind: &NodeKind,
) -> Result<Seq<Deed>, Memory>
    requires { AreTables names.now graph.now tables.now }
    ensures { IfOk result (λ list. list ≡ kind_deeds names.now (slice_get (row tables.now.sites edge.from) 0) (callee_by graph.now entering) edge.way kind.now) }
{
    match kind {
        NodeKind::Gap(_, _) => Ok(Seq::new(alloc)),
        NodeKind::Exit(_) => Ok(Seq::new(alloc)),
        NodeKind::Act(action) => {
            let site = first(tables.sites.as_slice(), edge.from);
            let parameters = row_any(tables.parameters.as_slice(), callee_in(action));
            let owned = row_any(tables.owned.as_slice(), callee_by(graph, entering));
            action_deeds(alloc, names, site, parameters, owned, edge.way, action)
        }
    }
}

fn node_deeds(
    alloc: Global,
    graph: &Graph,
    names: &Names,
    tables: &Tables,
    edge: Edge,
    node: &Node,
) -> Result<Seq<Deed>, Memory>
    requires { AreTables names.now graph.now tables.now }
    ensures { IfOk result (λ list. list ≡ kind_deeds names.now (slice_get (row tables.now.sites edge.from) 0) (callee_by graph.now (slice_get (row tables.now.entering node.now.ctx) 0)) edge.way node.now.kind) }
{
    let entering = first(tables.entering.as_slice(), node.ctx);
    kind_deeds(alloc, graph, names, tables, edge, entering, &node.kind)
}

/// What goes over an edge does to pointers.
fn edge_deeds(
    alloc: Global,
    graph: &Graph,
    names: &Names,
    tables: &Tables,
    edge: Edge,
) -> Result<Seq<Deed>, Memory>
    requires { AreTables names.now graph.now tables.now }
    ensures { IfOk result (λ list. list ≡ edge_deeds names.now graph.now edge) }
{
    match graph.nodes.get(edge.from) {
        None => Ok(Seq::new(alloc)),
        Some(node) => node_deeds(alloc, graph, names, tables, edge, node),
    }
}

/// What goes over each edge does to pointers, in the order of the edges.
pub fn all_deeds(alloc: Global, graph: &Graph, names: &Names) -> Result<Seq<Seq<Deed>>, Memory>
    ensures { IfOk result (λ list. list ≡ map (edge_deeds names.now graph.now) graph.now.edges) }
{
    let tables = tables_of(alloc, graph, names)?;
    let edges = graph.edges.as_slice();
    let mut list = Seq::new(alloc);
    for edge in edges {
        list.push(edge_deeds(alloc, graph, names, &tables, *edge)?)?;
    }
    Ok(list)
}

/// What goes over one edge does to pointers. It looks at the whole graph; where many edges are asked for take `all_deeds`.
pub fn deeds_of(
    alloc: Global,
    graph: &Graph,
    names: &Names,
    edge: Edge,
) -> Result<Seq<Deed>, Memory>
    ensures { IfOk result (λ list. list ≡ edge_deeds names.now graph.now edge) }
{
    let tables = tables_of(alloc, graph, names)?;
    edge_deeds(alloc, graph, names, &tables, edge)
}
