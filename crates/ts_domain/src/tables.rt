// What the edges of a graph look up: by function, by node, by context.
ghost use Rattle.std.specs.Prelude.{◌≡◌, Some, map, slice_get, IfOk};
ghost use Rattle.c_graph.specs.Executes.{callee_at, callee_in, callee_in_kind, ctx_at};
ghost use Rattle.c_graph.specs.Moves.{enters};
ghost use Rattle.ts_domain.specs.Rows.{row};
ghost use Rattle.ts_domain.specs.Tables.{callee_by, callee_of_edge, decl_parameter, entered, owner_key, owner_of, parameter_key, row_any, AreTables};

use crate::names::Names;
use crate::rows::{first, row, rows_of};
use c_graph::{Action, Edge, Graph, NodeKind, Way};
use c_tree::{Home, VarDef};
use mf_list::{Memory, Seq};
use std::alloc::Global;

/// The parameters of each function and the places of its pointer variables; the sites by node; and the edges that lead
/// into each context.
#[derive(Debug, Drop)]
pub struct Tables {
    pub parameters: Seq<Seq<usize>>,
    pub owned: Seq<Seq<usize>>,
    pub sites: Seq<Seq<usize>>,
    pub entering: Seq<Seq<usize>>,
}

fn parameter_key(home: Home) -> Option<usize>
    ensures { result ≡ parameter_key home }
{
    match home {
        Home::Global(_) => None,
        Home::Param(function) => Some(function),
        Home::Local(_) => None,
        Home::Result(_) => None,
    }
}

fn owner_key(home: Home) -> Option<usize>
    ensures { result ≡ owner_key home }
{
    match home {
        Home::Global(_) => None,
        Home::Param(function) => Some(function),
        Home::Local(function) => Some(function),
        Home::Result(function) => Some(function),
    }
}

fn owner_of(names: &Names, variable: usize) -> Option<usize>
    ensures { result ≡ owner_of names.now variable }
{
    match names.decls.get(variable) {
        None => None,
        Some(decl) => owner_key(decl.home),
    }
}

fn parameter_keys(alloc: Global, decls: &[VarDef]) -> Result<Seq<Option<usize>>, Memory>
    ensures { IfOk result (λ keys. keys ≡ map decl_parameter decls.now) }
{
    let mut keys = Seq::new(alloc);
    for decl in decls {
        keys.push(parameter_key(decl.home))?;
    }
    Ok(keys)
}

fn owner_keys(alloc: Global, names: &Names, vars: &[usize]) -> Result<Seq<Option<usize>>, Memory>
    ensures { IfOk result (λ keys. keys ≡ map (owner_of names.now) vars.now) }
{
    let mut keys = Seq::new(alloc);
    for variable in vars {
        keys.push(owner_of(names, *variable))?;
    }
    Ok(keys)
}

fn site_keys(alloc: Global, sites: &[usize]) -> Result<Seq<Option<usize>>, Memory>
    ensures { IfOk result (λ keys. keys ≡ map Some sites.now) }
{
    let mut keys = Seq::new(alloc);
    for site in sites {
        keys.push(Some(*site))?;
    }
    Ok(keys)
}

fn enters(way: Way) -> bool
    ensures { result ≡ enters way }
{
    match way {
        Way::Enter => true,
        Way::On | Way::True | Way::False | Way::Made | Way::NotMade | Way::Leave(_) => false,
    }
}

/// The context of a node.
pub fn ctx_at(graph: &Graph, node: usize) -> Option<usize>
    ensures { result ≡ ctx_at graph.now node }
{
    match graph.nodes.get(node) {
        None => None,
        Some(node) => Some(node.ctx),
    }
}

fn entered(graph: &Graph, edge: Edge) -> Option<usize>
    ensures { result ≡ entered graph.now edge }
{
    if enters(edge.way) {
        ctx_at(graph, edge.to)
    } else {
        None
    }
}

/// The context that each edge leads into, if it is that of a call.
pub fn entered_keys(
    alloc: Global,
    graph: &Graph,
    edges: &[Edge],
) -> Result<Seq<Option<usize>>, Memory>
    ensures { IfOk result (λ keys. keys ≡ map (entered graph.now) edges.now) }
{
    let mut keys = Seq::new(alloc);
    for edge in edges {
        keys.push(entered(graph, *edge))?;
    }
    Ok(keys)
}

/// The tables of names and a graph, each in one pass.
pub fn tables_of(alloc: Global, graph: &Graph, names: &Names) -> Result<Tables, Memory>
    ensures { IfOk result (AreTables names.now graph.now) }
{
    let parameters = parameter_keys(alloc, names.decls.as_slice())?;
    let owned = owner_keys(alloc, names, names.vars.as_slice())?;
    let sites = site_keys(alloc, names.sites.as_slice())?;
    let entering = entered_keys(alloc, graph, graph.edges.as_slice())?;
    Ok(Tables {
        parameters: rows_of(alloc, &parameters)?,
        owned: rows_of(alloc, &owned)?,
        sites: rows_of(alloc, &sites)?,
        entering: rows_of(alloc, &entering)?,
    })
}

/// The function that an action calls.
pub fn callee_in(action: &Action) -> Option<usize>
    ensures { result ≡ callee_in action.now }
{
    match action {
        Action::Call(callee, _) => Some(*callee),
        Action::Unset(_)
        | Action::Assign(_)
        | Action::Malloc(_, _, _)
        | Action::Getchar(_)
        | Action::Putchar(_)
        | Action::Printf(_, _)
        | Action::Test(_)
        | Action::Return(_)
        | Action::Close => None,
    }
}

fn callee_in_kind(kind: &NodeKind) -> Option<usize>
    ensures { result ≡ callee_in_kind kind.now }
{
    match kind {
        NodeKind::Gap(_, _) => None,
        NodeKind::Act(action) => callee_in(action),
        NodeKind::Exit(_) => None,
    }
}

fn callee_at(graph: &Graph, node: usize) -> Option<usize>
    ensures { result ≡ callee_at graph.now node }
{
    match graph.nodes.get(node) {
        None => None,
        Some(node) => callee_in_kind(&node.kind),
    }
}

fn callee_of_edge(graph: &Graph, place: usize) -> Option<usize>
    ensures { result ≡ callee_of_edge graph.now place }
{
    match graph.edges.get(place) {
        None => None,
        Some(edge) => callee_at(graph, edge.from),
    }
}

/// The function that the edge of a place calls, if there is one.
pub fn callee_by(graph: &Graph, place: Option<usize>) -> Option<usize>
    ensures { result ≡ callee_by graph.now place }
{
    match place {
        None => None,
        Some(place) => callee_of_edge(graph, place),
    }
}

/// The row of a function, if there is one.
pub fn row_any(rows: &[Seq<usize>], function: Option<usize>) -> &[usize]
    ensures { result.now ≡ row_any rows.now function }
{
    match function {
        None => &[],
        Some(function) => row(rows, function),
    }
}
