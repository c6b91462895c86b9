// Whether a certificate is closed for a graph.
ghost use Rattle.std.specs.Prelude.{◌≡◌, ◌↔◌, ◌<◌, ℕ, Err, IfOk, length, map, max, true};
ghost use Rattle.std.specs.List.{Contains};
ghost use Rattle.path_facts.specs.Numbering.{IsNumbering};
ghost use Rattle.ts_domain.specs.Path.{Reached};
ghost use Rattle.ts_domain.specs.Reaching.{from_of};
ghost use Rattle.ts_domain.specs.Rows.{AreRows};
ghost use Rattle.cover_certificate.specs.Closed.{IsClosed, IsFirstBroken};
ghost use Rattle.cover_certificate.specs.Regular.{is_regular};
ghost use Rattle.cert_checker.specs.Checked.{BrokenAt, MakesSafe};
ghost use Rattle.cert_checker.specs.Checking.{node_of, HasRooms, IsReady};

use crate::checking::Checking;
use crate::copies::facts_of;
use crate::nodes::reason_at;
use crate::refusal::CheckRefusal;
use crate::regular::is_regular;
use c_graph::Graph;
use cover_certificate::Cert;
use indexmap::IndexSet;
use mf_list::{Memory, Seq};
use path_facts::{Numbering, numbering_of};
use std::alloc::Global;
use ts_domain::{Names, all_deeds, reached, rows_of};

/// The places of the edges that begin at each node.
fn edge_rows(alloc: Global, graph: &Graph) -> Result<Seq<Seq<usize>>, Memory>
    ensures { IfOk result (λ rows. AreRows (map from_of graph.now.edges) rows) }
{
    let edges = graph.edges.as_slice();
    let mut keys = Seq::new(alloc);
    for edge in edges {
        keys.push(Some(edge.from))?;
    }
    rows_of(alloc, &keys)
}

/// The places of the marks at each node.
fn mark_rows(alloc: Global, cert: &Cert) -> Result<Seq<Seq<usize>>, Memory>
    ensures { IfOk result (λ rows. AreRows (map node_of cert.now.marks) rows) }
{
    let marks = cert.marks.as_slice();
    let mut keys = Seq::new(alloc);
    for mark in marks {
        keys.push(Some(mark.node))?;
    }
    rows_of(alloc, &keys)
}

/// The first condition that is broken at a node, if one is.
fn broken_at(
    alloc: Global,
    checking: Checking,
    numbering: &Numbering,
    nodes: &IndexSet<usize>,
    node: usize,
) -> Result<Option<u16>, Memory>
    requires ready { IsReady checking }
    requires numbering { IsNumbering checking.names.now numbering.now }
    requires rooms { HasRooms checking.names.now checking.cert.now.path }
    requires regular { is_regular checking.names.now checking.graph.now checking.cert.now ≡ true }
    requires nodes { (v : ℕ) → Contains nodes.now.keys v ↔ Reached checking.graph.now v }
    requires low { node < max 1 (length checking.graph.now.nodes) }
    ensures { IfOk result (BrokenAt checking.entry.names.now checking.entry.graph.now checking.entry.cert.now node) }
{
    let is_reached = nodes.contains(&node);
    reason_at(alloc, checking, numbering, is_reached, node)
}

fn check_nodes(
    alloc: Global,
    checking: Checking,
    numbering: &Numbering,
    nodes: &IndexSet<usize>,
) -> Result<(), CheckRefusal>
    requires ready { IsReady checking }
    requires numbering { IsNumbering checking.names.now numbering.now }
    requires rooms { HasRooms checking.names.now checking.cert.now.path }
    requires regular { is_regular checking.names.now checking.graph.now checking.cert.now ≡ true }
    requires nodes { (v : ℕ) → Contains nodes.now.keys v ↔ Reached checking.graph.now v }
    ensures ok { IfOk result (λ _. IsClosed checking.entry.names.now checking.entry.graph.now checking.entry.cert.now) }
    ensures refused { (v r : ℕ) → result ≡ Err (CheckRefusal.NotClosed v r) → IsFirstBroken checking.entry.names.now checking.entry.graph.now checking.entry.cert.now v r }
{
    for node in 0..checking.graph.nodes.len().max(1) {
        if let Some(reason) = broken_at(alloc, checking, numbering, nodes, node)? {
            return Err(CheckRefusal::NotClosed(node, reason));
        }
    }
    Ok(())
}

fn check_regular(
    alloc: Global,
    graph: &Graph,
    names: &Names,
    numbering: &Numbering,
    cert: &Cert,
) -> Result<(), CheckRefusal>
    requires numbering { IsNumbering names.now numbering.now }
    requires rooms { HasRooms names.now cert.now.path }
    requires regular { is_regular names.now graph.now cert.now ≡ true }
    ensures ok { IfOk result (λ _. IsClosed names.now graph.now cert.now) }
    ensures refused { (v r : ℕ) → result ≡ Err (CheckRefusal.NotClosed v r) → IsFirstBroken names.now graph.now cert.now v r }
{
    let facts = facts_of(alloc, cert)?;
    let deeds = all_deeds(alloc, graph, names)?;
    let edges = edge_rows(alloc, graph)?;
    let marks = mark_rows(alloc, cert)?;
    let nodes = reached(alloc, graph, edges.as_slice())?;
    let checking = Checking {
        graph,
        names,
        cert,
        facts: &facts,
        deeds: &deeds,
        edges: &edges,
        marks: &marks,
    };
    check_nodes(alloc, checking, numbering, &nodes)
}

/// Whether a certificate is closed for a graph with the frees that stand in its gaps. Each well-formed program with this graph
/// is safe then. A certificate that isn't regular is refused for its first condition. The graph is that of a program, and the
/// names are theirs.
pub fn check(alloc: Global, graph: &Graph, names: &Names, cert: &Cert) -> Result<(), CheckRefusal>
    ensures ok { IfOk result (λ _. IsClosed names.now graph.now cert.now) }
    ensures refused { (v r : ℕ) → result ≡ Err (CheckRefusal.NotClosed v r) → IsFirstBroken names.now graph.now cert.now v r }
    ensures safe { IfOk result (λ _. MakesSafe names.now graph.now) }
{
    let numbering = numbering_of(alloc, names)?;
    if !is_regular(alloc, graph, names, &numbering, cert)? {
        return Err(CheckRefusal::NotClosed(0, 1));
    }
    check_regular(alloc, graph, names, &numbering, cert)
}
