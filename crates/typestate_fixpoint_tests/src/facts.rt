//! Both kinds of facts of a graph.
use alias_facts::may;
use c_graph::Graph;
use mf_list::Memory;
use path_facts::path;
use std::alloc::Global;
use ts_domain::{Facts, Names};

/// Which sites flow where, and what holds on every path to a node.
pub fn facts_of(alloc: Global, graph: &Graph, names: &Names) -> Result<Facts, Memory> {
    let may = may(alloc, graph, names)?;
    let path = path(alloc, graph, names)?;
    Ok(Facts { may, path })
}
