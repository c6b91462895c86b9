// What is known where an edge begins.
use crate::facts::Facts;
use crate::names::Names;
use c_graph::Graph;

/// Names, graph and facts, and the node at which an edge begins.
#[derive(Clone, Copy)]
pub struct Known<'a> {
    pub names: &'a Names,
    pub graph: &'a Graph,
    pub facts: &'a Facts,
    pub node: usize,
}
