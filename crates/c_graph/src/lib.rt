//! The control flow graph of a program in all its contexts, and the machine whose control is a node of it.
#![tactic(auto)]

mod callees;
mod graph;
mod start;

pub use callees::callee_of_leave;
pub use graph::{Action, Edge, Graph, Node, NodeKind, Way};
pub use start::start_node;
