//! What is derived from a graph: its triples, the puts that they forbid, and the pairs of puts that conflict.
#![tactic(auto)]

mod derivation;
mod edges;
mod freed;
mod gaps;
mod steps;
mod tables;

pub use derivation::derive;
