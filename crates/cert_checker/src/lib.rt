//! Whether a certificate is closed for a graph.
#![tactic(auto)]

mod checking;
mod closed;
mod copies;
mod edges;
mod facts;
mod flows;
mod frees;
mod matching;
mod nodes;
mod posts;
mod refusal;
mod regular;

pub use closed::check;
pub use refusal::CheckRefusal;
