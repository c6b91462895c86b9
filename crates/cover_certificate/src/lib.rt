//! Certificates that a program frees each object once, and when they are closed for its graph.
#![tactic(auto)]

mod copies;
mod lines;
mod making;
mod types;

pub use copies::{may_copy, path_copy};
pub use making::make;
pub use types::{Cert, CertMark};
