//! Clauses, logs that refute them, and the check of such a log.
#![tactic(auto)]

mod arena;
mod claim;
mod closure;
mod code;
mod facts;
mod front;
mod infer;
mod log_check;
mod look;
mod problem;
mod usage;
mod visit;
mod watches;

pub use log_check::refutes;
pub use problem::{Clauses, Lit, Log, are_below};
