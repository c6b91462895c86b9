//! The interpreter: the runs of a program, step by step, as the machine of `c_meaning` defines them.
#![tactic(auto)]

mod calls;
mod conditions;
mod deeds;
mod expressions;
mod forms;
mod frees;
mod numbers;
mod output;
mod parts;
mod places;
mod runs;
mod stepping;
mod store;

pub use runs::{live, run, start};
pub use stepping::step;
