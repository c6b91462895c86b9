//! A solver of clauses that learns, with a log for each refusal.
#![tactic(auto)]

mod answer;
mod cells;
mod code;
mod known;
mod learning;
mod marks;
mod minimization;
mod order;
mod pace;
mod plain;
mod propagation;
mod resolution;
mod search;
mod trail;
mod watches;

pub use answer::{Answer, solve};
pub use mf_list::Memory;
