//! From a program to its control flow graph in all contexts.
#![tactic(auto)]

mod actions;
mod conditions;
mod forms;
mod growing;
mod listing;
mod lowering;
mod numbers;
mod parts;
mod places;
mod ranks;
mod rows;
mod slots;
mod source;
mod steps;
mod tables;

pub use lowering::lower;
