//! Which sites flow to which pointer variables and fields.
#![tactic(auto)]

mod answers;
mod bounds;
mod flows;
mod following;
mod found;
mod readers;
mod start;
mod table;
mod writes;
mod writing;

pub use flows::may;
