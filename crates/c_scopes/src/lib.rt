//! Which variables are in scope at the gaps of a program.
#![tactic(auto)]

mod in_scope;
mod visible;
mod walk;

pub use in_scope::InScope;
pub use visible::scope_at;
pub use walk::{Turn, turns};
