//! The clauses of a problem, over a variable for each put that a cover may have, and the choice of puts that bits stand for.
#![tactic(auto)]

mod candidates;
mod choices;
mod conflicts;
mod listing;
mod making;
mod usable;

pub use choices::choice_of;
pub use making::clauses;
