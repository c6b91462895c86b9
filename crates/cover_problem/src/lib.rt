//! What a choice of puts has to meet, and whether one does.
#![tactic(auto)]

mod allowed;
mod barred;
mod copies;
mod covers;
mod exits;
mod making;
mod types;

pub use barred::alone;
pub use covers::is_cover;
pub use making::problem;
pub use types::Problem;
