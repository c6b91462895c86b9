//! The facts that hold of pointers on every path to a node.
#![tactic(auto)]

mod before;
mod corrections;
mod deeds;
mod numbering;
mod paths;
mod shows;
mod start;
mod worklist;

pub use deeds::over_deeds;
pub use numbering::{Numbering, numbering_of};
pub use paths::path;
pub use start::{full, start_set};
