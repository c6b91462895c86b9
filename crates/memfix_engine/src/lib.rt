//! The repair and the replay of a C text, from bytes to bytes.
#![tactic(auto)]

mod analysis;
mod certifying;
mod choosing;
mod command;
mod constructs;
mod notes;
mod outcome;
mod own_frees;
mod refusal;
mod repairs;
mod replays;
mod request;
mod source;

pub use command::memfix;
pub use refusal::{RepairRefusal, ReplayRefusal, SourceRefusal};
pub use repairs::{SOURCE_LIMIT, repair};
pub use replays::replay;
pub use source::read_source;
