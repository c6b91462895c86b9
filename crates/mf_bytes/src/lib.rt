//! Bytes with several owners, for the names and strings that tokens and trees share.
#![tactic(auto)]

mod shared;

pub use shared::SharedBytes;
