//! The text of a program whose gaps are filled anew: the changes, and the text that they make.
#![tactic(auto)]

mod change;
mod edits;
mod gaps;
mod puts;
mod walk;
mod writing;

pub use change::{Change, Writing};
pub use edits::edit;
