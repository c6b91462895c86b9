//! What a C program means: the machine that runs it, its steps, and when a program is safe and when
//! two are the same. The definitions stand in `specs/`.
#![tactic(auto)]

mod cells;
mod machine;
mod stack;
mod supply;
mod texts;
mod value;

pub use cells::Cells;
pub use machine::{Ending, Frame, Kind, Location, Machine, Object, Stop};
pub use stack::Stack;
pub use supply::Supply;
pub use texts::{kind_of, kind_text};
pub use value::Value;
