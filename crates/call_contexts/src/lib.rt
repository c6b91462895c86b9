//! The contexts of a program: its call strings from `main`, in depth-first order.
#![tactic(auto)]

mod call_strings;
mod calls;
mod context;

pub use call_strings::contexts;
pub use context::{Contexts, Ctx};
