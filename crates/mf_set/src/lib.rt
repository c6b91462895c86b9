//! Sets of numbers below a bound, in words of 64 bits.
#![tactic(auto)]

mod bit_set;
mod words;

pub use bit_set::BitSet;

/// Want of memory, the one answer that no clause ties to a cause.
pub type Memory = std::alloc::AllocError;
