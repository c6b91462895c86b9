//! Bytes from outside and to outside: sources, sinks, and their whole reads and writes.
#![tactic(auto)]

mod mem_sink;
mod mem_source;
mod outside;
mod standard;
mod steady;
mod unread;
mod whole;

pub use mem_sink::MemSink;
pub use mem_source::MemSource;
pub use outside::{Failed, Sink, Source};
pub use standard::{StdSink, StdSource};
pub use steady::{SteadySink, SteadySource};
pub use unread::Unread;
pub use whole::{Memory, ReadRefusal, WriteRefusal, read_all, write_all};

#[cfg(test)]
mod tests;
