//! Sources and sinks of bytes that count their faults: over memory, and over the runtime's readers
//! and writers.
#![tactic(auto)]

mod keeping;
mod memory;
mod standard;
mod traits;

pub use keeping::TextSink;
pub use memory::{MemSink, MemSource, PlainSource};
pub use standard::{StdSink, StdSource};
pub use traits::{Failed, Sink, Source, write_whole};

#[cfg(test)]
mod tests;
