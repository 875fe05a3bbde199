//! What the machine reads from and writes to: a source of bytes and a sink for bytes, each with a
//! count of its faults, so that a caller can say that a call failed only where the outside did.
//! There is a pair in memory, which tells its bytes, and a pair over std's streams, which does not.
#![tactic(auto)]

mod memory_sink;
mod memory_source;
mod outside;
mod std_sink;
mod std_source;

pub use memory_sink::MemorySink;
pub use memory_source::MemorySource;
pub use outside::{Failed, Sink, Source};
pub use std_sink::StdSink;
pub use std_source::StdSource;

#[cfg(test)]
mod tests;
