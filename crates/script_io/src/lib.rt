//! Where a script comes from and where its report goes: sources and sinks of bytes, whose failures are counted.
#![tactic(auto)]

mod adapters;
mod memory;
mod sink;
mod source;

pub use adapters::{StdSink, StdSource};
pub use memory::{MemorySink, MemorySource};
pub use sink::{Sink, SinkFault};
pub use source::{Source, SourceFault};
