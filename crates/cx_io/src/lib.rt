//! Where bytes come from and go to, with a count of the faults: over memory, for tests, and over the readers
//! and writers of std.
#![tactic(auto)]

mod failed;
mod mem_sink;
mod mem_source;
mod sink;
mod source;
mod std_sink;
mod std_source;

pub use failed::Failed;
pub use mem_sink::MemSink;
pub use mem_source::MemSource;
pub use sink::Sink;
pub use source::Source;
pub use std_sink::StdSink;
pub use std_source::StdSource;

#[cfg(test)]
mod tests;
