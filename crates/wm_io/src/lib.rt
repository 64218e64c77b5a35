//! Sources of bytes and sinks for bytes.
//!
//! [`Source`] and [`Sink`] say what a read and a write do to the bytes that an object has left or
//! was given, where it tells them, and to its count of faults. [`MemorySource`] and
//! [`MemorySink`] tell everything, give and take bytes in small pieces and fail where they are told
//! to. [`StdSource`] and [`StdSink`] adapt std's readers and writers; they tell nothing of content,
//! and are the trusted edge. [`write_front`] gives a sink a text, in as many pieces as it takes.
#![tactic(auto)]

pub mod memory;
pub mod pending;
pub mod sink;
pub mod source;
pub mod standard;
pub mod writing;

pub use memory::{MemorySink, MemorySource};
pub use pending::{HasText, Pending};
pub use sink::{Put, Sink};
pub use source::{Got, Source};
pub use standard::{StdSink, StdSource};
pub use writing::{WriteFault, write_front};
