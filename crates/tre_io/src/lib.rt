//! Sources and sinks of bytes, and whether a failure came from outside.
//!
//! A program that reads and writes takes a [`Source`] and a [`Sink`]. Each says what a call does to
//! the bytes where the object tells them, and keeps a count of faults: a call answers [`Failed`]
//! only where that count rose. [`put_all`] writes a whole slice, however few bytes a sink takes at
//! a time. [`MemSource`] and [`MemSink`] tell everything, and fail at the calls that a test chose;
//! [`FileSource`] and [`StdSink`] are those of the system.
//!
//! ```
//! fn greet<K: Sink>(sink: &mut K) -> Result<(), Failed> {
//!     put_all(sink, b"hello\n")
//! }
//! ```
#![tactic(auto)]

mod calls;
mod faults;
mod file_source;
mod memory_sink;
mod memory_source;
mod put;
mod sink;
mod source;
mod std_sink;

pub use faults::Failed;
pub use file_source::FileSource;
pub use memory_sink::MemSink;
pub use memory_source::MemSource;
pub use put::put_all;
pub use sink::Sink;
pub use source::Source;
pub use std_sink::StdSink;
