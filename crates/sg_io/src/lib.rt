//! Where bytes come from and where they go: the traits of a source and of a sink, what stands for them in memory, and
//! the adapters over the streams of std. They are this project's own.
//!
//! Proved: `read_all` gives all bytes up to the end, or says why not; `put_all` hands over all bytes, or a prefix with its
//! cause. Each names a fault exactly where the stream counted one, so none hides a failed call behind a second try. The
//! streams in memory fail exactly the calls that they were told to. `StdSource` tells the bytes that its reader tells; the
//! writer behind `StdSink` has taken exactly the bytes that a write counts, and after a fault at most a prefix of the piece.
#![tactic(auto)]

mod count;
mod memory;
mod sink;
mod source;
mod std_streams;

pub use memory::{MemSink, MemSource, NoFailSink, NoFailSource, NoIoMemory, RepeatSource};
pub use sink::{Sink, SinkStop, put_all};
pub use source::{Failed, ReadStop, Source, read_all};
pub use std_streams::{StdSink, StdSource};
