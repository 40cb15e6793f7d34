mod calls;
mod repeat;
mod sink;
mod source;

pub use repeat::RepeatSource;
pub use sink::{MemSink, NoFailSink};
pub use source::{MemSource, NoFailSource};

/// There is no memory for a source or a sink.
#[derive(Clone, Copy, Debug, PartialEq, Eq)]
pub struct NoIoMemory;
