//! The engine as a library for C: `sg_answer` gives the answer of the command `sg` to words and an input in memory, and a
//! handle, `sg_group`, keeps a group for questions about it. include/sg.h declares what is exported here, for C.
//!
//! Proved of `sg_answer`: status, text and fault text are those of the one answer that the words and the input have, and the
//! lengths are those of the texts. Of a handle: it holds no group, or the group that the operators of its input generate; each
//! question about it is answered for that group, and leaves the handle as it was. That a C program passes pointers to as many
//! bytes as it says, to different places where one is written, is for its author to see to.
#![tactic(auto)]

mod answer;
mod arrays;
mod changes;
mod group;
mod handle;
mod kept;
mod loose;
mod maps;
mod members;
mod merging;
mod positions;
mod questions;
mod slice_source;
mod text_sink;
mod words;

/// The status of a call that asks for what is out of range, as that of words that are no command in range.
pub const OUT_OF_RANGE: u8 = 2;

/// The status of a change of which no group comes, as that of the program.
pub const NOT_KEPT: u8 = 8;

/// The status of a call that wanted memory, as that of the program.
pub const NO_MEMORY: u8 = 9;

/// The status of a call whose arrays are not of one length, as that of a wrong number of data lines.
pub const WRONG_COUNT: u8 = 12;

/// The status of a question about a handle that holds no group.
pub const EMPTY: u8 = 13;
