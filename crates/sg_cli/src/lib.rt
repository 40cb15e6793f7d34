//! The command `sg`, from its words and its input to its output and its status: `run`. The program around it has `main` alone.
//! Words, statuses and texts are this project's own.
//!
//! Proved of `run`, clause by clause: status, output and fault text are those of the answer that the words and the bytes have.
//! Of bytes that a stream does not tell, as those of the process do not, nothing is said.
//! There is an answer to all words and bytes (`some_answer`), and one only (`answer_is_unique`). A refusal comes exactly where
//! it is the first that applies; 3 comes exactly where a read failed in this call, and 4 where a write of the output did. Where
//! nothing fails, the text is printed whole, or memory is wanted, which is status 9. The rows that are printed are a Wyckoff
//! table of the group that is asked about, and each class of reflections or orbit of grid points that is asked for has exactly
//! one of the lines.
//! For `sample` nothing is read, and all of it holds also where a source tells no bytes. Operators that generate one group have
//! one answer (`answer_of_one_group`), and one text of rows (`rows_of_one_group`).
#![tactic(auto)]

mod answers;
mod call;
mod fault;
mod laws;
mod words;

pub use call::{run, tell};
pub use fault::Fault;
pub use laws::{answer_is_unique, answer_of_one_group, rows_of_one_group, some_answer};
pub use words::{Command, Input, read_words};

/// The most digits that the denominator of a change of the cell has among the words.
pub const CELL_DIGITS: usize = 2;

/// The most digits that the seed of a made group has among the words.
pub const SEED_DIGITS: usize = 10;

/// The greatest number of bytes that an input may have.
pub const MAX_INPUT: u32 = 1_048_576;
