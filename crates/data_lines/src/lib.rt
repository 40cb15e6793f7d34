//! Data lines: each is skipped, or writes a value of the kind that is asked for. What a line writes is said by the kind
//! (`Datum`), which lines are skipped by `triplet_text`. This project's own.
//!
//! Proved: the values of all lines that are not skipped are read, in order, or the first bad line is told (`read_data`,
//! `lines_are_written_or_bad`, `values_are_one_list`). A line is cut into its fields (`one_field`, `four_fields`), and a
//! field is read as a whole number (`read_number`).
#![tactic(auto)]

mod fields;
mod number;
mod read;

pub use fields::{four_fields, one_field};
pub use number::{NUMBER_DIGITS, read_number};
pub use read::{DataFault, Datum, read_data};
