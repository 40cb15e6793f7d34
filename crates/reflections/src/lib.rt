//! The class list of a box of indices: the classes of symmetry-equivalent reflections, each with its first index in descending
//! order. International Tables B; the order and the limits are this project's own.
//!
//! Proved: the calls of `ClassList::next` give the lines of the class list in order and then None, for the pairs that `begin`
//! was given; `begin` alone takes memory, a byte for each index. Every box has one class list (`some_class_list`,
//! `one_class_list`), and for each index of the box one line alone has an equivalent index (`one_line_of_each_class`). The lines
//! that were taken from a walk are the first of the class list (`lines_taken_are_first`), and a line whose index is in a smaller
//! box is a line of that box too (`lines_of_a_smaller_box`).
#![tactic(auto)]

mod box_size;
mod class_list;
mod laws;
mod line;
mod tagging;

pub use box_size::BoxSize;
pub use class_list::ClassList;
pub use laws::{
    lines_of_a_smaller_box, lines_taken_are_first, one_class_list, one_line_of_each_class,
    some_class_list,
};
pub use line::ClassLine;

/// The greatest number of a box.
pub const MAX_HALF: u16 = 200;

/// The most indices that a box may have.
pub const MAX_PLACES: u32 = 2_097_152;
