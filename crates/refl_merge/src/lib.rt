//! Measured reflections merged by classes of symmetry-equivalent indices: how many lines a class has, the sum of their values,
//! whether the class is systematically absent, and whether a value was observed all the same. International Tables B; the order
//! of the classes is this project's own.
//!
//! Proved: `merge` gives the merged list: each class with a line in it once, by its greatest index, in descending order, with the
//! number of its lines and the sum of their values, absences marked exactly. `class_key` gives that index. Every list has one
//! merged list (`some_merged_list`, `one_merged_list`), in which each line is counted in one class (`one_class_of_each_line`) and
//! the counts add up to the number of lines (`counts_of_all_lines`). `read_list` gives what all lines write, or the first bad one,
//! and each input is one or the other (`measured_lines_are_read_or_bad`); `print_merged` writes the text of a merged list.
#![tactic(auto)]

mod class_keys;
mod entries;
mod laws;
mod measured;
mod merged;
mod merging;
mod printing;
mod reading;
mod rows;

pub use class_keys::class_key;
pub use laws::{
    counts_of_all_lines, measured_line_is_unique, measured_lines_are_read_or_bad, one_class_key,
    one_class_of_each_line, one_merged_list, one_text_of_merged_lines, some_class_key,
    some_merged_list, test_of_equivalence,
};
pub use measured::{Measured, MeasuredList};
pub use merged::{Merged, MergedLine};
pub use merging::merge;
pub use printing::print_merged;
pub use reading::{MeasuredFault, read_list, read_measured};
