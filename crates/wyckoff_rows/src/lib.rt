//! The table of Wyckoff positions of a group. International Tables A; the rows, their keys and their order are this project's
//! own.
//!
//! Proved: `rows` is the table, for every group: every rational point fits exactly one row, every row fits some point, points
//! of one row are conjugate and conversely, and a row's number of points is that of the orbit of each of its points in a cell;
//! it is also the one row list, which the group determines (`some_row_list`, `one_row_list`, `row_list_is_a_table`), the one list
//! that is a table and whose rows are those of averages (`row_list_by_averages`). Its first row is the general position
//! (`first_row_is_the_general_position`), and points of one orbit fit one row (`one_row_of_each_orbit`). `fit` gives the place
//! of the one row that a point fits.
//!
//! The rows are found by a search over finite groups of elements of the space group. Each group that is kept is grown by
//! elements that fix some point of its fixed points; what it grows to is kept where its key is new.
#![tactic(auto)]

mod candidates;
mod entry;
mod fitting;
mod keeping;
mod laws;
pub mod parts;
mod ranges;
mod spans;
mod table;

pub use fitting::fit;
pub use laws::{
    first_row_is_the_general_position, multiplicity_counts_the_orbit, one_row_list,
    one_row_of_conjugate_points, one_row_of_each_orbit, one_row_of_each_point,
    row_list_by_averages, row_list_is_a_table, some_row_list,
};
pub use parts::Row;
pub use table::rows;
