//! Made input for the command `sample`: eight groups, and points by a generator of numbers. All of it is this project's own.
//!
//! Proved: the triplets of each of the eight groups are read, and close (`samples_close`), so `sample_group` has no refusal but
//! want of memory. `count_points` says of each row how many of the points that are made from a seed fit it; these counts have the
//! number of points as their sum (`counts_have_the_number_of_points_as_sum`). A list closes where it lies in a closed set of few
//! narrow operators (`list_in_a_closed_set_closes`).
#![tactic(auto)]

mod counting;
mod groups;
mod laws;
mod points;

pub use counting::{POINTS, count_points};
pub use groups::{number_of, sample_group};
pub use laws::{
    counts_have_the_number_of_points_as_sum, list_in_a_closed_set_closes, samples_close,
};
pub use points::Draws;
