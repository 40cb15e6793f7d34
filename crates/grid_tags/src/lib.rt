//! The grid list: the orbits of the points of a grid, each with its first point in ascending order. International Tables A for
//! orbits; which grids are kept, the order and the limits are this project's own.
//!
//! Proved: `accepts` says whether the group keeps the grid, and `GridOrbits::begin` refuses exactly the grids that it does not
//! keep. The calls of `GridOrbits::next` give the lines of the grid list in order and then None; a walk takes memory in `begin`
//! alone, a byte for each grid point of a cell. Every kept grid has one grid list (`some_grid_list`, `one_grid_list`), every grid
//! point of a cell is in the orbit of one listed point alone (`one_line_of_each_orbit`), and the sizes of the orbits have the
//! number of points as their sum (`sizes_of_orbits_sum_to_points`). The lines that were taken from a walk are the first of the
//! grid list (`lines_taken_are_first`). `first_points` gives for each grid point of a cell the first point of its orbit.
#![tactic(auto)]

mod axes;
mod firsts;
mod grid_orbits;
mod grid_size;
mod image;
mod keeping;
mod laws;
mod line;
mod ratios;
mod reduced;
mod tagging;

pub use firsts::first_points;
pub use grid_orbits::{GridFault, GridOrbits};
pub use grid_size::GridSize;
pub use keeping::accepts;
pub use laws::{
    lines_taken_are_first, one_grid_list, one_line_of_each_orbit, sizes_of_orbits_sum_to_points,
    some_grid_list,
};
pub use line::GridLine;

/// The most points along an axis.
pub const MAX_SIDE: u16 = 2048;

/// The most points that a grid may have in a cell.
pub const MAX_POINTS: u32 = 2_097_152;
