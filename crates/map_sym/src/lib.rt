//! Values at the points of a grid, summed over the orbits of a group that keeps the grid: what a map of the asymmetric unit's
//! contributions comes to with all symmetry-equivalent ones. International Tables A for orbits; that each point of an orbit is
//! taken once, and that values are whole numbers, are this project's own.
//!
//! Proved: `symmetrize` gives at each grid point of a cell the sum of the given values over the points of its orbit in the
//! cell, each taken once, and the sum of all values as the total. The sums at two points of one orbit are equal, and those at
//! the points of the grid list have the total as their sum: both are clauses of `symmetrize`, and laws of all summed maps
//! (`one_sum_of_each_orbit`, `sums_of_grid_list_are_total`). Values have one summed map (`some_summed_map`, `one_summed_map`).
//! `read_values` reads a value for each grid point, or tells the first bad line, or that there is another number of values
//! (`lines_are_values_or_refused`, `lines_say_one_thing`). `print_map` prints the grid list with the sum at each of its points,
//! and then the total (`one_map_text`).
#![tactic(auto)]

mod gathering;
mod laws;
mod plain_lines;
mod printing;
mod reading;
mod sym_map;
mod values;

pub use laws::{
    lines_are_values_or_refused, lines_say_one_thing, one_map_text, one_sum_of_each_orbit,
    one_summed_map, some_summed_map, sums_of_grid_list_are_total,
};
pub use printing::print_map;
pub use reading::{ValueFault, read_value, read_values};
pub use sym_map::{SymMap, symmetrize};
pub use values::Values;
