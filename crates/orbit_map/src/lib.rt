//! The orbit of a point: its images under the space group that lie in one cell. International Tables A,
//! "crystallographic orbit".
//!
//! Proved: `orbit` lists its points, each once, ascending, and `multiplicity` is their number. A point has one such list
//! (`orbit_of_point`, `one_ordered_orbit`). For every rational point the order of the site-symmetry group times the
//! multiplicity is the number of members (`order_times_multiplicity`).
#![tactic(auto)]

mod count;
mod laws;
mod orbits;
pub mod parts;

pub use count::multiplicity;
pub use laws::{one_ordered_orbit, orbit_of_point, order_times_multiplicity, some_orbit};
pub use orbits::{image_in_cell, orbit};
