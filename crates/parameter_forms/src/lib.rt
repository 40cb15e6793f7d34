//! The parameter form of a row of the table of Wyckoff positions: its points in free coordinates, such as `x,x,0`, as
//! International Tables A prints them. Which coordinates are free, and the form itself, are this project's own rule.
//!
//! Proved: `form_of` gives the form of any pair of a matrix and a translation, and it has exactly the points of the pair; a pair
//! has one form only (`one_form`).
#![tactic(auto)]

mod coefficients;
mod forms;
mod laws;
mod param;
mod vectors;

pub use forms::form_of;
pub use laws::{form_has_the_points, one_form};
pub use param::Param;

/// The greatest number of members over which a matrix stands.
pub const MAX_NUMBER: u32 = 192;

/// The greatest size of an entry of a matrix of which the form is asked.
pub const MAX_MATRIX: u32 = 2 * MAX_NUMBER;

/// The greatest size of a 2 by 2 minor of such a matrix, and of a coefficient before it is counted over the number of members.
pub const MAX_MINOR: u32 = 2 * MAX_MATRIX * MAX_MATRIX;

/// The greatest number over which a form stands.
pub const MAX_OVER: u32 = MAX_NUMBER * MAX_MINOR;
