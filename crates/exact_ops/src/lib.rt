//! Symmetry operators in whole numbers: a matrix and a translation in parts of a cell, modulo the translations of the lattice.
//! Beside them the lists of what is read, rational points, and elements of the space group.
//! International Tables A: the symmetry operation `x -> W x + t / UNIT`. The ranges are this project's own.
//!
//! Proved: products, inverses, images and whole shifts are exact (`compose`, `inverse`, `Op::image_of`, `Move::apply`,
//! `Move::then`). A number out of range, a matrix without an inverse in whole numbers and an entry outside -2..=2 are each
//! refused exactly where they occur (`Raw::of`, `Op::of`, `OpList::push`, `Point::of_coords`, and the calls above).
#![tactic(auto)]

mod divisors;
mod image;
mod matrix;
mod moves;
mod op;
mod op_list;
mod point;
mod raw;

pub use divisors::greatest_common_divisor;
pub use matrix::{Rotation, Vector};
pub use moves::Move;
pub use op::{Op, OpFault, compose, inverse};
pub use op_list::{NoMemory, OpList, PushFault};
pub use point::Point;
pub use raw::Raw;

/// The number of parts of a cell in which translations are counted.
pub const UNIT: u32 = 24;

/// The greatest size of an entry of a matrix that is read. No triplet has a greater one: each byte of a line adds at most 9.
pub const MAX_ENTRY: u32 = 2304;

/// The greatest size of a coordinate of a point, in cells.
pub const MAX_COORDINATE: u32 = 1_000_000_000;

/// The greatest denominator of a coordinate of a point as it is given.
pub const MAX_DENOMINATOR: u32 = 1_000_000;

/// The greatest size of a whole shift of an element of the space group, in cells.
pub const MAX_SHIFT: u64 = 10_000_000_000;
