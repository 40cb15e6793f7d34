//! A space group in other coordinates: after a change of basis and origin that keeps the lattice, and after one that alters
//! the volume of the cell. International Tables A, 1.5: under `x' = Q x + q` a symmetry operation g becomes c g c^-1. Nothing is
//! divided in the definition: h is the changed map of g where h after c is c after g.
//!
//! Proved: the space group of the new list is the set of all c g c^-1, each g having its own in it (`change`, `recell`), and
//! there is one such group (`one_changed_group`, `some_changed_group`, `some_recelled_group`). Each refusal comes where it
//! is the first that holds, and all but the count of the operators is tested before memory is taken. Site-symmetry
//! groups and conjugate points are carried over; for a change of basis moreover orbits have as many points in a cell, h P is
//! absent exactly where h is, its mark is that of h but for twice the shift of the origin (`mark_in_another_basis`), and its
//! class has as many rows, with Friedel's law and without it. `Change::index` is h P, and `Change::point` is c x.
#![tactic(auto)]

pub mod basis;
pub mod cell;
mod elements;
mod frame;
mod generator;
mod laws;
pub mod parts;
mod points;
mod quotient;
mod wide;

pub use basis::{ChangeFault, change};
pub use cell::{CellChange, RecellFault, recell};
pub use laws::{mark_in_another_basis, one_changed_group, some_changed_group, some_recelled_group};

/// The greatest denominator of a change of the cell, and the greatest size of an entry of its matrix.
pub const MAX_CELL: u32 = 12;
