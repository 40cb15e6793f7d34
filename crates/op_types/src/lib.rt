//! What kind of symmetry operation an operator is: a rotation or a rotation with the inversion, its order, its intrinsic
//! part and its axis. International Tables A, symmetry operations. All of it comes from the operator itself, and nothing from a
//! table.
//!
//! Proved: `kind`, `intrinsic` and `axis` are what their definitions say, and each member of a group has one type (`one_type`).
//! An operation, as often as the order of its matrix says, is the translation by so many times its intrinsic part
//! (`intrinsic_part_of_a_power`). The orders of a rotation part and of a proper part divide the number of members
//! (`order_divides_length`, `proper_order_divides_length`).
#![tactic(auto)]

mod axes;
mod cycle;
mod direction;
mod intrinsic_part;
mod kinds;
mod laws;
pub mod parts;
mod proper_part;

pub use axes::axis;
pub use intrinsic_part::{Frac3, intrinsic};
pub use kinds::kind;
pub use laws::{
    intrinsic_part_of_a_power, one_type, order_divides_length, proper_order_divides_length,
};
