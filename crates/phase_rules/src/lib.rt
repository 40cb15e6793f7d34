//! What a space group says of one reflection: whether it is systematically absent, whether its phase is restricted, and how
//! many reflections are equivalent to it. International Tables B: with the symmetry operation (W, t) the structure factor
//! at h W is that at h times exp(-2 pi i h.t).
//!
//! Proved: `mark` says absent, restricted to this phase, or neither, each exactly where it is so; `fixers` counts the members
//! with h W = h; `class_size` is the number of different equivalents, those out of range too. A row has one mark, and so all
//! members that restrict the phase of a present reflection agree (`mark_of_index`, `one_mark`); each row has a class
//! (`class_of_index`), whose size is a quotient of numbers of members (`class_size_by_members`). Equivalent reflections are
//! absent together (`equivalent_reflections`), the mark of one says that of each (`mark_of_equivalent_reflection`), and 0 0 0 is
//! never absent (`mark_of_origin`).
#![tactic(auto)]

pub mod halves;
pub mod index;
mod laws;
pub mod pairs;
pub mod parts;
mod reflection;
pub mod tallies;

pub use index::Index;
pub use laws::{
    class_of_index, class_size_by_members, equivalent_reflections, mark_of_equivalent_reflection,
    mark_of_index, mark_of_origin, one_mark,
};
pub use pairs::Pairs;
pub use reflection::{class_size, fixers, mark};

/// The greatest size of a number of an index.
pub const MAX_INDEX: u32 = 10_000;
