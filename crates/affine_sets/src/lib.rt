//! Finite groups of elements of the space group, the points that they fix, their averages and the keys of these. By a
//! term of the field the average over the site-symmetry group of a point is its special-position operator. Keys are this
//! project's own.
//!
//! Proved: `mean` is the average exactly, and its image is exactly the set of points that all of the group fix, and that of all
//! M z + t (`image_of_average`); `full` lists exactly the elements that fix each point of the image, and `holds` says exactly
//! whether a point lies in it; `average_at` is the special-position operator of a point; `grow` gives exactly the group that a
//! group and one more element generate, and none exactly where no rational point is fixed by all of them; `near` moves a group
//! near the origin, and its whole shifts are then small; `key` is the first of all conjugates of an average, whole shifts of
//! any size included, and averages over full groups have one key exactly where an element carries one image onto the other
//! (`one_key_of_conjugate_images`). Every `Sub` is a finite group in the order of its operators, all of which fix a common
//! rational point. `param` gives a key in free coordinates, with exactly the points of its row.
#![tactic(auto)]

mod fixing;
mod growth;
mod holding;
mod keys;
mod laws;
pub mod numbers;
mod params;
pub mod parts;
mod special;
mod sub;

pub use fixing::{average_at, exact_quotient, full, holds};
pub use keys::{Sizes, column_sizes, key};
pub use laws::{image_of_average, one_key_of_conjugate_images};
pub use params::param;
pub use special::{Special, mean};
pub use sub::Sub;

/// The greatest size of a whole shift, in cells, in a group whose average is asked for its full group or its key.
pub const MAX_GROWN_SHIFT: u32 = 1_000_000;

/// The greatest size of a whole shift of a set near the origin, in cells.
pub const MAX_NEAR_SHIFT: u32 = 50;

/// The greatest size of a number of the translation of an average, in parts of a cell over the number of members.
pub const MAX_TRANSLATION: u64 = 50_000_000_000_000;
