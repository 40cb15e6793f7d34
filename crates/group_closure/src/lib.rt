//! The group that a list of symmetry operators generates, modulo the translations of the lattice: all products of listed
//! operators and their inverses, in one fixed order. A list that generates too many, or one too wide, is refused.
//! International Tables A: the operations of a space group modulo its lattice translations; the order and the limits are this
//! project's own.
//!
//! Proved: `Group::close` gives exactly these products, the identity first, then in order, each once, and refuses exactly where
//! there are more than `MAX_OPERATORS` or one has an entry outside -2..=2. Each list is one or the other
//! (`closes_or_is_unclosed`, `unclosed_never_closes`) and has one group list at most (`one_group_list`). Places of members,
//! products and inverses are right (`find`, `product`, `inverse_of`), and so is where the members with one matrix end, and where
//! those with the opposite matrix begin (`run_end`, `opposite_run`). Lagrange's theorem: `members_of_a_subgroup_divide`.
#![tactic(auto)]

mod buckets;
mod closing;
mod group;
mod halving;
mod laws;
mod order;
mod runs;
mod table;

pub use group::{CloseFault, Group};
pub use laws::{
    closes_or_is_unclosed, members_of_a_subgroup_divide, one_group_list, same_members_same_list,
    short_narrow_list_closes, unclosed_never_closes,
};

/// The most members that a group may have. In a conventional cell a space group has at most 48 rotation parts, each with at
/// most four translations, those of a face-centred lattice. Each place in a group fits a u8.
pub const MAX_OPERATORS: usize = 192;
