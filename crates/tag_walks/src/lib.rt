//! Walks by tags through a finite region of elements in order, of which some are equivalent: a walk goes from one free place to
//! the next, lists the element there, and tags all that are equivalent to it. What the elements are, a box of indices or the
//! points of a grid, is left to the crates above.
//!
//! Proved: `first_free` finds the next free place. The lemmas are laws of regions: what a walk lists are the elements without
//! an earlier equivalent, each once, in order (proofs/Walks); the lines taken so far are the first of that list (proofs/Firsts);
//! there is one such list, with one element of each class (proofs/Whole); and places of three digits keep their order
//! (proofs/Digits). Other crates state what they need of these as laws of their own.
#![tactic(auto)]

mod free;

pub use free::first_free;
