//! Labelled sites of a crystal, each expanded to the points of its orbit in the cell. International Tables A, "crystallographic
//! orbit"; the labels are those of crystal structures. This project's own is that a site whose orbit an earlier site has is shown
//! as the same, and the grammar of a data line: a label and three coordinates.
//!
//! Proved: the data lines are all read, or the first bad one is told (`read_atom`, `read_atoms`). The expansion has the points of
//! each orbit under the first site that has it, ascending (`expand`), so each point of each orbit stands under exactly one site
//! (`each_point_stands_once`).
#![tactic(auto)]

mod atom;
mod atoms;
mod expansion;
mod fractions;
mod label;
mod laws;
mod printing;
mod same;

pub use atom::{Atom, read_atom};
pub use atoms::{AtomFault, AtomList, read_atoms};
pub use expansion::{Expanded, Expansion, expand};
pub use label::Label;
pub use laws::{
    each_point_stands_once, one_atoms_text, one_expansion, orbits_are_those_of_the_sites,
    site_is_unique, sites_are_written_or_bad,
};
pub use printing::print_atoms;

/// The most bytes that a label has.
pub const LABEL_LENGTH: usize = 16;

/// The most sites that an input has.
pub const MAX_ATOMS: usize = 4096;
