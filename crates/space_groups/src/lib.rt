//! The space group of a list of operators: site-symmetry groups, orbits, averages and the table of Wyckoff positions; and the
//! space group that a change of coordinates makes of another. International Tables A.
//!
//! Definitions and laws alone, for any number of parts of a cell and every rational point. Those of site-symmetry groups,
//! orbits and conjugate points stand behind contracts of `site_symmetry` and `orbit_map`, those of averages and keys behind
//! contracts of `affine_sets`, those of the search and the table behind contracts of `wyckoff_rows`, and those of changes of
//! coordinates behind contracts of `basis_change`. What none of these cites is a lemma.
#![tactic(auto)]
