//! Every group without an entry beyond 2 has one list of rows, and it is the table of its Wyckoff positions: laws alone, for any
//! number of parts of a cell. It has no code: crates with code cite its proofs.
#![tactic(auto)]
