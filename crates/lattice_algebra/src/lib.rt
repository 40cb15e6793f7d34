//! Laws of matrices and columns over the whole numbers, of remainders, of affine maps and of operators modulo a cell, and
//! solvers for equations of polynomials and for machine arithmetic. The operators are those of International Tables A, the rest is
//! standard algebra. It has no code: other crates cite its specs and proofs.
#![tactic(auto)]
