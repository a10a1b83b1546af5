//! What C calls: each export is one call of a handle's crate, and states its contract again.
//!
//! An export is given references, which C must not make of null pointers; so its name begins with `pam_x_`, and the public name is
//! that of a function of `bindings/c/pam_null.c`, which tests for null first. `include/pam.h` says what the calls mean.
//!
//! Tests: `border_tests`, of the calls behind the exports, and `bindings/check`, from C, Rust and Python. Wrong bodies: here, in
//! `wrong-bodies/`.
#![tactic(auto)]

mod intervals;
mod maps;
mod seqs;
mod text_maps;
