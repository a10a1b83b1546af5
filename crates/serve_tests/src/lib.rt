//! Tests of the tool serve: what a served map answers, and the lines of a version.
//!
//! Tests: here. Wrong bodies: none; a test promises nothing.
#![tactic(auto)]

#[cfg(test)]
mod answers;
#[cfg(test)]
mod texts;
