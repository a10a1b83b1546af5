//! The map type at concrete types: both kinds of blocks, and several block sizes.
//!
//! Tests: here. Wrong bodies: none; a test promises nothing.
#![tactic(auto)]

#[cfg(test)]
mod tests;
