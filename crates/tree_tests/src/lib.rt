//! Maps over one shape at concrete types, with blocks of 1, 2 and 32 entries at least.
//!
//! Tests: here. Wrong bodies: none; a test promises nothing.
#![tactic(auto)]

#[cfg(test)]
mod tests;
