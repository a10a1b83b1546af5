//! The bulk operations at concrete types, in threads.
//!
//! Tests: here. Wrong bodies: none; a test promises nothing.
#![tactic(auto)]

#[cfg(test)]
mod gate_tests;
#[cfg(test)]
mod given_up_tests;
#[cfg(test)]
mod refusal_tests;
#[cfg(test)]
mod runs;
#[cfg(test)]
mod tests;
