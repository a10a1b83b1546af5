//! Tests of the tools serve and gserve through the whole program: worked inputs, edges that fail, many records, and threads that overlap.
//!
//! Tests: here. Wrong bodies: none; a test promises nothing.
#![tactic(auto)]

#[cfg(test)]
mod edges;
#[cfg(test)]
mod graphs;
#[cfg(test)]
mod many;
#[cfg(test)]
mod meetings;
#[cfg(test)]
mod order;
#[cfg(test)]
mod runs;
#[cfg(test)]
mod turns;
#[cfg(test)]
mod verdicts;
#[cfg(test)]
mod worked;
