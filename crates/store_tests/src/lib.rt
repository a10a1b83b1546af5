//! Tests of the store: turns and ends of rounds, refused changes, many callers in threads, and snapshots beside a turn.
//!
//! Tests: here. Wrong bodies: none; a test promises nothing.
#![tactic(auto)]

#[cfg(test)]
mod digits;
#[cfg(test)]
mod many;
#[cfg(test)]
mod refusing;
#[cfg(test)]
mod single;
#[cfg(test)]
mod stores;
