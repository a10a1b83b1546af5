//! What forks by the program's settings, in batches of served states, and in calls of `OrdMap`: seen by a gate, or by the threads
//! that the process has.
//!
//! Tests: here. Wrong bodies: none; a test promises nothing.
#![tactic(auto)]

#[cfg(test)]
mod batches;
#[cfg(test)]
mod ordered;
#[cfg(test)]
mod runs;
#[cfg(test)]
mod served;
#[cfg(test)]
mod tools;
#[cfg(test)]
mod watch;
