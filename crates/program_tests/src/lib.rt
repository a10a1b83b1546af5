//! Tests of the program: the replies of its tools, and whole runs.
//!
//! Tests: here. Wrong bodies: none; a test promises nothing.
#![tactic(auto)]

#[cfg(test)]
mod checks;
#[cfg(test)]
mod faults;
#[cfg(test)]
mod largest;
#[cfg(test)]
mod many_gets;
#[cfg(test)]
mod many_puts;
#[cfg(test)]
mod plainly;
#[cfg(test)]
mod programs;
#[cfg(test)]
mod samples;
