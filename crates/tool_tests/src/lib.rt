//! Tests of what the tools read and write without the program around them: sources and sinks, records, and many points at once.
//!
//! Tests: here. Wrong bodies: none; a test promises nothing.
#![tactic(auto)]

#[cfg(test)]
mod edges;
#[cfg(test)]
mod many_points;
#[cfg(test)]
mod records;
#[cfg(test)]
mod serve_records;
