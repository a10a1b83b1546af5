//! Tests of what serves versions to threads: logs, versions, the root and lanes.
//!
//! Tests: here. Wrong bodies: none; a test promises nothing.
#![tactic(auto)]

#[cfg(test)]
mod guarded;
#[cfg(test)]
mod history;
#[cfg(test)]
mod journals;
#[cfg(test)]
mod logs;
#[cfg(test)]
mod rings;
#[cfg(test)]
mod roots;
