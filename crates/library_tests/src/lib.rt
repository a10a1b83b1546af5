//! Tests of the libraries over maps: intervals, points, documents and graphs.
//!
//! Tests: here. Wrong bodies: none; a test promises nothing.
#![tactic(auto)]

#[cfg(test)]
mod bookings;
#[cfg(test)]
mod components;
#[cfg(test)]
mod doc_batches;
#[cfg(test)]
mod documents;
#[cfg(test)]
mod graphs;
#[cfg(test)]
mod intervals;
#[cfg(test)]
mod matches;
#[cfg(test)]
mod orders;
#[cfg(test)]
mod points;
#[cfg(test)]
mod shortest_first;
#[cfg(test)]
mod weighing;
