//! Tests of the border, without C: the calls on handles, and maps as bytes.
//!
//! Tests: here. Wrong bodies: none; a test promises nothing.
#![tactic(auto)]

#[cfg(test)]
mod intervals;
#[cfg(test)]
mod maps;
#[cfg(test)]
mod maps_as_bytes;
#[cfg(test)]
mod seqs;
#[cfg(test)]
mod text_maps;
