//! Sequences at concrete types, with blocks of 1, 2 and 32 items at least.
//!
//! Tests: here. Wrong bodies: none; a test promises nothing.
#![tactic(auto)]

#[cfg(test)]
mod borders;
#[cfg(test)]
mod both_ends;
#[cfg(test)]
mod counts;
#[cfg(test)]
mod editing;
#[cfg(test)]
mod examples;
#[cfg(test)]
mod finding;
#[cfg(test)]
mod growing;
#[cfg(test)]
mod in_place;
#[cfg(test)]
mod lists;
#[cfg(test)]
mod sharing;
#[cfg(test)]
mod single;
#[cfg(test)]
mod texts;
