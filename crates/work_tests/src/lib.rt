//! What calls of maps take, counted by keys, augmented values and tests of the callers, and which of them fork: no contract sees it.
//!
//! Tests: here. Wrong bodies: none; a test promises nothing.
#![tactic(auto)]

#[cfg(test)]
mod batches;
#[cfg(test)]
mod changes;
#[cfg(test)]
mod combinations;
#[cfg(test)]
mod counted;
#[cfg(test)]
mod filters;
#[cfg(test)]
mod folds;
#[cfg(test)]
mod forks;
#[cfg(test)]
mod given_up;
#[cfg(test)]
mod in_place;
#[cfg(test)]
mod many;
#[cfg(test)]
mod passes;
#[cfg(test)]
mod slices;
#[cfg(test)]
mod sums;
#[cfg(test)]
mod tracked;
#[cfg(test)]
mod unions;
#[cfg(test)]
mod walks;
#[cfg(test)]
mod work;
