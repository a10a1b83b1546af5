//! Tests of the crates below the trees: the plain program, the instances, keys, folds, slices, sorts, sets, forks, turns and blocks.
//!
//! Tests: here. Wrong bodies: none; a test promises nothing.
#![tactic(auto)]

#[cfg(test)]
mod blocks;
#[cfg(test)]
mod forks;
#[cfg(test)]
mod gap_blocks;
#[cfg(test)]
mod instances;
#[cfg(test)]
mod keys;
#[cfg(test)]
mod plain_blocks;
#[cfg(test)]
mod plain_program;
#[cfg(test)]
mod ready_folds;
#[cfg(test)]
mod row_blocks;
#[cfg(test)]
mod sets;
#[cfg(test)]
mod signed_blocks;
#[cfg(test)]
mod slices;
#[cfg(test)]
mod sortings;
#[cfg(test)]
mod turns;
