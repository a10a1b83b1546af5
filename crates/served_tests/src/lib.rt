//! Tests of the served map and the served graph: what operations leave, by hand and by chance, and a store of the map.
//!
//! Tests: here. Wrong bodies: none; a test promises nothing.
#![tactic(auto)]

#[cfg(test)]
mod by_chance;
#[cfg(test)]
mod graphs;
#[cfg(test)]
mod plain;
#[cfg(test)]
mod rooted;
#[cfg(test)]
mod stored;
#[cfg(test)]
mod worked;
