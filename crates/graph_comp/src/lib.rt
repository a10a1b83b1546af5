//! The connected components of a graph, by forests.
//!
//! A forest has of each vertex a parent, which is not greater; a root is its own parent, so it is the least vertex of its tree. Each
//! edge makes the trees of its two ends one: of their two roots the greater gets the lesser as its parent. Paths to roots are halved
//! on the way (Tarjan and van Leeuwen, Worst-case analysis of set union algorithms, Journal of the ACM 31, 1984). Parts of the edges
//! make forests of their own, side by side, and two forests are united as if the second one's parents were edges.
//!
//! Tests: `library_tests`. Wrong bodies: here, in `wrong-bodies/`.
#![tactic(auto)]

mod forest;
mod labelled;
mod labelling;
mod spanning;
mod vertices;

pub use labelled::Labelled;
pub use labelling::components;
