//! What calls of maps share and look at, counted by values and images of the callers: no contract sees it.
//!
//! Tests: here. Wrong bodies: none; a test promises nothing.
#![tactic(auto)]

#[cfg(test)]
mod images;
#[cfg(test)]
mod ord_maps;
#[cfg(test)]
mod put_with;
#[cfg(test)]
mod tracked;
