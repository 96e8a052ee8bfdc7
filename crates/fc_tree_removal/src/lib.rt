//! Removal at a place of a tree and at its ends, with the nodes above it rebalanced, and replacement at a place.
#![tactic(auto)]

pub mod first_last;
pub mod removal;
pub mod replacement;
