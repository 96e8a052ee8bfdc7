//! Trees of which one border may hold too few pairs: rebalanced, and made by a cut. Nothing here compares.
#![tactic(auto)]

pub mod counting;
pub mod cutting;
pub mod rebalancing;
