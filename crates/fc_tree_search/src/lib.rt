//! Search for a key down a tree, and what stands at the place that a search found.
#![tactic(auto)]

pub mod first_last;
pub mod lend;
pub mod neighbours;
pub mod search;
