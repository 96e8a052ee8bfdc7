//! Walks that read a tree or take it apart, from both ends: over all pairs, over keys, over values, and between two bounds.
#![tactic(auto)]

pub mod compare;
mod debug;
pub mod into_iter;
pub mod into_keys;
pub mod into_values;
pub mod iter;
pub mod range;
