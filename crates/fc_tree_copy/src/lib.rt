//! Copies of trees.
#![tactic(auto)]

pub mod clones;
pub mod copy;
pub mod tree;
