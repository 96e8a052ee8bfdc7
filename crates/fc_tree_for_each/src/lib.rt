//! A closure called at each pair between two gaps, with its value lent for writing.
#![tactic(auto)]

pub mod tree;
pub mod visit;
