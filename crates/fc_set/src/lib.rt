//! The ordered set.
#![tactic(auto)]

pub mod set;
