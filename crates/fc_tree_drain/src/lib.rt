//! Trees taken apart: their pairs given out in order from either end, those of a leaf by index.
#![tactic(auto)]

pub mod drain;
pub mod leaf_front;
pub mod owned;
pub mod stack;
