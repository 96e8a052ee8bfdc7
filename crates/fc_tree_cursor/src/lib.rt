//! Ways through a tree from pair to pair: paths to gaps between pairs, and the pairs between two of them.
#![tactic(auto)]

pub mod beside;
pub mod cuts;
pub mod ends;
pub mod gaps;
pub mod key_range;
pub mod leaf;
mod run;
pub mod span;
