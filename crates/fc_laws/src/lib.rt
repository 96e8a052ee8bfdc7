//! The laws of the lists that ordered maps are, the words in which callers of `fc_map` say them, and how much memory a map holds, by how many pairs it has.
#![tactic(auto)]

pub mod bounds;

pub use bounds::{held_within, most_bytes, most_inner_nodes, most_nodes};
