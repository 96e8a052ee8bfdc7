//! Nodes of a B-tree, and the calls on one node.
#![tactic(auto)]

pub mod descent;
pub mod lend;
pub mod node;
pub mod nodes;
pub mod path;
