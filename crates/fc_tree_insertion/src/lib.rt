//! Insertion at a path down a tree, with every node that it takes made before a pair moves.
#![tactic(auto)]

pub mod insertion;
pub mod leaf;
pub mod new_nodes;
pub mod pool;
pub mod ready;
pub mod reservation;
pub mod spares;
mod steps_to_new_pair;
