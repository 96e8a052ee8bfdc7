//! A closure asked of each pair of a tree in turn, by which those stay at which it answers true, with the tree rebalanced after.
#![tactic(auto)]

mod filter;
mod filtering;
mod rebalancing;
pub mod retain;
pub mod stretch;
mod within;
