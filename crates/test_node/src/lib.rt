//! Tests of lists of a fixed room and of nodes through their public calls, and the moves of calls on lists of given lengths.
#![tactic(auto)]

pub mod costs;
#[cfg(test)]
mod node;
#[cfg(test)]
mod slots;
