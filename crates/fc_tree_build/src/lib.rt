//! Building a sound tree from pairs that come in ascending order.
#![tactic(auto)]

pub mod builder;
pub mod growing;
pub mod ordered;
pub mod spares;
pub mod spine;
