//! Callers of the ordered map whose contracts are proved from the map's public clauses alone: forms to start from.
#![tactic(auto)]

pub mod beside;
pub mod boxes;
pub mod compare;
pub mod entry;
pub mod extend;
pub mod into_iter;
pub mod iter;
pub mod iter_mut;
pub mod laws;
pub mod locks;
pub mod queries;
pub mod range;
pub mod ready;
pub mod refusals;
pub mod requests;
pub mod reservation;
pub mod stretches;
