//! Callers of the collections that stand over the library, as `CALLING.md` of each quotes them.
#![tactic(auto)]

pub mod cache;
pub mod index;
pub mod intervals;
pub mod timers;
