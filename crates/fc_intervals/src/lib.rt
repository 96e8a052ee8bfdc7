//! A map from points to values, by half-open stretches that do not overlap.
#![tactic(auto)]

mod debug;
mod first_gap;
pub mod gaps;
mod joins;
pub mod map;
mod steps;
pub mod stretch;

pub use fc_base::{TryClone, TryReserveError};
pub use gaps::Gaps;
pub use map::IntervalMap;
pub use stretch::Stretch;
