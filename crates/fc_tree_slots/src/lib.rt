//! Lists of a fixed room: at most so many items, with the room for them taken at the start.
#![tactic(auto)]

mod cells;
pub mod children;
mod raw;
pub mod rest;
pub mod slots;
