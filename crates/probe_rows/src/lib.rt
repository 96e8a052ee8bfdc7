//! What a probe of a map stands on: rows of text, the numbers that they tell, and items that count what is done to them.
#![tactic(auto)]

pub mod items;
pub mod row;
pub mod stretch;
