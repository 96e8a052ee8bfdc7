//! An allocator with a cap on the bytes that are out at once, for any program, in one thread or in several, and the count behind it.
#![tactic(auto)]

pub mod account;
pub mod budget;
mod capped;
mod meter;
pub mod shared_budget;

pub use account::Account;
pub use budget::Budget;
pub use shared_budget::SharedBudget;
