//! A cache within a budget, which evicts what was used least lately.
#![tactic(auto)]

pub mod cache;
pub mod held;
pub mod put_error;
mod recency;

pub use cache::Cache;
pub use fc_base::TryReserveError;
pub use held::Held;
pub use put_error::PutError;
