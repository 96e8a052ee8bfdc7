//! Counts of comparisons and moves, and of requests for memory, for contracts alone.

pub use fc_base::asked::Asked;
pub use fc_base::count::{Count, compare};
