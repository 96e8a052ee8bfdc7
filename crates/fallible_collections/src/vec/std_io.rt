//! Reading at most so many bytes into a vector.

pub use fc_vec::read::{TryRead, try_read_up_to};
