//! Reading at most so many bytes into a vector whose room is taken first.
mod try_read;
mod up_to;

pub use try_read::TryRead;
pub use up_to::try_read_up_to;
