//! Printing into a text whose room is taken first.

pub use fc_vec::format::try_format;
