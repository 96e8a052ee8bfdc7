//! Vectors whose growth may be refused, and collections made of what an iterator gives.

pub mod std_io;

pub use fc_vec::vec::{
    FallibleCopyVec, FallibleVec, Iter, TryCollect, TryFromIterator, TryVec, try_from_elem,
};
