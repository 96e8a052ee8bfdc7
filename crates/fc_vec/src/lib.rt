//! Collections of items, made by calls that may be refused; bounded reading into a vector, and printing into a text.
#![tactic(auto)]

pub mod format;
pub mod read;
pub mod vec;

pub use vec::{
    FallibleCopyVec, FallibleVec, Iter, TryCollect, TryFromIterator, TryVec, try_from_elem,
};
