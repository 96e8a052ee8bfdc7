//! Vectors whose growth may be refused, and collections made of what an iterator gives.

mod collect;
mod copies;
mod fallible_copy_vec;
mod fallible_vec;
mod try_vec;

pub use collect::{TryCollect, TryFromIterator};
pub use copies::try_from_elem;
pub use fallible_copy_vec::FallibleCopyVec;
pub use fallible_vec::FallibleVec;
pub use try_vec::{Iter, TryVec};
