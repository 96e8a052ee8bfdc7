//! Bounds as functions: a call at a type tells that the type meets the bound.
use std::error::Error;
use std::fmt::{Debug, Display};
use std::hash::Hash;

// Whether the type may be sent to another thread, and a `&` to it too.
pub fn crosses<T: Send + Sync>() -> bool {
    true
}

// Whether it may be sent to another thread.
pub fn sends<T: Send>() -> bool {
    true
}

// Whether `{:?}` prints it.
pub fn prints<T: Debug>() -> bool {
    true
}

// Whether it may be a key of a map, hashed or not, as a value of std's collections may.
pub fn compares<T: Ord + Hash>() -> bool {
    true
}

// Whether each value of it is equal to itself.
pub fn is_equal_to_itself<T: Eq>() -> bool {
    true
}

// Whether `clone` gives another.
pub fn copies<T: Clone>() -> bool {
    true
}

// Whether it is an error of std's kind, which prints for a reader too, and copies.
pub fn is_error<T: Error + Display + Debug + Copy + Eq>() -> bool {
    true
}
