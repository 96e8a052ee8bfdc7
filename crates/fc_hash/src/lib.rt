//! A hashed map and a hashed set whose growth may be refused.
#![tactic(auto)]

pub mod hashmap;
pub mod hashset;

pub use hashmap::TryHashMap;
pub use hashset::TryHashSet;
