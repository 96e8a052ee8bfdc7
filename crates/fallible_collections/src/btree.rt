//! Ordered collections.

pub mod map;

pub use fc_set::set;
pub use fc_set::set::BTreeSet;
pub use map::BTreeMap;
