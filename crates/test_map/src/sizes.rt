//! What the tests take the sizes of a tree and the costs of its calls to be, each said once.

/// The most pairs of a node.
pub(crate) const CAPACITY: usize = 15;

/// The number after those that fill a leaf, where they begin with one.
pub(crate) const BEYOND: u64 = CAPACITY as u64 + 1;

/// The fewest children of an inner node below the root.
pub(crate) const LEAST_CHILDREN: u64 = 8;

/// The most levels of a tree.
pub(crate) const MOST_LEVELS: usize = 22;

/// The most comparisons of a call on one key, for each level.
pub(crate) const LEVEL_COMPARISONS: u64 = 15;

/// The most moves of a call on one key, for each level.
pub(crate) const LEVEL_MOVES: u64 = 24;
