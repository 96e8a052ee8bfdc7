//! What the tests take the bytes of a tree to be whose nodes hold a handle of one word, each said once.

/// More bytes than any test takes.
pub(crate) const AMPLE: usize = 1 << 20;

/// The most pairs of a node.
pub(crate) const CAPACITY: u64 = 15;

/// The most pairs of a tree of two levels that was filled in ascending order.
pub(crate) const TWO_LEVELS: u64 = 150;

/// A node itself: two lists, each of them an address, a length and a handle, and whether there is the second one.
pub(crate) const NODE: usize = 56;

/// Room for the children of a node.
const CHILDREN: usize = 16 * NODE;

/// A leaf of a map of numbers: room for its pairs.
pub(crate) const LEAF: usize = 15 * 16;

/// An inner node of a map of numbers.
pub(crate) const INNER: usize = LEAF + CHILDREN;

/// A leaf of a set of numbers.
pub(crate) const SET_LEAF: usize = 15 * 8;

/// An inner node of a set of numbers.
pub(crate) const SET_INNER: usize = SET_LEAF + CHILDREN;
