//! Writing walks over the pairs of a map within two bounds, from both ends.
ghost use Rattle.std.specs.Prelude.{◌≡◌};
ghost use Rattle.fc_tree_cursor.specs.Leaf.{advanced};
ghost use Rattle.fc_tree_cursor.specs.Gap.{AreEndsIn, IsGapIn};
ghost use Rattle.fc_map.specs.Unique.{ends-prop, gap-prop};

mod debug;
mod range_mut_methods;

use super::BTreeMap;
use fc_base::Handle;
use fc_tree_node::path::Path;
use std::alloc::Global;

/// The values of a range that are still to be lent for writing, in ascending order of their keys. `next` lends the first of them
/// and `next_back` the last, each once; once there is none, both answer `None` ever after. No call compares keys or takes memory.
/// Upstream: `btree_map::RangeMut`.
pub struct RangeMut<'a, K: Ord, V, A: Handle = Global> {
    pub(crate) map: &'a mut BTreeMap<K, V, A>,
    // The front lies so many pairs of its leaf after where its path leads, and the leaf has pairs as far as the other number.
    pub(crate) front: Path,
    pub(crate) gone: usize,
    pub(crate) full: usize,
    pub(crate) back: Path,
    ghost ends: { AreEndsIn map.now (advanced front gone) back } by { ends-prop map.now (advanced front gone) back },
    ghost run_is: { IsGapIn map.now (advanced front full) } by { gap-prop map.now (advanced front full) },
}

// Dropped, a walk leaves the map with what was written: a derived `drop` would not say so.
impl<K: Ord, V, A: Handle> Drop for RangeMut<'_, K, V, A> {
    fn drop(self)
        ensures { self.exit.0.now ≡ self.entry.map.now }
    {
        let RangeMut {
            map: _,
            front: _,
            gone: _,
            full: _,
            back: _,
        } = self;
    }
}
