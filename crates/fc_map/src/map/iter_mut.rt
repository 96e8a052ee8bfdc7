//! Writing walks over all values of a map, from both ends.
ghost use Rattle.std.specs.Prelude.{◌≡◌, ◌+◌, ◌≤◌, length};
ghost use Rattle.fc_tree_cursor.specs.Leaf.{advanced};
ghost use Rattle.fc_tree_cursor.specs.Gap.{AreEndsIn, IsGapIn};
ghost use Rattle.fc_tree_node.specs.TreePlace.{before_gap_in};
ghost use Rattle.fc_map.specs.Unique.{ends-prop, gap-prop};

mod debug;
mod iter_mut_methods;

use super::BTreeMap;
use fc_base::Handle;
use fc_tree_node::path::Path;
use std::alloc::Global;

/// The values that are still to be lent for writing, in ascending order of their keys. `next` lends the first of them and
/// `next_back` the last, each once; once there is none, both answer `None` ever after. No call compares keys or takes memory.
/// Upstream: `btree_map::IterMut`.
pub struct IterMut<'a, K: Ord, V, A: Handle = Global> {
    pub(crate) map: &'a mut BTreeMap<K, V, A>,
    // The front lies `gone` pairs of its leaf after where its path leads, and `base` pairs of the map lie before there. As far as
    // `full` the leaf has pairs, and the walk has not come to its end, before which `end` pairs lie: within a leaf `gone` alone changes.
    pub(crate) front: Path,
    pub(crate) base: usize,
    pub(crate) gone: usize,
    pub(crate) full: usize,
    pub(crate) back: Path,
    pub(crate) end: usize,
    ghost ends: { AreEndsIn map.now (advanced front gone) back } by { ends-prop map.now (advanced front gone) back },
    ghost run_is: { IsGapIn map.now (advanced front full) } by { gap-prop map.now (advanced front full) },
    ghost front_counted: { base + gone ≡ length (before_gap_in map.now (advanced front gone)) },
    ghost back_counted: { end ≡ length (before_gap_in map.now back) },
    ghost within: { base + full ≤ end },
}

/// A walk that lends all values for writing: `IterMut` lends no key, so it is that walk. Upstream: `btree_map::ValuesMut`.
pub type ValuesMut<'a, K, V, A: Handle = Global> = IterMut<'a, K, V, A>;

// Dropped, a walk leaves the map with what was written: a derived `drop` would not say so.
impl<K: Ord, V, A: Handle> Drop for IterMut<'_, K, V, A> {
    fn drop(self)
        ensures { self.exit.0.now ≡ self.entry.map.now }
    {
        let IterMut {
            map: _,
            front: _,
            base: _,
            gone: _,
            full: _,
            back: _,
            end: _,
        } = self;
    }
}
