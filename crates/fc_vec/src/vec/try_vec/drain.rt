//! A stretch of a vector's items, taken out by a walk.
ghost use Rattle.std.specs.Prelude.{◌≡◌, ◌≤◌, length, slice_range};
ghost use Rattle.std.specs.Borrow.{sem};
ghost use Rattle.std.specs.Iterator.Runs.{YieldsInOrder, YieldsInReverse};
ghost use Rattle.std.specs.List.{remove_range};
ghost use Rattle.std.specs.Range.Bound.{start_index, end_index};
ghost use Rattle.std.specs.Vec.Iter.{drain_steps, drain_steps_back, drain_items, drain_kept, drain_capacity, DrainKeepsAlong};
ghost use Rattle.fc_vec.specs.Lends.{lends_drain_in};

use super::TryVec;
use fc_base::Handle;
use std::ops::RangeBounds;
use std::vec;

impl<T: Drop, A: Handle> TryVec<T, A> {
    /// Takes out the items in the range, which lies within the length: std's walk gives them from both ends. Once it is dropped, those
    /// that it did not give are dropped, and the vector has the others and its room. Not in upstream: it is that of std's vector,
    /// which panics at a range that does not lie within the length.
    pub fn drain<R: RangeBounds<usize>>(&mut self, range: R) -> vec::Drain<'_, T, A>
        requires start_le_end { start_index (R.start_bound range) ≤ end_index (R.end_bound range) (length self.old.items) }
        requires in_bounds { end_index (R.end_bound range) (length self.old.items) ≤ length self.old.items }
        requires has_bounds { R.has_bounds range }
        ensures* writes_back { sem 𝓛 (lends_drain_in T.row A.row A.Allocator self.entry result) }
        ensures items { drain_items result ≡ slice_range self.old.items (start_index (R.start_bound range)) (end_index (R.end_bound range) (length self.old.items)) }
        ensures runs { YieldsInOrder (drain_steps {X = T} {Z = A}) drain_items }
        ensures runs_back { YieldsInReverse (drain_steps_back {X = T} {Z = A}) drain_items }
        ensures kept { drain_kept result ≡ remove_range self.old.items (start_index (R.start_bound range)) (end_index (R.end_bound range) (length self.old.items)) }
        ensures room { drain_capacity result ≡ self.old.room }
        ensures stays { DrainKeepsAlong result }
    {
        self.inner.drain(range)
    }
}
