//! Stretches that are put and joined with their neighbours.
ghost use Rattle.std.specs.Prelude.{◌≡◌, ◌<◌, true, false, IsOk, IsErr, IfErr, OnOk, OnErr};
ghost use Rattle.std.specs.Ordering.{is_lt};
ghost use Rattle.std.specs.declared.cmp.Ordering.TheVariants.{Less};
ghost use Rattle.fc_intervals.specs.Joined.{NoneJoint};
ghost use Rattle.fc_intervals.specs.JoinedPut.{IsPutJoined};
ghost use Rattle.fc_intervals.specs.Refusals.{goes_across, MayRefusePut, put_length, starts_at};
ghost use Rattle.fc_intervals.specs.Stretches.{IsKept, value_at_point};

use super::IntervalMap;
use fc_base::{Handle, TryClone, TryReserveError};
use std::ops::Range;

impl<K: Ord + Copy + Drop, V: PartialEq + TryClone, A: Handle> IntervalMap<K, V, A> {
    /// `try_put`, and then the new stretch is one with each neighbour that touches it and holds an equal value. Of equal values the first stretch's stays.
    /// An empty range has no points: nothing changes, no memory is taken, and the value is dropped.
    ///
    /// # Errors
    /// As of `try_put`: the map is then as it was, and the value comes back.
    pub fn try_put_joined(&mut self, range: Range<K>, value: V) -> Result<(), (V, TryReserveError)>
        requires { V.can_clone }
        ensures joined { is_lt (K.cmp range.start range.end) ≡ true → OnOk result (IsPutJoined K.cmp V.same V.eq range.start range.end value self.old self.new) }
        ensures empty { is_lt (K.cmp range.start range.end) ≡ false → IsOk result × (self.new ≡ self.old) }
        ensures unchanged { OnErr result (self.new ≡ self.old) }
        ensures back { IfErr result (λ e. e.0 ≡ value) }
        ensures error { IfErr result (λ e. MayRefusePut K.cmp V.may_refuse self.old range.start range.end e.1) }
        ensures full { is_lt (K.cmp range.start range.end) ≡ true → usize.MAX < put_length K.cmp self.old range.start range.end → IsErr result }
        ensures sure { starts_at K.cmp self.old range.start ≡ true → goes_across K.cmp self.old range.end ≡ false → IsOk result }
    {
        let (start, end) = (range.start, range.end);
        if !start.cmp(&end).is_lt() {
            return Ok(());
        }
        if let Err(refused) = self.try_put(start..end, value) {
            return Err(refused);
        }
        self.join_ends(start, end);
        Ok(())
    }

    // Joins what touches at both ends of a range that is not empty, and holds equal values.
    fn join_ends(&mut self, start: K, end: K)
        requires { K.cmp start end ≡ Less }
        ensures values { (p : K) → IsKept (λ x y. V.eq y x ≡ true) (value_at_point K.cmp self.old p) (value_at_point K.cmp self.new p) }
        ensures start { NoneJoint K.cmp V.eq start self.new }
        ensures end { NoneJoint K.cmp V.eq end self.new }
    {
        // Shows that no two stretches overlap.
        let _len = self.len();
        self.join_at(end);
        self.join_at(start);
    }
}
