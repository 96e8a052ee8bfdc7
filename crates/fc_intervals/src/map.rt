//! The map: stretches of points, by their starts.
ghost use Rattle.std.specs.Prelude.{◌≡◌, ◌↔◌, ◌-◌, ◌<◌, [], ◌∷◌, length, slice_get, is_some, true, false, IsTrue, IsOk, IsErr, IfErr, IfNone, IfSome, OnOk, OnErr, None, Some};
ghost use Rattle.std.specs.Ordering.{is_lt, is_le};
ghost use Rattle.std.specs.declared.cmp.Ordering.TheVariants.{Less};
ghost use Rattle.fc_map.specs.Entries.{now_value};
ghost use Rattle.fc_intervals.specs.Joined.{IsJoined, NoneJoint};
ghost use Rattle.fc_intervals.specs.Put.{IsPut};
ghost use Rattle.fc_intervals.specs.Refusals.{goes_across, MayRefusePut, MayRefuseRest, parted_length, put_length, starts_at};
ghost use Rattle.fc_intervals.specs.Steps.{IsCut};
ghost use Rattle.fc_intervals.specs.Taken.{IsTaken, stretch_of};
ghost use Rattle.fc_intervals.specs.Stretches.{AreApart, AreGaps, IsKept, IsLookUp, IsWritten, now_stretch, overlapping, stretch_at, value_at_point};

use crate::gaps::Gaps;
use crate::stretch::Stretch;
use crate::{joins, steps};
use fc_base::{Count, Handle, TryClone, TryReserveError};
use fc_map::map::{self, BTreeMap, Iter};
use std::alloc::Global;
use std::marker::Model;
use std::ops::Range;

mod extend;
mod handed;
mod joined;
mod open;
mod value;
mod whole;

/// A map from points to values by half-open stretches: each holds its start and the points after it up to its end, and not its end.
/// No stretch is empty, and no two overlap. Only calls that answer a `Result` take memory.
#[derive(Drop)]
pub struct IntervalMap<K: Ord, V, A: Handle = Global> {
    map: BTreeMap<K, Stretch<K, V>, A>,
}

impl<K: Ord, V, A: Handle> Model for IntervalMap<K, V, A> {
    ghost use Rattle.std.specs.Prelude.{List};
    ghost use Rattle.fc_map.specs.Entries.{entries};
    ghost use Rattle.fc_intervals.specs.Stretches.{AreApart};
    ghost use Rattle.fc_intervals.specs.declared.stretch.Stretch.{Stretch};

    ghost Value = { List (K × Stretch K V) };

    ghost view = { λ m. entries m.map };

    ghost invariant = { λ m. AreApart K.cmp (entries m.map) };
}

impl<K: Ord, V, A: Handle> IntervalMap<K, V, A> {
    /// A map of no stretch, which takes no memory. Later requests go to `alloc`.
    pub fn new(alloc: A) -> IntervalMap<K, V, A>
        ensures { result ≡ [] }
    {
        IntervalMap {
            map: BTreeMap::new(alloc),
        }
    }

    /// A map of no stretch, as `new` makes it.
    pub fn default(alloc: A) -> IntervalMap<K, V, A>
        ensures { result ≡ [] }
    {
        IntervalMap::new(alloc)
    }

    /// The number of stretches.
    pub fn len(&self) -> usize
        ensures value { result ≡ length self.now }
        ensures apart { AreApart K.cmp self.now }
    {
        self.map.len()
    }

    /// Whether there is no stretch.
    pub fn is_empty(&self) -> bool
        ensures { IsTrue result ↔ (self.now ≡ []) }
    {
        self.map.is_empty()
    }

    /// A walk over all stretches from both ends, in ascending order: each as its start, with its end and its value.
    pub fn iter(&self) -> Iter<'_, K, Stretch<K, V>, A>
        ensures stretches { result ≡ self.now }
        ensures apart { AreApart K.cmp result }
    {
        self.map.iter()
    }
}

impl<K: Ord + Copy, V, A: Handle> IntervalMap<K, V, A> {
    /// The value at a point: that of the stretch that covers it. `None` where none does.
    pub fn get(&self, at: K) -> Option<&V>
        ensures value { now_value result ≡ value_at_point K.cmp self.now at }
        ensures apart { AreApart K.cmp self.now }
    {
        self.get_counted(at, &mut Count::new())
    }

    /// `get`, with its comparisons added to the count.
    pub fn get_counted(&self, at: K, count: &mut Count) -> Option<&V>
        ensures value { now_value result ≡ value_at_point K.cmp self.now at }
        ensures apart { AreApart K.cmp self.now }
        ensures look_up { IsLookUp (length self.now) count.old count.new }
    {
        match steps::covering(&self.map, &at, count) {
            Some((_start, stretch)) => Some(&stretch.value),
            None => None,
        }
    }

    /// Whether a stretch covers a point.
    pub fn contains(&self, at: K) -> bool
        ensures { result ≡ is_some (value_at_point K.cmp self.now at) }
    {
        self.get(at).is_some()
    }

    /// The stretch that covers a point, and its value. `None` where none does.
    pub fn get_key_value(&self, at: K) -> Option<(Range<K>, &V)>
        ensures stretch { now_stretch result ≡ stretch_at K.cmp self.now at }
        ensures apart { AreApart K.cmp self.now }
    {
        match steps::covering(&self.map, &at, &mut Count::new()) {
            Some((start, stretch)) => Some((*start..stretch.end, &stretch.value)),
            None => None,
        }
    }

    /// The first stretch, and its value. `None` where there is none.
    pub fn first(&self) -> Option<(Range<K>, &V)>
        ensures stretch { now_stretch result ≡ slice_get self.now 0 }
        ensures apart { AreApart K.cmp self.now }
    {
        match self.map.first_key_value() {
            Some((start, stretch)) => Some((*start..stretch.end, &stretch.value)),
            None => None,
        }
    }

    /// The last stretch, and its value. `None` where there is none.
    pub fn last(&self) -> Option<(Range<K>, &V)>
        ensures stretch { now_stretch result ≡ slice_get self.now (length self.now - 1) }
        ensures apart { AreApart K.cmp self.now }
    {
        match self.map.last_key_value() {
            Some((start, stretch)) => Some((*start..stretch.end, &stretch.value)),
            None => None,
        }
    }
}

impl<K: Ord + Copy + Drop, V, A: Handle> IntervalMap<K, V, A> {
    /// A walk over the stretches that have a point in common with a range, from both ends, in ascending order: each as its start, with
    /// its end and its value, whole where it goes on across an end of the range. An empty range has no points, so none.
    pub fn overlapping(&self, range: Range<K>) -> map::Range<'_, K, Stretch<K, V>, A>
        ensures stretches { result ≡ overlapping K.cmp self.now range.start range.end }
        ensures apart { AreApart K.cmp self.now }
    {
        let from = steps::start_within(&self.map, range.start, range.end, &mut Count::new());
        self.map.range(from..range.end)
    }

    /// Whether a stretch has a point in common with a range. An empty range has none.
    pub fn overlaps(&self, range: Range<K>) -> bool
        ensures { IsTrue result ↔ ¬ (overlapping K.cmp self.now range.start range.end ≡ []) }
    {
        self.overlapping(range).next().is_some()
    }

    /// A walk over the parts of a range that no stretch covers, in ascending order, each as long as can be. It takes no memory.
    pub fn gaps(&self, range: Range<K>) -> Gaps<'_, K, V, A>
        ensures gaps { AreGaps K.cmp self.now range.start range.end result }
    {
        Gaps {
            stretches: self.overlapping(range.start..range.end),
            from: range.start,
            end: range.end,
        }
    }
}

impl<K: Ord + Copy + Drop, V: Drop, A: Handle> IntervalMap<K, V, A> {
    /// Takes the stretch that covers a point out whole, and answers it with its value. `None` where none does, and nothing changes. It takes no memory,
    /// and so is never refused, as `try_cut` of the stretch's range may seem to be.
    pub fn remove_at(&mut self, at: K) -> Option<(Range<K>, V)>
        ensures taken { IfSome result (λ r. IsTaken K.cmp at (stretch_of r) self.old self.new) }
        ensures none { IfNone result (stretch_at K.cmp self.old at ≡ None) }
        ensures unchanged { IfNone result (self.new ≡ self.old) }
    {
        let (start, _stretch) = steps::covering(&self.map, &at, &mut Count::new())?;
        let start = *start;
        let (start, stretch) = self.map.remove_entry(&start)?;
        Some((start..stretch.end, stretch.value))
    }

    /// Takes the first stretch out, and answers it with its value. `None` where there is none. It takes no memory.
    pub fn pop_first(&mut self) -> Option<(Range<K>, V)>
        ensures taken { IfSome result (λ r. self.old ≡ stretch_of r ∷ self.new) }
        ensures none { IfNone result ((self.old ≡ []) × (self.new ≡ self.old)) }
    {
        let (start, stretch) = self.map.pop_first()?;
        Some((start..stretch.end, stretch.value))
    }

    /// Takes all stretches out, and drops them. It takes no memory.
    pub fn clear(&mut self)
        ensures { self.new ≡ [] }
    {
        self.map.clear();
    }
}

impl<K: Ord + Copy + Drop, V: PartialEq + Drop, A: Handle> IntervalMap<K, V, A> {
    /// Joins the stretch that ends at a point and the one that starts there, where both hold equal values: the first goes on to the end of the
    /// second, whose value is dropped. Answers whether it did; else nothing changes. It undoes `try_split_at`; and a stretch that was put becomes one
    /// with its neighbours by two calls, at both ends of its range. It takes no memory.
    pub fn join_at(&mut self, at: K) -> bool
        ensures joined { IsTrue result → IsJoined K.cmp V.eq at self.old self.new }
        ensures values { (p : K) → IsKept (λ x y. V.eq y x ≡ true) (value_at_point K.cmp self.old p) (value_at_point K.cmp self.new p) }
        ensures none { result ≡ false → NoneJoint K.cmp V.eq at self.old }
        ensures unchanged { result ≡ false → self.new ≡ self.old }
    {
        let Some(end) = joins::joint_end(&self.map, at) else {
            return false;
        };
        self.map.remove(&at);
        joins::draw_out(&mut self.map, at, end);
        true
    }
}

impl<K: Ord + Copy + Drop, V: TryClone, A: Handle> IntervalMap<K, V, A> {
    /// Gives all points of a range, from its start up to, and without, its end, a value. Stretches that lie within the range are
    /// dropped, those across its ends are cut, and one across both is split. What goes on after the range has a copy of its value.
    /// An empty range has no points: nothing changes, no memory is taken, and the value is dropped.
    ///
    /// # Errors
    /// Where the copy that goes on after the range was refused, by its own error. Else where a place was, for what goes on, or then for the new stretch,
    /// which needs one unless a stretch starts where it does: by `CapacityOverflow` where there are `usize::MAX` stretches then, and always; or by
    /// `AllocError`, where memory for a node was refused. The map is then as it was, and the value comes back.
    pub fn try_put(&mut self, range: Range<K>, value: V) -> Result<(), (V, TryReserveError)>
        requires { V.can_clone }
        ensures put { is_lt (K.cmp range.start range.end) ≡ true → OnOk result (IsPut K.cmp V.same range.start range.end value self.old self.new) }
        ensures written { OnOk result (IsWritten K.cmp V.same range.start range.end (Some value) self.old self.new) }
        ensures empty { is_lt (K.cmp range.start range.end) ≡ false → IsOk result × (self.new ≡ self.old) }
        ensures unchanged { OnErr result (self.new ≡ self.old) }
        ensures back { IfErr result (λ e. e.0 ≡ value) }
        ensures error { IfErr result (λ e. MayRefusePut K.cmp V.may_refuse self.old range.start range.end e.1) }
        ensures full { is_lt (K.cmp range.start range.end) ≡ true → usize.MAX < put_length K.cmp self.old range.start range.end → IsErr result }
        ensures sure { starts_at K.cmp self.old range.start ≡ true → goes_across K.cmp self.old range.end ≡ false → IsOk result }
    {
        if range.start.cmp(&range.end).is_lt() {
            self.put_over(range.start, range.end, value)
        } else {
            Ok(())
        }
    }

    // `try_put` over a range that is not empty.
    fn put_over(&mut self, start: K, end: K, value: V) -> Result<(), (V, TryReserveError)>
        requires can { V.can_clone }
        requires range { K.cmp start end ≡ Less }
        ensures put { OnOk result (IsPut K.cmp V.same start end value self.old self.new) }
        ensures written { OnOk result (IsWritten K.cmp V.same start end (Some value) self.old self.new) }
        ensures unchanged { OnErr result (self.new ≡ self.old) }
        ensures back { IfErr result (λ e. e.0 ≡ value) }
        ensures error { IfErr result (λ e. MayRefusePut K.cmp V.may_refuse self.old start end e.1) }
        ensures full { usize.MAX < put_length K.cmp self.old start end → IsErr result }
    {
        steps::put(&mut self.map, start, Stretch { end, value })
    }

    /// Takes the value of all points of a range, from its start up to, and without, its end. Stretches that lie within the range are
    /// dropped, those across its ends are cut, and one across both is split. What goes on after the range has a copy of its value.
    /// It takes memory only where something does. An empty range has no points: nothing changes.
    ///
    /// # Errors
    /// Where the copy that goes on after the range was refused, by its own error. Else where a place for it was: by `CapacityOverflow` where there are
    /// `usize::MAX` stretches, and then always; or by `AllocError`, where memory for a node was refused. The map is then as it was.
    pub fn try_cut(&mut self, range: Range<K>) -> Result<(), TryReserveError>
        requires { V.can_clone }
        ensures cut { is_lt (K.cmp range.start range.end) ≡ true → OnOk result (IsCut K.cmp V.same range.start range.end self.old self.new) }
        ensures written { OnOk result (IsWritten K.cmp V.same range.start range.end None self.old self.new) }
        ensures empty { is_lt (K.cmp range.start range.end) ≡ false → IsOk result × (self.new ≡ self.old) }
        ensures unchanged { OnErr result (self.new ≡ self.old) }
        ensures error { IfErr result (MayRefuseRest K.cmp V.may_refuse self.old range.end) }
        ensures full { is_lt (K.cmp range.start range.end) ≡ true → usize.MAX < parted_length K.cmp self.old range.end → IsErr result }
        ensures sure { goes_across K.cmp self.old range.end ≡ false → IsOk result }
    {
        if range.start.cmp(&range.end).is_lt() {
            self.cut_over(range.start, range.end)
        } else {
            Ok(())
        }
    }

    /// Cuts the stretch that covers a point in two there, of which the second has a copy of its value: so no stretch goes on across the
    /// point, and the values of all points stay. Where none goes on across it, nothing changes, and no memory is taken.
    ///
    /// # Errors
    /// Where the copy was refused, by its own error. Else where a place for the second stretch was: by `CapacityOverflow` where there are `usize::MAX`
    /// stretches, and then always; or by `AllocError`, where memory for a node was refused. The map is then as it was.
    pub fn try_split_at(&mut self, at: K) -> Result<(), TryReserveError>
        requires { V.can_clone }
        ensures split { OnOk result (IsCut K.cmp V.same at at self.old self.new) }
        ensures values { OnOk result ((p : K) → IsKept V.same (value_at_point K.cmp self.old p) (value_at_point K.cmp self.new p)) }
        ensures unchanged { OnErr result (self.new ≡ self.old) }
        ensures error { IfErr result (MayRefuseRest K.cmp V.may_refuse self.old at) }
        ensures full { usize.MAX < parted_length K.cmp self.old at → IsErr result }
        ensures sure { goes_across K.cmp self.old at ≡ false → IsOk result }
    {
        self.cut_over(at, at)
    }

    // `try_cut` of a range that is not the wrong way round. An empty one is a point, at which stretches are cut.
    fn cut_over(&mut self, start: K, end: K) -> Result<(), TryReserveError>
        requires can { V.can_clone }
        requires range { is_le (K.cmp start end) ≡ true }
        ensures cut { OnOk result (IsCut K.cmp V.same start end self.old self.new) }
        ensures written { OnOk result (IsWritten K.cmp V.same start end None self.old self.new) }
        ensures unchanged { OnErr result (self.new ≡ self.old) }
        ensures error { IfErr result (MayRefuseRest K.cmp V.may_refuse self.old end) }
        ensures full { usize.MAX < parted_length K.cmp self.old end → IsErr result }
    {
        steps::clear(&mut self.map, start, end)
    }
}

impl<'a, K: Ord, V, A: Handle> IntoIterator for &'a IntervalMap<K, V, A> {
    type Item = (&'a K, &'a Stretch<K, V>);

    type IntoIter = Iter<'a, K, Stretch<K, V>, A>;

    ghost into_iter_gives = { λ map walk. walk ≡ map.now };

    fn into_iter(self) -> Iter<'a, K, Stretch<K, V>, A> {
        self.iter()
    }
}
