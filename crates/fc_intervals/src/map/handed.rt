//! Stretches that are cut out of a range and handed over.
ghost use Rattle.std.specs.Prelude.{◌≡◌, ◌⊎◌, ◌<◌, List, true, false, None, IsOk, IsErr, IfErr, OnOk, OnErr};
ghost use Rattle.std.specs.Ordering.{is_lt};
ghost use Rattle.fc_intervals.specs.Handed.{GivenStretch, HandsInTurn, IsCutOut, MayRefuseCopy};
ghost use Rattle.fc_intervals.specs.Refusals.{goes_across, MayRefuseRest, parted_length};
ghost use Rattle.fc_intervals.specs.Steps.{IsCut};
ghost use Rattle.fc_intervals.specs.Stretches.{IsWritten};
ghost use Rattle.fc_intervals.specs.declared.stretch.Stretch.{Stretch as Held};

use super::IntervalMap;
use crate::steps::handed;
use fc_base::{Handle, TryClone, TryReserveError};
use std::ops::Range;

impl<K: Ord + Copy + Drop, V: TryClone, A: Handle> IntervalMap<K, V, A> {
    /// `try_cut` that hands the closure what it takes out: the part of each stretch that lies in the range, with its value, in ascending order.
    /// Stretches that start in the range come with their own values. Of one that starts before it the part in the range comes with a copy, as
    /// what goes on after the range has one. An empty range has no points: nothing changes, and the closure is not called.
    ///
    /// # Errors
    /// Where the copy for the part at the range's start was refused, by its own error. Else those of `try_cut`. The map is then as it was, and
    /// the closure was not called.
    pub fn try_cut_with<F: FnMut(Range<K>, V)>(
        &mut self,
        range: Range<K>,
        f: F,
    ) -> Result<(), TryReserveError>
        requires can { V.can_clone }
        requires callable { F.IsAlwaysCallable f }
        ensures cut { is_lt (K.cmp range.start range.end) ≡ true → OnOk result (IsCut K.cmp V.same range.start range.end self.old self.new) }
        ensures written { OnOk result (IsWritten K.cmp V.same range.start range.end None self.old self.new) }
        ensures handed { is_lt (K.cmp range.start range.end) ≡ true → OnOk result ((out : List (K × Held K V)) × (last : F) × IsCutOut K.cmp V.same range.start range.end self.old out × HandsInTurn (GivenStretch F.FnMut) f out last) }
        ensures empty { is_lt (K.cmp range.start range.end) ≡ false → IsOk result × (self.new ≡ self.old) }
        ensures unchanged { OnErr result (self.new ≡ self.old) }
        ensures error { IfErr result (λ e. MayRefuseCopy K.cmp V.may_refuse self.old range.start e ⊎ MayRefuseRest K.cmp V.may_refuse self.old range.end e) }
        ensures full { is_lt (K.cmp range.start range.end) ≡ true → usize.MAX < parted_length K.cmp self.old range.end → IsErr result }
        ensures sure { goes_across K.cmp self.old range.start ≡ false → goes_across K.cmp self.old range.end ≡ false → IsOk result }
    {
        if range.start.cmp(&range.end).is_lt() {
            handed::clear_with(&mut self.map, range.start, range.end, f)
        } else {
            Ok(())
        }
    }
}
