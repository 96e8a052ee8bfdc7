//! Maps of stretches as a whole: walks that own what they give, equality and copies.
ghost use Rattle.std.specs.Prelude.{◌≡◌, ◌^◌, ◌<◌, length, true};
ghost use Rattle.std.specs.Cmp.Lexicographic.{pointwise};
ghost use Rattle.std.specs.Iterator.{YieldsFirst, YieldsLast};
ghost use Rattle.std.specs.Iterator.Runs.{YieldsInOrder, YieldsInReverse};
ghost use Rattle.std.specs.List.{AllZip};
ghost use Rattle.fc_base.specs.Copies.{MayRefuseCopies, MayRefusePair};
ghost use Rattle.fc_laws.specs.Words.{AreSame, pair_eq, pairs_equiv, pairs_per};
ghost use Rattle.fc_intervals.specs.Compare.{stretch_eq, stretch_equiv, stretch_per};
ghost use Rattle.fc_intervals.specs.Copies.{MayRefuseStretch, SameStretch};
ghost use Rattle.fc_intervals.specs.Stretches.{AreApart};
ghost use Rattle.fc_intervals.specs.declared.stretch.Stretch.{Stretch as Held};

use super::IntervalMap;
use crate::stretch::Stretch;
use fc_base::{Handle, TryClone, TryReserveError};
use fc_map::map::IntoIter;

/// The stretches, in ascending order from both ends, with the map taken apart: each as its start, with its end and its value. The walk takes no memory.
impl<K: Ord + Drop, V: Drop, A: Handle> IntoIterator for IntervalMap<K, V, A> {
    type Item = (K, Stretch<K, V>);

    type IntoIter = IntoIter<K, Stretch<K, V>, A>;

    ghost into_iter_gives = { λ map walk. (walk ≡ map) × (length walk < 2 ^ 64) × AreApart K.cmp walk
        × YieldsInOrder (YieldsFirst {A = K × Held K V} (λ s. s)) (λ s. s)
        × YieldsInReverse (YieldsLast {A = K × Held K V} (λ s. s)) (λ s. s) };

    fn into_iter(self) -> IntoIter<K, Stretch<K, V>, A> {
        let IntervalMap { map } = self;
        map.into_iter()
    }
}

/// Equal are maps of as many stretches, with equal starts, ends and values in order: stretches that touch are not those that are joined.
impl<K: Ord, V: PartialEq, A: Handle> PartialEq for IntervalMap<K, V, A> {
    ghost eq = { pointwise (pair_eq K.eq (stretch_eq K.eq V.eq)) };

    ghost laws = { pairs_per K.PartialEq.laws (stretch_per K.PartialEq.laws V.laws) };

    fn eq(&self, other: &IntervalMap<K, V, A>) -> bool {
        self.map == other.map
    }
}

impl<K: Ord, V: Eq, A: Handle> Eq for IntervalMap<K, V, A> {
    ghost laws = { pairs_equiv K.Eq.laws (stretch_equiv K.Eq.laws V.Eq.laws) };
}

/// A copy of a map has a copy of each stretch, in order, made by the `try_clone` of start, end and value; it takes its memory where the map
/// does. Copies of points have to be equal to them, so that no two stretches of the copy overlap.
///
/// # Errors
/// `AllocError` where a node was refused, or the error of a start, an end or a value whose copy was, as it is; never where there is no stretch.
/// What was made by then is dropped.
impl<K: Ord + TryClone, V: TryClone, A: Handle> TryClone for IntervalMap<K, V, A> {
    ghost same = { AllZip (AreSame K.same (SameStretch K.same V.same)) };

    ghost can_clone = { K.can_clone × V.can_clone × ((a b : K) → K.same a b → K.eq a b ≡ true) };

    ghost may_refuse = { MayRefuseCopies (MayRefusePair K.may_refuse (MayRefuseStretch K.may_refuse V.may_refuse)) };

    fn try_clone(&self) -> Result<IntervalMap<K, V, A>, TryReserveError> {
        let map = self.map.try_clone()?;
        Ok(IntervalMap { map })
    }
}
