//! Ranges and values of an iterator, put one after another.
ghost use Rattle.std.specs.Prelude.{◌≡◌, ◌∷◌, ◌++◌, [], List, IfErr, OnOk};
ghost use Rattle.std.specs.Iterator.{IsFiniteIterable};
ghost use Rattle.std.specs.declared.ops.Range.{Range as Span};
ghost use Rattle.fc_laws.specs.Words.{GivesAll, GivesFirst};
ghost use Rattle.fc_intervals.specs.InTurn.{AreGiven};
ghost use Rattle.fc_intervals.specs.Refusals.{MayRefusePut};

use super::IntervalMap;
use fc_base::{Handle, TryClone, TryReserveError};
use std::ops::Range;

impl<K: Ord + Copy + Drop, V: TryClone, A: Handle> IntervalMap<K, V, A> {
    /// Gives each range that the iterator gives its value, as `try_put` does, before the next is taken: where two overlap, the later one's value stays.
    ///
    /// # Errors
    /// At the first that `try_put` refuses, with that error; its range and its value come back. What was put before it stays in the map, and no item after
    /// it was taken: a lent iterator has them still.
    pub fn try_extend<I: IntoIterator<Item = (Range<K>, V)>>(
        &mut self,
        items: I,
    ) -> Result<(), (Range<K>, V, TryReserveError)>
        requires can { V.can_clone }
        requires ends { IsFiniteIterable I.into_iter_gives I.IntoIter.can_next I.IntoIter.remaining items }
        ensures all { OnOk result ((all : List (Span K × V)) × GivesAll I.into_iter_gives I.IntoIter.next_gives items all × AreGiven K.cmp V.same all self.old self.new) }
        ensures error { IfErr result (λ e. (put : List (Span K × V)) × GivesFirst I.into_iter_gives I.IntoIter.next_gives items (put ++ (e.0, e.1) ∷ []) × AreGiven K.cmp V.same put self.old self.new × MayRefusePut K.cmp V.may_refuse self.new e.0.start e.0.end e.2) }
    {
        'items: for (range, value) in items {
            if let Err((value, error)) = self.try_put(range.start..range.end, value) {
                return Err((range, value, error));
            }
        }
        Ok(())
    }
}
