//! A walk over the parts of a range that no stretch covers.
ghost use Rattle.std.specs.Prelude.{List};
ghost use Rattle.std.specs.Iterator.{YieldsFirst, item_count};

use crate::stretch::Stretch;
use fc_base::Handle;
use fc_map::map;
use std::alloc::Global;
use std::iter::FusedIterator;
use std::marker::Model;
use std::ops::Range;

/// The gaps that are still to come, in ascending order. `next` gives the first of them; once there is none, it answers `None` ever
/// after. No call takes memory.
#[derive(Drop)]
pub struct Gaps<'a, K: Ord, V, A: Handle = Global> {
    pub(crate) stretches: map::Range<'a, K, Stretch<K, V>, A>,
    // The points from here up to `end` are those that are left.
    pub(crate) from: K,
    pub(crate) end: K,
}

impl<'a, K: Ord, V, A: Handle> Model for Gaps<'a, K, V, A> {
    ghost use Rattle.std.specs.Prelude.{List};
    ghost use Rattle.std.specs.declared.ops.Range.{Range};
    ghost use Rattle.fc_intervals.specs.Steps.{uncovered};

    ghost Value = { List (Range K) };

    ghost view = { λ w. uncovered K.cmp w.from w.end w.stretches };
}

impl<'a, K: Ord + Copy, V, A: Handle> Iterator for Gaps<'a, K, V, A> {
    type Item = Range<K>;

    ghost next_gives = { YieldsFirst (λ s. s) };

    ghost remaining = { item_count (λ s. s) };

    fn next(&mut self) -> Option<Range<K>> {
        'stretches: while let Some((start, stretch)) = self.stretches.next() {
            let gap = self.from..*start;
            self.from = stretch.end;
            if gap.start.cmp(&gap.end).is_lt() {
                return Some(gap);
            }
        }
        let gap = self.from..self.end;
        self.from = self.end;
        if gap.start.cmp(&gap.end).is_lt() {
            Some(gap)
        } else {
            None
        }
    }
}

impl<'a, K: Ord + Copy, V, A: Handle> FusedIterator for Gaps<'a, K, V, A> {}
