//! The first part of a range that is free and long enough, where points are numbers.
ghost use Rattle.std.specs.Prelude.{◌≡◌, ℕ, find, nat_le, ◌-◌, IfNone, IfSome};
ghost use Rattle.std.specs.Option.{option_map};
ghost use Rattle.fc_intervals.specs.FirstGap.{IsFirstRoom, IsRoom};

use crate::gaps::Gaps;
use crate::map::IntervalMap;
use fc_base::Handle;
use std::ops::Range;

impl<V, A: Handle> IntervalMap<u64, V, A> {
    /// The least start from which so many points on lie in a range and have no value. `None` where there is none. No points have place at the range's
    /// start, also where it is empty, and nowhere in a range that lies the wrong way round. It looks at the gaps in turn, and takes no memory.
    pub fn first_gap(&self, range: Range<u64>, len: u64) -> Option<u64>
        ensures first { IfSome result (IsFirstRoom self.now range.start range.end len) }
        ensures none { IfNone result ((start : ℕ) → ¬ (IsRoom self.now range.start range.end len start)) }
    {
        if len == 0 {
            return if range.start <= range.end {
                Some(range.start)
            } else {
                None
            };
        }
        first_long(self.gaps(range.start..range.end), len)
    }
}

// The start of the first gap of so many points.
fn first_long<V, A: Handle>(gaps: Gaps<'_, u64, V, A>, len: u64) -> Option<u64>
    ensures { result ≡ option_map (λ g. g.start) (find (λ g. nat_le len (g.end - g.start)) gaps.entry) }
{
    let mut gaps = gaps;
    'gaps: while let Some(gap) = gaps.next() {
        if len <= gap.end.saturating_sub(gap.start) {
            return Some(gap.start);
        }
    }
    None
}
