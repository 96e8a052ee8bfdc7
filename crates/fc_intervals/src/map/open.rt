//! Walks over the stretches of ranges that are open at an end.
ghost use Rattle.std.specs.Prelude.{◌≡◌};
ghost use Rattle.std.specs.declared.ops.Bound.TheVariants.{Included, Unbounded};
ghost use Rattle.fc_base.specs.Parts.{below};
ghost use Rattle.fc_base.specs.Ranges.{within};
ghost use Rattle.fc_map.specs.Entries.{entries};
ghost use Rattle.fc_intervals.specs.Open.{overlapping_from};
ghost use Rattle.fc_intervals.specs.Stretches.{AreApart};

use super::IntervalMap;
use crate::steps;
use crate::stretch::Stretch;
use fc_base::{Count, Handle};
use fc_map::map::{self, BTreeMap};

// Where the walk over the stretches that have a point in common with a range without an end starts: at the one that covers its start, or there.
fn first_from<K: Ord + Copy, V, A: Handle>(map: &BTreeMap<K, Stretch<K, V>, A>, from: K) -> K
    requires { AreApart K.cmp (entries map.now) }
    ensures { within K.cmp (Included result) Unbounded (entries map.now) ≡ overlapping_from K.cmp (entries map.now) from }
{
    match steps::covering(map, &from, &mut Count::new()) {
        Some((start, _stretch)) => *start,
        None => from,
    }
}

impl<K: Ord + Copy + Drop, V, A: Handle> IntervalMap<K, V, A> {
    /// `overlapping` of the range from a point on, without an end.
    pub fn overlapping_from(&self, from: K) -> map::Range<'_, K, Stretch<K, V>, A>
        ensures stretches { result ≡ overlapping_from K.cmp self.now from }
        ensures apart { AreApart K.cmp self.now }
    {
        self.map.range(first_from(&self.map, from)..)
    }

    /// `overlapping` of all points before one, and without it.
    pub fn overlapping_to(&self, to: K) -> map::Range<'_, K, Stretch<K, V>, A>
        ensures stretches { result ≡ below K.cmp self.now to }
        ensures apart { AreApart K.cmp self.now }
    {
        self.map.range(..to)
    }
}
