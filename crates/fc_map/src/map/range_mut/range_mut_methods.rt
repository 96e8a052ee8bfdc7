//! Methods of `RangeMut`.
ghost use Rattle.std.specs.Prelude.{◌≡◌, ◌+◌, ◌<◌, ◌≤◌, ◌↔◌, length, IsTrue, MatchOption, None};
ghost use Rattle.std.specs.Borrow.{sem};
ghost use Rattle.fc_map.specs.Entries.{entries};
ghost use Rattle.fc_tree_node.specs.TreePlace.{IsPlaceIn, before_pair_in};
ghost use Rattle.fc_map.specs.Stretches.{CalledAtPair, IsVisitedIn, stretch, range_map_ref, range_lends_first_in, range_lends_last_in, IsFirstPair, IsFirstValue, IsLastPair, IsLastValue};
ghost use Rattle.fc_map.specs.Lends.{branch};
ghost use Rattle.fc_map.specs.Writing.{starting};

use super::super::BTreeMap;
use super::RangeMut;
use fc_base::Handle;
use fc_tree_cursor::key_range::KeyRange;
use fc_tree_node::path::Path;

impl<K: Ord, V, A: Handle> BTreeMap<K, V, A> {
    /// A writing walk over the pairs whose keys lie within the range, which is given as in `range`. Both ends are found in one
    /// way down the tree, until they part; the steps of the walk compare no key. Bounds that are no range, within which no key can lie,
    /// make a walk that lends nothing: upstream panics. Upstream: `BTreeMap::range_mut`.
    pub fn range_mut<R: KeyRange<K>>(&mut self, bounds: R) -> RangeMut<'_, K, V, A>
        ensures same_map { (range_map_ref result).ghost_name ≡ self.entry.ghost_name }
        ensures start { stretch result ≡ starting R.order (R.start bounds) (R.end bounds) (entries self.old) }
    {
        let (front, back) = self.range_ends(&bounds);
        let full = self.run_after(&front);
        RangeMut {
            map: self,
            front,
            gone: 0,
            full,
            back,
        }
    }
}

impl<'a, K: Ord, V, A: Handle> RangeMut<'a, K, V, A> {
    /// Whether all values were lent.
    pub fn is_done(&self) -> bool
        ensures { IsTrue result ↔ ((stretch self.now).back ≤ (stretch self.now).front) }
    {
        self.map.is_same_gap(&self.front, self.gone, &self.back)
    }

    /// The first value that is still to be lent, lent for writing. Upstream: `RangeMut::next`, which lends the key beside it:
    /// `peek` shows that.
    pub fn next(&mut self) -> Option<&mut V>
        ensures* writes_back { sem 𝓛 (range_lends_first_in K.row V.row A.row A.Allocator self.entry result) }
        ensures value { IsFirstValue (stretch self.old) result }
    {
        match self.step() {
            Some((way, place)) => {
                let front = self.front;
                Some(self.map.value_at(&front.as_slice()[..way], place))
            }
            None => None,
        }
    }

    /// The last value that is still to be lent, lent for writing. Upstream: `RangeMut::next_back`, which lends the key beside it:
    /// `peek_back` shows that.
    pub fn next_back(&mut self) -> Option<&mut V>
        ensures* writes_back { sem 𝓛 (range_lends_last_in K.row V.row A.row A.Allocator self.entry result) }
        ensures value { IsLastValue (stretch self.old) result }
    {
        match self.step_back() {
            Some(place) => Some(self.map.value_mut(&place)),
            None => None,
        }
    }

    /// Calls the closure once at each pair that is still to be lent, in ascending order of the keys, with the value lent for writing.
    /// The tree is walked down once; no key is compared, and no memory is taken. Upstream: `Iterator::for_each` of `RangeMut`.
    pub fn for_each<F: FnMut(&K, &mut V)>(self, f: F)
        requires { F.IsAlwaysCallable f }
        ensures visited { IsVisitedIn (CalledAtPair F.FnMut) f (stretch self.entry) (entries self.exit.0.now) }
    {
        let RangeMut {
            map,
            front,
            gone,
            full: _,
            back,
        } = self;
        map.visit(&front, gone, &back, f);
    }

    /// The pair whose value `next` lends.
    pub fn peek(&self) -> Option<(&K, &V)>
        ensures { IsFirstPair (stretch self.now) result }
    {
        if self.is_done() {
            return None;
        }
        let (mut path, mut gone, mut full) = (self.front, self.gone, self.full);
        let (way, place) = self.map.step_to_next(&mut path, &mut gone, &mut full);
        let pair = self.map.pair_on(&path, way, place);
        Some((&pair.0, &pair.1))
    }

    /// The pair whose value `next_back` lends.
    pub fn peek_back(&self) -> Option<(&K, &V)>
        ensures { IsLastPair (stretch self.now) result }
    {
        if self.is_done() {
            return None;
        }
        let mut gap = self.back;
        let pair = self.map.pair_of(&self.map.step_to_previous(&mut gap));
        Some((&pair.0, &pair.1))
    }

    // Goes on over the first pair, and answers how many steps of the front lead to its node, and its place there.
    fn step(&mut self) -> Option<(usize, usize)>
        ensures same_map { self.new.map ≡ self.old.map }
        ensures none { result ≡ None → self.new ≡ self.old }
        ensures step { MatchOption result ((stretch self.old).back ≤ (stretch self.old).front) (λ r. (r.0 < length self.new.front) × IsPlaceIn self.new.map.now (branch self.new.front r.0 r.1) × (length (before_pair_in self.new.map.now (branch self.new.front r.0 r.1)) ≡ (stretch self.old).front) × ((stretch self.old).front < (stretch self.old).back) × ((stretch self.new).front ≡ (stretch self.old).front + 1) × ((stretch self.new).back ≡ (stretch self.old).back)) }
    {
        if self.is_done() {
            return None;
        }
        let place = self
            .map
            .step_to_next(&mut self.front, &mut self.gone, &mut self.full);
        Some(place)
    }

    // Goes back over the last pair, and answers its place.
    fn step_back(&mut self) -> Option<Path>
        ensures same_map { self.new.map ≡ self.old.map }
        ensures none { result ≡ None → self.new ≡ self.old }
        ensures step { MatchOption result ((stretch self.old).back ≤ (stretch self.old).front) (λ place. IsPlaceIn self.new.map.now place × (length (before_pair_in self.new.map.now place) + 1 ≡ (stretch self.old).back) × ((stretch self.old).front < (stretch self.old).back) × ((stretch self.new).front ≡ (stretch self.old).front) × ((stretch self.new).back + 1 ≡ (stretch self.old).back)) }
    {
        if self.is_done() {
            return None;
        }
        let place = self.map.step_to_previous(&mut self.back);
        Some(place)
    }
}
