//! Methods of `IterMut`.
ghost use Rattle.std.specs.Prelude.{◌≡◌, ◌+◌, ◌-◌, ◌<◌, ◌≤◌, ◌↔◌, length, IsTrue, MatchOption, None};
ghost use Rattle.std.specs.Borrow.{sem};
ghost use Rattle.fc_map.specs.Entries.{entries};
ghost use Rattle.fc_tree_node.specs.TreePlace.{IsPlaceIn, before_pair_in};
ghost use Rattle.fc_map.specs.Stretches.{CalledAtPair, IsVisitedIn, iter_stretch, iter_map_ref, iter_lends_first_in, iter_lends_last_in, IsFirstPair, IsFirstValue, IsLastPair, IsLastValue};
ghost use Rattle.fc_map.specs.Lends.{branch};
ghost use Rattle.fc_map.specs.Writing.{whole};

use super::super::BTreeMap;
use super::{IterMut, ValuesMut};
use fc_base::Handle;
use fc_tree_node::path::Path;

// The number, and no more than the other one.
fn no_more_than(most: usize, count: usize) -> usize
    ensures most { result ≤ most }
    ensures count { result ≤ count }
{
    if most < count { most } else { count }
}

impl<K: Ord, V, A: Handle> BTreeMap<K, V, A> {
    /// A writing walk over all pairs. To write all values use its `for_each`, which goes through the tree once: `next` comes down
    /// from the root to each value that it lends. Upstream: `BTreeMap::iter_mut`.
    pub fn iter_mut(&mut self) -> IterMut<'_, K, V, A>
        ensures same_map { (iter_map_ref result).ghost_name ≡ self.entry.ghost_name }
        ensures start { iter_stretch result ≡ whole (entries self.old) }
    {
        let end = self.len;
        let (front, back) = self.whole_ends();
        let full = no_more_than(end, self.run_after(&front));
        IterMut {
            map: self,
            front,
            base: 0,
            gone: 0,
            full,
            back,
            end,
        }
    }

    /// A writing walk over all values. To write all of them use its `for_each`, which goes through the tree once: `next` comes down
    /// from the root to each value that it lends. Upstream: `BTreeMap::values_mut`.
    pub fn values_mut(&mut self) -> ValuesMut<'_, K, V, A>
        ensures same_map { (iter_map_ref result).ghost_name ≡ self.entry.ghost_name }
        ensures start { iter_stretch result ≡ whole (entries self.old) }
    {
        self.iter_mut()
    }
}

impl<'a, K: Ord, V, A: Handle> IterMut<'a, K, V, A> {
    /// How many values are still to be lent. Upstream: `IterMut::len`.
    pub fn len(&self) -> usize
        ensures { result ≡ (iter_stretch self.now).back - (iter_stretch self.now).front }
    {
        self.end - (self.base + self.gone)
    }

    /// Whether all values were lent.
    pub fn is_done(&self) -> bool
        ensures { IsTrue result ↔ ((iter_stretch self.now).back ≤ (iter_stretch self.now).front) }
    {
        self.len() == 0
    }

    /// The first value that is still to be lent, lent for writing. Upstream: `IterMut::next`, which lends the key beside it:
    /// `peek` shows that.
    pub fn next(&mut self) -> Option<&mut V>
        ensures* writes_back { sem 𝓛 (iter_lends_first_in K.row V.row A.row A.Allocator self.entry result) }
        ensures value { IsFirstValue (iter_stretch self.old) result }
    {
        match self.step() {
            Some((way, place)) => {
                let front = self.front;
                Some(self.map.value_at(&front.as_slice()[..way], place))
            }
            None => None,
        }
    }

    /// The last value that is still to be lent, lent for writing. Upstream: `IterMut::next_back`, which lends the key beside it:
    /// `peek_back` shows that.
    pub fn next_back(&mut self) -> Option<&mut V>
        ensures* writes_back { sem 𝓛 (iter_lends_last_in K.row V.row A.row A.Allocator self.entry result) }
        ensures value { IsLastValue (iter_stretch self.old) result }
    {
        match self.step_back() {
            Some(place) => Some(self.map.value_mut(&place)),
            None => None,
        }
    }

    /// Calls the closure once at each pair that is still to be lent, in ascending order of the keys, with the value lent for writing.
    /// The tree is walked down once; no key is compared, and no memory is taken. Upstream: `Iterator::for_each` of `IterMut`.
    pub fn for_each<F: FnMut(&K, &mut V)>(self, f: F)
        requires { F.IsAlwaysCallable f }
        ensures visited { IsVisitedIn (CalledAtPair F.FnMut) f (iter_stretch self.entry) (entries self.exit.0.now) }
    {
        let IterMut {
            map,
            front,
            base: _,
            gone,
            full: _,
            back,
            end: _,
        } = self;
        map.visit(&front, gone, &back, f);
    }

    /// The pair whose value `next` lends.
    pub fn peek(&self) -> Option<(&K, &V)>
        ensures { IsFirstPair (iter_stretch self.now) result }
    {
        if self.is_done() {
            return None;
        }
        let (mut path, mut gone, mut full) = (self.front, self.gone, self.full);
        let (way, place) = self.map.step_to_next(&mut path, &mut gone, &mut full);
        let pair = self.map.pair_on(&path, way, place);
        Some((&pair.0, &pair.1))
    }

    /// The pair whose value `next_back` lends.
    pub fn peek_back(&self) -> Option<(&K, &V)>
        ensures { IsLastPair (iter_stretch self.now) result }
    {
        if self.is_done() {
            return None;
        }
        let mut gap = self.back;
        let pair = self.map.pair_of(&self.map.step_to_previous(&mut gap));
        Some((&pair.0, &pair.1))
    }

    // Goes on over the first pair, and answers how many steps of the front lead to its node, and its place there.
    fn step(&mut self) -> Option<(usize, usize)>
        ensures same_map { self.new.map ≡ self.old.map }
        ensures none { result ≡ None → self.new ≡ self.old }
        ensures step { MatchOption result ((iter_stretch self.old).back ≤ (iter_stretch self.old).front) (λ r. (r.0 < length self.new.front) × IsPlaceIn self.new.map.now (branch self.new.front r.0 r.1) × (length (before_pair_in self.new.map.now (branch self.new.front r.0 r.1)) ≡ (iter_stretch self.old).front) × ((iter_stretch self.old).front < (iter_stretch self.old).back) × ((iter_stretch self.new).front ≡ (iter_stretch self.old).front + 1) × ((iter_stretch self.new).back ≡ (iter_stretch self.old).back)) }
    {
        if self.gone < self.full {
            return Some(self.map.step_in_leaf(&self.front, &mut self.gone));
        }
        self.leave()
    }

    // The same by a way down from the root, whether the leaf ends at the front or not.
    fn leave(&mut self) -> Option<(usize, usize)>
        ensures same_map { self.new.map ≡ self.old.map }
        ensures none { result ≡ None → self.new ≡ self.old }
        ensures step { MatchOption result ((iter_stretch self.old).back ≤ (iter_stretch self.old).front) (λ r. (r.0 < length self.new.front) × IsPlaceIn self.new.map.now (branch self.new.front r.0 r.1) × (length (before_pair_in self.new.map.now (branch self.new.front r.0 r.1)) ≡ (iter_stretch self.old).front) × ((iter_stretch self.old).front < (iter_stretch self.old).back) × ((iter_stretch self.new).front ≡ (iter_stretch self.old).front + 1) × ((iter_stretch self.new).back ≡ (iter_stretch self.old).back)) }
    {
        let at = self.base + self.gone;
        if at == self.end {
            return None;
        }
        let place = self
            .map
            .cross_to_next_leaf(&mut self.front, &mut self.gone, &mut self.full);
        self.base = at + 1;
        self.full = no_more_than(self.end - self.base, self.full);
        Some(place)
    }

    // Goes back over the last pair, and answers its place.
    fn step_back(&mut self) -> Option<Path>
        ensures same_map { self.new.map ≡ self.old.map }
        ensures none { result ≡ None → self.new ≡ self.old }
        ensures step { MatchOption result ((iter_stretch self.old).back ≤ (iter_stretch self.old).front) (λ place. IsPlaceIn self.new.map.now place × (length (before_pair_in self.new.map.now place) + 1 ≡ (iter_stretch self.old).back) × ((iter_stretch self.old).front < (iter_stretch self.old).back) × ((iter_stretch self.new).front ≡ (iter_stretch self.old).front) × ((iter_stretch self.new).back + 1 ≡ (iter_stretch self.old).back)) }
    {
        if self.is_done() {
            return None;
        }
        let place = self.map.step_to_previous(&mut self.back);
        self.end -= 1;
        self.full = no_more_than(self.end - self.base, self.full);
        Some(place)
    }
}
