//! The pairs of a map within a range that stay, and those that are taken out.
ghost use Rattle.std.specs.Prelude.{◌≡◌, List, length};
ghost use Rattle.fc_base.specs.Ascending.{IsAscending};
ghost use Rattle.fc_base.specs.Ranges.{within};
ghost use Rattle.fc_map.specs.Entries.{entries, IsSoundMap};
ghost use Rattle.fc_map.specs.Ranged.{outside, replacing};
ghost use Rattle.fc_tree_retain.specs.Retained.{AskedAtPair, ExtractsBy, GivenPair, RetainsInTurn};

use super::BTreeMap;
use fc_base::Handle;
use fc_tree_cursor::key_range::KeyRange;
use fc_tree_retain::stretch::{extract_between, remove_between, retain_between};

impl<K: Ord + Drop, V: Drop, A: Handle> BTreeMap<K, V, A> {
    /// Calls the closure once at each pair whose key lies within the range, in ascending order of the keys, with the value lent for
    /// writing. The pairs stay at which it answers true, with the values that it left; the others are dropped. What lies outside the
    /// range is not looked at. The range is given as in `range`, whose ends are looked for in one way down; from then on no key is
    /// compared. No memory is taken. It costs as much as there are pairs within the range, however many lie outside. Not in upstream:
    /// std's map has it as `extract_if(range, ..)`.
    pub fn retain_range<R: KeyRange<K>, F: FnMut(&K, &mut V) -> bool>(&mut self, bounds: R, f: F)
        requires { F.IsAlwaysCallable f }
        ensures retained { (last : F) × (stay : List (K × V)) × RetainsInTurn (AskedAtPair F.FnMut) f (within R.order (R.start bounds) (R.end bounds) (entries self.old)) last stay × (entries self.new ≡ replacing R.order (R.start bounds) (R.end bounds) stay (entries self.old)) }
        ensures ascending { IsAscending K.cmp (entries self.new) }
        ensures sound { IsSoundMap self.new }
    {
        let (front, back) = self.range_ends(&bounds);
        let gone = retain_between(&mut self.root, &front, &back, f);
        self.len -= gone;
    }

    /// Calls `pick` once at each pair whose key lies within the range, in ascending order of the keys, with the value lent for writing.
    /// The pairs at which it answers true are taken out, and `each` is called with each of them at once, before `pick` is called again;
    /// the others stay, with the values that it left. What lies outside the range is not looked at. It compares and costs as much as
    /// `retain_range`, and takes no memory. Not in upstream: std's `extract_if(range, pick)` answers an iterator, whose items a caller
    /// may leave in the map.
    pub fn extract_range_if<R: KeyRange<K>, F: FnMut(&K, &mut V) -> bool, E: FnMut(K, V)>(
        &mut self,
        bounds: R,
        pick: F,
        each: E,
    )
        requires { F.IsAlwaysCallable pick × E.IsAlwaysCallable each }
        ensures extracted { (last : F × E) × (stay : List (K × V)) × RetainsInTurn (ExtractsBy (AskedAtPair F.FnMut) (GivenPair E.FnMut)) (pick, each) (within R.order (R.start bounds) (R.end bounds) (entries self.old)) last stay × (entries self.new ≡ replacing R.order (R.start bounds) (R.end bounds) stay (entries self.old)) }
        ensures ascending { IsAscending K.cmp (entries self.new) }
        ensures sound { IsSoundMap self.new }
    {
        let (front, back) = self.range_ends(&bounds);
        let gone = extract_between(&mut self.root, &front, &back, pick, each);
        self.len -= gone;
    }

    /// Drops the pairs whose keys lie within the range, and answers how many these were. The others stay. The range is given as in
    /// `range`; where it is none, nothing goes. It compares as `range` does, and nothing more; it takes no memory, and costs as much as
    /// there are pairs that go, however many stay. Not in upstream: std's map has it as `extract_if(range, |_, _| true)`.
    pub fn remove_range<R: KeyRange<K>>(&mut self, bounds: R) -> usize
        ensures rest { entries self.new ≡ outside R.order (R.start bounds) (R.end bounds) (entries self.old) }
        ensures count { result ≡ length (within R.order (R.start bounds) (R.end bounds) (entries self.old)) }
        ensures ascending { IsAscending K.cmp (entries self.new) }
        ensures sound { IsSoundMap self.new }
    {
        let (front, back) = self.range_ends(&bounds);
        let gone = remove_between(&mut self.root, &front, &back);
        self.len -= gone;
        gone
    }
}
