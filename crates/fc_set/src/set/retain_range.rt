//! The items of a set within a range that stay, and those that are taken out.
ghost use Rattle.std.specs.Prelude.{◌≡◌, List, length};
ghost use Rattle.std.specs.Fn.{CalledAt};
ghost use Rattle.fc_map.specs.Entries.{IsSoundMap};
ghost use Rattle.fc_set.specs.Items.{items, AreAscending, items_outside, items_replacing, items_within};
ghost use Rattle.fc_set.specs.Retained.{ExtractsItem, GivenItem, RetainsItems};

use super::BTreeSet;
use fc_base::Handle;
use fc_map::map::{KeyRange, for_sets};

impl<T: Ord + Drop, A: Handle> BTreeSet<T, A> {
    /// Calls the closure once at each item within the range, in ascending order, and drops those at which it answers false. What lies
    /// outside the range is not looked at. The range is given as in `range`, whose ends are looked for in one way down; from then on
    /// nothing is compared. No memory is taken. It costs as much as there are items within the range, however many lie outside. Not in
    /// upstream: std's set has it as `extract_if(range, ..)`.
    pub fn retain_range<R: KeyRange<T>, F: FnMut(&T) -> bool>(&mut self, bounds: R, f: F)
        requires { F.IsAlwaysCallable f }
        ensures retained { (last : F) × (stay : List T) × RetainsItems (CalledAt F.FnMut) f (items_within R.order (R.start bounds) (R.end bounds) (items self.old)) last stay × (items self.new ≡ items_replacing R.order (R.start bounds) (R.end bounds) stay (items self.old)) }
        ensures ascending { AreAscending T.cmp (items self.new) }
        ensures sound { IsSoundMap self.new }
    {
        for_sets::retain_keys_range(&mut self.map, bounds, f);
    }

    /// Calls `pick` once at each item within the range, in ascending order. The items at which it answers true are taken out, and `each`
    /// is called with each of them at once, before `pick` is called again; the others stay. It compares and costs as much as
    /// `retain_range`, and takes no memory. Not in upstream: std's `extract_if(range, pick)` answers an iterator, whose items a caller may
    /// leave in the set.
    pub fn extract_range_if<R: KeyRange<T>, F: FnMut(&T) -> bool, E: FnMut(T)>(
        &mut self,
        bounds: R,
        pick: F,
        each: E,
    )
        requires { F.IsAlwaysCallable pick × E.IsAlwaysCallable each }
        ensures extracted { (last : F × E) × (stay : List T) × RetainsItems (ExtractsItem (CalledAt F.FnMut) (GivenItem E.FnMut)) (pick, each) (items_within R.order (R.start bounds) (R.end bounds) (items self.old)) last stay × (items self.new ≡ items_replacing R.order (R.start bounds) (R.end bounds) stay (items self.old)) }
        ensures ascending { AreAscending T.cmp (items self.new) }
        ensures sound { IsSoundMap self.new }
    {
        for_sets::extract_keys_range_if(&mut self.map, bounds, pick, each);
    }

    /// Drops the items that lie within the range, and answers how many these were. The others stay. The range is given as in `range`;
    /// where it is none, nothing goes. It compares as `range` does, and nothing more; it takes no memory, and costs as much as there are
    /// items that go, however many stay. Not in upstream: std's set has it as `extract_if(range, |_| true)`.
    pub fn remove_range<R: KeyRange<T>>(&mut self, bounds: R) -> usize
        ensures rest { items self.new ≡ items_outside R.order (R.start bounds) (R.end bounds) (items self.old) }
        ensures count { result ≡ length (items_within R.order (R.start bounds) (R.end bounds) (items self.old)) }
        ensures ascending { AreAscending T.cmp (items self.new) }
        ensures sound { IsSoundMap self.new }
    {
        self.map.remove_range(bounds)
    }
}
