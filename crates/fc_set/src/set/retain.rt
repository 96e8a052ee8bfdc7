//! The items of a set that stay, and those that are taken out.
ghost use Rattle.std.specs.Fn.{CalledAt};
ghost use Rattle.fc_map.specs.Entries.{IsSoundMap};
ghost use Rattle.fc_set.specs.Items.{items, AreAscending};
ghost use Rattle.fc_set.specs.Retained.{ExtractsItem, GivenItem, RetainsItems};

use super::BTreeSet;
use fc_base::Handle;
use fc_map::map::for_sets;

impl<T: Ord + Drop, A: Handle> BTreeSet<T, A> {
    /// Calls the closure once at each item, in ascending order, and drops those at which it answers false. The tree is gone through
    /// once; nothing is compared, and no memory is taken. Not in upstream: it is that of std's set.
    pub fn retain<F: FnMut(&T) -> bool>(&mut self, f: F)
        requires { F.IsAlwaysCallable f }
        ensures retained { (last : F) × RetainsItems (CalledAt F.FnMut) f (items self.old) last (items self.new) }
        ensures ascending { AreAscending T.cmp (items self.new) }
        ensures sound { IsSoundMap self.new }
    {
        for_sets::retain_keys(&mut self.map, f);
    }

    /// Calls `pick` once at each item, in ascending order. The items at which it answers true are taken out, and `each` is called with
    /// each of them at once, before `pick` is called again. The tree is gone through once; nothing is compared, and no memory is
    /// taken. Not in upstream: std's set answers an iterator, whose items a caller may leave in the set.
    pub fn extract_if<F: FnMut(&T) -> bool, E: FnMut(T)>(&mut self, pick: F, each: E)
        requires { F.IsAlwaysCallable pick × E.IsAlwaysCallable each }
        ensures extracted { (last : F × E) × RetainsItems (ExtractsItem (CalledAt F.FnMut) (GivenItem E.FnMut)) (pick, each) (items self.old) last (items self.new) }
        ensures ascending { AreAscending T.cmp (items self.new) }
        ensures sound { IsSoundMap self.new }
    {
        for_sets::extract_keys_if(&mut self.map, pick, each);
    }
}
