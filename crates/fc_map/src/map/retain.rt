//! The pairs of a map that stay, and those that are taken out.
ghost use Rattle.fc_base.specs.Ascending.{IsAscending};
ghost use Rattle.fc_map.specs.Entries.{entries, IsSoundMap};
ghost use Rattle.fc_tree_retain.specs.Retained.{AskedAtPair, ExtractsBy, GivenPair, RetainsInTurn};

use super::BTreeMap;
use fc_base::Handle;
use fc_tree_retain::retain::{extract_if, retain};

impl<K: Ord + Drop, V: Drop, A: Handle> BTreeMap<K, V, A> {
    /// Calls the closure once at each pair, in ascending order of the keys, with the value lent for writing. The pairs stay at which
    /// it answers true, with the values that it left; the others are dropped. The tree is gone through once; no key is compared, and
    /// no memory is taken. Not in upstream: it is that of std's map.
    pub fn retain<F: FnMut(&K, &mut V) -> bool>(&mut self, f: F)
        requires { F.IsAlwaysCallable f }
        ensures retained { (last : F) × RetainsInTurn (AskedAtPair F.FnMut) f (entries self.old) last (entries self.new) }
        ensures ascending { IsAscending K.cmp (entries self.new) }
        ensures sound { IsSoundMap self.new }
    {
        self.len = retain(&mut self.root, f);
    }

    /// Calls `pick` once at each pair, in ascending order of the keys, with the value lent for writing. The pairs at which it answers
    /// true are taken out, and `each` is called with each of them at once, before `pick` is called again; the others stay, with the
    /// values that it left. The tree is gone through once; no key is compared, and no memory is taken. Not in upstream: std's map
    /// answers an iterator, whose items a caller may leave in the map.
    pub fn extract_if<F: FnMut(&K, &mut V) -> bool, E: FnMut(K, V)>(&mut self, pick: F, each: E)
        requires { F.IsAlwaysCallable pick × E.IsAlwaysCallable each }
        ensures extracted { (last : F × E) × RetainsInTurn (ExtractsBy (AskedAtPair F.FnMut) (GivenPair E.FnMut)) (pick, each) (entries self.old) last (entries self.new) }
        ensures ascending { IsAscending K.cmp (entries self.new) }
        ensures sound { IsSoundMap self.new }
    {
        self.len = extract_if(&mut self.root, pick, each);
    }
}
