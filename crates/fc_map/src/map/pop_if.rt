//! The first or the last pair of a map, taken out where a closure says so.
ghost use Rattle.std.specs.Prelude.{◌≡◌, [], ◌∷◌, ◌++◌, IfNone, MatchOption, true, false};
ghost use Rattle.fc_base.specs.Ascending.{IsAscending};
ghost use Rattle.fc_map.specs.Entries.{entries, IsSoundMap};
ghost use Rattle.fc_map.specs.PopIf.{AskedOnceAtPair, IsFirstNotPicked, IsFirstPicked, IsLastNotPicked, IsLastPicked};

use super::BTreeMap;
use fc_base::Handle;

impl<K: Ord + Drop, V: Drop, A: Handle> BTreeMap<K, V, A> {
    /// Takes the pair with the smallest key out where the closure, called once with it, answers true, and answers it. `None` where the
    /// map is empty, and then the closure is not called, or where it answered false; the map is then as it was. It compares nothing and
    /// takes no memory. Not in upstream: it is `Vec::pop_if` of std, for the first pair of a map.
    pub fn pop_first_if<F: FnOnce(&K, &V) -> bool>(&mut self, f: F) -> Option<(K, V)>
        requires { F.IsAlwaysCallable f }
        ensures pair { MatchOption result (IsFirstNotPicked F.FnOnce f (entries self.old)) (λ e. AskedOnceAtPair F.FnOnce f e true × (entries self.old ≡ e ∷ entries self.new)) }
        ensures unchanged { IfNone result (self.new ≡ self.old) }
        ensures ascending { IsAscending K.cmp (entries self.new) }
        ensures sound { IsSoundMap self.new }
    {
        // Asked for the proof alone: it shows that the tree is sound.
        let _ = self.len();
        if !self.is_first_picked(f) {
            return None;
        }
        self.pop_first()
    }

    /// Takes the pair with the greatest key out where the closure, called once with it, answers true, and answers it. `None` where the
    /// map is empty, and then the closure is not called, or where it answered false; the map is then as it was. It compares nothing and
    /// takes no memory. Not in upstream: it is `Vec::pop_if` of std, for a map.
    pub fn pop_last_if<F: FnOnce(&K, &V) -> bool>(&mut self, f: F) -> Option<(K, V)>
        requires { F.IsAlwaysCallable f }
        ensures pair { MatchOption result (IsLastNotPicked F.FnOnce f (entries self.old)) (λ e. AskedOnceAtPair F.FnOnce f e true × (entries self.old ≡ entries self.new ++ e ∷ [])) }
        ensures unchanged { IfNone result (self.new ≡ self.old) }
        ensures ascending { IsAscending K.cmp (entries self.new) }
        ensures sound { IsSoundMap self.new }
    {
        // Asked for the proof alone: it shows that the tree is sound.
        let _ = self.len();
        if !self.is_last_picked(f) {
            return None;
        }
        self.pop_last()
    }

    // Whether there is a first pair at which the closure answers true.
    fn is_first_picked<F: FnOnce(&K, &V) -> bool>(&self, f: F) -> bool
        requires { F.IsAlwaysCallable f }
        ensures no { result ≡ false → IsFirstNotPicked F.FnOnce f (entries self.now) }
        ensures yes { result ≡ true → IsFirstPicked F.FnOnce f (entries self.now) }
    {
        match self.first_key_value() {
            None => false,
            Some((key, value)) => f(key, value),
        }
    }

    // Whether there is a last pair at which the closure answers true.
    fn is_last_picked<F: FnOnce(&K, &V) -> bool>(&self, f: F) -> bool
        requires { F.IsAlwaysCallable f }
        ensures no { result ≡ false → IsLastNotPicked F.FnOnce f (entries self.now) }
        ensures yes { result ≡ true → IsLastPicked F.FnOnce f (entries self.now) }
    {
        match self.last_key_value() {
            None => false,
            Some((key, value)) => f(key, value),
        }
    }
}
