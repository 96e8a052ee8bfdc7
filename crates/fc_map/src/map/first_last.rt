//! The first and the last pair of a map, read or taken out.
ghost use Rattle.std.specs.Prelude.{◌≡◌, ◌-◌, ◌<◌, ◌≤◌, [], ◌∷◌, ◌++◌, length, slice_get, IfNone, OnSome, MatchOption};
ghost use Rattle.fc_base.specs.Ascending.{IsAscending};
ghost use Rattle.fc_map.specs.Counts.{IsBounded};
ghost use Rattle.fc_map.specs.Entries.{entries, now_pair, IsSoundMap};
ghost use Rattle.fc_map.specs.Kept.{blocks_in};
ghost use Rattle.fc_map.specs.Fewest.{HasFewestMoves};

use super::BTreeMap;
use fc_base::{Count, Handle};
use fc_tree_removal::first_last::{take_first, take_last};
use fc_tree_search::first_last::{first_pair, last_pair};

impl<K: Ord, V, A: Handle> BTreeMap<K, V, A> {
    /// The pair with the smallest key, or `None` where the map is empty. It compares nothing. Not in upstream:
    /// it is that of std's map.
    pub fn first_key_value(&self) -> Option<(&K, &V)>
        ensures pair { now_pair result ≡ slice_get (entries self.now) 0 }
        ensures ascending { IsAscending K.cmp (entries self.now) }
    {
        match &self.root {
            None => None,
            Some(root) => {
                let pair = first_pair(root);
                Some((&pair.0, &pair.1))
            }
        }
    }

    /// The pair with the greatest key, or `None` where the map is empty. It compares nothing. Not in upstream:
    /// it is that of std's map.
    pub fn last_key_value(&self) -> Option<(&K, &V)>
        ensures pair { now_pair result ≡ slice_get (entries self.now) (length (entries self.now) - 1) }
        ensures ascending { IsAscending K.cmp (entries self.now) }
    {
        match &self.root {
            None => None,
            Some(root) => {
                let pair = last_pair(root);
                Some((&pair.0, &pair.1))
            }
        }
    }
}

impl<K: Ord + Drop, V: Drop, A: Handle> BTreeMap<K, V, A> {
    /// Takes the pair with the smallest key out and answers it. `None` where the map is empty, and it is as it was. It takes no memory.
    /// Not in upstream: it is that of std's map.
    pub fn pop_first(&mut self) -> Option<(K, V)>
        ensures pair { MatchOption result (entries self.old ≡ []) (λ e. entries self.old ≡ e ∷ entries self.new) }
        ensures unchanged { IfNone result (self.new ≡ self.old) }
        ensures ascending { IsAscending K.cmp (entries self.new) }
        ensures sound { IsSoundMap self.new }
    {
        self.pop_first_counted(&mut Count::new())
    }

    /// `pop_first`, with the moves of the removal added to the count. It compares nothing.
    pub fn pop_first_counted(&mut self, count: &mut Count) -> Option<(K, V)>
        ensures pair { MatchOption result (entries self.old ≡ []) (λ e. entries self.old ≡ e ∷ entries self.new) }
        ensures unchanged { IfNone result (self.new ≡ self.old) }
        ensures ascending { IsAscending K.cmp (entries self.new) }
        ensures sound { IsSoundMap self.new }
        ensures comparisons { count.new.comparisons ≡ count.old.comparisons }
        ensures no_move { IfNone result (count.new.moves ≡ count.old.moves) }
        ensures moved { OnSome result (count.old.moves < count.new.moves) }
        ensures fewest { HasFewestMoves self.old self.new count.old count.new }
        ensures bounded { IsBounded (length (entries self.old)) count.old count.new }
        ensures blocks { blocks_in self.new ≤ blocks_in self.old }
    {
        if self.root.is_none() {
            return None;
        }
        let pair = take_first(&mut self.root, count);
        self.len -= 1;
        Some(pair)
    }

    /// Takes the pair with the greatest key out and answers it. `None` where the map is empty, and it is as it was. It takes no memory.
    /// Not in upstream: it is that of std's map.
    pub fn pop_last(&mut self) -> Option<(K, V)>
        ensures pair { MatchOption result (entries self.old ≡ []) (λ e. entries self.old ≡ entries self.new ++ e ∷ []) }
        ensures unchanged { IfNone result (self.new ≡ self.old) }
        ensures ascending { IsAscending K.cmp (entries self.new) }
        ensures sound { IsSoundMap self.new }
    {
        self.pop_last_counted(&mut Count::new())
    }

    /// `pop_last`, with the moves of the removal added to the count. It compares nothing.
    pub fn pop_last_counted(&mut self, count: &mut Count) -> Option<(K, V)>
        ensures pair { MatchOption result (entries self.old ≡ []) (λ e. entries self.old ≡ entries self.new ++ e ∷ []) }
        ensures unchanged { IfNone result (self.new ≡ self.old) }
        ensures ascending { IsAscending K.cmp (entries self.new) }
        ensures sound { IsSoundMap self.new }
        ensures comparisons { count.new.comparisons ≡ count.old.comparisons }
        ensures no_move { IfNone result (count.new.moves ≡ count.old.moves) }
        ensures moved { OnSome result (count.old.moves < count.new.moves) }
        ensures fewest { HasFewestMoves self.old self.new count.old count.new }
        ensures bounded { IsBounded (length (entries self.old)) count.old count.new }
        ensures blocks { blocks_in self.new ≤ blocks_in self.old }
    {
        if self.root.is_none() {
            return None;
        }
        let pair = take_last(&mut self.root, count);
        self.len -= 1;
        Some(pair)
    }
}
