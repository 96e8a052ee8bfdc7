//! The first and the last item of a set, read or taken out.
ghost use Rattle.std.specs.Prelude.{◌≡◌, ◌-◌, ◌<◌, ◌≤◌, [], ◌∷◌, ◌++◌, length, slice_get, IfNone, OnSome, MatchOption};
ghost use Rattle.fc_map.specs.Counts.{IsBounded};
ghost use Rattle.fc_map.specs.Fewest.{HasFewestMoves};
ghost use Rattle.fc_map.specs.Kept.{blocks_in};
ghost use Rattle.fc_map.specs.Entries.{IsSoundMap, now_value};
ghost use Rattle.fc_set.specs.Items.{items, AreAscending};

use super::{BTreeSet, lent_item};
use fc_base::{Count, Handle};

impl<T: Ord, A: Handle> BTreeSet<T, A> {
    /// The smallest item, or `None` where the set is empty. It compares nothing. Not in upstream: it is that of std's set.
    pub fn first(&self) -> Option<&T>
        ensures item { now_value result ≡ slice_get (items self.now) 0 }
        ensures ascending { AreAscending T.cmp (items self.now) }
    {
        lent_item(self.map.first_key_value())
    }

    /// The greatest item, or `None` where the set is empty. It compares nothing. Not in upstream: it is that of std's set.
    pub fn last(&self) -> Option<&T>
        ensures item { now_value result ≡ slice_get (items self.now) (length (items self.now) - 1) }
        ensures ascending { AreAscending T.cmp (items self.now) }
    {
        lent_item(self.map.last_key_value())
    }
}

impl<T: Ord + Drop, A: Handle> BTreeSet<T, A> {
    /// Takes the smallest item out and answers it. `None` where the set is empty, and it is as it was. It takes no memory. Not in
    /// upstream: it is that of std's set.
    pub fn pop_first(&mut self) -> Option<T>
        ensures item { MatchOption result (items self.old ≡ []) (λ x. items self.old ≡ x ∷ items self.new) }
        ensures unchanged { IfNone result (self.new ≡ self.old) }
        ensures ascending { AreAscending T.cmp (items self.new) }
        ensures sound { IsSoundMap self.new }
    {
        self.pop_first_counted(&mut Count::new())
    }

    /// `pop_first`, with the moves of the removal added to the count. It compares nothing.
    pub fn pop_first_counted(&mut self, count: &mut Count) -> Option<T>
        ensures item { MatchOption result (items self.old ≡ []) (λ x. items self.old ≡ x ∷ items self.new) }
        ensures unchanged { IfNone result (self.new ≡ self.old) }
        ensures ascending { AreAscending T.cmp (items self.new) }
        ensures sound { IsSoundMap self.new }
        ensures comparisons { count.new.comparisons ≡ count.old.comparisons }
        ensures no_move { IfNone result (count.new.moves ≡ count.old.moves) }
        ensures moved { OnSome result (count.old.moves < count.new.moves) }
        ensures fewest { HasFewestMoves self.old self.new count.old count.new }
        ensures bounded { IsBounded (length (items self.old)) count.old count.new }
        ensures blocks { blocks_in self.new ≤ blocks_in self.old }
    {
        match self.map.pop_first_counted(count) {
            Some((item, _nothing)) => Some(item),
            None => None,
        }
    }

    /// Takes the greatest item out and answers it. `None` where the set is empty, and it is as it was. It takes no memory. Not in
    /// upstream: it is that of std's set.
    pub fn pop_last(&mut self) -> Option<T>
        ensures item { MatchOption result (items self.old ≡ []) (λ x. items self.old ≡ items self.new ++ x ∷ []) }
        ensures unchanged { IfNone result (self.new ≡ self.old) }
        ensures ascending { AreAscending T.cmp (items self.new) }
        ensures sound { IsSoundMap self.new }
    {
        self.pop_last_counted(&mut Count::new())
    }

    /// `pop_last`, with the moves of the removal added to the count. It compares nothing.
    pub fn pop_last_counted(&mut self, count: &mut Count) -> Option<T>
        ensures item { MatchOption result (items self.old ≡ []) (λ x. items self.old ≡ items self.new ++ x ∷ []) }
        ensures unchanged { IfNone result (self.new ≡ self.old) }
        ensures ascending { AreAscending T.cmp (items self.new) }
        ensures sound { IsSoundMap self.new }
        ensures comparisons { count.new.comparisons ≡ count.old.comparisons }
        ensures no_move { IfNone result (count.new.moves ≡ count.old.moves) }
        ensures moved { OnSome result (count.old.moves < count.new.moves) }
        ensures fewest { HasFewestMoves self.old self.new count.old count.new }
        ensures bounded { IsBounded (length (items self.old)) count.old count.new }
        ensures blocks { blocks_in self.new ≤ blocks_in self.old }
    {
        match self.map.pop_last_counted(count) {
            Some((item, _nothing)) => Some(item),
            None => None,
        }
    }
}
