//! The pairs of a map next to a key.
ghost use Rattle.std.specs.Prelude.{◌≡◌, ◌+◌, length, option_copied};
ghost use Rattle.fc_base.specs.Ascending.{IsAscending};
ghost use Rattle.fc_base.specs.Halves.{not_below};
ghost use Rattle.fc_base.specs.Parts.{below, above};
ghost use Rattle.fc_map.specs.Counts.{IsBounded};
ghost use Rattle.fc_map.specs.Entries.{entries, now_pair, passed_in};
ghost use Rattle.fc_tree_search.specs.Neighbours.{first_item, last_item, not_above};

use super::BTreeMap;
use fc_base::{Count, Handle, Query};
use fc_tree_search::neighbours::{first_after, first_from, last_before, last_to};

impl<K: Ord, V, A: Handle> BTreeMap<K, V, A> {
    /// The first pair whose key is not below `key`, or `None` where there is none: what Java's maps call `ceiling`. `key` is a `Query`, as in `get`. One way
    /// down the tree finds it, without a walk and with the comparisons of a look-up; nothing is taken. Its value is written by `get_mut` at the key
    /// that was found. Not in upstream: std's map has it as `range(key..).next()`, and its unstable cursors as
    /// `lower_bound(Bound::Included(&key)).peek_next()`.
    pub fn first_at_or_after<Q: Query<K>>(&self, key: Q) -> Option<(&K, &V)>
        ensures pair { now_pair result ≡ first_item (not_below Q.order (entries self.now) (Q.sought key)) }
        ensures ascending { IsAscending K.cmp (entries self.now) }
    {
        self.first_at_or_after_counted(key, &mut Count::new())
    }

    /// `first_at_or_after`, with its comparisons added to the count: exactly those keys that a look-up passes. It moves no pair.
    pub fn first_at_or_after_counted<Q: Query<K>>(
        &self,
        key: Q,
        count: &mut Count,
    ) -> Option<(&K, &V)>
        ensures pair { now_pair result ≡ first_item (not_below Q.order (entries self.now) (Q.sought key)) }
        ensures ascending { IsAscending K.cmp (entries self.now) }
        ensures comparisons { count.new.comparisons ≡ count.old.comparisons + passed_in Q.order (Q.sought key) self.now }
        ensures moves { count.new.moves ≡ count.old.moves }
        ensures bounded { IsBounded (length (entries self.now)) count.old count.new }
    {
        match self.pair_from(key, count) {
            Some(pair) => Some((&pair.0, &pair.1)),
            None => None,
        }
    }

    // The first pair whose key is not below `key`.
    fn pair_from<Q: Query<K>>(&self, key: Q, count: &mut Count) -> Option<&(K, V)>
        ensures pair { option_copied result ≡ first_item (not_below Q.order (entries self.now) (Q.sought key)) }
        ensures ascending { IsAscending K.cmp (entries self.now) }
        ensures comparisons { count.new.comparisons ≡ count.old.comparisons + passed_in Q.order (Q.sought key) self.now }
        ensures moves { count.new.moves ≡ count.old.moves }
        ensures bounded { IsBounded (length (entries self.now)) count.old count.new }
    {
        match &self.root {
            None => None,
            Some(root) => first_from(root, key, count),
        }
    }

    /// The first pair whose key is above `key`, or `None` where there is none: what Java's maps call `higher`. `key` is a `Query`, as in `get`. One way
    /// down the tree finds it, without a walk and with the comparisons of a look-up; nothing is taken. Its value is written by `get_mut` at the key
    /// that was found. Not in upstream: std's map has it as `range((Excluded(key), Unbounded)).next()`, and its unstable cursors as
    /// `lower_bound(Bound::Excluded(&key)).peek_next()`.
    pub fn first_after<Q: Query<K>>(&self, key: Q) -> Option<(&K, &V)>
        ensures pair { now_pair result ≡ first_item (above Q.order (entries self.now) (Q.sought key)) }
        ensures ascending { IsAscending K.cmp (entries self.now) }
    {
        self.first_after_counted(key, &mut Count::new())
    }

    /// `first_after`, with its comparisons added to the count: exactly those keys that a look-up passes. It moves no pair.
    pub fn first_after_counted<Q: Query<K>>(&self, key: Q, count: &mut Count) -> Option<(&K, &V)>
        ensures pair { now_pair result ≡ first_item (above Q.order (entries self.now) (Q.sought key)) }
        ensures ascending { IsAscending K.cmp (entries self.now) }
        ensures comparisons { count.new.comparisons ≡ count.old.comparisons + passed_in Q.order (Q.sought key) self.now }
        ensures moves { count.new.moves ≡ count.old.moves }
        ensures bounded { IsBounded (length (entries self.now)) count.old count.new }
    {
        match self.pair_after(key, count) {
            Some(pair) => Some((&pair.0, &pair.1)),
            None => None,
        }
    }

    // The first pair whose key is above `key`.
    fn pair_after<Q: Query<K>>(&self, key: Q, count: &mut Count) -> Option<&(K, V)>
        ensures pair { option_copied result ≡ first_item (above Q.order (entries self.now) (Q.sought key)) }
        ensures ascending { IsAscending K.cmp (entries self.now) }
        ensures comparisons { count.new.comparisons ≡ count.old.comparisons + passed_in Q.order (Q.sought key) self.now }
        ensures moves { count.new.moves ≡ count.old.moves }
        ensures bounded { IsBounded (length (entries self.now)) count.old count.new }
    {
        match &self.root {
            None => None,
            Some(root) => first_after(root, key, count),
        }
    }

    /// The last pair whose key is not above `key`, or `None` where there is none: what Java's maps call `floor`. `key` is a `Query`, as in `get`. One way
    /// down the tree finds it, without a walk and with the comparisons of a look-up; nothing is taken. Its value is written by `get_mut` at the key
    /// that was found. Not in upstream: std's map has it as `range(..=key).next_back()`, and its unstable cursors as
    /// `upper_bound(Bound::Included(&key)).peek_prev()`.
    pub fn last_at_or_before<Q: Query<K>>(&self, key: Q) -> Option<(&K, &V)>
        ensures pair { now_pair result ≡ last_item (not_above Q.order (entries self.now) (Q.sought key)) }
        ensures ascending { IsAscending K.cmp (entries self.now) }
    {
        self.last_at_or_before_counted(key, &mut Count::new())
    }

    /// `last_at_or_before`, with its comparisons added to the count: exactly those keys that a look-up passes. It moves no pair.
    pub fn last_at_or_before_counted<Q: Query<K>>(
        &self,
        key: Q,
        count: &mut Count,
    ) -> Option<(&K, &V)>
        ensures pair { now_pair result ≡ last_item (not_above Q.order (entries self.now) (Q.sought key)) }
        ensures ascending { IsAscending K.cmp (entries self.now) }
        ensures comparisons { count.new.comparisons ≡ count.old.comparisons + passed_in Q.order (Q.sought key) self.now }
        ensures moves { count.new.moves ≡ count.old.moves }
        ensures bounded { IsBounded (length (entries self.now)) count.old count.new }
    {
        match self.pair_to(key, count) {
            Some(pair) => Some((&pair.0, &pair.1)),
            None => None,
        }
    }

    // The last pair whose key is not above `key`.
    fn pair_to<Q: Query<K>>(&self, key: Q, count: &mut Count) -> Option<&(K, V)>
        ensures pair { option_copied result ≡ last_item (not_above Q.order (entries self.now) (Q.sought key)) }
        ensures ascending { IsAscending K.cmp (entries self.now) }
        ensures comparisons { count.new.comparisons ≡ count.old.comparisons + passed_in Q.order (Q.sought key) self.now }
        ensures moves { count.new.moves ≡ count.old.moves }
        ensures bounded { IsBounded (length (entries self.now)) count.old count.new }
    {
        match &self.root {
            None => None,
            Some(root) => last_to(root, key, count),
        }
    }

    /// The last pair whose key is below `key`, or `None` where there is none: what Java's maps call `lower`. `key` is a `Query`, as in `get`. One way
    /// down the tree finds it, without a walk and with the comparisons of a look-up; nothing is taken. Its value is written by `get_mut` at the key
    /// that was found. Not in upstream: std's map has it as `range(..key).next_back()`, and its unstable cursors as
    /// `upper_bound(Bound::Excluded(&key)).peek_prev()`.
    pub fn last_before<Q: Query<K>>(&self, key: Q) -> Option<(&K, &V)>
        ensures pair { now_pair result ≡ last_item (below Q.order (entries self.now) (Q.sought key)) }
        ensures ascending { IsAscending K.cmp (entries self.now) }
    {
        self.last_before_counted(key, &mut Count::new())
    }

    /// `last_before`, with its comparisons added to the count: exactly those keys that a look-up passes. It moves no pair.
    pub fn last_before_counted<Q: Query<K>>(&self, key: Q, count: &mut Count) -> Option<(&K, &V)>
        ensures pair { now_pair result ≡ last_item (below Q.order (entries self.now) (Q.sought key)) }
        ensures ascending { IsAscending K.cmp (entries self.now) }
        ensures comparisons { count.new.comparisons ≡ count.old.comparisons + passed_in Q.order (Q.sought key) self.now }
        ensures moves { count.new.moves ≡ count.old.moves }
        ensures bounded { IsBounded (length (entries self.now)) count.old count.new }
    {
        match self.pair_before(key, count) {
            Some(pair) => Some((&pair.0, &pair.1)),
            None => None,
        }
    }

    // The last pair whose key is below `key`.
    fn pair_before<Q: Query<K>>(&self, key: Q, count: &mut Count) -> Option<&(K, V)>
        ensures pair { option_copied result ≡ last_item (below Q.order (entries self.now) (Q.sought key)) }
        ensures ascending { IsAscending K.cmp (entries self.now) }
        ensures comparisons { count.new.comparisons ≡ count.old.comparisons + passed_in Q.order (Q.sought key) self.now }
        ensures moves { count.new.moves ≡ count.old.moves }
        ensures bounded { IsBounded (length (entries self.now)) count.old count.new }
    {
        match &self.root {
            None => None,
            Some(root) => last_before(root, key, count),
        }
    }
}
