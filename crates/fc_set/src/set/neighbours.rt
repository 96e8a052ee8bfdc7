//! The items of a set next to another.
ghost use Rattle.std.specs.Prelude.{◌≡◌, ◌+◌, length};
ghost use Rattle.fc_map.specs.Counts.{IsBounded};
ghost use Rattle.fc_map.specs.Entries.{now_value, passed_in};
ghost use Rattle.fc_tree_search.specs.Neighbours.{first_item, last_item};
ghost use Rattle.fc_set.specs.Items.{items, smaller, greater, not_smaller, AreAscending};
ghost use Rattle.fc_set.specs.Neighbours.{not_greater};

use super::{BTreeSet, lent_item};
use fc_base::{Count, Handle, Query};

impl<T: Ord, A: Handle> BTreeSet<T, A> {
    /// The first item that is not smaller than this one, or `None` where there is none: what Java's sets call `ceiling`. `item` is a `Query`, as in `get`. One
    /// way down the tree finds it, without a walk and with the comparisons of a look-up; nothing is taken. Not in upstream: std's set has it as
    /// `range(item..).next()`, and its unstable cursors as `lower_bound(Bound::Included(&item)).peek_next()`.
    pub fn first_at_or_after<Q: Query<T>>(&self, item: Q) -> Option<&T>
        ensures item { now_value result ≡ first_item (not_smaller Q.order (items self.now) (Q.sought item)) }
        ensures ascending { AreAscending T.cmp (items self.now) }
    {
        self.first_at_or_after_counted(item, &mut Count::new())
    }

    /// `first_at_or_after`, with its comparisons added to the count: exactly those items that a look-up passes. It moves no item.
    pub fn first_at_or_after_counted<Q: Query<T>>(&self, item: Q, count: &mut Count) -> Option<&T>
        ensures item { now_value result ≡ first_item (not_smaller Q.order (items self.now) (Q.sought item)) }
        ensures ascending { AreAscending T.cmp (items self.now) }
        ensures comparisons { count.new.comparisons ≡ count.old.comparisons + passed_in Q.order (Q.sought item) self.now }
        ensures moves { count.new.moves ≡ count.old.moves }
        ensures bounded { IsBounded (length (items self.now)) count.old count.new }
    {
        lent_item(self.map.first_at_or_after_counted(item, count))
    }

    /// The first item that is greater than this one, or `None` where there is none: what Java's sets call `higher`. `item` is a `Query`, as in `get`. One
    /// way down the tree finds it, without a walk and with the comparisons of a look-up; nothing is taken. Not in upstream: std's set has it as
    /// `range((Excluded(item), Unbounded)).next()`, and its unstable cursors as `lower_bound(Bound::Excluded(&item)).peek_next()`.
    pub fn first_after<Q: Query<T>>(&self, item: Q) -> Option<&T>
        ensures item { now_value result ≡ first_item (greater Q.order (items self.now) (Q.sought item)) }
        ensures ascending { AreAscending T.cmp (items self.now) }
    {
        self.first_after_counted(item, &mut Count::new())
    }

    /// `first_after`, with its comparisons added to the count: exactly those items that a look-up passes. It moves no item.
    pub fn first_after_counted<Q: Query<T>>(&self, item: Q, count: &mut Count) -> Option<&T>
        ensures item { now_value result ≡ first_item (greater Q.order (items self.now) (Q.sought item)) }
        ensures ascending { AreAscending T.cmp (items self.now) }
        ensures comparisons { count.new.comparisons ≡ count.old.comparisons + passed_in Q.order (Q.sought item) self.now }
        ensures moves { count.new.moves ≡ count.old.moves }
        ensures bounded { IsBounded (length (items self.now)) count.old count.new }
    {
        lent_item(self.map.first_after_counted(item, count))
    }

    /// The last item that is not greater than this one, or `None` where there is none: what Java's sets call `floor`. `item` is a `Query`, as in `get`. One
    /// way down the tree finds it, without a walk and with the comparisons of a look-up; nothing is taken. Not in upstream: std's set has it as
    /// `range(..=item).next_back()`, and its unstable cursors as `upper_bound(Bound::Included(&item)).peek_prev()`.
    pub fn last_at_or_before<Q: Query<T>>(&self, item: Q) -> Option<&T>
        ensures item { now_value result ≡ last_item (not_greater Q.order (items self.now) (Q.sought item)) }
        ensures ascending { AreAscending T.cmp (items self.now) }
    {
        self.last_at_or_before_counted(item, &mut Count::new())
    }

    /// `last_at_or_before`, with its comparisons added to the count: exactly those items that a look-up passes. It moves no item.
    pub fn last_at_or_before_counted<Q: Query<T>>(&self, item: Q, count: &mut Count) -> Option<&T>
        ensures item { now_value result ≡ last_item (not_greater Q.order (items self.now) (Q.sought item)) }
        ensures ascending { AreAscending T.cmp (items self.now) }
        ensures comparisons { count.new.comparisons ≡ count.old.comparisons + passed_in Q.order (Q.sought item) self.now }
        ensures moves { count.new.moves ≡ count.old.moves }
        ensures bounded { IsBounded (length (items self.now)) count.old count.new }
    {
        lent_item(self.map.last_at_or_before_counted(item, count))
    }

    /// The last item that is smaller than this one, or `None` where there is none: what Java's sets call `lower`. `item` is a `Query`, as in `get`. One
    /// way down the tree finds it, without a walk and with the comparisons of a look-up; nothing is taken. Not in upstream: std's set has it as
    /// `range(..item).next_back()`, and its unstable cursors as `upper_bound(Bound::Excluded(&item)).peek_prev()`.
    pub fn last_before<Q: Query<T>>(&self, item: Q) -> Option<&T>
        ensures item { now_value result ≡ last_item (smaller Q.order (items self.now) (Q.sought item)) }
        ensures ascending { AreAscending T.cmp (items self.now) }
    {
        self.last_before_counted(item, &mut Count::new())
    }

    /// `last_before`, with its comparisons added to the count: exactly those items that a look-up passes. It moves no item.
    pub fn last_before_counted<Q: Query<T>>(&self, item: Q, count: &mut Count) -> Option<&T>
        ensures item { now_value result ≡ last_item (smaller Q.order (items self.now) (Q.sought item)) }
        ensures ascending { AreAscending T.cmp (items self.now) }
        ensures comparisons { count.new.comparisons ≡ count.old.comparisons + passed_in Q.order (Q.sought item) self.now }
        ensures moves { count.new.moves ≡ count.old.moves }
        ensures bounded { IsBounded (length (items self.now)) count.old count.new }
    {
        lent_item(self.map.last_before_counted(item, count))
    }
}
