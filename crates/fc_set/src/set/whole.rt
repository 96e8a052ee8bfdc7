//! Whole sets: joined, cut in two and copied.
ghost use Rattle.std.specs.Prelude.{◌≡◌, ◌+◌, ◌<◌, ◌≤◌, ◌⊎◌, true, [], ◌++◌, length, max, IfOk, IfErr, IsErr, OnOk, MatchResult};
ghost use Rattle.std.specs.List.{AllZip};
ghost use Rattle.fc_base.specs.Copies.{MayRefuseCopies};
ghost use Rattle.fc_base.specs.Growth.{MayAppendRefuse};
ghost use Rattle.fc_map.specs.Entries.{IsSoundMap};
ghost use Rattle.fc_map.specs.Requests.{border_requests, HasFewRequests};
ghost use Rattle.fc_map.specs.WholeRequests.{blocks_in, given_requests, join_requests};
ghost use Rattle.fc_set.specs.Items.{items, smaller, not_smaller, AreAscending, joined_items};

use super::BTreeSet;
use fc_base::{Asked, Count, Handle, Query, TryClone, TryReserveError};

impl<T: Ord + Drop, A: Handle> BTreeSet<T, A> {
    /// Takes all items of `other`, which is then empty. Where both sets hold an equal item, `other`'s stays, and ours is dropped. Where
    /// one of the two is empty nothing is asked for and nothing compared. Upstream: `BTreeSet::append`, which answers nothing.
    ///
    /// # Errors
    /// Only where neither set is empty: `CapacityOverflow` where their lengths add past `usize::MAX`, and then always; else
    /// `AllocError`, where a request for memory was refused. Both sets are then as they were, tree and all.
    pub fn append(&mut self, other: &mut Self) -> Result<(), TryReserveError>
        ensures joined { IfOk result (λ _. items self.new ≡ joined_items T.cmp (items self.old) (items other.old)) }
        ensures emptied { IfOk result (λ _. items other.new ≡ []) }
        ensures unchanged { IfErr result (λ _. (self.new ≡ self.old) × (other.new ≡ other.old)) }
        ensures error { IfErr result (MayAppendRefuse (length (items self.old)) (length (items other.old))) }
        ensures full { 0 < length (items self.old) → 0 < length (items other.old) → usize.MAX < length (items self.old) + length (items other.old) → IsErr result }
        ensures ascending { AreAscending T.cmp (items self.new) }
        ensures ascended { AreAscending T.cmp (items self.old) × AreAscending T.cmp (items other.old) }
        ensures sound { IsSoundMap self.new }
    {
        self.append_counted(other, &mut Count::new())
    }

    /// `append`, with its comparisons added to the count: at most as many as there are items in both, none where one of the two is
    /// empty, and else at least one where it is not refused.
    ///
    /// # Errors
    /// As `append`.
    pub fn append_counted(
        &mut self,
        other: &mut Self,
        count: &mut Count,
    ) -> Result<(), TryReserveError>
        ensures joined { IfOk result (λ _. items self.new ≡ joined_items T.cmp (items self.old) (items other.old)) }
        ensures emptied { IfOk result (λ _. items other.new ≡ []) }
        ensures unchanged { IfErr result (λ _. (self.new ≡ self.old) × (other.new ≡ other.old)) }
        ensures error { IfErr result (MayAppendRefuse (length (items self.old)) (length (items other.old))) }
        ensures full { 0 < length (items self.old) → 0 < length (items other.old) → usize.MAX < length (items self.old) + length (items other.old) → IsErr result }
        ensures ascending { AreAscending T.cmp (items self.new) }
        ensures ascended { AreAscending T.cmp (items self.old) × AreAscending T.cmp (items other.old) }
        ensures sound { IsSoundMap self.new }
        ensures comparisons { count.new.comparisons ≤ count.old.comparisons + (length (items self.old) + length (items other.old)) }
        ensures none { (items self.old ≡ []) ⊎ (items other.old ≡ []) → count.new.comparisons ≡ count.old.comparisons }
        ensures grown { count.old.comparisons ≤ count.new.comparisons }
        ensures counted { IfOk result (λ _. 0 < length (items self.old) → 0 < length (items other.old) → count.old.comparisons < count.new.comparisons) }
    {
        self.append_asked(other, count, &mut Asked::new())
    }

    /// `append_counted`, with its requests for memory added to `asked`: none where one of the two is empty; two for each level between the two roots and two for
    /// a new root where all items of `other` lie after ours; else those for two leaves and for the inner nodes that so many items can need, each with a list;
    /// where it is refused, no more. The set then has no block of memory that was in neither and not asked for.
    ///
    /// # Errors
    /// As `append`.
    pub fn append_asked(
        &mut self,
        other: &mut Self,
        count: &mut Count,
        asked: &mut Asked,
    ) -> Result<(), TryReserveError>
        ensures joined { IfOk result (λ _. items self.new ≡ joined_items T.cmp (items self.old) (items other.old)) }
        ensures emptied { IfOk result (λ _. items other.new ≡ []) }
        ensures unchanged { IfErr result (λ _. (self.new ≡ self.old) × (other.new ≡ other.old)) }
        ensures error { IfErr result (MayAppendRefuse (length (items self.old)) (length (items other.old))) }
        ensures full { 0 < length (items self.old) → 0 < length (items other.old) → usize.MAX < length (items self.old) + length (items other.old) → IsErr result }
        ensures ascending { AreAscending T.cmp (items self.new) }
        ensures ascended { AreAscending T.cmp (items self.old) × AreAscending T.cmp (items other.old) }
        ensures sound { IsSoundMap self.new }
        ensures comparisons { count.new.comparisons ≤ count.old.comparisons + (length (items self.old) + length (items other.old)) }
        ensures none { (items self.old ≡ []) ⊎ (items other.old ≡ []) → count.new.comparisons ≡ count.old.comparisons }
        ensures grown { count.old.comparisons ≤ count.new.comparisons }
        ensures counted { IfOk result (λ _. 0 < length (items self.old) → 0 < length (items other.old) → count.old.comparisons < count.new.comparisons) }
        ensures no_request { (items self.old ≡ []) ⊎ (items other.old ≡ []) → asked.new.requests ≡ asked.old.requests }
        ensures requests_after { IfOk result (λ _. 0 < length (items self.old) → 0 < length (items other.old) → AreAscending T.cmp (items self.old ++ items other.old) → asked.new.requests ≡ asked.old.requests + join_requests self.old other.old) }
        ensures requests_merged { IfOk result (λ _. ¬ AreAscending T.cmp (items self.old ++ items other.old) → asked.new.requests ≡ asked.old.requests + given_requests (length (items self.old) + length (items other.old))) }
        ensures at_most_after { AreAscending T.cmp (items self.old ++ items other.old) → asked.new.requests ≤ asked.old.requests + join_requests self.old other.old }
        ensures at_most_merged { ¬ AreAscending T.cmp (items self.old ++ items other.old) → asked.new.requests ≤ asked.old.requests + given_requests (length (items self.old) + length (items other.old)) }
        ensures at_most { asked.new.requests ≤ asked.old.requests + max (join_requests self.old other.old) (given_requests (length (items self.old) + length (items other.old))) }
        ensures blocks { IfOk result (λ _. asked.old.requests + (blocks_in self.new + blocks_in other.new) ≤ asked.new.requests + (blocks_in self.old + blocks_in other.old)) }
    {
        self.map.append_asked(&mut other.map, count, asked)
    }

    /// Takes the items that are not smaller than `item`, which is a `Query`, out into a set of their own. The smaller ones stay. An
    /// empty set asks for nothing. Upstream: `BTreeSet::try_split_off`, which answers the set alone.
    ///
    /// # Errors
    /// `AllocError` where a request for memory was refused, which takes a set that is not empty. The set is then as it was, tree and
    /// all.
    pub fn try_split_off<Q: Query<T>>(&mut self, item: Q) -> Result<Self, TryReserveError>
        ensures smaller { IfOk result (λ _. items self.new ≡ smaller Q.order (items self.old) (Q.sought item)) }
        ensures from { IfOk result (λ rest. items rest ≡ not_smaller Q.order (items self.old) (Q.sought item)) }
        ensures unchanged { IfErr result (λ _. self.new ≡ self.old) }
        ensures error { IfErr result (λ e. (e ≡ TryReserveError.AllocError) × (0 < length (items self.old))) }
        ensures ascending { AreAscending T.cmp (items self.new) × IfOk result (λ rest. AreAscending T.cmp (items rest)) }
        ensures ascended { AreAscending T.cmp (items self.old) }
        ensures sound { IsSoundMap self.new × IfOk result (λ rest. IsSoundMap rest) }
    {
        self.try_split_off_asked(item, &mut Asked::new())
    }

    /// `try_split_off`, with its requests for memory added to `asked`: none in an empty set, and else one for a leaf and two for a node at each level above;
    /// where it is refused, no more. Both sets then have no block of memory that was not there or asked for.
    ///
    /// # Errors
    /// As `try_split_off`.
    pub fn try_split_off_asked<Q: Query<T>>(
        &mut self,
        item: Q,
        asked: &mut Asked,
    ) -> Result<Self, TryReserveError>
        ensures smaller { IfOk result (λ _. items self.new ≡ smaller Q.order (items self.old) (Q.sought item)) }
        ensures from { IfOk result (λ rest. items rest ≡ not_smaller Q.order (items self.old) (Q.sought item)) }
        ensures unchanged { IfErr result (λ _. self.new ≡ self.old) }
        ensures error { IfErr result (λ e. (e ≡ TryReserveError.AllocError) × (0 < length (items self.old))) }
        ensures ascending { AreAscending T.cmp (items self.new) × IfOk result (λ rest. AreAscending T.cmp (items rest)) }
        ensures ascended { AreAscending T.cmp (items self.old) }
        ensures sound { IsSoundMap self.new × IfOk result (λ rest. IsSoundMap rest) }
        ensures requests { OnOk result (asked.new.requests ≡ asked.old.requests + border_requests self.old) }
        ensures at_most { asked.new.requests ≤ asked.old.requests + border_requests self.old }
        ensures few { HasFewRequests (length (items self.old) + 1) asked.old asked.new }
        ensures blocks { IfOk result (λ rest. asked.old.requests + (blocks_in self.new + blocks_in rest) ≤ asked.new.requests + blocks_in self.old) }
    {
        let map = self.map.split_off_asked(item, asked)?;
        Ok(BTreeSet { map })
    }
}

/// A copy of a set has a copy of each item, in order, made by its `try_clone`, in a tree of the same nodes; it takes its memory where
/// the set does. Copies of items have to be equal to them, so that they ascend as the items do. Not in upstream, which has `Clone`.
///
/// # Errors
/// `AllocError` where a node was refused, or an item's own error where its copy was; never where the set is empty. What was made by then
/// is dropped.
impl<T: Ord + TryClone, A: Handle> TryClone for BTreeSet<T, A> {
    ghost same = { λ source copy. AllZip T.same (items source) (items copy) };

    ghost can_clone = { T.can_clone × ((a b : T) → T.same a b → T.eq a b ≡ true) };

    ghost may_refuse = { λ source. MayRefuseCopies T.may_refuse (items source) };

    fn try_clone(&self) -> Result<BTreeSet<T, A>, TryReserveError>
        requires { T.can_clone × ((a b : T) → T.same a b → T.eq a b ≡ true) }
        ensures copied { MatchResult result (λ copy. AllZip T.same (items self.now) (items copy)) (MayRefuseCopies T.may_refuse (items self.now)) }
        ensures ascending { IfOk result (λ copy. AreAscending T.cmp (items copy)) }
        ensures sound { IfOk result (λ copy. IsSoundMap copy) }
    {
        self.try_clone_asked(&mut Asked::new())
    }
}

impl<T: Ord + TryClone, A: Handle> BTreeSet<T, A> {
    /// `try_clone`, with its requests for memory added to `asked`: one for each block of memory that the set has, and its copy has as many. What copies of items
    /// ask for is not among them. Where it is refused, no more.
    ///
    /// # Errors
    /// As `try_clone`.
    pub fn try_clone_asked(&self, asked: &mut Asked) -> Result<BTreeSet<T, A>, TryReserveError>
        requires { T.can_clone × ((a b : T) → T.same a b → T.eq a b ≡ true) }
        ensures copied { MatchResult result (λ copy. AllZip T.same (items self.now) (items copy)) (MayRefuseCopies T.may_refuse (items self.now)) }
        ensures ascending { IfOk result (λ copy. AreAscending T.cmp (items copy)) }
        ensures sound { IfOk result (λ copy. IsSoundMap copy) }
        ensures blocks { IfOk result (λ copy. blocks_in copy ≡ blocks_in self.now) }
        ensures requests { IfOk result (λ _. asked.new.requests ≡ asked.old.requests + blocks_in self.now) }
        ensures at_most { asked.new.requests ≤ asked.old.requests + blocks_in self.now }
    {
        let copy = self.map.try_clone_asked(asked)?;
        // Shows that the copy is ascending and sound.
        let _len = copy.len();
        Ok(BTreeSet { map: copy })
    }
}
