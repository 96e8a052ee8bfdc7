//! Two maps made one.
ghost use Rattle.std.specs.Prelude.{◌≡◌, ◌+◌, ◌<◌, ◌≤◌, ◌⊎◌, [], ◌++◌, length, max, IfOk, IfErr, OnErr, IsErr};
ghost use Rattle.fc_base.specs.Ascending.{IsAscending};
ghost use Rattle.fc_base.specs.Growth.{MayAppendRefuse};
ghost use Rattle.fc_base.specs.Joined.{joined};
ghost use Rattle.fc_map.specs.Entries.{entries, IsSoundMap};
ghost use Rattle.fc_map.specs.Kept.{blocks_in};
ghost use Rattle.fc_map.specs.WholeRequests.{given_requests, join_requests};

use super::BTreeMap;
use fc_base::{Asked, Count, Handle, TryReserveError};
use fc_tree_append::append::try_append;

impl<K: Ord + Drop, V: Drop, A: Handle> BTreeMap<K, V, A> {
    /// Takes all pairs of `other`, which is then empty. Where both maps hold an equal key, key and value are `other`'s, and ours are
    /// dropped. Where one of the two is empty nothing is asked for and nothing compared. Upstream: `BTreeMap::append`, which answers
    /// nothing.
    ///
    /// # Errors
    /// Only where neither map is empty: `CapacityOverflow` where their lengths add past `usize::MAX`, and then always; else
    /// `AllocError`, where a request for memory was refused. Both maps are then as they were, tree and all.
    pub fn append(&mut self, other: &mut Self) -> Result<(), TryReserveError>
        ensures joined { IfOk result (λ _. entries self.new ≡ joined K.cmp (entries self.old) (entries other.old)) }
        ensures emptied { IfOk result (λ _. entries other.new ≡ []) }
        ensures unchanged { IfErr result (λ _. (self.new ≡ self.old) × (other.new ≡ other.old)) }
        ensures error { IfErr result (MayAppendRefuse (length (entries self.old)) (length (entries other.old))) }
        ensures full { 0 < length (entries self.old) → 0 < length (entries other.old) → usize.MAX < length (entries self.old) + length (entries other.old) → IsErr result }
        ensures ascending { IsAscending K.cmp (entries self.new) }
        ensures ascended { IsAscending K.cmp (entries self.old) × IsAscending K.cmp (entries other.old) }
        ensures sound { IsSoundMap self.new }
    {
        self.append_counted(other, &mut Count::new())
    }

    /// `append`, with its comparisons added to the count: at most as many as there are pairs in both, none where one of the two is
    /// empty, just one where all keys of `other` lie after ours, and else at least one where it is not refused.
    ///
    /// # Errors
    /// As `append`.
    pub fn append_counted(
        &mut self,
        other: &mut Self,
        count: &mut Count,
    ) -> Result<(), TryReserveError>
        ensures joined { IfOk result (λ _. entries self.new ≡ joined K.cmp (entries self.old) (entries other.old)) }
        ensures emptied { IfOk result (λ _. entries other.new ≡ []) }
        ensures unchanged { IfErr result (λ _. (self.new ≡ self.old) × (other.new ≡ other.old)) }
        ensures error { IfErr result (MayAppendRefuse (length (entries self.old)) (length (entries other.old))) }
        ensures full { 0 < length (entries self.old) → 0 < length (entries other.old) → usize.MAX < length (entries self.old) + length (entries other.old) → IsErr result }
        ensures ascending { IsAscending K.cmp (entries self.new) }
        ensures ascended { IsAscending K.cmp (entries self.old) × IsAscending K.cmp (entries other.old) }
        ensures sound { IsSoundMap self.new }
        ensures comparisons { count.new.comparisons ≤ count.old.comparisons + (length (entries self.old) + length (entries other.old)) }
        ensures none { (entries self.old ≡ []) ⊎ (entries other.old ≡ []) → count.new.comparisons ≡ count.old.comparisons }
        ensures grown { count.old.comparisons ≤ count.new.comparisons }
        ensures counted { IfOk result (λ _. 0 < length (entries self.old) → 0 < length (entries other.old) → count.old.comparisons < count.new.comparisons) }
        ensures after { 0 < length (entries self.old) → 0 < length (entries other.old) → length (entries self.old) + length (entries other.old) ≤ usize.MAX → IsAscending K.cmp (entries self.old ++ entries other.old) → count.new.comparisons ≡ count.old.comparisons + 1 }
    {
        self.append_asked(other, count, &mut Asked::new())
    }

    /// `append_counted`, with its requests for memory added to `asked`: none where one of the two is empty; two for each level between the two roots and two for
    /// a new root where all keys of `other` lie after ours; else those for two leaves and for the inner nodes that so many pairs can need, each with a list;
    /// where it is refused, no more. The map then has no block of memory that was in neither and not asked for.
    ///
    /// # Errors
    /// As `append`.
    pub fn append_asked(
        &mut self,
        other: &mut Self,
        count: &mut Count,
        asked: &mut Asked,
    ) -> Result<(), TryReserveError>
        ensures joined { IfOk result (λ _. entries self.new ≡ joined K.cmp (entries self.old) (entries other.old)) }
        ensures emptied { IfOk result (λ _. entries other.new ≡ []) }
        ensures unchanged { IfErr result (λ _. (self.new ≡ self.old) × (other.new ≡ other.old)) }
        ensures error { IfErr result (MayAppendRefuse (length (entries self.old)) (length (entries other.old))) }
        ensures full { 0 < length (entries self.old) → 0 < length (entries other.old) → usize.MAX < length (entries self.old) + length (entries other.old) → IsErr result }
        ensures ascending { IsAscending K.cmp (entries self.new) }
        ensures ascended { IsAscending K.cmp (entries self.old) × IsAscending K.cmp (entries other.old) }
        ensures sound { IsSoundMap self.new }
        ensures comparisons { count.new.comparisons ≤ count.old.comparisons + (length (entries self.old) + length (entries other.old)) }
        ensures none { (entries self.old ≡ []) ⊎ (entries other.old ≡ []) → count.new.comparisons ≡ count.old.comparisons }
        ensures grown { count.old.comparisons ≤ count.new.comparisons }
        ensures counted { IfOk result (λ _. 0 < length (entries self.old) → 0 < length (entries other.old) → count.old.comparisons < count.new.comparisons) }
        ensures after { 0 < length (entries self.old) → 0 < length (entries other.old) → length (entries self.old) + length (entries other.old) ≤ usize.MAX → IsAscending K.cmp (entries self.old ++ entries other.old) → count.new.comparisons ≡ count.old.comparisons + 1 }
        ensures no_request { (entries self.old ≡ []) ⊎ (entries other.old ≡ []) → asked.new.requests ≡ asked.old.requests }
        ensures requests_after { IfOk result (λ _. 0 < length (entries self.old) → 0 < length (entries other.old) → IsAscending K.cmp (entries self.old ++ entries other.old) → asked.new.requests ≡ asked.old.requests + join_requests self.old other.old) }
        ensures requests_merged { IfOk result (λ _. ¬ IsAscending K.cmp (entries self.old ++ entries other.old) → asked.new.requests ≡ asked.old.requests + given_requests (length (entries self.old) + length (entries other.old))) }
        ensures at_most_after { IsAscending K.cmp (entries self.old ++ entries other.old) → asked.new.requests ≤ asked.old.requests + join_requests self.old other.old }
        ensures at_most_merged { ¬ IsAscending K.cmp (entries self.old ++ entries other.old) → asked.new.requests ≤ asked.old.requests + given_requests (length (entries self.old) + length (entries other.old)) }
        ensures at_most { asked.new.requests ≤ asked.old.requests + max (join_requests self.old other.old) (given_requests (length (entries self.old) + length (entries other.old))) }
        ensures blocks { IfOk result (λ _. asked.old.requests + (blocks_in self.new + blocks_in other.new) ≤ asked.new.requests + (blocks_in self.old + blocks_in other.old)) }
    {
        self.len = try_append(
            self.alloc,
            &mut self.root,
            self.len,
            &mut other.root,
            other.len,
            count,
            asked,
        )?;
        other.len = 0;
        Ok(())
    }
}
