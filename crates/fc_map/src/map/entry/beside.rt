//! The pairs next to a key, as entries.
ghost use Rattle.std.specs.Prelude.{◌≡◌, [], IfSome, MatchOption};
ghost use Rattle.std.specs.Borrow.{sem};
ghost use Rattle.fc_base.specs.Ascending.{IsAscending};
ghost use Rattle.fc_base.specs.Halves.{not_below};
ghost use Rattle.fc_base.specs.Parts.{below, above};
ghost use Rattle.fc_map.specs.Entries.{entries};
ghost use Rattle.fc_map.specs.Entry.{Occupied, entry_map, entry_map_ref, rests_if_none_in, IsFirstAfter, IsLastBefore};
ghost use Rattle.fc_tree_search.specs.Neighbours.{not_above};

use super::super::BTreeMap;
use super::OccupiedEntry;
use fc_base::{Count, Handle, Query};
use fc_tree_node::path::Path;

impl<K: Ord, V, A: Handle> BTreeMap<K, V, A> {
    /// The first pair whose key is not below `key`, to be looked at and then taken or written without another search, or `None` where there is none, and then
    /// the map stays as it is. `key` is a `Query`, as in `get`. It has the comparisons of a look-up, and takes no memory. Not in upstream: std's map finds
    /// the pair by `range(key..).next()`, and then searches for it again.
    pub fn first_entry_at_or_after<Q: Query<K>>(
        &mut self,
        key: Q,
    ) -> Option<OccupiedEntry<'_, K, V, A>>
        ensures* writes_back { sem 𝓛 (rests_if_none_in K.row V.row A.row A.Allocator self.entry result) }
        ensures pair { MatchOption result (not_below Q.order (entries self.old) (Q.sought key) ≡ []) (λ e. IsFirstAfter e (below Q.order (entries self.old) (Q.sought key)) (not_below Q.order (entries self.old) (Q.sought key))) }
        ensures same_map { IfSome result (λ e. (entry_map_ref (Occupied e)).ghost_name ≡ self.entry.ghost_name) }
        ensures map { IfSome result (λ e. entry_map (Occupied e) ≡ self.old) }
        ensures ascending { IsAscending K.cmp (entries self.old) }
    {
        let mut path = Path::new();
        if self.locate_from(key, &mut path, &mut Count::new()) {
            return Some(OccupiedEntry { map: self, path });
        }
        None
    }

    /// The first pair whose key is above `key`, to be looked at and then taken or written without another search, or `None` where there is none, and then
    /// the map stays as it is. `key` is a `Query`, as in `get`. It has the comparisons of a look-up, and takes no memory. Not in upstream: std's map finds
    /// the pair by `range((Excluded(key), Unbounded)).next()`, and then searches for it again.
    pub fn first_entry_after<Q: Query<K>>(&mut self, key: Q) -> Option<OccupiedEntry<'_, K, V, A>>
        ensures* writes_back { sem 𝓛 (rests_if_none_in K.row V.row A.row A.Allocator self.entry result) }
        ensures pair { MatchOption result (above Q.order (entries self.old) (Q.sought key) ≡ []) (λ e. IsFirstAfter e (not_above Q.order (entries self.old) (Q.sought key)) (above Q.order (entries self.old) (Q.sought key))) }
        ensures same_map { IfSome result (λ e. (entry_map_ref (Occupied e)).ghost_name ≡ self.entry.ghost_name) }
        ensures map { IfSome result (λ e. entry_map (Occupied e) ≡ self.old) }
        ensures ascending { IsAscending K.cmp (entries self.old) }
    {
        let mut path = Path::new();
        if self.locate_after(key, &mut path, &mut Count::new()) {
            return Some(OccupiedEntry { map: self, path });
        }
        None
    }

    /// The last pair whose key is not above `key`, to be looked at and then taken or written without another search, or `None` where there is none, and then
    /// the map stays as it is. `key` is a `Query`, as in `get`. It has the comparisons of a look-up, and takes no memory. Not in upstream: std's map finds
    /// the pair by `range(..=key).next_back()`, and then searches for it again.
    pub fn last_entry_at_or_before<Q: Query<K>>(
        &mut self,
        key: Q,
    ) -> Option<OccupiedEntry<'_, K, V, A>>
        ensures* writes_back { sem 𝓛 (rests_if_none_in K.row V.row A.row A.Allocator self.entry result) }
        ensures pair { MatchOption result (not_above Q.order (entries self.old) (Q.sought key) ≡ []) (λ e. IsLastBefore e (not_above Q.order (entries self.old) (Q.sought key)) (above Q.order (entries self.old) (Q.sought key))) }
        ensures same_map { IfSome result (λ e. (entry_map_ref (Occupied e)).ghost_name ≡ self.entry.ghost_name) }
        ensures map { IfSome result (λ e. entry_map (Occupied e) ≡ self.old) }
        ensures ascending { IsAscending K.cmp (entries self.old) }
    {
        let mut path = Path::new();
        if self.locate_to(key, &mut path, &mut Count::new()) {
            return Some(OccupiedEntry { map: self, path });
        }
        None
    }

    /// The last pair whose key is below `key`, to be looked at and then taken or written without another search, or `None` where there is none, and then
    /// the map stays as it is. `key` is a `Query`, as in `get`. It has the comparisons of a look-up, and takes no memory. Not in upstream: std's map finds
    /// the pair by `range(..key).next_back()`, and then searches for it again.
    pub fn last_entry_before<Q: Query<K>>(&mut self, key: Q) -> Option<OccupiedEntry<'_, K, V, A>>
        ensures* writes_back { sem 𝓛 (rests_if_none_in K.row V.row A.row A.Allocator self.entry result) }
        ensures pair { MatchOption result (below Q.order (entries self.old) (Q.sought key) ≡ []) (λ e. IsLastBefore e (below Q.order (entries self.old) (Q.sought key)) (not_below Q.order (entries self.old) (Q.sought key))) }
        ensures same_map { IfSome result (λ e. (entry_map_ref (Occupied e)).ghost_name ≡ self.entry.ghost_name) }
        ensures map { IfSome result (λ e. entry_map (Occupied e) ≡ self.old) }
        ensures ascending { IsAscending K.cmp (entries self.old) }
    {
        let mut path = Path::new();
        if self.locate_before(key, &mut path, &mut Count::new()) {
            return Some(OccupiedEntry { map: self, path });
        }
        None
    }
}
