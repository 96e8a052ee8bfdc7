//! The search for a key's place.
ghost use Rattle.std.specs.Prelude.{◌≡◌, ◌+◌, length, unwrap_or, IsOk, IfOk, Some};
ghost use Rattle.std.specs.Option.{option_map};
ghost use Rattle.std.specs.Borrow.{sem};
ghost use Rattle.fc_base.specs.Ascending.{IsAscending};
ghost use Rattle.fc_base.specs.OneKey.{put, cut};
ghost use Rattle.fc_base.specs.Parts.{at};
ghost use Rattle.fc_map.specs.Counts.{IsBounded};
ghost use Rattle.fc_map.specs.Entries.{entries, passed_in};
ghost use Rattle.fc_map.specs.LendsKey.{path_in};
ghost use Rattle.fc_map.specs.Entry.{entry_map, entry_map_ref, entry_path, entry_key, entry_pair, list_with, list_without, rests_if_refused_in};

use super::super::BTreeMap;
use super::{Entry, OccupiedEntry, VacantEntry};
use fc_base::{Count, Handle, TryReserveError};
use fc_tree_node::path::Path;

impl<K: Ord + Drop, V: Drop, A: Handle> BTreeMap<K, V, A> {
    /// The place of the key, found by one search: `Occupied` where an equal key is there, and the given key is then dropped; else
    /// `Vacant`. It takes no memory. Upstream: `BTreeMap::try_entry`.
    ///
    /// # Errors
    /// None.
    pub fn try_entry(&mut self, key: K) -> Result<Entry<'_, K, V, A>, TryReserveError>
        ensures* writes_back { sem 𝓛 (rests_if_refused_in K.row V.row A.row A.Allocator self.entry result) }
        ensures ok { IsOk result }
        ensures same_map { IfOk result (λ e. (entry_map_ref e).ghost_name ≡ self.entry.ghost_name) }
        ensures map { IfOk result (λ e. entry_map e ≡ self.old) }
        ensures path { IfOk result (λ e. entry_path e ≡ path_in K.cmp key self.old) }
        ensures pair { IfOk result (λ e. entry_pair e ≡ at K.cmp (entries self.old) key) }
        ensures key { IfOk result (λ e. entry_key e ≡ Some (unwrap_or (option_map (λ p. p.0) (at K.cmp (entries self.old) key)) key)) }
        ensures writes { IfOk result (λ e. (v : V) → list_with e v ≡ put K.cmp (entries self.old) key v) }
        ensures removes { IfOk result (λ e. list_without e ≡ cut K.cmp (entries self.old) key) }
        ensures ascending { IsAscending K.cmp (entries self.old) }
    {
        self.try_entry_counted(key, &mut Count::new())
    }

    /// `try_entry`, with its comparisons added to the count: exactly those keys that a search from the left passes. It moves no
    /// pair.
    ///
    /// # Errors
    /// None.
    pub fn try_entry_counted(
        &mut self,
        key: K,
        count: &mut Count,
    ) -> Result<Entry<'_, K, V, A>, TryReserveError>
        ensures* writes_back { sem 𝓛 (rests_if_refused_in K.row V.row A.row A.Allocator self.entry result) }
        ensures ok { IsOk result }
        ensures same_map { IfOk result (λ e. (entry_map_ref e).ghost_name ≡ self.entry.ghost_name) }
        ensures map { IfOk result (λ e. entry_map e ≡ self.old) }
        ensures path { IfOk result (λ e. entry_path e ≡ path_in K.cmp key self.old) }
        ensures pair { IfOk result (λ e. entry_pair e ≡ at K.cmp (entries self.old) key) }
        ensures key { IfOk result (λ e. entry_key e ≡ Some (unwrap_or (option_map (λ p. p.0) (at K.cmp (entries self.old) key)) key)) }
        ensures writes { IfOk result (λ e. (v : V) → list_with e v ≡ put K.cmp (entries self.old) key v) }
        ensures removes { IfOk result (λ e. list_without e ≡ cut K.cmp (entries self.old) key) }
        ensures ascending { IsAscending K.cmp (entries self.old) }
        ensures comparisons { count.new.comparisons ≡ count.old.comparisons + passed_in K.cmp key self.old }
        ensures moves { count.new.moves ≡ count.old.moves }
        ensures bounded { IsBounded (length (entries self.old)) count.old count.new }
    {
        let mut path = Path::new();
        match self.locate(&key, &mut path, count) {
            Ok(()) => Ok(Entry::Occupied(OccupiedEntry { map: self, path })),
            Err(_) => Ok(Entry::Vacant(VacantEntry {
                map: self,
                key,
                path,
            })),
        }
    }
}
