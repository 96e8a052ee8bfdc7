//! The first and the last pair of a map, as entries.
ghost use Rattle.std.specs.Prelude.{◌≡◌, [], IfSome, MatchOption};
ghost use Rattle.std.specs.Borrow.{sem};
ghost use Rattle.fc_base.specs.Ascending.{IsAscending};
ghost use Rattle.fc_map.specs.Entries.{entries};
ghost use Rattle.fc_map.specs.Entry.{Occupied, entry_map, entry_map_ref, rests_if_none_in, IsFirstOf, IsLastOf};

use super::super::BTreeMap;
use super::OccupiedEntry;
use fc_base::Handle;
use fc_tree_cursor::ends::{first_gap_in, last_gap_in};

impl<K: Ord, V, A: Handle> BTreeMap<K, V, A> {
    /// The pair with the smallest key, to be looked at and then taken or written without another search, or `None` where the map is
    /// empty. It compares nothing and takes no memory. Not in upstream: it is that of std's map.
    pub fn first_entry(&mut self) -> Option<OccupiedEntry<'_, K, V, A>>
        ensures* writes_back { sem 𝓛 (rests_if_none_in K.row V.row A.row A.Allocator self.entry result) }
        ensures pair { MatchOption result (entries self.old ≡ []) (λ e. IsFirstOf e (entries self.old)) }
        ensures same_map { IfSome result (λ e. (entry_map_ref (Occupied e)).ghost_name ≡ self.entry.ghost_name) }
        ensures map { IfSome result (λ e. entry_map (Occupied e) ≡ self.old) }
        ensures ascending { IsAscending K.cmp (entries self.old) }
    {
        if self.len == 0 {
            return None;
        }
        let path = first_gap_in(&self.root);
        Some(OccupiedEntry { map: self, path })
    }

    /// The pair with the greatest key, to be looked at and then taken or written without another search, or `None` where the map is
    /// empty. It compares nothing and takes no memory. Not in upstream: it is that of std's map.
    pub fn last_entry(&mut self) -> Option<OccupiedEntry<'_, K, V, A>>
        ensures* writes_back { sem 𝓛 (rests_if_none_in K.row V.row A.row A.Allocator self.entry result) }
        ensures pair { MatchOption result (entries self.old ≡ []) (λ e. IsLastOf e (entries self.old)) }
        ensures same_map { IfSome result (λ e. (entry_map_ref (Occupied e)).ghost_name ≡ self.entry.ghost_name) }
        ensures map { IfSome result (λ e. entry_map (Occupied e) ≡ self.old) }
        ensures ascending { IsAscending K.cmp (entries self.old) }
    {
        if self.len == 0 {
            return None;
        }
        let mut gap = last_gap_in(&self.root);
        let path = self.step_to_previous(&mut gap);
        Some(OccupiedEntry { map: self, path })
    }
}
