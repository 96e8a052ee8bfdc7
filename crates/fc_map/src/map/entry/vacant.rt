//! Vacant entries: the leaf edge, a gap between pairs, where an absent key would go.
ghost use Rattle.std.specs.Prelude.{◌≡◌, ◌+◌, ◌<◌, ◌≤◌, length, IsErr, IfOk, IfErr, OnErr, OnOk, Some};
ghost use Rattle.std.specs.Borrow.{sem};
ghost use Rattle.fc_base.specs.Growth.{MayGrowRefuse};
ghost use Rattle.fc_map.specs.Counts.{IsBounded};
ghost use Rattle.fc_map.specs.Entries.{entries};
ghost use Rattle.fc_map.specs.Full.{IsFullAt};
ghost use Rattle.fc_map.specs.Requests.{requests_at, HasFewRequests};
ghost use Rattle.fc_map.specs.Entry.{Vacant, entry_key, entry_lends_ok_in, entry_map, entry_path};

use super::super::for_sets;
use super::VacantEntry;
use fc_base::{Asked, Count, Handle, TryReserveError};

impl<'a, K: Ord, V, A: Handle> VacantEntry<'a, K, V, A> {
    /// The key that was searched for. Upstream: `VacantEntry::key`.
    pub fn key(&self) -> &K
        ensures { entry_key (Vacant self.now) ≡ Some result.now }
    {
        &self.key
    }

    /// The key that was searched for, given back. The map stays as it was. Upstream: `VacantEntry::into_key`.
    pub fn into_key(self) -> K
        ensures key { entry_key (Vacant self.entry) ≡ Some result }
        ensures unchanged { self.exit.0.now ≡ entry_map (Vacant self.entry) }
    {
        let VacantEntry {
            map: _,
            key,
            path: _,
        } = self;
        key
    }

    // Where the map takes its memory.
    pub(super) fn allocator(&self) -> A {
        for_sets::allocator(self.map)
    }
}

impl<'a, K: Ord + Drop, V: Drop, A: Handle> VacantEntry<'a, K, V, A> {
    /// Puts the key with the value into the gap, and lends the value for writing for as long as the map was. Upstream:
    /// `VacantEntry::try_insert`.
    ///
    /// # Errors
    /// `CapacityOverflow` where the map holds `usize::MAX` pairs, and then always; else `AllocError`, where a request for memory
    /// was refused, which takes an empty map or a full leaf. The map is then as it was, tree and all, and key and value come
    /// back.
    pub fn try_insert(self, value: V) -> Result<&'a mut V, (K, V, TryReserveError)>
        ensures* writes_back { sem 𝓛 (entry_lends_ok_in K.row V.row A.row A.Allocator (Vacant self.entry) result) }
        ensures value { IfOk result (λ v. v.now ≡ value) }
        ensures back { IfErr result (λ e. (entry_key (Vacant self.entry) ≡ Some e.0) × (e.1 ≡ value)) }
        ensures error { IfErr result (λ e. MayGrowRefuse (length (entries (entry_map (Vacant self.entry)))) e.2) }
        ensures only_full { OnErr result (length (entries (entry_map (Vacant self.entry))) < usize.MAX → IsFullAt (entry_map (Vacant self.entry)) (entry_path (Vacant self.entry))) }
        ensures full { length (entries (entry_map (Vacant self.entry))) ≡ usize.MAX → IsErr result }
    {
        self.try_insert_counted(value, &mut Count::new())
    }

    /// `try_insert`, with its moves added to the count. It compares nothing, and a refused insertion moves no pair.
    ///
    /// # Errors
    /// As `try_insert`.
    pub fn try_insert_counted(
        self,
        value: V,
        count: &mut Count,
    ) -> Result<&'a mut V, (K, V, TryReserveError)>
        ensures* writes_back { sem 𝓛 (entry_lends_ok_in K.row V.row A.row A.Allocator (Vacant self.entry) result) }
        ensures value { IfOk result (λ v. v.now ≡ value) }
        ensures back { IfErr result (λ e. (entry_key (Vacant self.entry) ≡ Some e.0) × (e.1 ≡ value)) }
        ensures error { IfErr result (λ e. MayGrowRefuse (length (entries (entry_map (Vacant self.entry)))) e.2) }
        ensures only_full { OnErr result (length (entries (entry_map (Vacant self.entry))) < usize.MAX → IsFullAt (entry_map (Vacant self.entry)) (entry_path (Vacant self.entry))) }
        ensures full { length (entries (entry_map (Vacant self.entry))) ≡ usize.MAX → IsErr result }
        ensures comparisons { count.new.comparisons ≡ count.old.comparisons }
        ensures no_move { OnErr result (count.new.moves ≡ count.old.moves) }
        ensures moved { OnOk result (count.old.moves < count.new.moves) }
        ensures bounded { IsBounded (length (entries (entry_map (Vacant self.entry))) + 1) count.old count.new }
    {
        self.try_insert_asked(value, count, &mut Asked::new())
    }

    /// `try_insert_counted`, with its requests for memory added to `asked`: none where the leaf has room, one for a first leaf, and else one for a leaf and two
    /// for each inner node that the insertion takes; where it is refused, no more.
    ///
    /// # Errors
    /// As `try_insert`.
    pub fn try_insert_asked(
        self,
        value: V,
        count: &mut Count,
        asked: &mut Asked,
    ) -> Result<&'a mut V, (K, V, TryReserveError)>
        ensures* writes_back { sem 𝓛 (entry_lends_ok_in K.row V.row A.row A.Allocator (Vacant self.entry) result) }
        ensures value { IfOk result (λ v. v.now ≡ value) }
        ensures back { IfErr result (λ e. (entry_key (Vacant self.entry) ≡ Some e.0) × (e.1 ≡ value)) }
        ensures error { IfErr result (λ e. MayGrowRefuse (length (entries (entry_map (Vacant self.entry)))) e.2) }
        ensures only_full { OnErr result (length (entries (entry_map (Vacant self.entry))) < usize.MAX → IsFullAt (entry_map (Vacant self.entry)) (entry_path (Vacant self.entry))) }
        ensures full { length (entries (entry_map (Vacant self.entry))) ≡ usize.MAX → IsErr result }
        ensures comparisons { count.new.comparisons ≡ count.old.comparisons }
        ensures no_move { OnErr result (count.new.moves ≡ count.old.moves) }
        ensures moved { OnOk result (count.old.moves < count.new.moves) }
        ensures bounded { IsBounded (length (entries (entry_map (Vacant self.entry))) + 1) count.old count.new }
        ensures requests { OnOk result (asked.new.requests ≡ asked.old.requests + requests_at (entry_map (Vacant self.entry)) (entry_path (Vacant self.entry))) }
        ensures at_most { asked.new.requests ≤ asked.old.requests + requests_at (entry_map (Vacant self.entry)) (entry_path (Vacant self.entry)) }
        ensures room { ¬ IsFullAt (entry_map (Vacant self.entry)) (entry_path (Vacant self.entry)) → asked.new.requests ≤ asked.old.requests }
        ensures few { HasFewRequests (length (entries (entry_map (Vacant self.entry))) + 1) asked.old asked.new }
    {
        let VacantEntry { map, key, mut path } = self;
        let has_room = map.has_room_at(&path);
        match map.insert_at(&mut path, has_room, key, value, count, asked) {
            Ok(()) => Ok(map.value_mut(&path)),
            Err(refused) => Err(refused),
        }
    }
}
