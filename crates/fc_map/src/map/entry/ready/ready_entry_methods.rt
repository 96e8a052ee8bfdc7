//! Methods of `ReadyEntry`: the infallible half of a two-phase insertion.
ghost use Rattle.std.specs.Prelude.{◌≡◌, ◌+◌, ◌<◌, length, IfOk, Some};
ghost use Rattle.std.specs.Borrow.{sem};
ghost use Rattle.fc_map.specs.Counts.{IsBounded};
ghost use Rattle.fc_map.specs.Entries.{entries, IsSoundMap};
ghost use Rattle.fc_map.specs.Entry.{Occupied, entry_map, entry_map_ref, entry_pair, list_with};
ghost use Rattle.fc_map.specs.ReadyEntry.{ready_map, ready_map_ref, ready_key, ready_list_with, ready_lends_in};

use super::super::OccupiedEntry;
use super::{Nodes, ReadyEntry};
use fc_base::{Count, Handle};
use std::convert::Infallible;

impl<'a, K: Ord, V, N: Nodes, A: Handle> ReadyEntry<'a, K, V, A, N> {
    /// The key that is to be put in.
    pub fn key(&self) -> &K
        ensures { result.now ≡ ready_key self.now }
    {
        &self.key
    }
}

impl<'a, K: Ord, V, N: Nodes + Drop, A: Handle> ReadyEntry<'a, K, V, A, N> {
    /// The key that was to be put in, given back. The map stays as it was, and the nodes are given back.
    pub fn into_key(self) -> K
        ensures key { result ≡ ready_key self.entry }
        ensures unchanged { self.exit.0.now ≡ ready_map self.entry }
    {
        let ReadyEntry {
            map: _,
            key,
            path: _,
            new_nodes,
        } = self;
        drop(new_nodes);
        key
    }
}

impl<'a, K: Ord + Drop, V: Drop, A: Handle> ReadyEntry<'a, K, V, A> {
    /// Puts the key with the value into the gap, and lends the value for writing for as long as the map was. It takes no memory.
    ///
    /// # Errors
    /// None: there is no `Infallible`, so `let Ok(value) = ready.insert(value);` takes the value out.
    pub fn insert(self, value: V) -> Result<&'a mut V, Infallible>
        ensures* writes_back { sem 𝓛 (ready_lends_in K.row V.row A.row A.Allocator self.entry result) }
        ensures value { IfOk result (λ v. v.now ≡ value) }
    {
        self.insert_counted(value, &mut Count::new())
    }

    /// `insert`, with its moves added to the count. It compares nothing.
    ///
    /// # Errors
    /// As `insert`.
    pub fn insert_counted(self, value: V, count: &mut Count) -> Result<&'a mut V, Infallible>
        ensures* writes_back { sem 𝓛 (ready_lends_in K.row V.row A.row A.Allocator self.entry result) }
        ensures value { IfOk result (λ v. v.now ≡ value) }
        ensures comparisons { count.new.comparisons ≡ count.old.comparisons }
        ensures moved { count.old.moves < count.new.moves }
        ensures bounded { IsBounded (length (entries (ready_map self.entry)) + 1) count.old count.new }
    {
        let ReadyEntry {
            map,
            key,
            mut path,
            new_nodes,
        } = self;
        map.insert_ready(&mut path, (key, value), new_nodes, count);
        Ok(map.value_mut(&path))
    }

    /// Puts the key with the value into the gap, and answers the entry of the pair. It takes no memory. Upstream:
    /// `VacantEntry::insert_entry`.
    pub fn insert_entry(self, value: V) -> OccupiedEntry<'a, K, V, A>
        ensures same_map { (entry_map_ref (Occupied result)).ghost_name ≡ (ready_map_ref self.entry).ghost_name }
        ensures put { entries (entry_map (Occupied result)) ≡ ready_list_with self.entry value }
        ensures pair { entry_pair (Occupied result) ≡ Some (ready_key self.entry, value) }
        ensures sound { IsSoundMap (entry_map (Occupied result)) }
        ensures writes { (w : V) → list_with (Occupied result) w ≡ ready_list_with self.entry w }
    {
        let ReadyEntry {
            map,
            key,
            mut path,
            new_nodes,
        } = self;
        map.insert_ready(&mut path, (key, value), new_nodes, &mut Count::new());
        OccupiedEntry { map, path }
    }
}
