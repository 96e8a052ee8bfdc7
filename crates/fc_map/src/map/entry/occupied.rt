//! The pair at a key that is there.
ghost use Rattle.std.specs.Prelude.{◌≡◌, ◌<◌, length, Some};
ghost use Rattle.std.specs.Option.{option_map};
ghost use Rattle.std.specs.Borrow.{sem};
ghost use Rattle.fc_map.specs.Counts.{IsBounded};
ghost use Rattle.fc_map.specs.Entries.{entries, IsSoundMap};
ghost use Rattle.fc_map.specs.Fewest.{HasFewestMoves};
ghost use Rattle.fc_map.specs.Entry.{Occupied, entry_key, entry_map, entry_pair, entry_value, list_without, map_written, occupied_lends_in, occupied_lends_whole_in, IsWritten};

use super::OccupiedEntry;
use fc_base::{Count, Handle};
use std::mem;

impl<'a, K: Ord, V, A: Handle> OccupiedEntry<'a, K, V, A> {
    /// The key of the pair. Upstream: `OccupiedEntry::key`.
    pub fn key(&self) -> &K
        ensures { entry_key (Occupied self.now) ≡ Some result.now }
    {
        &self.map.pair_of(&self.path).0
    }

    /// The value of the pair. Upstream: `OccupiedEntry::get`.
    pub fn get(&self) -> &V
        ensures { entry_value (Occupied self.now) ≡ Some result.now }
    {
        &self.map.pair_of(&self.path).1
    }

    /// The value of the pair, lent for writing; the entry stays in use. Upstream: `OccupiedEntry::get_mut`.
    pub fn get_mut(&mut self) -> &mut V
        ensures* writes_back { sem 𝓛 (occupied_lends_in K.row V.row A.row A.Allocator self.entry result) }
        ensures value { entry_value (Occupied self.old) ≡ Some result.now }
        ensures sound { IsSoundMap (entry_map (Occupied self.old)) }
    {
        let path = self.path;
        self.map.value_mut(&path)
    }

    /// The value of the pair, lent for writing for as long as the map was. The tree keeps its shape. Upstream:
    /// `OccupiedEntry::into_mut`.
    pub fn into_mut(self) -> &'a mut V
        ensures* writes_back { sem 𝓛 (occupied_lends_whole_in K.row V.row A.row A.Allocator self.entry result) }
        ensures value { entry_value (Occupied self.entry) ≡ Some result.now }
        ensures sound { (w : V) → IsSoundMap (map_written self.entry w) }
    {
        let OccupiedEntry { map, path } = self;
        map.value_mut(&path)
    }

    /// Puts another value into the pair, which keeps its key, and answers the old one. Upstream: `OccupiedEntry::insert`.
    pub fn insert(&mut self, value: V) -> V
        ensures old { entry_value (Occupied self.old) ≡ Some result }
        ensures written { IsWritten self.old value self.new }
    {
        mem::replace(self.get_mut(), value)
    }
}

impl<'a, K: Ord + Drop, V: Drop, A: Handle> OccupiedEntry<'a, K, V, A> {
    /// Takes the pair out and answers its value; the key is dropped. It takes no memory. Upstream: `OccupiedEntry::remove`.
    pub fn remove(self) -> V
        ensures value { entry_value (Occupied self.entry) ≡ Some result }
        ensures removed { entries self.exit.0.now ≡ list_without (Occupied self.entry) }
        ensures sound { IsSoundMap self.exit.0.now }
    {
        self.remove_entry().1
    }

    /// Takes the pair out and answers it. It takes no memory. Upstream: `OccupiedEntry::remove_entry`.
    pub fn remove_entry(self) -> (K, V)
        ensures pair { entry_pair (Occupied self.entry) ≡ Some result }
        ensures removed { entries self.exit.0.now ≡ list_without (Occupied self.entry) }
        ensures sound { IsSoundMap self.exit.0.now }
    {
        self.remove_entry_counted(&mut Count::new())
    }

    /// `remove_entry`, with its moves added to the count. It compares nothing.
    pub fn remove_entry_counted(self, count: &mut Count) -> (K, V)
        ensures pair { entry_pair (Occupied self.entry) ≡ Some result }
        ensures removed { entries self.exit.0.now ≡ list_without (Occupied self.entry) }
        ensures sound { IsSoundMap self.exit.0.now }
        ensures comparisons { count.new.comparisons ≡ count.old.comparisons }
        ensures moved { count.old.moves < count.new.moves }
        ensures fewest { HasFewestMoves (entry_map (Occupied self.entry)) self.exit.0.now count.old count.new }
        ensures bounded { IsBounded (length (entries (entry_map (Occupied self.entry)))) count.old count.new }
    {
        let path = self.path;
        let pair = self.map.take_at(&path, count);
        let OccupiedEntry { map: _, path: _ } = self;
        pair
    }
}
