//! A key's place in a map: it was searched for once, and is written, filled or emptied without another comparison.
ghost use Rattle.std.specs.Prelude.{◌≡◌};
ghost use Rattle.fc_map.specs.KeptPlace.{IsKeptPlace};
ghost use Rattle.fc_map.specs.Place.{IsOpenAt};
ghost use Rattle.fc_map.specs.Unique.{kept-prop, open-prop};

mod beside;
mod entry_methods;
mod first_last;
mod occupied;
mod ready;
mod try_entry;
mod vacant;

use super::BTreeMap;
use fc_base::Handle;
use fc_tree_node::path::Path;
pub use ready::ReadyEntry;
use std::alloc::Global;

/// The place of a key in a map. Dropped, it leaves the map as it was. Upstream: `Entry`.
#[derive(Drop)]
pub enum Entry<'a, K: Ord, V, A: Handle = Global> {
    /// No equal key is there.
    Vacant(VacantEntry<'a, K, V, A>),
    /// An equal key is there.
    Occupied(OccupiedEntry<'a, K, V, A>),
}

/// The gap where a key would go that the map does not have. Upstream: `VacantEntry`.
pub struct VacantEntry<'a, K: Ord, V, A: Handle = Global> {
    pub(crate) map: &'a mut BTreeMap<K, V, A>,
    pub(crate) key: K,
    pub(crate) path: Path,
    ghost gap: { IsOpenAt K.cmp key map.now path } by { open-prop K.cmp key map.now path },
}

/// A pair of the map. Upstream: `OccupiedEntry`.
pub struct OccupiedEntry<'a, K: Ord, V, A: Handle = Global> {
    pub(crate) map: &'a mut BTreeMap<K, V, A>,
    pub(crate) path: Path,
    ghost place: { IsKeptPlace map.now path } by { kept-prop map.now path },
}

// Dropped, it leaves the map as it was: a derived `drop` would not say so.
impl<K: Ord + Drop, V, A: Handle> Drop for VacantEntry<'_, K, V, A> {
    fn drop(self)
        ensures { self.exit.0.now ≡ self.entry.map.now }
    {
        let VacantEntry {
            map: _,
            key,
            path: _,
        } = self;
        drop(key);
    }
}

// As above.
impl<K: Ord, V, A: Handle> Drop for OccupiedEntry<'_, K, V, A> {
    fn drop(self)
        ensures { self.exit.0.now ≡ self.entry.map.now }
    {
        let OccupiedEntry { map: _, path: _ } = self;
    }
}
