//! The gap of a key, with the nodes made that an insertion there takes.
ghost use Rattle.std.specs.Prelude.{◌≡◌, ℕ};
ghost use Rattle.fc_map.specs.Ready.{IsReadyAt, ready-prop};

mod debug;
mod ready_entry_methods;
mod try_ready;

use super::super::BTreeMap;
use fc_base::Handle;
use fc_tree_insertion::new_nodes::NewNodes;
use fc_tree_node::path::Path;
use std::alloc::Global;

/// The gap of a key that the map does not have, with every node that an insertion there takes, so that nothing can refuse it. Dropped, it
/// leaves the map as it was.
pub struct ReadyEntry<'a, K: Ord, V, A: Handle = Global, N: Nodes = NewNodes<K, V, A>> {
    pub(crate) map: &'a mut BTreeMap<K, V, A>,
    pub(crate) key: K,
    pub(crate) path: Path,
    pub(crate) new_nodes: N,
    ghost ready: { IsReadyAt K.cmp key map.now path (N.count new_nodes) } by { ready-prop K.cmp key map.now path (N.count new_nodes) },
}

/// Nodes that were made ahead. The entry has them as a type parameter: no clause could else say what a dropped entry leaves of the map.
pub trait Nodes {
    ghost count: { Self → ℕ };
}

impl<K, V, A: Handle> Nodes for NewNodes<K, V, A> {
    ghost count = { λ n. n };
}

// Dropped, it gives the nodes back and leaves the map as it was: a derived `drop` would not say so.
impl<K: Ord + Drop, V, N: Nodes + Drop, A: Handle> Drop for ReadyEntry<'_, K, V, A, N> {
    fn drop(self)
        ensures { self.exit.0.now ≡ self.entry.map.now }
    {
        let ReadyEntry {
            map: _,
            key,
            path: _,
            new_nodes,
        } = self;
        drop(new_nodes);
        drop(key);
    }
}
