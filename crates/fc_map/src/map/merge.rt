//! The items of a vector, in any order, put into a map: all or none.
ghost use Rattle.std.specs.Prelude.{◌≡◌, ◌+◌, ◌<◌, [], length, IfOk, IfErr, OnOk, OnErr, IsOk, IsErr};
ghost use Rattle.fc_base.specs.Ascending.{IsAscending};
ghost use Rattle.fc_base.specs.Extended.{extended};
ghost use Rattle.fc_base.specs.Growth.{append_error};
ghost use Rattle.fc_map.specs.Entries.{entries, IsSoundMap};

use super::BTreeMap;
use fc_base::{Handle, TryReserveError};
use fc_tree_append::sorted::try_merge;

// Into a map of more than so many times as many pairs, items go one by one, by reserved nodes: a merge would make all nodes anew for few items.
const SPARSE: usize = 64;

impl<K: Ord + Drop, V: Drop, A: Handle> BTreeMap<K, V, A> {
    /// Puts all items of a vector into the map, in turn, or none of them: where an equal key is there, that key stays, with the last value. The
    /// items are sorted and merged with the pairs into a new tree: at once there are then beside the pairs the nodes of a tree of all pairs and
    /// items, and room for as many items again to sort them. Where there are more than 64 times as many pairs as items, these go in one by
    /// one, by nodes that are reserved first, for each a node at each level (`try_reserve_nodes`). Of no items nothing is asked for. Not in upstream.
    ///
    /// # Errors
    /// `CapacityOverflow` where the pairs and the items together pass `usize::MAX`, and then always; else `AllocError`, where a request for
    /// memory was refused. The items come back, in their order, and the map is as before, tree and all.
    pub fn try_extend_from_vec(
        &mut self,
        items: Vec<(K, V), A>,
    ) -> Result<(), (Vec<(K, V), A>, TryReserveError)>
        ensures all { OnOk result (entries self.new ≡ extended K.cmp (entries self.old) items.items) }
        ensures unchanged { OnErr result (self.new ≡ self.old) }
        ensures back { IfErr result (λ refused. refused.0.items ≡ items.items) }
        ensures error { IfErr result (λ refused. refused.1 ≡ append_error (length (entries self.old)) (length items.items)) }
        ensures full { 0 < length items.items → usize.MAX < length (entries self.old) + length items.items → IsErr result }
        ensures none { items.items ≡ [] → IsOk result }
        ensures ascending { IsAscending K.cmp (entries self.new) }
        ensures sound { IsSoundMap self.new }
    {
        let len = self.len();
        if items.is_empty() {
            return Ok(());
        }
        if items.len() > usize::MAX - len {
            return Err((items, TryReserveError::CapacityOverflow));
        }
        let done = if items.len() < len / SPARSE {
            self.insert_each(items)
        } else {
            self.merge(items)
        };
        // Shows that the map is ascending and sound.
        let _len = self.len();
        match done {
            Ok(()) => Ok(()),
            Err(items) => Err((items, TryReserveError::AllocError)),
        }
    }

    /// Puts all items into the map, in turn, by a merge of its pairs and the items, sorted by their keys.
    ///
    /// # Errors
    /// The items, in their order, where memory for that is refused, or all together are more than `usize::MAX`. The map is then as before.
    pub(super) fn merge(&mut self, items: Vec<(K, V), A>) -> Result<(), Vec<(K, V), A>>
        ensures merged { IfOk result (λ _. entries self.new ≡ extended K.cmp (entries self.old) items.items) }
        ensures unchanged { IfErr result (λ back. (self.new ≡ self.old) × (back.items ≡ items.items)) }
    {
        self.len = try_merge(self.alloc, &mut self.root, self.len, items)?;
        Ok(())
    }

    // Puts all items into the map, in turn, one by one, by nodes that are reserved first: where these are refused, the items come back.
    fn insert_each(&mut self, items: Vec<(K, V), A>) -> Result<(), Vec<(K, V), A>>
        ensures inserted { IfOk result (λ _. entries self.new ≡ extended K.cmp (entries self.old) items.items) }
        ensures unchanged { IfErr result (λ back. (self.new ≡ self.old) × (back.items ≡ items.items)) }
    {
        let mut reservation = match self.try_reserve_nodes(items.len()) {
            Ok(reservation) => reservation,
            Err(_refused) => return Err(items),
        };
        for (key, value) in items {
            let _old = self.insert_reserved(&mut reservation, key, value);
        }
        Ok(())
    }
}
