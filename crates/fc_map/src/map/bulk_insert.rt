//! Bulk insertion: a map that is made of items, which are pushed at its right edge as long as they ascend.
ghost use Rattle.std.specs.Prelude.{◌≡◌, ◌+◌, ◌≤◌, [], ◌++◌, length, IsTrue, IfOk, IfErr, IfSome, None};
ghost use Rattle.std.specs.List.{AllByRecursion};
ghost use Rattle.std.specs.declared.cmp.Ordering.TheVariants.{Less};
ghost use Rattle.fc_base.specs.Ascending.{IsAscending};
ghost use Rattle.fc_base.specs.Extended.{extended};
ghost use Rattle.fc_base.specs.Growth.{MayGrowRefuse};
ghost use Rattle.fc_base.specs.OneKey.{put};
ghost use Rattle.fc_base.specs.Parts.{at};
ghost use Rattle.fc_map.specs.Entries.{entries, IsSoundMap};
ghost use Rattle.fc_map.specs.BulkInsert.{IsBulkInsert};
ghost use Rattle.fc_map.specs.Loads.{load_requests};

use super::{BTreeMap, for_sets};
use fc_base::{Asked, Count, Handle, TryReserveError};
use fc_tree_build::growing::GrowingBuilder;
use fc_tree_build::ordered::push_after;
use std::alloc::Global;
use std::marker::Model;
use std::mem;

// A map of at most so many times as many pairs as there are items is merged with them; into a larger one they go one by one.
const SPREAD: usize = 8;

/// A map that is being made, seen as the list of its pairs, and how many stand in the map: they stand in a tree that is open at its right edge,
/// until an item comes that doesn't lie after the last one; then they stand in the map, and from there on each item is inserted from the root.
#[derive(Drop)]
pub struct BulkInsert<K: Ord, V, A: Handle = Global> {
    tree: GrowingBuilder<K, V, A>,
    map: BTreeMap<K, V, A>,
}

impl<K: Ord, V, A: Handle> Model for BulkInsert<K, V, A> {
    ghost use Rattle.fc_map.specs.Entries.{entries};
    ghost use Rattle.fc_map.specs.BulkInsert.{Inserting, inserting, IsBulkInsert};

    ghost Value = { Inserting K V };

    ghost view = { λ e. inserting e.tree.pairs (entries e.map) };

    ghost invariant = { λ e. IsBulkInsert K.cmp e.tree.pairs (entries e.map) };
}

impl<K: Ord + Drop, V: Drop, A: Handle> BulkInsert<K, V, A> {
    /// An insertion of no item yet. It takes no memory.
    pub fn new(alloc: A) -> BulkInsert<K, V, A>
        ensures pairs { result.pairs ≡ [] }
        ensures closed { result.closed ≡ 0 }
    {
        BulkInsert {
            tree: GrowingBuilder::new(alloc),
            map: BTreeMap::new(alloc),
        }
    }

    /// Puts the item in, as `BTreeMap::try_insert`: by a comparison or two with the last key where all items so far came in ascending order. Requests for
    /// memory are added to `asked`.
    ///
    /// # Errors
    /// As `BTreeMap::try_insert`. The item is dropped.
    pub fn try_put(&mut self, key: K, value: V, asked: &mut Asked) -> Result<(), TryReserveError>
        ensures put { IfOk result (λ _. self.new.pairs ≡ put K.cmp self.old.pairs key value) }
        ensures unchanged { IfErr result (λ _. self.new.pairs ≡ self.old.pairs) }
        ensures new_key { IfErr result (λ _. at K.cmp self.old.pairs key ≡ None) }
        ensures error { IfErr result (λ e. MayGrowRefuse (length self.old.pairs) e) }
        ensures open { self.old.closed ≡ 0 → AllByRecursion (λ e. K.cmp e.0 key ≡ Less) self.old.pairs → self.new.closed ≡ 0 }
        ensures at_most { self.old.closed ≡ 0 → AllByRecursion (λ e. K.cmp e.0 key ≡ Less) self.old.pairs → asked.new.requests + load_requests (length self.old.pairs) ≤ asked.old.requests + load_requests (length self.old.pairs + 1) }
    {
        let Some((key, value)) = self.tree.put_if_after((key, value)) else {
            return Ok(());
        };
        if is_after(&self.tree, &self.map, &key) {
            return push_after(&mut self.tree, key, value, asked);
        }
        if self.map.is_empty() {
            close(&mut self.tree, &mut self.map);
        }
        self.map.put_asked(key, value, &mut Count::new(), asked)
    }

    /// Puts the pair after all others where that takes no memory and one comparison; else it comes back.
    #[inline(always)]
    pub fn put_if_after(&mut self, pair: (K, V)) -> Option<(K, V)>
        ensures put { result ≡ None → self.new.pairs ≡ put K.cmp self.old.pairs pair.0 pair.1 }
        ensures closed { self.new.closed ≡ self.old.closed }
        ensures back { IfSome result (λ back. (back ≡ pair) × (self.new ≡ self.old)) }
    {
        self.tree.put_if_after(pair)
    }

    /// Puts all items in, in turn, by a merge.
    ///
    /// # Errors
    /// The items, in their order, where the tree is open, where they are few beside the pairs, or where memory for that is refused. All pairs then stay.
    pub fn merge(&mut self, items: Vec<(K, V), A>) -> Result<(), Vec<(K, V), A>>
        ensures merged { IfOk result (λ _. self.new.pairs ≡ extended K.cmp self.old.pairs items.items) }
        ensures unchanged { IfErr result (λ back. (self.new ≡ self.old) × (back.items ≡ items.items)) }
    {
        let len = self.map.len();
        if len == 0 || items.len() <= len / SPREAD {
            return Err(items);
        }
        self.map.merge(items)
    }

    /// How many pairs stand in the map: none as long as the tree is open.
    pub fn closed_len(&self) -> usize
        ensures { result ≡ self.now.closed }
    {
        self.map.len
    }

    /// The map of all pairs.
    pub fn finish(self) -> BTreeMap<K, V, A>
        ensures pairs { entries result ≡ self.pairs }
        ensures ascending { IsAscending K.cmp (entries result) }
        ensures sound { IsSoundMap result }
    {
        let BulkInsert { tree, map } = self;
        if map.is_empty() {
            return for_sets::from_grown(map.alloc, tree);
        }
        map
    }
}

// Whether the map has no pair, and the key lies after all keys of the tree: it is compared with the last one.
fn is_after<K: Ord, V, A: Handle>(
    tree: &GrowingBuilder<K, V, A>,
    map: &BTreeMap<K, V, A>,
    key: &K,
) -> bool
    requires { IsBulkInsert K.cmp tree.now.pairs (entries map.now) }
    ensures after { IsTrue result → AllByRecursion (λ e. K.cmp e.0 key.now ≡ Less) tree.now.pairs }
    ensures open { IsTrue result → entries map.now ≡ [] }
    ensures told { entries map.now ≡ [] → AllByRecursion (λ e. K.cmp e.0 key.now ≡ Less) tree.now.pairs → IsTrue result }
{
    match tree.last() {
        None => map.is_empty(),
        Some(last) => last.0.cmp(key).is_lt(),
    }
}

// Moves the tree's pairs into the map, which has none.
#[cold]
fn close<K: Ord + Drop, V: Drop, A: Handle>(
    tree: &mut GrowingBuilder<K, V, A>,
    map: &mut BTreeMap<K, V, A>,
)
    requires { IsAscending K.cmp tree.old.pairs }
    ensures pairs { entries map.new ≡ tree.old.pairs }
    ensures closed { tree.new.pairs ≡ [] }
{
    let grown = mem::replace(tree, GrowingBuilder::new(map.alloc));
    *map = for_sets::from_grown(map.alloc, grown);
}
