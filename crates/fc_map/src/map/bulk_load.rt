//! Bulk loads: a map that is made of many items, those gathered that come after many out of order.
ghost use Rattle.std.specs.Prelude.{◌≡◌, ◌+◌, ◌<◌, ◌≤◌, [], ◌∷◌, ◌++◌, List, length, IfOk, IfErr, OnOk, None};
ghost use Rattle.std.specs.List.{AllByRecursion};
ghost use Rattle.std.specs.declared.cmp.Ordering.TheVariants.{Less};
ghost use Rattle.fc_base.specs.Ascending.{IsAscending};
ghost use Rattle.fc_base.specs.Extended.{extended, IsExtendedUpTo};
ghost use Rattle.fc_base.specs.Growth.{MayGrowRefuse};
ghost use Rattle.fc_base.specs.OneKey.{put};
ghost use Rattle.fc_base.specs.Parts.{at};
ghost use Rattle.fc_map.specs.Entries.{entries, IsSoundMap};
ghost use Rattle.fc_map.specs.BulkLoad.{IsLoaded, IsOpen, loading};
ghost use Rattle.fc_map.specs.Loads.{load_requests};

use super::BTreeMap;
use super::bulk_insert::BulkInsert;
use fc_base::{Asked, Handle, TryReserveError};
use std::alloc::Global;
use std::marker::Model;
use std::mem;

// So many items out of order go in one by one: few of them ask for no more memory than insertions do. Those after them are gathered.
const SINGLE: usize = 256;

// So many items are gathered at least before they are put in, and so many times as many as there are pairs: the items of a few keys then take no more
// room than that, however many they are.
const FEWEST: usize = 1024;

const TIMES: usize = 8;

/// A map that is being made of many items. A contract sees the list of its pairs, that of the items which are gathered, and whether all items came
/// in order.
#[derive(Drop)]
pub struct BulkLoad<K: Ord, V, A: Handle = Global> {
    placed: BulkInsert<K, V, A>,
    gathered: Vec<(K, V), A>,
    // How many more items out of order go in one by one.
    single: usize,
}

impl<K: Ord, V, A: Handle> Model for BulkLoad<K, V, A> {
    ghost use Rattle.std.specs.Prelude.{◌≡◌, ◌<◌, []};
    ghost use Rattle.fc_map.specs.BulkLoad.{Loading, loading};

    ghost Value = { Loading K V };

    ghost view = { λ l. loading l.placed l.gathered.items l.single };

    ghost invariant = { λ l. 0 < l.single → l.gathered.items ≡ [] };
}

impl<K: Ord + Drop, V: Drop, A: Handle> BulkLoad<K, V, A> {
    /// A load of no item yet. It takes no memory.
    pub fn new(alloc: A) -> BulkLoad<K, V, A>
        ensures placed { result.placed ≡ [] }
        ensures gathered { result.gathered ≡ [] }
        ensures open { IsOpen result }
    {
        BulkLoad {
            placed: BulkInsert::new(alloc),
            gathered: Vec::new(alloc),
            single: SINGLE,
        }
    }

    /// Takes one more item: it is put in, as `BTreeMap::try_insert` does it, or gathered. Requests for memory are added to `asked`, but for those of a merge.
    ///
    /// # Errors
    /// As `BTreeMap::try_insert`, at this item or at one that was gathered, which is dropped with those after it; those before it are put in.
    #[inline(always)]
    pub fn try_put(&mut self, key: K, value: V, asked: &mut Asked) -> Result<(), TryReserveError>
        ensures taken { OnOk result (IsLoaded K.cmp self.old.placed (self.old.gathered ++ (key, value) ∷ []) self.new) }
        ensures error { IfErr result (λ e. (rest : List (K × V)) → IsExtendedUpTo K.cmp self.old.placed ((self.old.gathered ++ (key, value) ∷ []) ++ rest) self.new.placed e) }
        ensures put { OnOk result (IsOpen self.old → AllByRecursion (λ e. K.cmp e.0 key ≡ Less) self.old.placed → self.new.placed ≡ self.old.placed ++ (key, value) ∷ []) }
        ensures open { IsOpen self.old → AllByRecursion (λ e. K.cmp e.0 key ≡ Less) self.old.placed → IsOpen self.new }
        ensures at_most { IsOpen self.old → AllByRecursion (λ e. K.cmp e.0 key ≡ Less) self.old.placed → asked.new.requests + load_requests (length self.old.placed) ≤ asked.old.requests + load_requests (length self.old.placed + 1) }
    {
        if self.single == 0 {
            return gather(
                &mut self.placed,
                &mut self.gathered,
                &mut self.single,
                (key, value),
                asked,
            );
        }
        let Some((key, value)) = self.placed.put_if_after((key, value)) else {
            return Ok(());
        };
        put_singly(&mut self.placed, &mut self.single, key, value, asked)
    }

    /// Puts the items in that are gathered. Requests for memory are added to `asked`, but for those of a merge.
    ///
    /// # Errors
    /// As `try_put`.
    pub fn flush(&mut self, asked: &mut Asked) -> Result<(), TryReserveError>
        ensures all { OnOk result (self.new.placed ≡ extended K.cmp self.old.placed self.old.gathered) }
        ensures error { IfErr result (λ e. (rest : List (K × V)) → IsExtendedUpTo K.cmp self.old.placed (self.old.gathered ++ rest) self.new.placed e) }
        ensures none { IsOpen self.old → asked.new.requests ≡ asked.old.requests }
    {
        put_gathered(&mut self.placed, &mut self.gathered, asked)
    }

    /// The map of the pairs. Items that are gathered are dropped.
    pub fn finish(self) -> BTreeMap<K, V, A>
        ensures pairs { entries result ≡ self.placed }
        ensures ascending { IsAscending K.cmp (entries result) }
        ensures sound { IsSoundMap result }
    {
        let BulkLoad {
            placed,
            gathered: _,
            single: _,
        } = self;
        placed.finish()
    }
}

// Puts an item in, and counts it where it came out of order. Requests for memory are added to `asked`.
#[inline(never)]
fn put_singly<K: Ord + Drop, V: Drop, A: Handle>(
    placed: &mut BulkInsert<K, V, A>,
    single: &mut usize,
    key: K,
    value: V,
    asked: &mut Asked,
) -> Result<(), TryReserveError>
    requires { 0 < single.old }
    ensures put { IfOk result (λ _. placed.new.pairs ≡ put K.cmp placed.old.pairs key value) }
    ensures unchanged { IfErr result (λ _. placed.new.pairs ≡ placed.old.pairs) }
    ensures new_key { IfErr result (λ _. at K.cmp placed.old.pairs key ≡ None) }
    ensures error { IfErr result (λ e. MayGrowRefuse (length placed.old.pairs) e) }
    ensures single { placed.old.closed ≡ 0 → single.new ≡ single.old }
    ensures open { placed.old.closed ≡ 0 → AllByRecursion (λ e. K.cmp e.0 key ≡ Less) placed.old.pairs → placed.new.closed ≡ 0 }
    ensures at_most { placed.old.closed ≡ 0 → AllByRecursion (λ e. K.cmp e.0 key ≡ Less) placed.old.pairs → asked.new.requests + load_requests (length placed.old.pairs) ≤ asked.old.requests + load_requests (length placed.old.pairs + 1) }
{
    if placed.closed_len() > 0 {
        *single -= 1;
    }
    placed.try_put(key, value, asked)
}

// Gathers the item, and puts those gathered in where they are many. Where there is no room for it, they are put in, and from then on each item by itself.
// Requests for memory are added to `asked`, but for those of a merge.
#[inline(never)]
fn gather<K: Ord + Drop, V: Drop, A: Handle>(
    placed: &mut BulkInsert<K, V, A>,
    gathered: &mut Vec<(K, V), A>,
    single: &mut usize,
    item: (K, V),
    asked: &mut Asked,
) -> Result<(), TryReserveError>
    requires { single.old ≡ 0 }
    ensures taken { OnOk result (IsLoaded K.cmp placed.old.pairs (gathered.old.items ++ item ∷ []) (loading placed.new gathered.new.items single.new)) }
    ensures error { IfErr result (λ e. (rest : List (K × V)) → IsExtendedUpTo K.cmp placed.old.pairs ((gathered.old.items ++ item ∷ []) ++ rest) placed.new.pairs e) }
    ensures single { 0 < single.new → gathered.new.items ≡ [] }
{
    match gathered.push(item) {
        Ok(()) => (),
        Err(back) => {
            *single = usize::MAX;
            let (key, value) = back.value;
            return match put_gathered(placed, gathered, asked) {
                Ok(()) => placed.try_put(key, value, asked),
                Err(error) => Err(error),
            };
        }
    }
    let len = gathered.len();
    if len < FEWEST || len / TIMES < placed.closed_len() {
        return Ok(());
    }
    put_gathered(placed, gathered, asked)
}

// Puts the items in that are gathered: all at once, or where that is refused one by one. Requests for memory are added to `asked`, but for those of a
// merge.
fn put_gathered<K: Ord + Drop, V: Drop, A: Handle>(
    placed: &mut BulkInsert<K, V, A>,
    gathered: &mut Vec<(K, V), A>,
    asked: &mut Asked,
) -> Result<(), TryReserveError>
    ensures all { OnOk result (placed.new.pairs ≡ extended K.cmp placed.old.pairs gathered.old.items) }
    ensures error { IfErr result (λ e. (rest : List (K × V)) → IsExtendedUpTo K.cmp placed.old.pairs (gathered.old.items ++ rest) placed.new.pairs e) }
    ensures none { gathered.new.items ≡ [] }
    ensures no_request { gathered.old.items ≡ [] → asked.new.requests ≡ asked.old.requests }
{
    let alloc = *gathered.allocator();
    let items = mem::replace(gathered, Vec::new(alloc));
    match placed.merge(items) {
        Ok(()) => Ok(()),
        Err(items) => put_each(placed, items, asked),
    }
}

// Puts the items in one by one. Requests for memory are added to `asked`.
fn put_each<K: Ord + Drop, V: Drop, A: Handle>(
    placed: &mut BulkInsert<K, V, A>,
    items: Vec<(K, V), A>,
    asked: &mut Asked,
) -> Result<(), TryReserveError>
    ensures all { OnOk result (placed.new.pairs ≡ extended K.cmp placed.old.pairs items.items) }
    ensures error { IfErr result (λ e. (rest : List (K × V)) → IsExtendedUpTo K.cmp placed.old.pairs (items.items ++ rest) placed.new.pairs e) }
    ensures no_request { items.items ≡ [] → asked.new.requests ≡ asked.old.requests }
{
    for (key, value) in items {
        match placed.try_put(key, value, asked) {
            Ok(()) => (),
            Err(error) => return Err(error),
        }
    }
    Ok(())
}
