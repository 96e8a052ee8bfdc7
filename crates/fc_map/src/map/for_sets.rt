//! What a set, which is a map of its items, rests on: a key with its pair taken out and replaced, a map made of pairs in order, and keys
//! asked in turn.
ghost use Rattle.std.specs.Prelude.{◌≡◌, ◌+◌, ◌<◌, ◌≤◌, List, length, IsSome, IsErr, IfOk, IfErr, OnOk, OnErr, Some, None};
ghost use Rattle.fc_base.specs.Ascending.{IsAscending};
ghost use Rattle.fc_base.specs.Growth.{MayGrowRefuse};
ghost use Rattle.fc_base.specs.Joined.{placed};
ghost use Rattle.fc_base.specs.OneKey.{cut, put};
ghost use Rattle.fc_base.specs.Parts.{at};
ghost use Rattle.fc_base.specs.Ranges.{within};
ghost use Rattle.fc_map.specs.Counts.{IsBounded};
ghost use Rattle.fc_map.specs.Entries.{entries, IsSoundMap, passed_in};
ghost use Rattle.fc_map.specs.Full.{TakesNode};
ghost use Rattle.fc_map.specs.Kept.{blocks_in, AreAllKept};
ghost use Rattle.fc_map.specs.Place.{IsHeldAt};
ghost use Rattle.fc_map.specs.Ranged.{replacing};
ghost use Rattle.fc_map.specs.Requests.{insertion_requests, HasFewRequests};
ghost use Rattle.fc_tree_node.specs.Depth.{HasFewMoves};
ghost use Rattle.fc_map.specs.Fewest.{HasFewestMoves};
ghost use Rattle.fc_tree_retain.specs.Retained.{AskedAtKey, ExtractsBy, GivenKey, RetainsInTurn};

use super::BTreeMap;
use fc_base::{Asked, Count, Handle, Query, TryReserveError};
use fc_tree_build::growing::GrowingBuilder;
use fc_tree_cursor::key_range::KeyRange;
use fc_tree_node::path::Path;
use fc_tree_removal::replacement::exchange;
use fc_tree_retain::{retain, stretch};

/// Takes the pair with an equal key out and answers it. `None` where there is none, and the map is as it was. It takes no memory. To
/// the count it adds exactly the comparisons of the keys that a search from the left passes, and where there is an equal key the
/// moves of its removal.
pub fn take<K: Ord + Drop, V: Drop, Q: Query<K>, A: Handle>(
    map: &mut BTreeMap<K, V, A>,
    key: Q,
    count: &mut Count,
) -> Option<(K, V)>
    ensures pair { result ≡ at Q.order (entries map.old) (Q.sought key) }
    ensures rest { entries map.new ≡ cut Q.order (entries map.old) (Q.sought key) }
    ensures absent { at Q.order (entries map.old) (Q.sought key) ≡ None → map.new ≡ map.old }
    ensures ascending { IsAscending K.cmp (entries map.new) }
    ensures sound { IsSoundMap map.new }
    ensures comparisons { count.new.comparisons ≡ count.old.comparisons + passed_in Q.order (Q.sought key) map.old }
    ensures no_move { at Q.order (entries map.old) (Q.sought key) ≡ None → count.new.moves ≡ count.old.moves }
    ensures moved { IsSome (at Q.order (entries map.old) (Q.sought key)) → count.old.moves < count.new.moves }
    ensures fewest { HasFewestMoves map.old map.new count.old count.new }
    ensures bounded { IsBounded (length (entries map.old)) count.old count.new }
    ensures blocks { blocks_in map.new ≤ blocks_in map.old }
{
    let mut path = Path::new();
    match map.locate(key, &mut path, count) {
        Ok(()) => Some(map.remove_at(&path, key, count)),
        Err(_) => None,
    }
}

/// Puts the pair in the place of the one with an equal key, which is answered, and asks for no memory; else the pair is new, and the
/// answer is `Ok(None)`. To the count it adds exactly the comparisons of the keys that a search from the left passes; the moves of an
/// insertion for a new pair, and two in the place of another. To `asked` it adds its requests for memory.
///
/// # Errors
/// As `BTreeMap::try_insert`, only at a new key.
pub fn replace<K: Ord + Drop, V: Drop, A: Handle>(
    map: &mut BTreeMap<K, V, A>,
    key: K,
    value: V,
    count: &mut Count,
    asked: &mut Asked,
) -> Result<Option<(K, V)>, (K, V, TryReserveError)>
    ensures old { IfOk result (λ old. old ≡ at K.cmp (entries map.old) key) }
    ensures put { IfOk result (λ _. entries map.new ≡ placed K.cmp (entries map.old) (key, value)) }
    ensures unchanged { IfErr result (λ _. map.new ≡ map.old) }
    ensures new_key { IfErr result (λ _. at K.cmp (entries map.old) key ≡ None) }
    ensures back { IfErr result (λ e. (e.0 ≡ key) × (e.1 ≡ value)) }
    ensures error { IfErr result (λ e. MayGrowRefuse (length (entries map.old)) e.2) }
    ensures only_full { OnErr result (length (entries map.old) < usize.MAX → TakesNode K.cmp key map.old) }
    ensures full { at K.cmp (entries map.old) key ≡ None → length (entries map.old) ≡ usize.MAX → IsErr result }
    ensures ascending { IsAscending K.cmp (entries map.new) }
    ensures sound { IsSoundMap map.new }
    ensures comparisons { count.new.comparisons ≡ count.old.comparisons + passed_in K.cmp key map.old }
    ensures no_move { IsErr result → count.new.moves ≡ count.old.moves }
    ensures moved { OnOk result (count.old.moves < count.new.moves) }
    ensures exchanged { IsSome (at K.cmp (entries map.old) key) → count.new.moves ≡ count.old.moves + 2 }
    ensures bounded { IsBounded (length (entries map.new)) count.old count.new }
    ensures requests { OnOk result (at K.cmp (entries map.old) key ≡ None → asked.new.requests ≡ asked.old.requests + insertion_requests K.cmp key map.old) }
    ensures at_most { asked.new.requests ≤ asked.old.requests + insertion_requests K.cmp key map.old }
    ensures none { IsSome (at K.cmp (entries map.old) key) → asked.new.requests ≡ asked.old.requests }
    ensures room { ¬ TakesNode K.cmp key map.old → asked.new.requests ≤ asked.old.requests }
    ensures few { HasFewRequests (length (entries map.old) + 1) asked.old asked.new }
    ensures kept { OnOk result (AreAllKept map.old map.new asked.old asked.new) }
{
    let mut path = Path::new();
    match map.locate(&key, &mut path, count) {
        Ok(()) => Ok(Some(map.exchange_at(&path, (key, value), count))),
        Err(gap) => match map.insert_at(&mut path, gap.has_room, key, value, count, asked) {
            Ok(()) => Ok(None),
            Err(back) => Err(back),
        },
    }
}

/// Puts the value at the key, as `BTreeMap::try_extend` does with each item: `ascends` is true at the first one.
///
/// # Errors
/// As `BTreeMap::try_insert`. Key and value are dropped.
pub fn put_next<K: Ord + Drop, V: Drop, A: Handle>(
    map: &mut BTreeMap<K, V, A>,
    ascends: &mut bool,
    key: K,
    value: V,
) -> Result<(), TryReserveError>
    ensures put { IfOk result (λ _. entries map.new ≡ put K.cmp (entries map.old) key value) }
    ensures unchanged { IfErr result (λ _. map.new ≡ map.old) }
    ensures new_key { IfErr result (λ _. at K.cmp (entries map.old) key ≡ None) }
    ensures error { IfErr result (λ e. MayGrowRefuse (length (entries map.old)) e) }
    ensures ascending { IsAscending K.cmp (entries map.new) }
    ensures sound { IsSoundMap map.new }
{
    let done = map.put_next(ascends, key, value);
    // Shows that the map is ascending and sound.
    let _len = map.len();
    done
}

/// Where the map takes its memory.
pub fn allocator<K: Ord, V, A: Handle>(map: &BTreeMap<K, V, A>) -> A {
    map.alloc
}

/// A map of the pairs of the tree, which ascend. It takes no memory, compares nothing and moves no pair.
pub fn from_grown<K: Ord + Drop, V: Drop, A: Handle>(
    alloc: A,
    tree: GrowingBuilder<K, V, A>,
) -> BTreeMap<K, V, A>
    requires { IsAscending K.cmp tree.pairs }
    ensures pairs { entries result ≡ tree.pairs }
    ensures sound { IsSoundMap result }
{
    let len = tree.len();
    BTreeMap {
        root: tree.finish(),
        len,
        alloc,
    }
}

impl<K: Ord + Drop, V: Drop, A: Handle> BTreeMap<K, V, A> {
    // Puts the pair in the place of the one with an equal key, to which the path leads, and answers that one.
    fn exchange_at(&mut self, path: &Path, pair: (K, V), count: &mut Count) -> (K, V)
        requires held { IsHeldAt K.cmp pair.0 self.old path.now }
        requires sound { IsSoundMap self.old }
        ensures old { at K.cmp (entries self.old) pair.0 ≡ Some result }
        ensures put { entries self.new ≡ placed K.cmp (entries self.old) pair }
        ensures length { length (entries self.new) ≡ length (entries self.old) }
        ensures some { 0 < length (entries self.new) }
        ensures ascending { IsAscending K.cmp (entries self.new) }
        ensures sound { IsSoundMap self.new }
        ensures moves { HasFewMoves (length (entries self.new)) count.old count.new }
        ensures exchanged { count.new.moves ≡ count.old.moves + 2 }
        ensures comparisons { count.new.comparisons ≡ count.old.comparisons }
        ensures blocks { blocks_in self.new ≡ blocks_in self.old }
    {
        let Some(root) = &mut self.root else {
            unreachable!()
        };
        exchange(root, path, pair, count)
    }
}

/// Calls the closure once at each key, in ascending order, and drops those keys at which it answers false, with their values. No
/// key is compared, and no memory is taken.
pub fn retain_keys<K: Ord + Drop, V: Drop, F: FnMut(&K) -> bool, A: Handle>(
    map: &mut BTreeMap<K, V, A>,
    f: F,
)
    requires { F.IsAlwaysCallable f }
    ensures retained { (last : F) × RetainsInTurn (AskedAtKey F.FnMut) f (entries map.old) last (entries map.new) }
    ensures ascending { IsAscending K.cmp (entries map.new) }
    ensures sound { IsSoundMap map.new }
{
    map.len = retain::retain_keys(&mut map.root, f);
}

/// Calls `pick` once at each key, in ascending order, takes those keys out at which it answers true, and calls `each` with each of
/// these at once. Their values are dropped. No key is compared, and no memory is taken.
pub fn extract_keys_if<K: Ord + Drop, V: Drop, F: FnMut(&K) -> bool, E: FnMut(K), A: Handle>(
    map: &mut BTreeMap<K, V, A>,
    pick: F,
    each: E,
)
    requires { F.IsAlwaysCallable pick × E.IsAlwaysCallable each }
    ensures extracted { (last : F × E) × RetainsInTurn (ExtractsBy (AskedAtKey F.FnMut) (GivenKey E.FnMut)) (pick, each) (entries map.old) last (entries map.new) }
    ensures ascending { IsAscending K.cmp (entries map.new) }
    ensures sound { IsSoundMap map.new }
{
    map.len = retain::extract_keys_if(&mut map.root, pick, each);
}

/// As `retain_keys`, at the keys within the range alone; the others stay.
pub fn retain_keys_range<K: Ord + Drop, V: Drop, R: KeyRange<K>, F: FnMut(&K) -> bool, A: Handle>(
    map: &mut BTreeMap<K, V, A>,
    bounds: R,
    f: F,
)
    requires { F.IsAlwaysCallable f }
    ensures retained { (last : F) × (stay : List (K × V)) × RetainsInTurn (AskedAtKey F.FnMut) f (within R.order (R.start bounds) (R.end bounds) (entries map.old)) last stay × (entries map.new ≡ replacing R.order (R.start bounds) (R.end bounds) stay (entries map.old)) }
    ensures ascending { IsAscending K.cmp (entries map.new) }
    ensures sound { IsSoundMap map.new }
{
    let (front, back) = map.range_ends(&bounds);
    let gone = stretch::retain_keys_between(&mut map.root, &front, &back, f);
    map.len -= gone;
}

/// As `extract_keys_if`, at the keys within the range alone; the others stay.
pub fn extract_keys_range_if<
    K: Ord + Drop,
    V: Drop,
    R: KeyRange<K>,
    F: FnMut(&K) -> bool,
    E: FnMut(K),
    A: Handle,
>(map: &mut BTreeMap<K, V, A>, bounds: R, pick: F, each: E)
    requires { F.IsAlwaysCallable pick × E.IsAlwaysCallable each }
    ensures extracted { (last : F × E) × (stay : List (K × V)) × RetainsInTurn (ExtractsBy (AskedAtKey F.FnMut) (GivenKey E.FnMut)) (pick, each) (within R.order (R.start bounds) (R.end bounds) (entries map.old)) last stay × (entries map.new ≡ replacing R.order (R.start bounds) (R.end bounds) stay (entries map.old)) }
    ensures ascending { IsAscending K.cmp (entries map.new) }
    ensures sound { IsSoundMap map.new }
{
    let (front, back) = map.range_ends(&bounds);
    let gone = stretch::extract_keys_between(&mut map.root, &front, &back, pick, each);
    map.len -= gone;
}
