//! What callers prove of several calls in turn, through their public clauses and the laws of lists of pairs alone.
ghost use Rattle.std.specs.Prelude.{◌≡◌, ◌+◌, ◌<◌, ◌⊎◌, List, [], ◌∷◌, ◌++◌, length, IsSome, IfOk, IfErr, OnOk, OnErr, MatchOption, None, Some};
ghost use Rattle.std.specs.declared.cmp.Ordering.TheVariants.{Equal};
ghost use Rattle.fc_base.specs.Ascending.{IsAscending};
ghost use Rattle.fc_base.specs.Copies.{IsExact};
ghost use Rattle.fc_base.specs.Halves.{not_below};
ghost use Rattle.fc_base.specs.OneKey.{put, cut};
ghost use Rattle.fc_base.specs.Parts.{at, value_at, below};
ghost use Rattle.fc_map.specs.Entries.{entries};

use fc_base::{Query, TryClone, TryReserveError};
use fc_map::map::BTreeMap;

/// Puts a value at a key, and looks an equal key up: the value stands there.
#[tactic(auto, using(fc_base::proofs::Laws::value_at_put_equal))]
pub fn insert_then_get<K: Ord + Drop, V: Copy + Drop>(
    map: &mut BTreeMap<K, V>,
    key: K,
    value: V,
    same: &K,
) -> Result<Option<V>, TryReserveError>
    requires { K.cmp same.now key ≡ Equal }
    ensures there { IfOk result (λ found. found ≡ Some value) }
    ensures put { OnOk result (entries map.new ≡ put K.cmp (entries map.old) key value) }
    ensures unchanged { OnErr result (map.new ≡ map.old) }
{
    map.try_insert(key, value)?;
    Ok(map.get(same).copied())
}

/// Puts a value at a key, and looks another key up: what stood there stands there still.
pub fn insert_then_get_other<K: Ord + Drop, V: Copy + Drop>(
    map: &mut BTreeMap<K, V>,
    key: K,
    value: V,
    other: &K,
) -> Result<Option<V>, TryReserveError>
    requires { ¬ (K.cmp other.now key ≡ Equal) }
    ensures stays { IfOk result (λ found. found ≡ value_at K.cmp (entries map.old) other.now) }
    ensures put { OnOk result (entries map.new ≡ put K.cmp (entries map.old) key value) }
    ensures unchanged { OnErr result (map.new ≡ map.old) }
{
    map.try_insert(key, value)?;
    Ok(map.get(other).copied())
}

/// Takes the pair at a key out, and looks that key and another one up: nothing stands at the one, and what stood at the other
/// stands there still.
#[tactic(auto, using(fc_base::proofs::Laws::at_cut))]
pub fn remove_then_get<K: Ord + Drop, V: Copy + Drop>(
    map: &mut BTreeMap<K, V>,
    key: &K,
    other: &K,
) -> (Option<V>, Option<V>)
    requires { ¬ (K.cmp other.now key.now ≡ Equal) }
    ensures gone { result.0 ≡ None }
    ensures stays { result.1 ≡ value_at K.cmp (entries map.old) other.now }
    ensures rest { entries map.new ≡ cut K.cmp (entries map.old) key.now }
{
    map.remove(key);
    (map.get(key).copied(), map.get(other).copied())
}

/// Takes out a pair that was put into a list at a new key: what is left is that list, and the answer is the value.
#[tactic(auto, using(fc_base::proofs::Laws::value_at_put, fc_base::proofs::Laws::cut_put_new))]
pub fn take_back<K: Ord + Drop, V: Drop>(map: &mut BTreeMap<K, V>, key: &K) -> Option<V>
    ensures value { (s : List (K × V)) (v : V) → entries map.old ≡ put K.cmp s key.now v → result ≡ Some v }
    ensures list { (s : List (K × V)) (v : V) → entries map.old ≡ put K.cmp s key.now v → IsAscending K.cmp s → at K.cmp s key.now ≡ None → entries map.new ≡ s }
{
    map.remove(key)
}

/// Puts a pair with a new key into the map and takes it out again: the numbers of pairs before and in between, and the value.
/// The list is then as it was.
#[tactic(auto, using(fc_base::proofs::Laws::value_at_put_equal, fc_base::proofs::Laws::cut_put_equal, fc_base::proofs::Laws::length_put_new))]
pub fn insert_then_remove<K: Ord + Drop, V: Drop>(
    map: &mut BTreeMap<K, V>,
    key: K,
    value: V,
    same: &K,
) -> Result<(usize, usize, Option<V>), TryReserveError>
    requires equal { K.cmp same.now key ≡ Equal }
    requires absent { at K.cmp (entries map.old) key ≡ None }
    ensures before { IfOk result (λ r. r.0 ≡ length (entries map.old)) }
    ensures between { IfOk result (λ r. r.1 ≡ length (entries map.old) + 1) }
    ensures value { IfOk result (λ r. r.2 ≡ Some value) }
    ensures list { entries map.new ≡ entries map.old }
{
    let before = map.len();
    map.try_insert(key, value)?;
    let between = map.len();
    Ok((before, between, map.remove(same)))
}

/// The numbers of pairs before and after an insertion: one more at a new key, and else as many.
#[tactic(auto, using(fc_base::proofs::Laws::length_put_new))]
pub fn lengths_of_insert<K: Ord + Drop, V: Drop>(
    map: &mut BTreeMap<K, V>,
    key: K,
    value: V,
) -> Result<(usize, usize), TryReserveError>
    ensures before { IfOk result (λ r. r.0 ≡ length (entries map.old)) }
    ensures new { IfOk result (λ r. at K.cmp (entries map.old) key ≡ None → r.1 ≡ r.0 + 1) }
    ensures present { IfOk result (λ r. IsSome (at K.cmp (entries map.old) key) → r.1 ≡ r.0) }
    ensures put { OnOk result (entries map.new ≡ put K.cmp (entries map.old) key value) }
    ensures unchanged { OnErr result (map.new ≡ map.old) }
{
    let before = map.len();
    map.try_insert(key, value)?;
    Ok((before, map.len()))
}

/// The numbers of pairs before and after a removal: one less where the key is there, and else as many.
#[tactic(auto, using(fc_base::proofs::Laws::length_cut_absent, fc_base::proofs::Laws::length_cut_there))]
pub fn lengths_of_remove<K: Ord + Drop, V: Drop>(
    map: &mut BTreeMap<K, V>,
    key: &K,
) -> (usize, usize)
    ensures before { result.0 ≡ length (entries map.old) }
    ensures absent { at K.cmp (entries map.old) key.now ≡ None → result.1 ≡ result.0 }
    ensures present { IsSome (at K.cmp (entries map.old) key.now) → result.1 + 1 ≡ result.0 }
    ensures rest { entries map.new ≡ cut K.cmp (entries map.old) key.now }
{
    let before = map.len();
    map.remove(key);
    let after = map.len();
    (before, after)
}

/// Takes the first pair out, if there is one.
pub fn pop_first<K: Ord + Copy + Drop, V: Drop>(map: &mut BTreeMap<K, V>) -> Option<(K, V)>
    ensures { MatchOption result (entries map.old ≡ []) (λ first. entries map.old ≡ first ∷ entries map.new) }
{
    let key = first_key(map)?;
    let value = map.remove(&key)?;
    Some((key, value))
}

/// Takes the last pair out, if there is one.
#[tactic(auto, using(fc_base::proofs::Laws::cut_last, fc_base::proofs::Laws::at_last))]
pub fn pop_last<K: Ord + Copy + Drop, V: Drop>(map: &mut BTreeMap<K, V>) -> Option<(K, V)>
    ensures { MatchOption result (entries map.old ≡ []) (λ last. entries map.old ≡ entries map.new ++ last ∷ []) }
{
    let key = last_key(map)?;
    let value = map.remove(&key)?;
    Some((key, value))
}

// The first key, if there is one, of a list that ascends.
fn first_key<K: Ord + Copy + Drop, V: Drop>(map: &BTreeMap<K, V>) -> Option<K>
    ensures key { MatchOption result (entries map.now ≡ []) (λ key. (value : V) × (rest : List (K × V)) × (entries map.now ≡ (key, value) ∷ rest)) }
    ensures ascending { IsAscending K.cmp (entries map.now) }
{
    let mut walk = map.iter();
    let (key, _value) = walk.next()?;
    Some(*key)
}

// The last key, if there is one, of a list that ascends.
fn last_key<K: Ord + Copy + Drop, V: Drop>(map: &BTreeMap<K, V>) -> Option<K>
    ensures key { MatchOption result (entries map.now ≡ []) (λ key. (value : V) × (front : List (K × V)) × (entries map.now ≡ front ++ (key, value) ∷ [])) }
    ensures ascending { IsAscending K.cmp (entries map.now) }
{
    let mut walk = map.iter();
    let (key, _value) = walk.next_back()?;
    Some(*key)
}

/// A copy of a map whose keys and values have exact copies: it holds the same pairs.
pub fn exact_copy<K: Ord + TryClone, V: TryClone>(
    map: &BTreeMap<K, V>,
) -> Result<BTreeMap<K, V>, TryReserveError>
    requires copied { ⟦<BTreeMap<K, V> as TryClone>⟧.can_clone }
    requires exact { IsExact K.same × IsExact V.same }
    ensures { IfOk result (λ copy. entries copy ≡ entries map.now) }
{
    map.try_clone()
}

/// A copy of a map of numbers: it holds the same pairs. Only a node can be refused, and none where the map is empty.
pub fn copy_of_numbers(map: &BTreeMap<u64, u64>) -> Result<BTreeMap<u64, u64>, TryReserveError>
    ensures same { IfOk result (λ copy. entries copy ≡ entries map.now) }
    ensures ascending { IfOk result (λ copy. IsAscending ⟦<u64 as Ord>⟧.cmp (entries copy)) }
    ensures error { IfErr result (λ e. (e ≡ TryReserveError.AllocError) × (0 < length (entries map.now))) }
{
    map.try_clone()
}

/// Takes the pairs whose keys are not smaller than the key out into `part`, whose own are dropped, and puts them back: the list is as it
/// was. Where the cut was refused, both maps are as they were; where the append was, each still holds its part of the list.
pub fn split_then_append<K: Ord + Drop, V: Drop, Q: Query<K>>(
    map: &mut BTreeMap<K, V>,
    key: Q,
    part: &mut BTreeMap<K, V>,
) -> Result<(), TryReserveError>
    ensures list { IfOk result (λ _. entries map.new ≡ entries map.old) }
    ensures emptied { IfOk result (λ _. entries part.new ≡ []) }
    ensures left { IfErr result (λ _. ((map.new ≡ map.old) × (part.new ≡ part.old)) ⊎ ((entries map.new ≡ below Q.order (entries map.old) (Q.sought key)) × (entries part.new ≡ not_below Q.order (entries map.old) (Q.sought key)))) }
{
    *part = map.split_off(key)?;
    map.append(part)
}
