//! What callers prove of insertions that may be refused: by `?`, which keeps the error alone, and by what a refusal hands back.
ghost use Rattle.std.specs.Prelude.{◌≡◌, ◌<◌, ◌⊎◌, length, IfOk, IfErr, OnOk, OnErr};
ghost use Rattle.fc_base.specs.Extended.{extended, IsExtendedUpTo};
ghost use Rattle.fc_base.specs.Growth.{MayGrowRefuse};
ghost use Rattle.fc_base.specs.OneKey.{put};
ghost use Rattle.fc_base.specs.Parts.{value_at};
ghost use Rattle.fc_map.specs.Entries.{entries};
ghost use Rattle.fc_map.specs.Full.{TakesNode};

use fc_base::TryReserveError;
use fc_map::map::{BTreeMap, insert_both};

/// Puts a pair in and answers the old value, or why it was refused.
pub fn put_once<K: Ord + Drop, V: Drop>(
    map: &mut BTreeMap<K, V>,
    key: K,
    value: V,
) -> Result<Option<V>, TryReserveError>
    ensures old { IfOk result (λ old. old ≡ value_at K.cmp (entries map.old) key) }
    ensures put { OnOk result (entries map.new ≡ put K.cmp (entries map.old) key value) }
    ensures unchanged { OnErr result (map.new ≡ map.old) }
    ensures error { IfErr result (MayGrowRefuse (length (entries map.old))) }
{
    let old = map.try_insert(key, value)?;
    Ok(old)
}

/// Puts two pairs in, in turn. Where the second is refused, the first stays.
pub fn put_twice<K: Ord + Drop, V: Drop>(
    map: &mut BTreeMap<K, V>,
    first: (K, V),
    second: (K, V),
) -> Result<(), TryReserveError>
    ensures both { OnOk result (entries map.new ≡ put K.cmp (put K.cmp (entries map.old) first.0 first.1) second.0 second.1) }
    ensures left { OnErr result ((map.new ≡ map.old) ⊎ (entries map.new ≡ put K.cmp (entries map.old) first.0 first.1)) }
{
    map.try_insert(first.0, first.1)?;
    map.try_insert(second.0, second.1)?;
    Ok(())
}

/// Puts the pairs of a list in, in turn: all of them, or those before the first one that is refused.
pub fn put_each<K: Ord + Drop, V: Drop>(
    map: &mut BTreeMap<K, V>,
    pairs: Vec<(K, V)>,
) -> Result<(), TryReserveError>
    ensures all { OnOk result (entries map.new ≡ extended K.cmp (entries map.old) pairs.items) }
    ensures error { IfErr result (IsExtendedUpTo K.cmp (entries map.old) pairs.items (entries map.new)) }
{
    for (key, value) in pairs {
        map.try_insert(key, value)?;
    }
    Ok(())
}

/// Puts a pair in and answers how many there are then; hands a refused one on, as it came in.
pub fn put_or_hand_on<K: Ord + Drop, V: Drop>(
    map: &mut BTreeMap<K, V>,
    key: K,
    value: V,
) -> Result<usize, (K, V, TryReserveError)>
    ensures len { IfOk result (λ len. len ≡ length (entries map.new)) }
    ensures put { OnOk result (entries map.new ≡ put K.cmp (entries map.old) key value) }
    ensures back { IfErr result (λ back. (back.0 ≡ key) × (back.1 ≡ value)) }
    ensures error { IfErr result (λ back. MayGrowRefuse (length (entries map.old)) back.2) }
    ensures unchanged { OnErr result (map.new ≡ map.old) }
{
    map.try_insert(key, value)?;
    Ok(map.len())
}

/// Puts a pair into each of two maps, or into neither, and answers both old values, or why one was refused.
pub fn put_both<K: Ord + Drop, V: Drop, L: Ord + Drop, W: Drop>(
    a: &mut BTreeMap<K, V>,
    b: &mut BTreeMap<L, W>,
    first: (K, V),
    second: (L, W),
) -> Result<(Option<V>, Option<W>), TryReserveError>
    ensures both { OnOk result ((entries a.new ≡ put K.cmp (entries a.old) first.0 first.1) × (entries b.new ≡ put L.cmp (entries b.old) second.0 second.1)) }
    ensures neither { OnErr result ((a.new ≡ a.old) × (b.new ≡ b.old)) }
{
    let old = insert_both(a, b, first.0, first.1, second.0, second.1)?;
    Ok(old)
}

/// Puts a pair in where its key takes no node, which nothing refuses.
pub fn put_in_room<K: Ord + Drop, V: Drop>(map: &mut BTreeMap<K, V>, key: K, value: V) -> Option<V>
    requires fits { length (entries map.old) < usize.MAX }
    requires room { ¬ (TakesNode K.cmp key map.old) }
    ensures old { result ≡ value_at K.cmp (entries map.old) key }
    ensures put { entries map.new ≡ put K.cmp (entries map.old) key value }
{
    match map.try_insert(key, value) {
        Ok(old) => old,
        Err(_refused) => unreachable!(),
    }
}
