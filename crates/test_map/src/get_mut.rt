//! What callers prove of values lent by a key, through the public clauses alone.
ghost use Rattle.std.specs.Prelude.{◌≡◌, IsSome, None, Some};
ghost use Rattle.fc_base.specs.OneKey.{put};
ghost use Rattle.fc_base.specs.Parts.{at};
ghost use Rattle.fc_map.specs.Entries.{entries};

use crate::numbers::{Numbers, is_number, multiples};
use fc_map::map::BTreeMap;
use std::test::Fail;

// Writes over the value at a key, if there is one.
fn overwrite<K: Ord + Drop, V: Drop>(map: &mut BTreeMap<K, V>, key: &K, value: V)
    ensures there { IsSome (at K.cmp (entries map.old) key.now) → entries map.new ≡ put K.cmp (entries map.old) key.now value }
    ensures absent { at K.cmp (entries map.old) key.now ≡ None → map.new ≡ map.old }
{
    if let Some(v) = map.get_mut(key) {
        *v = value;
    }
}

// Writes over the value at a key, if there is one, and looks it up.
#[tactic(auto, using(fc_base::proofs::Laws::value_at_put))]
fn overwrite_and_get<K: Ord + Drop>(map: &mut BTreeMap<K, u64>, key: &K, value: u64) -> Option<u64>
    ensures there { IsSome (at K.cmp (entries map.old) key.now) → result ≡ Some value }
    ensures absent { at K.cmp (entries map.old) key.now ≡ None → result ≡ None }
{
    if let Some(v) = map.get_mut(key) {
        *v = value;
    }
    map.get(key).copied()
}

// Whether the write of this value is seen by a look-up of the key.
fn overwrites(map: &mut Numbers, key: u64, value: u64) -> bool {
    is_number(overwrite_and_get(map, &key, value), value)
}

// Whether the write of this value is seen by an index.
fn overwrites_by_index(map: &mut Numbers, key: u64, value: u64) -> bool {
    overwrite(map, &key, value);
    map.contains_key(&key) && map[&key] == value
}

// Whether no value is lent at the key, and none written.
fn lends_none(map: &mut Numbers, key: u64) -> bool {
    map.get_mut(&key).is_none() && overwrite_and_get(map, &key, 7).is_none()
}

// Forty pairs stand on two levels of nodes: the value of each is written, and found again by `get` and by an index.
#[test]
fn writes_values_on_two_levels(rt: HostRuntime) -> Result<(), Fail> {
    let mut map = multiples(rt.alloc(), 0, 40, 1)?;
    for key in 0..40u64 {
        assert!(rt; overwrites(&mut map, key, key + 100));
    }
    assert!(rt; overwrites_by_index(&mut map, 37, 7) && lends_none(&mut map, 40));
    assert!(rt; map.len() == 40);
    Ok(())
}
