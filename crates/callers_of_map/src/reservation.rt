//! What callers prove of insertions that nothing refuses, by nodes that were taken before the first of them.
ghost use Rattle.std.specs.Prelude.{◌≡◌, ◌+◌, ◌<◌, ◌≤◌, length, true, false, OnOk, OnErr};
ghost use Rattle.fc_base.specs.Extended.{extended};
ghost use Rattle.fc_base.specs.OneKey.{put};
ghost use Rattle.fc_map.specs.Entries.{entries};

use fc_base::TryReserveError;
use fc_map::map::{BTreeMap, Reservation};

/// Puts the pairs of a list in, in turn, where the reservation has a place for each.
pub fn put_reserved<K: Ord + Drop, V: Drop>(
    map: &mut BTreeMap<K, V>,
    reservation: &mut Reservation<K, V>,
    pairs: Vec<(K, V)>,
)
    requires places { length pairs.items ≤ reservation.old.places }
    requires pairs { length (entries map.old) + reservation.old.places ≤ reservation.old.pairs }
    ensures { entries map.new ≡ extended K.cmp (entries map.old) pairs.items }
{
    for (key, value) in pairs {
        map.insert_reserved(reservation, key, value);
    }
}

/// Puts the pairs of a list in, in turn, or none of them.
pub fn put_all<K: Ord + Drop, V: Drop>(
    map: &mut BTreeMap<K, V>,
    pairs: Vec<(K, V)>,
) -> Result<(), TryReserveError>
    ensures all { OnOk result (entries map.new ≡ extended K.cmp (entries map.old) pairs.items) }
    ensures none { OnErr result (map.new ≡ map.old) }
{
    let mut reservation = map.try_reserve_nodes(pairs.len())?;
    put_reserved(map, &mut reservation, pairs);
    Ok(())
}

/// Puts two pairs in, or none of them.
pub fn put_two<K: Ord + Drop, V: Drop>(
    map: &mut BTreeMap<K, V>,
    first: (K, V),
    second: (K, V),
) -> Result<(), TryReserveError>
    ensures both { OnOk result (entries map.new ≡ put K.cmp (put K.cmp (entries map.old) first.0 first.1) second.0 second.1) }
    ensures none { OnErr result (map.new ≡ map.old) }
{
    let mut reservation = map.try_reserve_nodes(2)?;
    map.insert_reserved(&mut reservation, first.0, first.1);
    map.insert_reserved(&mut reservation, second.0, second.1);
    Ok(())
}

/// Puts the numbers below `count` in, each with itself, where the reservation has a place for each.
pub fn put_numbers(
    map: &mut BTreeMap<usize, usize>,
    reservation: &mut Reservation<usize, usize>,
    count: usize,
)
    requires places { count ≤ reservation.old.places }
    requires pairs { length (entries map.old) + reservation.old.places ≤ reservation.old.pairs }
    ensures places { reservation.old.places ≤ reservation.new.places + count }
    ensures total { length (entries map.new) + reservation.new.places ≡ length (entries map.old) + reservation.old.places }
{
    for number in 0..count {
        map.insert_reserved(reservation, number, number);
    }
}

/// Puts a pair in where the reservation serves the map, which its caller can ask, and answers whether it does.
pub fn put_if_served<K: Ord + Drop, V: Drop>(
    map: &mut BTreeMap<K, V>,
    reservation: &mut Reservation<K, V>,
    key: K,
    value: V,
) -> bool
    ensures put { (result ≡ true) → entries map.new ≡ put K.cmp (entries map.old) key value }
    ensures unchanged { (result ≡ false) → map.new ≡ map.old }
{
    if reservation.places() == 0 || map.len() >= reservation.pairs() {
        return false;
    }
    map.insert_reserved(reservation, key, value);
    true
}
