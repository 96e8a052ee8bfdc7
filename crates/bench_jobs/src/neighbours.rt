//! A job that asks the ordered map for the pairs next to keys.
use super::{insert_all, mark, mixed};
use fc_map::map::BTreeMap;
use std::alloc::Global;
use std::ops::Bound;

fn value(found: Option<(&u64, &u64)>) -> Option<u64> {
    match found {
        Some((_key, value)) => Some(*value),
        None => None,
    }
}

fn first_of_range(map: &BTreeMap<u64, u64>, key: &u64) -> Option<u64> {
    value(map.range((Bound::Included(key), Bound::Unbounded)).next())
}

fn last_of_range(map: &BTreeMap<u64, u64>, key: &u64) -> Option<u64> {
    value(
        map.range((Bound::Unbounded, Bound::Included(key)))
            .next_back(),
    )
}

fn neighbour(map: &BTreeMap<u64, u64>, key: &u64, way: u64) -> Option<u64> {
    match way {
        1 => value(map.first_at_or_after(key)),
        2 => value(map.first_after(key)),
        3 => value(map.last_at_or_before(key)),
        4 => value(map.last_before(key)),
        5 => first_of_range(map, key),
        6 => last_of_range(map, key),
        7 => map.get(key).copied(),
        _ => None,
    }
}

/// Inserts `keys` into a new map, and asks it at each of `sought` as `way` says: 1 for the first pair at the key or after it, 2 for the
/// first after it, 3 for the last at it or before it, 4 for the last before it, 5 for the first of the range from the key on, 6 for the
/// last of the range up to it, 7 for the value at the key, and else for nothing. All calls together are a phase. The checksum of all answers
/// goes to `checksum`. False where memory was refused.
#[unsafe(no_mangle)]
pub extern "C" fn bench_map_neighbours(
    alloc: Global,
    keys: &[u64],
    sought: &[u64],
    way: u64,
    checksum: &mut u64,
) -> bool {
    let mut map = BTreeMap::new(alloc);
    let Some(mut seen) = insert_all(&mut map, keys) else {
        return false;
    };
    let started = mark(alloc);
    for key in sought {
        seen = mixed(seen, neighbour(&map, key, way));
    }
    let ended = mark(alloc);
    *checksum = seen;
    started && ended
}
