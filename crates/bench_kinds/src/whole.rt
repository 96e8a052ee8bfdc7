//! Jobs that load a map at once, or append one to another, and then walk over what they made.
use super::{mark, mixed};
use fc_map::map::BTreeMap;
use fc_vec::TryFromIterator;
use std::alloc::Global;

fn walk(map: &BTreeMap<u64, u64>, start: u64) -> u64 {
    let mut checksum = start;
    for (key, value) in map {
        checksum = mixed(checksum, Some(key ^ value));
    }
    checksum
}

fn walk_often(map: &BTreeMap<u64, u64>, times: u64, start: u64) -> u64 {
    let mut checksum = start;
    for _ in 0..times {
        checksum = walk(map, checksum);
    }
    checksum
}

/// Makes a map of `keys`, each with itself as the value, by `try_from_iterator`, walks over it once, and then as often as `times` says. Each of the
/// three is a phase. The checksum of what was seen goes to `checksum`. False where memory was refused.
#[unsafe(no_mangle)]
pub extern "C" fn bench_kinds_load(
    alloc: Global,
    keys: &[u64],
    times: u64,
    checksum: &mut u64,
) -> bool {
    let started = mark(alloc);
    let Ok(map) = BTreeMap::try_from_iterator(alloc, keys.iter().map(|key| (*key, *key))) else {
        return false;
    };
    let loaded = mark(alloc);
    let seen = walk(&map, 0);
    let walked = mark(alloc);
    *checksum = walk_often(&map, times, seen);
    let walked_often = mark(alloc);
    started && loaded && walked && walked_often
}

fn insert_all(map: &mut BTreeMap<u64, u64>, keys: &[u64]) -> bool {
    for key in keys {
        if map.try_insert(*key, *key).is_err() {
            return false;
        }
    }
    true
}

/// Inserts `keys` into a map and `others` into another one, and appends the other to the first, which is a phase. The checksum of all that is then in that one
/// goes to `checksum`. False where memory was refused.
#[unsafe(no_mangle)]
pub extern "C" fn bench_kinds_append(
    alloc: Global,
    keys: &[u64],
    others: &[u64],
    checksum: &mut u64,
) -> bool {
    let mut map = BTreeMap::new(alloc);
    let mut other = BTreeMap::new(alloc);
    if !insert_all(&mut map, keys) || !insert_all(&mut other, others) {
        return false;
    }
    let started = mark(alloc);
    let done = map.append(&mut other).is_ok();
    let appended = mark(alloc);
    *checksum = walk(&map, other.len() as u64);
    started && done && appended
}
