//! Jobs that walk over the ordered map.
use super::{insert_all, mark, mixed};
use fc_map::map::BTreeMap;
use std::alloc::Global;
use std::ops::Bound;

// How many pairs a walk over a range gives.
const RANGE: u64 = 100;

fn walk_all(map: &BTreeMap<u64, u64>, start: u64) -> u64 {
    let mut checksum = start;
    for (key, value) in map {
        checksum = mixed(checksum, Some(key ^ value));
    }
    checksum
}

fn walk_keys(map: &BTreeMap<u64, u64>, start: u64) -> u64 {
    let mut checksum = start;
    for key in map.keys() {
        checksum = mixed(checksum, Some(*key));
    }
    checksum
}

// One pair from the front, then one from the back, and so on.
fn walk_from_both_ends(map: &BTreeMap<u64, u64>, start: u64) -> u64 {
    let mut checksum = start;
    let mut walk = map.iter();
    while let Some((key, _)) = walk.next() {
        checksum = mixed(checksum, Some(*key));
        if let Some((_, value)) = walk.next_back() {
            checksum = mixed(checksum, Some(*value));
        }
    }
    checksum
}

fn walk_range(map: &BTreeMap<u64, u64>, from: u64, start: u64) -> u64 {
    let to = from.saturating_add(RANGE);
    let bounds = (Bound::Included(&from), Bound::Excluded(&to));
    let mut checksum = start;
    for (key, value) in map.range(bounds) {
        checksum = mixed(checksum, Some(key ^ value));
    }
    checksum
}

fn walk_ranges(map: &BTreeMap<u64, u64>, starts: &[u64], start: u64) -> u64 {
    let mut checksum = start;
    for from in starts {
        checksum = walk_range(map, *from, checksum);
    }
    checksum
}

fn write_all(map: &mut BTreeMap<u64, u64>, add: u64) {
    let mut walk = map.values_mut();
    for _ in 0..walk.len() {
        if let Some(value) = walk.next() {
            *value = value.wrapping_add(add);
        }
    }
}

fn visit_all(map: &mut BTreeMap<u64, u64>, add: u64) {
    map.values_mut()
        .for_each(|_key, value| *value = value.wrapping_add(add));
}

pub fn take_all(map: BTreeMap<u64, u64>, start: u64) -> u64 {
    let mut checksum = start;
    for (key, value) in map {
        checksum = mixed(checksum, Some(key ^ value));
    }
    checksum
}

/// Inserts `keys` into a new map and walks over it as often as `times` says: 0 walks over all pairs, 1 over all from both ends, 2
/// over a range of 100 keys from each of `starts` on, 3 writes to all values, 4 walks over all keys, 5 writes to all values by
/// `for_each`. All walks together are a phase. The checksum of what was seen goes to `checksum`. False where memory was refused.
#[unsafe(no_mangle)]
pub extern "C" fn bench_map_walk(
    alloc: Global,
    keys: &[u64],
    starts: &[u64],
    way: u64,
    times: u64,
    checksum: &mut u64,
) -> bool {
    let mut map = BTreeMap::new(alloc);
    let Some(mut seen) = insert_all(&mut map, keys) else {
        return false;
    };
    let started = mark(alloc);
    for _ in 0..times {
        match way {
            0 => seen = walk_all(&map, seen),
            1 => seen = walk_from_both_ends(&map, seen),
            2 => seen = walk_ranges(&map, starts, seen),
            3 => write_all(&mut map, 1),
            4 => seen = walk_keys(&map, seen),
            _ => visit_all(&mut map, 1),
        }
    }
    let walked = mark(alloc);
    *checksum = seen;
    started && walked
}
