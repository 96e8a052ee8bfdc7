//! A job of calls that come to a key by its entry or by a range.
use super::{mark, mixed};
use fc_map::map::{BTreeMap, Entry};
use std::alloc::Global;
use std::ops::Bound;

type Numbers = BTreeMap<u64, u64>;

// Puts a new key in by its entry; false where memory was refused.
fn put(map: &mut Numbers, key: u64) -> bool {
    match map.try_entry(key) {
        Ok(Entry::Vacant(gap)) => gap.try_insert(key).is_ok(),
        Ok(Entry::Occupied(_there)) => true,
        Err(_refused) => false,
    }
}

fn put_all(map: &mut Numbers, keys: &[u64]) -> bool {
    for key in keys {
        if !put(map, *key) {
            return false;
        }
    }
    true
}

// Adds one to the value at the key, by its entry; false where memory was refused.
fn count(map: &mut Numbers, key: u64) -> bool {
    match map.try_entry(key) {
        Ok(entry) => match entry.or_try_insert(0) {
            Ok(value) => {
                *value = value.wrapping_add(1);
                true
            }
            Err(_) => false,
        },
        Err(_) => false,
    }
}

fn count_all(map: &mut Numbers, keys: &[u64]) -> bool {
    for key in keys {
        if !count(map, *key) {
            return false;
        }
    }
    true
}

// The ten pairs from the key on, or as many as there are.
fn walk_ten(map: &Numbers, from: &u64, start: u64) -> u64 {
    let mut checksum = start;
    let mut walk = map.range((Bound::Included(from), Bound::Unbounded));
    for _ in 0..10 {
        let Some((key, value)) = walk.next() else {
            break;
        };
        checksum = mixed(checksum, Some(key ^ value));
    }
    checksum
}

fn walk_all(map: &Numbers, starts: &[u64], start: u64) -> u64 {
    let mut checksum = start;
    for from in starts {
        checksum = walk_ten(map, from, checksum);
    }
    checksum
}

/// Puts `keys` into a new map by their entries, counts `there` by their entries, which are there, and walks over the ten pairs from each of `starts` on. Each
/// of the three is a phase. The checksum of what was seen goes to `checksum`. False where memory was refused.
#[unsafe(no_mangle)]
pub extern "C" fn bench_kinds_entries(
    alloc: Global,
    keys: &[u64],
    there: &[u64],
    starts: &[u64],
    checksum: &mut u64,
) -> bool {
    let mut map = BTreeMap::new(alloc);
    let started = mark(alloc);
    let filled = put_all(&mut map, keys) && mark(alloc);
    let counted = count_all(&mut map, there) && mark(alloc);
    let seen = walk_all(&map, starts, map.len() as u64);
    let walked = mark(alloc);
    *checksum = seen;
    started && filled && counted && walked
}
