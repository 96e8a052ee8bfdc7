//! The jobs of `bench_jobs` on one key, over the toolchain's own ordered map, for `bench/own.py`.
#![tactic(auto)]

use std::alloc::Global;
use std::collections::BTreeMap;

// A checksum of all answers so far, which depends on each of them and on their order.
fn mixed(checksum: u64, answer: Option<u64>) -> u64 {
    let word = match answer {
        Some(value) => value.wrapping_add(1),
        None => 0,
    };
    checksum.rotate_left(5) ^ word
}

// Inserts each key, with itself as the value; `None` where memory was refused.
fn insert_all(map: &mut BTreeMap<u64, u64, Global>, keys: &[u64]) -> Option<u64> {
    let mut checksum = 0;
    for key in keys {
        match map.insert(*key, *key) {
            Ok(old) => checksum = mixed(checksum, old),
            Err(_refused) => return None,
        }
    }
    Some(checksum)
}

fn get_all(map: &BTreeMap<u64, u64, Global>, keys: &[u64], start: u64) -> u64 {
    let mut checksum = start;
    for key in keys {
        checksum = mixed(checksum, map.get(key).copied());
    }
    checksum
}

fn remove_all(map: &mut BTreeMap<u64, u64, Global>, keys: &[u64], start: u64) -> u64 {
    let mut checksum = start;
    for key in keys {
        checksum = mixed(checksum, map.remove(key));
    }
    checksum
}

// Ends a phase: the driver's allocator refuses a request of so many bytes, and takes the time.
fn mark(alloc: Global) -> bool {
    Vec::<u8>::with_capacity(alloc, 1 << 62).is_err()
}

/// Inserts `keys` into a new map, looks `sought` up, takes `removed` out and drops the map. Each of the four is a phase. The checksum of all answers goes to
/// `checksum`. False where memory was refused.
#[unsafe(no_mangle)]
pub extern "C" fn bench_own_run(
    alloc: Global,
    keys: &[u64],
    sought: &[u64],
    removed: &[u64],
    checksum: &mut u64,
) -> bool {
    let mut map = BTreeMap::new(alloc);
    let started = mark(alloc);
    let Some(inserted) = insert_all(&mut map, keys) else {
        return false;
    };
    let filled = mark(alloc);
    let found = get_all(&map, sought, inserted);
    let searched = mark(alloc);
    *checksum = remove_all(&mut map, removed, found);
    let emptied = mark(alloc);
    drop(map);
    let ended = mark(alloc);
    started && filled && searched && emptied && ended
}
