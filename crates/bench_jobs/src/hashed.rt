//! A job over the hashed map.
use super::{mark, mixed};
use fc_hash::TryHashMap;
use std::alloc::Global;

// Inserts each key, with itself as the value; `None` where memory was refused.
fn insert_all(map: &mut TryHashMap<u64, u64>, keys: &[u64]) -> Option<u64> {
    let mut checksum = 0;
    for key in keys {
        match map.insert(*key, *key) {
            Ok(old) => checksum = mixed(checksum, old),
            Err(_) => return None,
        }
    }
    Some(checksum)
}

fn get_all(map: &TryHashMap<u64, u64>, keys: &[u64], start: u64) -> u64 {
    let mut checksum = start;
    for key in keys {
        checksum = mixed(checksum, map.get(key).copied());
    }
    checksum
}

/// Inserts `keys` into a new map, and looks `sought` up. Each of the two is a phase. The checksum of all answers goes to `checksum`. False
/// where memory was refused.
#[unsafe(no_mangle)]
pub extern "C" fn bench_map_hash(
    alloc: Global,
    keys: &[u64],
    sought: &[u64],
    checksum: &mut u64,
) -> bool {
    let mut map = TryHashMap::default(alloc);
    let started = mark(alloc);
    let Some(inserted) = insert_all(&mut map, keys) else {
        return false;
    };
    let filled = mark(alloc);
    *checksum = get_all(&map, sought, inserted);
    let searched = mark(alloc);
    started && filled && searched
}
