//! Insertions of new keys by their entries: at once, and made ready first.

use super::mark;
use fc_map::map::{BTreeMap, Entry};
use std::alloc::Global;

// Puts the key in by its entry; false where memory was refused.
fn put_at_once(map: &mut BTreeMap<u64, u64>, key: u64) -> bool {
    match map.try_entry(key) {
        Ok(Entry::Vacant(gap)) => gap.try_insert(key).is_ok(),
        Ok(Entry::Occupied(_there)) => true,
        Err(_refused) => false,
    }
}

// The same by an entry that is made ready.
fn put_made_ready(map: &mut BTreeMap<u64, u64>, key: u64) -> bool {
    match map.try_entry(key) {
        Ok(Entry::Vacant(gap)) => match gap.try_ready() {
            Ok(ready) => ready.insert(key).is_ok(),
            Err(_back) => false,
        },
        Ok(Entry::Occupied(_there)) => true,
        Err(_refused) => false,
    }
}

/// Puts each of `keys` into a new map, with itself as the value, by its entry, which is made ready first where `is_made_ready` is true. The
/// number of pairs goes to `len`. The insertions are a phase. False where memory was refused.
#[unsafe(no_mangle)]
pub extern "C" fn bench_map_put(
    alloc: Global,
    keys: &[u64],
    is_made_ready: bool,
    len: &mut usize,
) -> bool {
    let mut map = BTreeMap::new(alloc);
    let started = mark(alloc);
    for key in keys {
        let done = if is_made_ready {
            put_made_ready(&mut map, *key)
        } else {
            put_at_once(&mut map, *key)
        };
        if !done {
            return false;
        }
    }
    let ended = mark(alloc);
    *len = map.len();
    started && ended
}
