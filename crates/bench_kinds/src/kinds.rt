//! A job of calls on one key, over maps of several kinds of keys and values.
use super::items::{Key, Value};
use super::{mark, mixed};
use fc_base::TryReserveError;
use fc_map::map::BTreeMap;
use std::alloc::Global;

// How a text begins where all have a long beginning in common.
const BEGINNING: &str = "customers/north/orders/by-date/";

// The kinds of maps, by their keys and their values.
const TEXTS: u64 = 1;

const LONG_TEXTS: u64 = 2;

const PAIRS_OF_NUMBERS: u64 = 3;

const NO_VALUES: u64 = 4;

const VALUES_OF_64_BYTES: u64 = 5;

const VALUES_OF_256_BYTES: u64 = 6;

fn keys_of<K: Key>(
    alloc: Global,
    beginning: &str,
    numbers: &[u64],
) -> Result<Vec<K>, TryReserveError> {
    let mut keys = Vec::with_capacity(alloc, numbers.len())?;
    for number in numbers {
        keys.push(K::of(alloc, beginning, *number)?)?;
    }
    Ok(keys)
}

fn number_of<V: Value>(value: Option<&V>) -> Option<u64> {
    match value {
        Some(value) => Some(value.number()),
        None => None,
    }
}

#[inline(never)]
fn insert_all<K: Key, V: Value>(
    map: &mut BTreeMap<K, V>,
    keys: Vec<K>,
    start: u64,
) -> Result<u64, TryReserveError> {
    let mut checksum = start;
    for key in keys {
        let value = V::of(key.number());
        let old = map.try_insert(key, value)?;
        checksum = mixed(checksum, number_of(old.as_ref()));
    }
    Ok(checksum)
}

#[inline(never)]
fn get_all<K: Key, V: Value>(map: &BTreeMap<K, V>, keys: &[K], start: u64) -> u64 {
    let mut checksum = start;
    for key in keys {
        checksum = mixed(checksum, number_of(map.get(key)));
    }
    checksum
}

#[inline(never)]
fn remove_all<K: Key, V: Value>(map: &mut BTreeMap<K, V>, keys: &[K], start: u64) -> u64 {
    let mut checksum = start;
    for key in keys {
        let old = map.remove(key);
        checksum = mixed(checksum, number_of(old.as_ref()));
    }
    checksum
}

// The checksum of all answers, and whether each phase ended.
fn run<K: Key, V: Value>(
    alloc: Global,
    beginning: &str,
    numbers: &[u64],
    sought: &[u64],
    removed: &[u64],
) -> Result<(u64, bool), TryReserveError> {
    let new: Vec<K> = keys_of(alloc, beginning, numbers)?;
    let again: Vec<K> = keys_of(alloc, beginning, removed)?;
    let asked: Vec<K> = keys_of(alloc, beginning, sought)?;
    let gone: Vec<K> = keys_of(alloc, beginning, removed)?;
    let mut map: BTreeMap<K, V> = BTreeMap::new(alloc);
    let started = mark(alloc);
    let inserted = insert_all(&mut map, new, 0)?;
    let filled = mark(alloc);
    let replaced = insert_all(&mut map, again, inserted)?;
    let renewed = mark(alloc);
    let found = get_all(&map, asked.as_slice(), replaced);
    let searched = mark(alloc);
    let taken = remove_all(&mut map, gone.as_slice(), found);
    let emptied = mark(alloc);
    Ok((taken, started && filled && renewed && searched && emptied))
}

/// Makes keys of `numbers` and inserts them into a new map, then again those of `removed`, looks those of `sought` up and takes those of `removed`
/// out. Each of the four is a phase. What keys and values are made is as `kind` says: texts with numbers as values where it is 1, the same with a long
/// beginning in common where it is 2, two numbers with one where it is 3, numbers with nothing where it is 4, with 64 bytes where it is 5, with 256
/// where it is 6, and else with a number. The checksum of all answers goes to `checksum`. False where memory was refused.
#[unsafe(no_mangle)]
pub extern "C" fn bench_kinds_run(
    alloc: Global,
    numbers: &[u64],
    sought: &[u64],
    removed: &[u64],
    kind: u64,
    checksum: &mut u64,
) -> bool {
    let done = match kind {
        TEXTS => run::<String, u64>(alloc, "", numbers, sought, removed),
        LONG_TEXTS => run::<String, u64>(alloc, BEGINNING, numbers, sought, removed),
        PAIRS_OF_NUMBERS => run::<(u64, u64), u64>(alloc, "", numbers, sought, removed),
        NO_VALUES => run::<u64, ()>(alloc, "", numbers, sought, removed),
        VALUES_OF_64_BYTES => run::<u64, [u64; 8]>(alloc, "", numbers, sought, removed),
        VALUES_OF_256_BYTES => run::<u64, [u64; 32]>(alloc, "", numbers, sought, removed),
        _ => run::<u64, u64>(alloc, "", numbers, sought, removed),
    };
    match done {
        Ok((seen, all_ended)) => {
            *checksum = seen;
            all_ended
        }
        Err(_) => false,
    }
}
