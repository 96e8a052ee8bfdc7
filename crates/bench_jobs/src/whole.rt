//! Jobs that take a whole map at once.
use super::{insert_all, mark, mixed};
use fc_base::{TryClone, TryReserveError};
use fc_map::map::BTreeMap;
use fc_vec::TryFromIterator;
use std::alloc::Global;
use std::mem::ManuallyDrop;

// What a job does with its map.
const APPEND: u64 = 0;

const SPLIT_OFF: u64 = 1;

const CLONE: u64 = 2;

const POP: u64 = 3;

const POP_LAST: u64 = 4;

fn pop_all(map: &mut BTreeMap<u64, u64>, start: u64) -> u64 {
    let mut checksum = start;
    for _ in 0..map.len() {
        if let Some((key, value)) = map.pop_first() {
            checksum = mixed(checksum, Some(key ^ value));
        }
    }
    checksum
}

fn pop_all_from_the_back(map: &mut BTreeMap<u64, u64>, start: u64) -> u64 {
    let mut checksum = start;
    for _ in 0..map.len() {
        if let Some((key, value)) = map.pop_last() {
            checksum = mixed(checksum, Some(key ^ value));
        }
    }
    checksum
}

// The lengths of the two maps, and the ends of both.
fn seen(map: &BTreeMap<u64, u64>, other: &BTreeMap<u64, u64>) -> u64 {
    let lengths = mixed(map.len() as u64, Some(other.len() as u64));
    let ends = mixed(lengths, map.last_key_value().map(|pair| *pair.0));
    mixed(ends, other.first_key_value().map(|pair| *pair.0))
}

// Lets both maps go without a drop, so that the phase after it is not the longer for it.
fn leak(map: BTreeMap<u64, u64>, other: BTreeMap<u64, u64>) {
    let _leaked = ManuallyDrop::new(map);
    let _leaked_too = ManuallyDrop::new(other);
}

// Keeps the map that a call made; false where it was refused.
fn take_over(
    other: &mut BTreeMap<u64, u64>,
    made: Result<BTreeMap<u64, u64>, TryReserveError>,
) -> bool {
    match made {
        Ok(map) => {
            *other = map;
            true
        }
        Err(_) => false,
    }
}

/// Inserts `keys` into a map and `others` into another one. Then, as a phase, the first takes the second by `append` where `way` is 0, is
/// cut at `at` where it is 1, is copied where it is 2, gives its pairs out from the front where it is 3, from the back where it is 4. The
/// checksum of what was seen goes to `checksum`. False where memory was refused.
#[unsafe(no_mangle)]
pub extern "C" fn bench_map_whole(
    alloc: Global,
    keys: &[u64],
    others: &[u64],
    at: u64,
    way: u64,
    checksum: &mut u64,
) -> bool {
    let mut map = BTreeMap::new(alloc);
    let mut other = BTreeMap::new(alloc);
    if insert_all(&mut map, keys).is_none() || insert_all(&mut other, others).is_none() {
        return false;
    }
    let started = mark(alloc);
    let mut popped = 0;
    let done = match way {
        APPEND => map.append(&mut other).is_ok(),
        SPLIT_OFF => take_over(&mut other, map.split_off(&at)),
        CLONE => take_over(&mut other, map.try_clone()),
        POP => {
            popped = pop_all(&mut map, 0);
            true
        }
        POP_LAST => {
            popped = pop_all_from_the_back(&mut map, 0);
            true
        }
        _ => false,
    };
    let ended = mark(alloc);
    *checksum = mixed(seen(&map, &other), Some(popped));
    leak(map, other);
    started && done && ended
}

/// Makes a map of `keys`, each with itself as the value, by `try_from_iterator`, as a phase. Its length goes to `len`. False where memory
/// was refused.
#[unsafe(no_mangle)]
pub extern "C" fn bench_map_collect(alloc: Global, keys: &[u64], len: &mut usize) -> bool {
    let started = mark(alloc);
    let made = BTreeMap::try_from_iterator(alloc, keys.iter().map(|key| (*key, *key)));
    let ended = mark(alloc);
    match made {
        Ok(map) => {
            *len = map.len();
            let _leaked = ManuallyDrop::new(map);
            started && ended
        }
        Err(_) => false,
    }
}
