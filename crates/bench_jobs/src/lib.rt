//! Jobs over the ordered map for a driver outside Rattle, which measures them and compares their answers.
#![tactic(auto)]

mod hashed;
mod neighbours;
mod reading;
mod ready;
mod sets;
mod vectors;
mod walks;
mod whole;

use fc_map::map::BTreeMap;
use std::alloc::Global;
use std::mem::ManuallyDrop;
use walks::take_all;

// A checksum of all answers so far, which depends on each of them and on their order.
fn mixed(checksum: u64, answer: Option<u64>) -> u64 {
    let word = match answer {
        Some(value) => value.wrapping_add(1),
        None => 0,
    };
    checksum.rotate_left(5) ^ word
}

// Inserts each key, with itself as the value; `None` where memory was refused.
fn insert_all(map: &mut BTreeMap<u64, u64>, keys: &[u64]) -> Option<u64> {
    let mut checksum = 0;
    for key in keys {
        match map.try_insert(*key, *key) {
            Ok(old) => checksum = mixed(checksum, old),
            Err(_) => return None,
        }
    }
    Some(checksum)
}

fn get_all(map: &BTreeMap<u64, u64>, keys: &[u64], start: u64) -> u64 {
    let mut checksum = start;
    for key in keys {
        checksum = mixed(checksum, map.get(key).copied());
    }
    checksum
}

fn remove_all(map: &mut BTreeMap<u64, u64>, keys: &[u64], start: u64) -> u64 {
    let mut checksum = start;
    for key in keys {
        checksum = mixed(checksum, map.remove(key));
    }
    checksum
}

// Ends a phase: the driver's allocator refuses a request of so many bytes, and takes the time.
fn mark(alloc: Global) -> bool {
    Vec::<u8>::with_capacity(alloc, 1 << 62).is_err()
}

/// How a job lets its map go.
const DROP: u64 = 0;

const CLEAR: u64 = 1;

const GIVE_OUT: u64 = 2;

// Lets the map go: by a drop, cleared, all its pairs given out, or without a drop.
fn end(map: BTreeMap<u64, u64>, way: u64, start: u64) -> u64 {
    match way {
        DROP => drop(map),
        CLEAR => {
            let mut map = map;
            map.clear();
        }
        GIVE_OUT => return take_all(map, start),
        _ => {
            let _leaked = ManuallyDrop::new(map);
        }
    }
    start
}

/// Inserts `keys` into a new map, looks `sought` up and takes `removed` out. Then the map is dropped where `way` is 0, cleared
/// where it is 1, gives all its pairs out where it is 2, and else is let go without a drop. Each of the four is a phase. The
/// checksum of all answers goes to `checksum`. False where memory was refused.
#[unsafe(no_mangle)]
pub extern "C" fn bench_map_run(
    alloc: Global,
    keys: &[u64],
    sought: &[u64],
    removed: &[u64],
    way: u64,
    checksum: &mut u64,
) -> bool {
    let mut map = BTreeMap::new(alloc);
    let started = mark(alloc);
    let Some(inserted) = insert_all(&mut map, keys) else {
        return false;
    };
    let filled = mark(alloc);
    let found = get_all(&map, sought, inserted);
    let searched = mark(alloc);
    let taken = remove_all(&mut map, removed, found);
    let emptied = mark(alloc);
    *checksum = end(map, way, taken);
    let ended = mark(alloc);
    started && filled && searched && emptied && ended
}

/// A call on the map, and what it answered.
#[repr(C)]
pub struct Step {
    /// 0 inserts, 1 removes, and anything else looks up.
    pub call: u64,
    /// The key.
    pub key: u64,
    /// The value to be inserted.
    pub value: u64,
    /// Whether the call answered a value.
    pub found: bool,
    /// The value that it answered, or 0.
    pub answer: u64,
    /// The number of pairs after the call.
    pub len: usize,
}

// Makes the call and keeps what it answered; false where memory was refused.
fn take(map: &mut BTreeMap<u64, u64>, step: &mut Step) -> bool {
    let answer = match step.call {
        0 => match map.try_insert(step.key, step.value) {
            Ok(old) => old,
            Err(_) => return false,
        },
        1 => map.remove(&step.key),
        _ => map.get(&step.key).copied(),
    };
    step.found = answer.is_some();
    step.answer = answer.unwrap_or(0);
    step.len = map.len();
    true
}

/// Makes all calls in turn on a new map and keeps what each answered. False where memory was refused.
#[unsafe(no_mangle)]
pub extern "C" fn bench_map_follow(alloc: Global, steps: &mut [Step]) -> bool {
    let mut map = BTreeMap::new(alloc);
    for step in steps {
        if !take(&mut map, step) {
            return false;
        }
    }
    true
}

// One more at the key, by its entry; false where memory was refused.
fn count_by_entry(map: &mut BTreeMap<u64, u64>, key: u64) -> bool {
    match map.try_entry(key) {
        Ok(entry) => match entry.or_try_insert(0) {
            Ok(count) => {
                *count = count.wrapping_add(1);
                true
            }
            Err(_) => false,
        },
        Err(_) => false,
    }
}

// One more at the key, by a look-up and then an insertion; false where memory was refused.
fn count_by_insertion(map: &mut BTreeMap<u64, u64>, key: u64) -> bool {
    let before = map.get(&key).copied().unwrap_or(0);
    map.try_insert(key, before.wrapping_add(1)).is_ok()
}

/// Counts how often each of `keys` comes, by entries where `by_entry` is true and else by look-ups and insertions. The number of
/// different keys goes to `len`. The counting is a phase. False where memory was refused.
#[unsafe(no_mangle)]
pub extern "C" fn bench_map_count(
    alloc: Global,
    keys: &[u64],
    by_entry: bool,
    len: &mut usize,
) -> bool {
    let mut map = BTreeMap::new(alloc);
    let started = mark(alloc);
    for key in keys {
        let done = if by_entry {
            count_by_entry(&mut map, *key)
        } else {
            count_by_insertion(&mut map, *key)
        };
        if !done {
            return false;
        }
    }
    let counted = mark(alloc);
    *len = map.len();
    started && counted
}
