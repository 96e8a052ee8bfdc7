//! A job that takes a whole map at once.
use super::{insert_all, mark, mixed};
use fc_base::{Handle, TryClone};
use fc_budget::Budget;
use fc_map::map::BTreeMap;
use std::alloc::Global;
use std::mem::ManuallyDrop;

// The way of a job that appends.
const APPEND: u64 = 0;

// Puts a copy of the map into the other one; false where it was refused.
fn copy_into<A: Handle>(map: &BTreeMap<u64, u64, A>, other: &mut BTreeMap<u64, u64, A>) -> bool {
    match map.try_clone() {
        Ok(copy) => {
            *other = copy;
            true
        }
        Err(_) => false,
    }
}

// The lengths of the two maps, and the last key of both.
fn seen<A: Handle>(map: &BTreeMap<u64, u64, A>, other: &BTreeMap<u64, u64, A>) -> u64 {
    let lengths = mixed(map.len() as u64, Some(other.len() as u64));
    let last = mixed(lengths, map.last_key_value().map(|pair| *pair.0));
    mixed(last, other.last_key_value().map(|pair| *pair.0))
}

fn take_whole<A: Handle>(
    alloc: Global,
    handle: A,
    keys: &[u64],
    others: &[u64],
    way: u64,
    checksum: &mut u64,
) -> bool {
    let mut map = BTreeMap::new(handle);
    let mut other = BTreeMap::new(handle);
    if insert_all(&mut map, keys).is_none() || insert_all(&mut other, others).is_none() {
        return false;
    }
    let started = mark(alloc);
    let done = match way {
        APPEND => map.append(&mut other).is_ok(),
        _ => copy_into(&map, &mut other),
    };
    let ended = mark(alloc);
    *checksum = seen(&map, &other);
    let _leaked = ManuallyDrop::new(map);
    let _leaked_too = ManuallyDrop::new(other);
    started && done && ended
}

/// Inserts `keys` into a map and `others` into another one. Then, as a phase, the first takes the second by `append` where `way` is 0, and else is copied. Both
/// are let go without a drop. The checksum of what was seen goes to `checksum`. False where memory was refused.
#[unsafe(no_mangle)]
pub extern "C" fn bench_budget_whole(
    alloc: Global,
    keys: &[u64],
    others: &[u64],
    way: u64,
    is_in_budget: bool,
    checksum: &mut u64,
) -> bool {
    if is_in_budget {
        let budget = Budget::new(alloc, usize::MAX);
        take_whole(alloc, &budget, keys, others, way, checksum)
    } else {
        take_whole(alloc, alloc, keys, others, way, checksum)
    }
}
