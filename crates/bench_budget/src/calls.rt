//! A job of calls on one key.
use super::{insert_all, mark, mixed};
use fc_base::Handle;
use fc_budget::Budget;
use fc_map::map::BTreeMap;
use std::alloc::Global;
use std::mem::ManuallyDrop;

// The way of a job that drops its map.
const DROP: u64 = 0;

fn get_all<A: Handle>(map: &BTreeMap<u64, u64, A>, keys: &[u64], start: u64) -> u64 {
    let mut checksum = start;
    for key in keys {
        checksum = mixed(checksum, map.get(key).copied());
    }
    checksum
}

fn remove_all<A: Handle>(map: &mut BTreeMap<u64, u64, A>, keys: &[u64], start: u64) -> u64 {
    let mut checksum = start;
    for key in keys {
        checksum = mixed(checksum, map.remove(key));
    }
    checksum
}

fn call_all<A: Handle>(
    alloc: Global,
    handle: A,
    keys: &[u64],
    sought: &[u64],
    removed: &[u64],
    way: u64,
    checksum: &mut u64,
) -> bool {
    let mut map = BTreeMap::new(handle);
    let started = mark(alloc);
    let Some(inserted) = insert_all(&mut map, keys) else {
        return false;
    };
    let filled = mark(alloc);
    let found = get_all(&map, sought, inserted);
    let searched = mark(alloc);
    *checksum = remove_all(&mut map, removed, found);
    let emptied = mark(alloc);
    if way == DROP {
        drop(map);
    } else {
        let _leaked = ManuallyDrop::new(map);
    }
    let ended = mark(alloc);
    started && filled && searched && emptied && ended
}

/// Inserts `keys` into a new map, looks `sought` up and takes `removed` out. Then the map is dropped where `way` is 0, and else let go without a drop. Each of
/// the four is a phase. The checksum of all answers goes to `checksum`. False where memory was refused.
#[unsafe(no_mangle)]
pub extern "C" fn bench_budget_run(
    alloc: Global,
    keys: &[u64],
    sought: &[u64],
    removed: &[u64],
    way: u64,
    is_in_budget: bool,
    checksum: &mut u64,
) -> bool {
    if is_in_budget {
        let budget = Budget::new(alloc, usize::MAX);
        call_all(alloc, &budget, keys, sought, removed, way, checksum)
    } else {
        call_all(alloc, alloc, keys, sought, removed, way, checksum)
    }
}
