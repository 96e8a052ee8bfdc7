//! A job that walks over a map.
use super::{insert_all, mark, mixed};
use fc_base::Handle;
use fc_budget::Budget;
use fc_map::map::BTreeMap;
use std::alloc::Global;

fn walk<A: Handle>(map: &BTreeMap<u64, u64, A>, start: u64) -> u64 {
    let mut checksum = start;
    for (key, value) in map {
        checksum = mixed(checksum, Some(key ^ value));
    }
    checksum
}

fn walk_all<A: Handle>(
    alloc: Global,
    handle: A,
    keys: &[u64],
    times: u64,
    checksum: &mut u64,
) -> bool {
    let mut map = BTreeMap::new(handle);
    let Some(mut seen) = insert_all(&mut map, keys) else {
        return false;
    };
    let started = mark(alloc);
    for _ in 0..times {
        seen = walk(&map, seen);
    }
    let walked = mark(alloc);
    *checksum = seen;
    started && walked
}

/// Inserts `keys` into a new map and walks over it as often as `times` says. All walks together are a phase. The checksum of what was seen goes to `checksum`.
/// False where memory was refused.
#[unsafe(no_mangle)]
pub extern "C" fn bench_budget_walk(
    alloc: Global,
    keys: &[u64],
    times: u64,
    is_in_budget: bool,
    checksum: &mut u64,
) -> bool {
    if is_in_budget {
        let budget = Budget::new(alloc, usize::MAX);
        walk_all(alloc, &budget, keys, times, checksum)
    } else {
        walk_all(alloc, alloc, keys, times, checksum)
    }
}
