//! A job over the cache within a budget.
use super::{mark, mixed};
use fc_cache::Cache;
use std::alloc::Global;

type Numbers = Cache<u64, u64>;

// Puts each key in with itself as the value, at a cost of one; false where memory was refused.
fn put_all(cache: &mut Numbers, keys: &[u64]) -> bool {
    for key in keys {
        if cache.try_put(*key, *key, 1).is_err() {
            return false;
        }
    }
    true
}

fn get_all(cache: &mut Numbers, keys: &[u64], checksum: u64) -> u64 {
    let mut seen = checksum;
    for key in keys {
        seen = mixed(seen, cache.get(key).copied());
    }
    seen
}

/// Puts `keys` into a new cache of a budget, and then `others`, looks `sought` and then `missing` up, and takes all out, from the one that was used least
/// lately on. Each of the five is a phase. The checksum of all answers goes to `checksum`. False where memory was refused.
#[unsafe(no_mangle)]
pub extern "C" fn bench_caches_run(
    alloc: Global,
    keys: &[u64],
    others: &[u64],
    sought: &[u64],
    missing: &[u64],
    budget: usize,
    checksum: &mut u64,
) -> bool {
    let mut cache = Cache::new(alloc, budget);
    let started = mark(alloc);
    let filled = put_all(&mut cache, keys) && mark(alloc);
    let exchanged = put_all(&mut cache, others) && mark(alloc);
    let hit = get_all(&mut cache, sought, 0);
    let found = mark(alloc);
    let missed = get_all(&mut cache, missing, hit);
    let searched = mark(alloc);
    let mut seen = missed;
    for _ in 0..cache.len() {
        if let Some((key, value)) = cache.pop_oldest() {
            seen = mixed(seen, Some(key ^ value));
        }
    }
    *checksum = seen;
    let emptied = mark(alloc);
    started && filled && exchanged && found && searched && emptied
}
