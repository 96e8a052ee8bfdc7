//! The job of the cache over the toolchain's own `LruCache`, which counts entries.
use super::{mark, mixed};
use lru::{DefaultHasher, LruCache};
use std::alloc::Global;
use std::num::NonZeroUsize;

type Numbers = LruCache<u64, u64, DefaultHasher, Global>;

// Puts each key in with itself as the value; false where memory was refused.
fn put_all(cache: &mut Numbers, keys: &[u64]) -> bool {
    for key in keys {
        if cache.put(*key, *key).is_err() {
            return false;
        }
    }
    true
}

fn get_all(cache: &mut Numbers, keys: &[u64], checksum: u64) -> u64 {
    let mut seen = checksum;
    for key in keys {
        seen = mixed(seen, cache.get(key).copied());
    }
    seen
}

/// `bench_caches_run` over a cache of so many entries.
#[unsafe(no_mangle)]
pub extern "C" fn bench_lru_run(
    alloc: Global,
    keys: &[u64],
    others: &[u64],
    sought: &[u64],
    missing: &[u64],
    most: usize,
    checksum: &mut u64,
) -> bool {
    let Some(most) = NonZeroUsize::new(most) else {
        return false;
    };
    let Ok(mut cache) = LruCache::new(alloc, most) else {
        return false;
    };
    let started = mark(alloc);
    let filled = put_all(&mut cache, keys) && mark(alloc);
    let exchanged = put_all(&mut cache, others) && mark(alloc);
    let hit = get_all(&mut cache, sought, 0);
    let found = mark(alloc);
    let missed = get_all(&mut cache, missing, hit);
    let searched = mark(alloc);
    let mut seen = missed;
    for _ in 0..cache.len() {
        if let Some((key, value)) = cache.pop_lru() {
            seen = mixed(seen, Some(key ^ value));
        }
    }
    *checksum = seen;
    let emptied = mark(alloc);
    started && filled && exchanged && found && searched && emptied
}
