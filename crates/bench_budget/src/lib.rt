//! Jobs of `bench_jobs` over maps in a budget that has room for all that they ask, and the same jobs at `Global`: in one library, since a compiler inlines
//! other calls where there are other jobs.
#![tactic(auto)]

mod calls;
mod walks;
mod whole;

use fc_base::Handle;
use fc_map::map::BTreeMap;
use std::alloc::Global;

// A checksum of all answers so far, which depends on each of them and on their order.
fn mixed(checksum: u64, answer: Option<u64>) -> u64 {
    let word = match answer {
        Some(value) => value.wrapping_add(1),
        None => 0,
    };
    checksum.rotate_left(5) ^ word
}

// Inserts each key, with itself as the value; `None` where memory was refused.
fn insert_all<A: Handle>(map: &mut BTreeMap<u64, u64, A>, keys: &[u64]) -> Option<u64> {
    let mut checksum = 0;
    for key in keys {
        match map.try_insert(*key, *key) {
            Ok(old) => checksum = mixed(checksum, old),
            Err(_) => return None,
        }
    }
    Some(checksum)
}

// Ends a phase: the driver's allocator refuses a request of so many bytes, and takes the time.
fn mark(alloc: Global) -> bool {
    Vec::<u8>::with_capacity(alloc, 1 << 62).is_err()
}
