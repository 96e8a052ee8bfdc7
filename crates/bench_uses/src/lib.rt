//! Jobs over maps of stretches, timers, tables and caches, for drivers outside Rattle which measure them beside the same over std's maps, and compare the
//! answers.
#![tactic(auto)]

mod beside_lru;
mod caches;
mod intervals;
mod steady_timers;
mod tables;
mod timers;

use std::alloc::Global;

// A checksum of all answers so far, which depends on each of them and on their order.
fn mixed(checksum: u64, answer: Option<u64>) -> u64 {
    let word = match answer {
        Some(value) => value.wrapping_add(1),
        None => 0,
    };
    checksum.rotate_left(5) ^ word
}

// Ends a phase: the driver's allocator refuses a request of so many bytes, and takes the time.
fn mark(alloc: Global) -> bool {
    Vec::<u8>::with_capacity(alloc, 1 << 62).is_err()
}
