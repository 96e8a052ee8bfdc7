//! A job that reads.
use super::{mark, mixed};
use fc_vec::read::TryRead;
use std::alloc::Global;
use std::io::Read;

/// Reads the bytes up to the limit into a new vector, as often as `times` says. All readings together are a phase. The checksum of the last
/// bytes goes to `checksum`. False where memory was refused.
#[unsafe(no_mangle)]
pub extern "C" fn bench_map_read(
    alloc: Global,
    bytes: &[u8],
    limit: u64,
    times: u64,
    checksum: &mut u64,
) -> bool {
    let mut seen = 0;
    let started = mark(alloc);
    for _ in 0..times {
        match bytes.take(limit).read_into_try_vec(alloc) {
            Ok(made) => seen = mixed(seen, made.as_slice().last().map(|byte| u64::from(*byte))),
            Err(_) => return false,
        }
    }
    let ended = mark(alloc);
    *checksum = seen;
    started && ended
}
