//! Jobs that fill vectors.
use super::{mark, mixed};
use fc_base::{TryClone, TryReserveError};
use fc_vec::{FallibleCopyVec, TryVec};
use std::alloc::Global;

// How a job copies its bytes.
const EXTEND_COPIED: u64 = 0;

const EXTEND_CLONED: u64 = 1;

const FROM_SLICE: u64 = 2;

fn copied(alloc: Global, source: &TryVec<u8>, way: u64) -> Result<TryVec<u8>, TryReserveError> {
    match way {
        EXTEND_COPIED => {
            let mut made = Vec::new(alloc);
            made.try_extend_from_slice(source.as_slice())?;
            Ok(TryVec::from(made))
        }
        EXTEND_CLONED => {
            let mut made = TryVec::new(alloc);
            made.extend_from_slice(source.as_slice())?;
            Ok(made)
        }
        FROM_SLICE => TryVec::try_from_slice(alloc, source.as_slice()),
        _ => source.try_clone(),
    }
}

/// Copies the bytes into a vector, and that one as often as `times` says into another one: by `try_extend_from_slice` where `way` is 0, by
/// `TryVec::extend_from_slice` where it is 1, by `try_from_slice` where it is 2, and else by `try_clone`. All copies together are a phase.
/// The checksum of their last bytes goes to `checksum`. False where memory was refused.
#[unsafe(no_mangle)]
pub extern "C" fn bench_map_copy_bytes(
    alloc: Global,
    bytes: &[u8],
    way: u64,
    times: u64,
    checksum: &mut u64,
) -> bool {
    let Ok(source) = TryVec::try_from_slice(alloc, bytes) else {
        return false;
    };
    let mut seen = 0;
    let started = mark(alloc);
    for _ in 0..times {
        match copied(alloc, &source, way) {
            Ok(made) => seen = mixed(seen, made.as_slice().last().map(|byte| u64::from(*byte))),
            Err(_) => return false,
        }
    }
    let ended = mark(alloc);
    *checksum = seen;
    started && ended
}

// Pushes the numbers below `count`, and answers the last one.
fn pushed(alloc: Global, count: u64) -> Result<Option<u64>, TryReserveError> {
    let mut made = TryVec::new(alloc);
    for number in 0..count {
        made.push(number)?;
    }
    Ok(made.as_slice().last().copied())
}

/// Pushes the numbers below `count` onto a new vector, and that as often as `times` says. All together are a phase. The checksum of the last
/// numbers goes to `checksum`. False where memory was refused.
#[unsafe(no_mangle)]
pub extern "C" fn bench_map_push_numbers(
    alloc: Global,
    count: u64,
    times: u64,
    checksum: &mut u64,
) -> bool {
    let mut seen = 0;
    let started = mark(alloc);
    for _ in 0..times {
        match pushed(alloc, count) {
            Ok(last) => seen = mixed(seen, last),
            Err(_) => return false,
        }
    }
    let ended = mark(alloc);
    *checksum = seen;
    started && ended
}
