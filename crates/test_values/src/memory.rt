//! Whether there is memory.
use std::alloc::Global;

/// Whether memory is given.
pub fn is_ample(alloc: Global) -> bool {
    Vec::<u8>::with_capacity(alloc, 1).is_ok()
}
