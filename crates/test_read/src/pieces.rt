//! How a caller reads a length that came from the input itself.
use fc_vec::TryVec;
use fc_vec::read::try_read_up_to;
use std::io::{self, Read};

// How many bytes are asked for at a time.
const STEP: u64 = 65536;

/// Reads up to `limit` bytes in steps, so that a limit which lies takes no more memory than the source gives bytes and one step.
///
/// # Errors
/// As `try_read_up_to`; `buf` keeps the bytes that were read before.
pub fn read_in_steps<R: Read>(src: &mut R, limit: u64, buf: &mut TryVec<u8>) -> io::Result<()> {
    let mut left = limit;
    while left > 0 {
        let step = left.min(STEP);
        let read = try_read_up_to(src, step, buf)? as u64;
        if read < step {
            break;
        }
        left -= step;
    }
    Ok(())
}
