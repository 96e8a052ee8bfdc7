//! Reading up to a limit.
ghost use Rattle.std.specs.Prelude.{◌≡◌, ◌+◌, ◌<◌, ◌≤◌, ◌⊎◌, Ok, length, IfOk, OnOk, IfErr};
ghost use Rattle.std.specs.IoError.{error_kind};
ghost use Rattle.fc_vec.specs.Reading.{IsMoved, IsWhole};

use crate::vec::TryVec;
use fc_base::Handle;
use std::io::{self, ErrorKind, Read, Write};

// How many bytes one read asks for: few where few are wanted, since a piece is blanked first.
const PIECE: usize = 8192;

const SMALL_PIECE: usize = 512;

/// Makes room for `limit` more bytes, and then reads until so many are read or the source ends. It answers how many bytes it
/// read, which stand after those of `buf`. Nothing is read past the limit; of none, nothing at all. Upstream:
/// `try_read_up_to`, which goes on after an interrupted read.
///
/// The room is taken before the first read. So a limit that comes from the input itself, as a length in a header does, is a
/// request for so much memory: where it may be any number, read in pieces of a size of your own.
///
/// # Errors
/// The room was refused, which has the kind `OutOfMemory`: nothing was read, and `buf` is as before. Or a read failed or was
/// interrupted, and the answer is its error: `buf` keeps the bytes read before, which are fewer than `limit`.
pub fn try_read_up_to<R: Read, A: Handle>(
    src: &mut R,
    limit: u64,
    buf: &mut TryVec<u8, A>,
) -> io::Result<usize>
    ensures moved { IsMoved (R.remaining src.old) (R.remaining src.new) buf.old.items buf.new.items limit }
    ensures whole { IfOk result (IsWhole (R.remaining src.old) (R.remaining src.new) buf.old.items buf.new.items limit) }
    ensures room { 0 < limit → OnOk result (length buf.old.items + limit ≤ buf.new.room) }
    ensures kept { buf.old.room ≤ buf.new.room }
    ensures none { limit ≡ 0 → (result ≡ Ok 0) × (src.new ≡ src.old) × (buf.new ≡ buf.old) }
    ensures error { IfErr result (λ e.
        ((buf.old.room < length buf.old.items + limit) × (error_kind e ≡ ErrorKind.OutOfMemory) × (src.new ≡ src.old) × (buf.new ≡ buf.old))
        ⊎ ((length buf.old.items + limit ≤ buf.new.room) × (length buf.new.items < length buf.old.items + limit))) }
{
    if limit == 0 {
        return Ok(0);
    }
    let limit = limit as usize;
    match buf.reserve(limit) {
        Ok(()) => {
            if limit <= SMALL_PIECE {
                read_into_room::<R, A, SMALL_PIECE>(src, limit, buf)
            } else {
                read_into_room::<R, A, PIECE>(src, limit, buf)
            }
        }
        Err(_) => Err(io::Error::from(ErrorKind::OutOfMemory)),
    }
}

// Reads up to the limit, for which there is room, in pieces of so many bytes.
fn read_into_room<R: Read, A: Handle, const PIECE: usize>(
    src: &mut R,
    limit: usize,
    buf: &mut TryVec<u8, A>,
) -> io::Result<usize>
    requires room { length buf.old.items + limit ≤ buf.old.room }
    requires piece { (0 < PIECE) × (PIECE ≤ 8192) }
    ensures moved { IsMoved (R.remaining src.old) (R.remaining src.new) buf.old.items buf.new.items limit }
    ensures whole { IfOk result (IsWhole (R.remaining src.old) (R.remaining src.new) buf.old.items buf.new.items limit) }
    ensures room { buf.old.room ≤ buf.new.room }
    ensures short { IfErr result (λ _. length buf.new.items < length buf.old.items + limit) }
{
    let mut piece = [0u8; PIECE];
    let mut left = limit;
    while left > 0 {
        let most = left.min(PIECE);
        let n = src.read(&mut piece[..most])?;
        if n == 0 {
            break;
        }
        buf.write(&piece[..n])?;
        left -= n;
    }
    Ok(limit - left)
}
