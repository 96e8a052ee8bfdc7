//! Tables and texts, whose lengths are compared with the bytes that are there before memory is asked for.
ghost use Rattle.std.specs.Prelude.{◌≡◌, ◌==◌, ◌<◌, ◌≤◌, ◌⊎◌, ◌↔◌, map, length, drop, IfOk, IfErr, IfSome, IsErrOf};
ghost use Rattle.std.specs.List.{position};
ghost use Rattle.std.specs.Int.{w32, from_be_bytes};
ghost use Rattle.example_boxes.specs.Layout.{number32, table_size, table_of, text_of};
ghost use Rattle.example_boxes.specs.Samples.{AreSizes};

use crate::error::Error;
use crate::fields::{split, split_u32};
use fallible_collections::{TryReserveError, TryVec};
use std::alloc::Global;

/// The longest text that is kept, in bytes.
pub const LONGEST: usize = 64;

/// How long the samples of a track are, in bytes.
#[derive(Drop)]
pub enum Sizes {
    /// So many, each of the same length.
    Same { count: u32, size: u32 },
    /// The length of each.
    Each(TryVec<u32>),
}

/// The table that the bytes begin with: a number of entries, and then these. Its memory is one request, made once all of them are there.
///
/// # Errors
/// `Truncated` where the bytes are too few for the entries, and `Memory` where there are some and memory was refused.
pub fn table_in(alloc: Global, bytes: &[u8]) -> Result<TryVec<u32>, Error>
    ensures entries { IfOk result (λ table. table.items ≡ table_of bytes.now) }
    ensures count { IfOk result (λ table. length table.items ≡ number32 bytes.now) }
    ensures truncated { IsErrOf result Error.Truncated ↔ (length bytes.now < 4) ⊎ (length bytes.now < table_size bytes.now) }
    ensures error { IfErr result (λ e. (e ≡ Error.Truncated) ⊎ ((0 < number32 bytes.now) × (e ≡ Error.Memory TryReserveError.AllocError))) }
{
    let (count, rest) = split_u32(bytes)?;
    let (entries, _) = split(rest, count as usize * 4)?;
    let (entries, _) = entries.as_chunks::<4>();
    Ok(numbers_in(alloc, entries)?)
}

// The number that each four bytes are.
fn numbers_in(alloc: Global, entries: &[[u8; 4]]) -> Result<TryVec<u32>, TryReserveError>
    ensures numbers { IfOk result (λ numbers. numbers.items ≡ map (from_be_bytes w32) entries.now) }
    ensures error { IfErr result (λ e. (0 < length entries.now) × (e ≡ TryReserveError.AllocError)) }
{
    let mut numbers = TryVec::with_capacity(alloc, entries.len())?;
    for entry in entries {
        numbers.push(u32::from_be_bytes(*entry)).unwrap(); // there is room
    }
    Ok(numbers)
}

/// The lengths of samples that this content of a box tells: one for all, or where that is 0, a table.
///
/// # Errors
/// As `table_in`, and `Truncated` where the content is too short for what stands before a table.
pub fn sizes_in(alloc: Global, content: &[u8]) -> Result<Sizes, Error>
    ensures { IfOk result (AreSizes content.now) }
{
    let (_flags, rest) = split_u32(content)?;
    let (size, rest) = split_u32(rest)?;
    if size == 0 {
        return Ok(Sizes::Each(table_in(alloc, rest)?));
    }
    let (count, _) = split_u32(rest)?;
    Ok(Sizes::Same { count, size })
}

/// The text that the bytes begin with, up to a byte that is 0, or all of them.
///
/// # Errors
/// `TooLarge` where it has more than `LONGEST` bytes, and `Memory` where it has some and memory was refused.
pub fn text_in(alloc: Global, bytes: &[u8]) -> Result<TryVec<u8>, Error>
    ensures text { IfOk result (λ text. text.items ≡ text_of bytes.now) }
    ensures longest { IfOk result (λ text. length text.items ≤ LONGEST) }
    ensures too_large { IsErrOf result Error.TooLarge ↔ (LONGEST < length (text_of bytes.now)) }
    ensures error { IfErr result (λ e. (e ≡ Error.TooLarge) ⊎ ((0 < length bytes.now) × (e ≡ Error.Memory TryReserveError.AllocError))) }
{
    let text = front_of(bytes);
    if text.len() > LONGEST {
        return Err(Error::TooLarge);
    }
    Ok(TryVec::try_from_slice(alloc, text)?)
}

// The bytes before the first that is 0, or all of them.
fn front_of(bytes: &[u8]) -> &[u8]
    ensures { result.now ≡ text_of bytes.now }
{
    match zero_in(bytes) {
        Some(end) => &bytes[..end],
        None => bytes,
    }
}

// The place of the first byte that is 0.
fn zero_in(bytes: &[u8]) -> Option<usize>
    ensures place { result ≡ position (λ b. b == 0) bytes.now }
    ensures within { IfSome result (λ end. end < length bytes.now) }
{
    bytes.iter().position(|byte| *byte == 0)
}
