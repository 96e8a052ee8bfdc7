//! What stands at the front of bytes, and the bytes after it.
ghost use Rattle.std.specs.Prelude.{◌≡◌, ◌+◌, ◌<◌, take, drop, length, IfOk, IfErr};
ghost use Rattle.example_boxes.specs.Layout.{number32, number64};

use crate::error::Error;

/// The first `count` bytes, and the others.
///
/// # Errors
/// `Truncated` where there are fewer.
pub fn split(bytes: &[u8], count: usize) -> Result<(&[u8], &[u8]), Error>
    ensures front { IfOk result (λ parts. parts.0.now ≡ take count bytes.now) }
    ensures rest { IfOk result (λ parts. parts.1.now ≡ drop count bytes.now) }
    ensures left { IfOk result (λ parts. count + length parts.1.now ≡ length bytes.now) }
    ensures error { IfErr result (λ e. (e ≡ Error.Truncated) × (length bytes.now < count)) }
{
    match bytes.split_at_checked(count) {
        Some((front, rest)) => Ok((front, rest)),
        None => Err(Error::Truncated),
    }
}

/// The number of four bytes at the front, and the other bytes.
///
/// # Errors
/// `Truncated` where there are fewer.
pub fn split_u32(bytes: &[u8]) -> Result<(u32, &[u8]), Error>
    ensures number { IfOk result (λ parts. parts.0 ≡ number32 bytes.now) }
    ensures rest { IfOk result (λ parts. parts.1.now ≡ drop 4 bytes.now) }
    ensures left { IfOk result (λ parts. 4 + length parts.1.now ≡ length bytes.now) }
    ensures error { IfErr result (λ e. (e ≡ Error.Truncated) × (length bytes.now < 4)) }
{
    match bytes.split_first_chunk::<4>() {
        Some((front, rest)) => Ok((u32::from_be_bytes(*front), rest)),
        None => Err(Error::Truncated),
    }
}

/// The number of eight bytes at the front, and the other bytes.
///
/// # Errors
/// `Truncated` where there are fewer.
pub fn split_u64(bytes: &[u8]) -> Result<(u64, &[u8]), Error>
    ensures number { IfOk result (λ parts. parts.0 ≡ number64 bytes.now) }
    ensures rest { IfOk result (λ parts. parts.1.now ≡ drop 8 bytes.now) }
    ensures left { IfOk result (λ parts. 8 + length parts.1.now ≡ length bytes.now) }
    ensures error { IfErr result (λ e. (e ≡ Error.Truncated) × (length bytes.now < 8)) }
{
    match bytes.split_first_chunk::<8>() {
        Some((front, rest)) => Ok((u64::from_be_bytes(*front), rest)),
        None => Err(Error::Truncated),
    }
}

/// The four letters at the front, and the other bytes.
///
/// # Errors
/// `Truncated` where there are fewer.
pub fn split_letters(bytes: &[u8]) -> Result<([u8; 4], &[u8]), Error>
    ensures letters { IfOk result (λ parts. parts.0 ≡ take 4 bytes.now) }
    ensures rest { IfOk result (λ parts. parts.1.now ≡ drop 4 bytes.now) }
    ensures left { IfOk result (λ parts. 4 + length parts.1.now ≡ length bytes.now) }
    ensures error { IfErr result (λ e. (e ≡ Error.Truncated) × (length bytes.now < 4)) }
{
    match bytes.split_first_chunk::<4>() {
        Some((front, rest)) => Ok((*front, rest)),
        None => Err(Error::Truncated),
    }
}
