//! Printing into a text whose room is taken first.
ghost use Rattle.std.specs.Prelude.{◌≡◌, IfOk, IfErr, IfSome, string_bytes};

use fc_base::{Handle, TryReserveError};
use std::fmt::Display;

/// The text that `{}` prints of the value. Room for `max_capacity` bytes is taken before the printing begins; a longer text asks
/// for more. Upstream: `try_format`, which takes `Arguments`, has no refusal past its capacity, and panics where the printing
/// fails.
///
/// # Errors
/// `AllocError` where the room was refused, or where the printing failed, for whatever cause. What was printed by then is
/// dropped.
pub fn try_format<T: Display, A: Handle>(
    alloc: A,
    max_capacity: usize,
    value: &T,
) -> Result<String<A>, TryReserveError>
    ensures text { IfOk result (λ s. IfSome (T.output value.now) (λ bytes. string_bytes s ≡ bytes)) }
    ensures error { IfErr result (λ e. e ≡ TryReserveError.AllocError) }
{
    let mut text = String::with_capacity(alloc, max_capacity)?;
    text.write(value)?;
    Ok(text)
}
