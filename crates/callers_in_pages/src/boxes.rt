//! Boxes whose making and copying may be refused.
ghost use Rattle.std.specs.Prelude.{◌≡◌, IfOk};
ghost use Rattle.fallible_collections.specs.Words.{boxed_value};

use fallible_collections::{TryBox, TryClone, TryReserveError};
use std::alloc::Global;

/// Two boxes of one number: the second is a copy of the first.
pub fn boxed_twice(
    alloc: Global,
    number: u64,
) -> Result<(TryBox<u64>, TryBox<u64>), TryReserveError>
    ensures first { IfOk result (λ both. boxed_value both.0 ≡ number) }
    ensures second { IfOk result (λ both. boxed_value both.1 ≡ number) }
{
    let first = TryBox::try_new(alloc, number)?;
    let second = first.try_clone()?; // numbers are never refused, the box may be
    Ok((first, second))
}
