//! Callers of a map of stretches.
ghost use Rattle.std.specs.Prelude.{◌≡◌, ◌⊎◌, ◌<◌, ◌≤◌, ℕ, true, IfOk, IfSome, OnOk, None, Some};
ghost use Rattle.std.specs.Ordering.{nat_cmp};
ghost use Rattle.fc_intervals.specs.Stretches.{value_at_point};

use fc_intervals::{IntervalMap, TryReserveError};
use std::ops::Range;

/// Books the nights of a range for a guest where all are free, and answers whether they were. Each other night stays as it is.
pub fn book(
    nights: &mut IntervalMap<u64, u64>,
    from: u64,
    to: u64,
    guest: u64,
) -> Result<bool, TryReserveError>
    ensures free { IfOk result (λ is_booked. is_booked ≡ true → (p : ℕ) → from ≤ p → p < to → value_at_point nat_cmp nights.old p ≡ None) }
    ensures booked { IfOk result (λ is_booked. is_booked ≡ true → (p : ℕ) → from ≤ p → p < to → value_at_point nat_cmp nights.new p ≡ Some guest) }
    ensures others { OnOk result ((p : ℕ) → (p < from) ⊎ (to ≤ p) → value_at_point nat_cmp nights.new p ≡ value_at_point nat_cmp nights.old p) }
{
    if nights.overlaps(from..to) {
        return Ok(false);
    }
    nights.try_put(from..to, guest)?;
    Ok(true)
}

/// Has the nights of a range free. No night gets a guest by it.
pub fn release(
    nights: &mut IntervalMap<u64, u64>,
    from: u64,
    to: u64,
) -> Result<(), TryReserveError>
    ensures released { OnOk result ((p : ℕ) → from ≤ p → p < to → value_at_point nat_cmp nights.new p ≡ None) }
    ensures still_free { OnOk result ((p : ℕ) → value_at_point nat_cmp nights.old p ≡ None → value_at_point nat_cmp nights.new p ≡ None) }
{
    nights.try_cut(from..to)
}

/// The first nights in a row of a range that are free.
pub fn first_free(nights: &IntervalMap<u64, u64>, from: u64, to: u64) -> Option<Range<u64>>
    ensures { IfSome result (λ gap. (p : ℕ) → gap.start ≤ p → p < gap.end → value_at_point nat_cmp nights.now p ≡ None) }
{
    nights.gaps(from..to).next()
}
