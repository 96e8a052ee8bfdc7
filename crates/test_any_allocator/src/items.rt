//! Sets of numbers in a budget.
use crate::numbers::number_at;
use fc_base::{Handle, TryReserveError};
use fc_budget::Budget;
use fc_set::set::BTreeSet;
use std::alloc::Global;

pub(crate) type Items<'a> = BTreeSet<u64, &'a Budget<Global>>;

/// Puts so many numbers in.
pub(crate) fn fill_set<A: Handle>(
    set: &mut BTreeSet<u64, A>,
    first: u64,
    count: u64,
    step: u64,
) -> Result<(), TryReserveError> {
    for place in 0..count {
        set.try_insert(number_at(first, step, place))?;
    }
    Ok(())
}

/// So many numbers.
pub(crate) fn items<A: Handle>(
    alloc: A,
    first: u64,
    count: u64,
    step: u64,
) -> Result<BTreeSet<u64, A>, TryReserveError> {
    let mut set = BTreeSet::new(alloc);
    fill_set(&mut set, first, count, step)?;
    Ok(set)
}

/// Whether the set has these numbers, and nothing else.
pub(crate) fn has_items<A: Handle>(
    set: &BTreeSet<u64, A>,
    first: u64,
    count: u64,
    step: u64,
) -> bool {
    let mut place = 0u64;
    for item in set {
        if *item != number_at(first, step, place) {
            return false;
        }
        place = place.wrapping_add(1);
    }
    place == count && set.len() as u64 == count
}
