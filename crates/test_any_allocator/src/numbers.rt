//! Maps of numbers in a budget.
use fc_base::{Handle, TryReserveError};
use fc_budget::Budget;
use fc_map::map::BTreeMap;
use std::alloc::Global;

pub(crate) type Numbers<'a> = BTreeMap<u64, u64, &'a Budget<Global>>;

/// The number at a place of so many that are as far apart.
pub(crate) fn number_at(first: u64, step: u64, place: u64) -> u64 {
    place.wrapping_mul(step).wrapping_add(first)
}

/// Puts so many numbers in, each with itself.
pub(crate) fn fill<A: Handle>(
    map: &mut BTreeMap<u64, u64, A>,
    first: u64,
    count: u64,
    step: u64,
) -> Result<(), TryReserveError> {
    for place in 0..count {
        let number = number_at(first, step, place);
        map.try_insert(number, number)?;
    }
    Ok(())
}

/// So many numbers, each with itself.
pub(crate) fn numbers<A: Handle>(
    alloc: A,
    first: u64,
    count: u64,
    step: u64,
) -> Result<BTreeMap<u64, u64, A>, TryReserveError> {
    let mut map = BTreeMap::new(alloc);
    fill(&mut map, first, count, step)?;
    Ok(map)
}

/// Whether the map has these numbers, each with itself, and nothing else.
pub(crate) fn holds<A: Handle>(
    map: &BTreeMap<u64, u64, A>,
    first: u64,
    count: u64,
    step: u64,
) -> bool {
    let mut place = 0u64;
    for (key, value) in map {
        let number = number_at(first, step, place);
        if *key != number || *value != number {
            return false;
        }
        place = place.wrapping_add(1);
    }
    place == count && map.len() as u64 == count
}
