//! Maps and sets in a budget of bytes, a heap and an arena.
ghost use Rattle.std.specs.Prelude.{◌≡◌, IfErr, OnErr, OnOk};
ghost use Rattle.fallible_collections.specs.Words.{entries, put};

use bumpalo::Bump;
use fallible_collections::btree::{BTreeMap, BTreeSet};
use fallible_collections::{Handle, TryReserveError};
use fc_budget::Budget;
use linked_list_allocator::LocalHeap;
use std::alloc::Global;

/// How many of the numbers come more than once.
///
/// # Errors
/// `AllocError` where both sets would take more than so many bytes together, or there is no memory.
pub fn repeated(alloc: Global, bytes: usize, numbers: &[u64]) -> Result<usize, TryReserveError> {
    let budget = Budget::new(alloc, bytes); // of this call alone
    let mut seen = BTreeSet::new(&budget);
    let mut repeated = BTreeSet::new(&budget);
    for number in numbers {
        if !seen.try_insert(*number)? {
            repeated.try_insert(*number)?;
        }
    }
    Ok(repeated.len())
}

/// Puts a pair into a map, whatever its memory is.
///
/// # Errors
/// Refused, the pair comes back, and the map is as it was.
pub fn put_anywhere<A: Handle>(
    map: &mut BTreeMap<u64, u64, A>,
    key: u64,
    value: u64,
) -> Result<(), (u64, u64, TryReserveError)>
    ensures put { OnOk result (entries map.new ≡ put ⟦<u64 as Ord>⟧.cmp (entries map.old) key value) }
    ensures unchanged { OnErr result (map.new ≡ map.old) }
    ensures back { IfErr result (λ e. (e.0 ≡ key) × (e.1 ≡ value)) }
{
    map.try_insert(key, value)?;
    Ok(())
}

/// How many of the numbers go, each with its place, into a map in a heap of so many bytes.
///
/// # Errors
/// `AllocError` where there is no memory for the heap.
pub fn fitting_in_heap(
    alloc: Global,
    bytes: usize,
    numbers: &[u64],
) -> Result<usize, TryReserveError> {
    let heap = LocalHeap::new(alloc, bytes)?;
    let mut map = BTreeMap::new(&heap);
    for (place, number) in numbers.iter().enumerate() {
        if put_anywhere(&mut map, *number, place as u64).is_err() {
            break;
        }
    }
    Ok(map.len())
}

/// How many different numbers there are, counted in an arena, whose bytes go back all at once.
///
/// # Errors
/// `AllocError` where there is no memory.
pub fn counted_in_arena(alloc: Global, numbers: &[u64]) -> Result<usize, TryReserveError> {
    let arena = Bump::new(alloc);
    let mut map = BTreeMap::new(&arena);
    for number in numbers {
        put_anywhere(&mut map, *number, 0)?;
    }
    Ok(map.len())
}
