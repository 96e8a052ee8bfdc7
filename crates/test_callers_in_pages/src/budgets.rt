//! Two sets in one budget, of which a leaf of 15 items takes 120 bytes, and maps in a heap and an arena.
use callers_in_pages::budgets::{counted_in_arena, fitting_in_heap, repeated};
use fallible_collections::TryReserveError;
use std::alloc::Global;
use std::test::Fail;

const LEAF: usize = 120;

fn counts(alloc: Global, bytes: usize, numbers: &[u64], wanted: usize) -> bool {
    match repeated(alloc, bytes, numbers) {
        Ok(count) => count == wanted,
        Err(_) => false,
    }
}

fn is_refused(alloc: Global, bytes: usize, numbers: &[u64]) -> bool {
    matches!(
        repeated(alloc, bytes, numbers),
        Err(TryReserveError::AllocError)
    )
}

#[test]
fn numbers_are_counted_within_their_bytes(rt: HostRuntime) {
    assert!(rt; counts(rt.alloc(), 0, &[], 0));
    assert!(rt; counts(rt.alloc(), LEAF, &[5, 3, 8], 0));
    assert!(rt; counts(rt.alloc(), 2 * LEAF, &[5, 3, 5, 5, 3, 8], 2));
}

#[test]
fn a_byte_less_is_refused(rt: HostRuntime) {
    assert!(rt; is_refused(rt.alloc(), LEAF - 1, &[5, 3, 8]));
    assert!(rt; is_refused(rt.alloc(), 2 * LEAF - 1, &[5, 3, 5, 5, 3, 8]));
}

// 114 numbers in order take 4,016 bytes, as of a budget.
#[test]
fn a_heap_takes_what_fits(rt: HostRuntime) -> Result<(), Fail> {
    let mut numbers = [0; 200];
    for i in 0..200 {
        numbers[i] = i as u64;
    }
    assert_eq!(rt; fitting_in_heap(rt.alloc(), 4096, &numbers)?, 114);
    assert_eq!(rt; fitting_in_heap(rt.alloc(), 4096, &[7, 7])?, 1);
    Ok(())
}

#[test]
fn different_numbers_are_counted_in_an_arena(rt: HostRuntime) -> Result<(), Fail> {
    assert_eq!(rt; counted_in_arena(rt.alloc(), &[3, 1, 3, 2])?, 3);
    Ok(())
}
