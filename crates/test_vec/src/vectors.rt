//! Calls on std's vectors with ample memory, and reservations at the ends of what a length can be.
use crate::calls::{calls_that_end_well, holds, is_overflow, is_refused, resized_with};
use crate::printing::numbers;
use fc_base::TryReserveError;
use fc_vec::{FallibleVec, TryCollect, TryFromIterator, TryVec, try_from_elem};
use std::alloc::Global;
use std::cell::Cell;
use std::test::Fail;

#[test]
fn each_call_gives_its_items(rt: HostRuntime) {
    assert_eq!(rt; calls_that_end_well(rt.alloc(), false), 25);
}

#[test]
fn room_is_taken_and_nothing_put_in(rt: HostRuntime) -> Result<(), Fail> {
    let mut made: Vec<u64> = FallibleVec::try_with_capacity(rt.alloc(), 2)?;
    let had_room = made.is_empty() && made.capacity() >= 2;
    FallibleVec::try_reserve(&mut made, 3)?;
    assert!(rt; had_room && made.is_empty() && made.capacity() >= 3);
    Ok(())
}

// More bytes than an allocation may have: the room is refused before the first call.
#[test]
fn without_room_nothing_is_called(rt: HostRuntime) -> Result<(), Fail> {
    let calls = Cell::new(0);
    let mut v = Vec::from_slice(rt.alloc(), &[1])?;
    let refused = resized_with(&mut v, usize::MAX, 4, &calls);
    assert!(rt; is_refused(&refused) && holds(&v, &[1]) && calls.get() == 0);
    Ok(())
}

// As many of the number.
fn repeated(alloc: Global, number: u64, count: usize) -> Result<Vec<u64>, TryReserveError> {
    try_from_elem(alloc, number, count)
}

fn repeated_vectors(
    alloc: Global,
    one: TryVec<u64>,
    count: usize,
) -> Result<Vec<TryVec<u64>>, TryReserveError> {
    try_from_elem(alloc, one, count)
}

const TEN: [u64; 10] = [42; 10];

fn are_ten_each(vectors: &[TryVec<u64>]) -> bool {
    for one in vectors {
        if !holds(one.as_slice(), &TEN) {
            return false;
        }
    }
    true
}

fn are_hundred_of_ten(alloc: Global) -> Result<bool, TryReserveError> {
    let ten = TryVec::from(repeated(alloc, 42, 10)?);
    let hundred = repeated_vectors(alloc, ten, 100)?;
    Ok(hundred.len() == 100 && are_ten_each(&hundred))
}

#[test]
fn an_element_is_repeated(rt: HostRuntime) -> Result<(), Fail> {
    assert!(rt; holds(&repeated(rt.alloc(), 7, 3)?, &[7, 7, 7]));
    assert!(rt; repeated(rt.alloc(), 7, 0)?.is_empty());
    assert!(rt; are_hundred_of_ten(rt.alloc())?);
    Ok(())
}

fn collected(alloc: Global, items: &[u64]) -> Result<Vec<u64>, TryReserveError> {
    TryCollect::try_collect(Vec::from_slice(alloc, items)?, alloc)
}

fn counted(alloc: Global, end: u64) -> Result<Vec<u64>, TryReserveError> {
    TryFromIterator::try_from_iterator(alloc, 0..end)
}

#[test]
fn items_are_collected_in_order(rt: HostRuntime) -> Result<(), Fail> {
    assert!(rt; holds(&collected(rt.alloc(), &[3, 1, 2])?, &[3, 1, 2]));
    assert!(rt; holds(&counted(rt.alloc(), 3)?, &[0, 1, 2]));
    assert!(rt; numbers(rt.alloc(), 0, 0)?.is_empty());
    Ok(())
}

fn reserved(v: &mut Vec<char>, more: usize) -> Result<(), TryReserveError> {
    FallibleVec::try_reserve(v, more)
}

#[test]
fn reservations_of_characters(rt: HostRuntime) {
    let mut v = Vec::new(rt.alloc());
    let took_none = reserved(&mut v, 0).is_ok() && v.capacity() == 0;
    let too_many = is_refused(&reserved(&mut v, usize::MAX))
        && is_refused(&reserved(&mut v, usize::MAX / 4));
    let took_one = reserved(&mut v, 1).is_ok() && v.capacity() >= 1 && v.try_push('a').is_ok();
    let after_the_end = is_overflow(&reserved(&mut v, usize::MAX));
    let just_before = is_refused(&reserved(&mut v, usize::MAX - 1));
    assert!(rt; took_none && too_many && took_one && after_the_end && just_before && v.len() == 1);
}

fn reserved_for_nothing(v: &mut Vec<()>, more: usize) -> Result<(), TryReserveError> {
    FallibleVec::try_reserve(v, more)
}

#[test]
fn reservations_of_nothing(rt: HostRuntime) {
    let mut v = Vec::new(rt.alloc());
    let took_some = reserved_for_nothing(&mut v, 0).is_ok()
        && reserved_for_nothing(&mut v, 1).is_ok();
    let took_many = reserved_for_nothing(&mut v, usize::MAX / 4).is_ok();
    // More items than a vector of std's ever holds.
    let too_many = is_refused(&reserved_for_nothing(&mut v, usize::MAX));
    let took_one = v.try_push(()).is_ok();
    let after_the_end = is_overflow(&reserved_for_nothing(&mut v, usize::MAX));
    assert!(rt; took_some && took_many && too_many && took_one && after_the_end && v.len() == 1);
}
