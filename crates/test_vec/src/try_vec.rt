//! Calls of `TryVec` with ample memory.
ghost use Rattle.std.specs.Prelude.{⊤};

use crate::calls::{holds, is_overflow, is_refused, of};
use fc_base::{TryClone, TryReserveError};
use fc_vec::{FallibleCopyVec, FallibleVec, TryVec};
use std::alloc::Global;
use std::mem::ManuallyDrop;
use std::test::Fail;

fn reserved(v: &mut TryVec<u64>, more: usize) -> Result<(), TryReserveError> {
    v.reserve(more)
}

#[test]
fn room_and_items(rt: HostRuntime) -> Result<(), Fail> {
    let mut v = TryVec::with_capacity(rt.alloc(), 2)?;
    let none = v.is_empty() && reserved(&mut v, 3).is_ok() && v.is_empty();
    let one = v.push(1).is_ok() && holds(v.as_slice(), &[1]) && v.len() == 1;
    let kept = is_overflow(&reserved(&mut v, usize::MAX)) && holds(v.as_slice(), &[1]);
    let popped = matches!(v.pop(), Some(1)) && v.pop().is_none();
    let defaulted: TryVec<u64> = TryVec::default(rt.alloc());
    assert!(rt; none && one && kept && popped && defaulted.is_empty());
    Ok(())
}

fn reserved_for_characters(v: &mut TryVec<char>, more: usize) -> Result<(), TryReserveError> {
    v.reserve(more)
}

#[test]
fn more_characters_than_the_bytes_of_an_allocation(rt: HostRuntime) {
    let mut v = TryVec::new(rt.alloc());
    assert!(rt; is_refused(&reserved_for_characters(&mut v, usize::MAX)));
    assert!(rt; is_refused(&reserved_for_characters(&mut v, usize::MAX / 4)));
    assert!(rt; reserved_for_characters(&mut v, 0).is_ok() && v.is_empty());
}

fn filled(v: &mut TryVec<u64>, length: usize) -> Result<(), TryReserveError> {
    v.resize_with(length, || 4)
}

fn joined(v: &mut TryVec<u64>, other: &mut TryVec<u64>) -> Result<(), TryReserveError> {
    v.append(other)
}

fn extended(v: &mut TryVec<u64>, items: &[u64]) -> Result<(), TryReserveError> {
    v.extend_from_slice(items)
}

#[test]
fn growth(rt: HostRuntime) -> Result<(), Fail> {
    let mut v = TryVec::new(rt.alloc());
    let is_filled = filled(&mut v, 2).is_ok() && holds(v.as_slice(), &[4, 4]);
    v.clear();
    let mut theirs = of(rt.alloc(), &[5])?;
    let is_joined = v.is_empty() && joined(&mut v, &mut theirs).is_ok() && theirs.is_empty();
    assert!(rt; is_filled && is_joined && holds(v.as_slice(), &[5]));
    assert!(rt; extended(&mut v, &[6, 7]).is_ok() && holds(v.as_slice(), &[5, 6, 7]));
    Ok(())
}

fn text(alloc: Global, text: &str) -> Result<TryVec<u8>, TryReserveError> {
    TryVec::try_from_str(alloc, text)
}

#[test]
fn texts_are_bytes(rt: HostRuntime) -> Result<(), Fail> {
    let mut start = text(rt.alloc(), "foo")?;
    let is_extended = start.extend_from_slice("bar".as_bytes()).is_ok();
    let whole = text(rt.alloc(), "foobar")?;
    assert!(rt; is_extended && start == whole);
    Ok(())
}

// The digits, one after the other; and how many the walk says are left, before and after.
fn digits(v: &TryVec<u64>) -> (u64, bool) {
    let mut walk = v.iter();
    let at_first = walk.size_hint() == (v.len(), Some(v.len()));
    let mut number: u64 = 0;
    while let Some(item) = walk.next() {
        number = number.wrapping_mul(10).wrapping_add(*item);
    }
    (number, at_first && walk.size_hint() == (0, Some(0)))
}

fn sum_of_lent(v: &TryVec<u64>) -> u64 {
    let mut sum: u64 = 0;
    for item in v {
        sum = sum.wrapping_add(*item);
    }
    sum
}

fn sum_of_given(v: TryVec<u64>) -> u64 {
    let mut sum: u64 = 0;
    for item in v {
        sum = sum.wrapping_add(item);
    }
    sum
}

#[test]
fn copies_and_walks(rt: HostRuntime) -> Result<(), Fail> {
    let v = of(rt.alloc(), &[1, 4, 5])?;
    let copy = v.try_clone()?;
    assert!(rt; holds(v.as_slice(), &[1, 4, 5]) && copy == v);
    let (number, is_counted) = digits(&v);
    assert!(rt;
        is_counted
            && holds(
                &[number, sum_of_lent(&v), sum_of_given(copy)],
                &[145, 10, 10]
            )
    );
    Ok(())
}

fn double_each(v: &mut TryVec<u64>) {
    for item in v.iter_mut() {
        *item = item.wrapping_mul(2);
    }
}

fn write_second(v: &mut TryVec<u64>, number: u64) {
    if let Some(second) = v.as_mut_slice().get_mut(1) {
        *second = number;
    }
}

#[test]
fn items_are_written_over(rt: HostRuntime) -> Result<(), Fail> {
    let mut v = of(rt.alloc(), &[1, 4, 5])?;
    double_each(&mut v);
    let are_doubled = holds(v.as_slice(), &[2, 8, 10]);
    write_second(&mut v, 7);
    assert!(rt; are_doubled && holds(v.as_slice(), &[2, 7, 10]));
    Ok(())
}

// Whether the first so many parts are these when they are joined.
fn are_joined(parts: &TryVec<TryVec<u64>>, wanted: &[u64]) -> bool {
    match parts.concat() {
        Ok(made) => holds(made.as_slice(), wanted),
        Err(_refused) => false,
    }
}

const PARTS: [&[u64]; 3] = [&[1, 2], &[], &[3]];

const JOINED: [&[u64]; 4] = [&[], &[1, 2], &[1, 2], &[1, 2, 3]];

#[test]
fn parts_are_joined(rt: HostRuntime) -> Result<(), Fail> {
    let mut parts = TryVec::new(rt.alloc());
    assert!(rt; are_joined(&parts, &[]));
    for count in 0..3usize {
        parts.push(of(rt.alloc(), PARTS[count])?)?;
        assert!(rt; are_joined(&parts, JOINED[count + 1]));
    }
    Ok(())
}

// An item of no bytes, so that long vectors of it take no memory.
#[derive(Clone, Copy)]
struct Nothing;

impl TryClone for Nothing {
    ghost same = { λ _ _. ⊤ };

    fn try_clone(&self) -> Result<Nothing, TryReserveError> {
        Ok(Nothing)
    }
}

// Two vectors of lengths that Fibonacci's numbers have, each grown by the other's: the two greatest ones that std's vectors hold, which is
// `isize::MAX` items at the most.
fn two_long(alloc: Global) -> Result<(Vec<Nothing>, Vec<Nothing>), TryReserveError> {
    let mut shorter = Vec::new(alloc);
    shorter.try_push(Nothing)?;
    let mut longer = Vec::new(alloc);
    longer.try_push(Nothing)?;
    for _ in 0..90 {
        shorter.try_extend_from_slice(&longer)?;
        std::mem::swap(&mut shorter, &mut longer);
    }
    Ok((shorter, longer))
}

type Parts = TryVec<TryVec<Nothing>>;

fn is_joining_refused(parts: &Parts) -> bool {
    matches!(parts.concat(), Err(TryReserveError::AllocError))
}

fn is_joining_too_long(parts: &Parts) -> bool {
    matches!(parts.concat(), Err(TryReserveError::CapacityOverflow))
}

// The longer one twice, and the shorter one.
fn two_parts_and_one(alloc: Global) -> Result<(Parts, Vec<Nothing>), TryReserveError> {
    let (shorter, longer) = two_long(alloc)?;
    let mut parts = TryVec::new(alloc);
    parts.push(TryVec::from(Vec::from_slice(alloc, &longer)?))?;
    parts.push(TryVec::from(longer))?;
    Ok((parts, shorter))
}

// Three vectors are too long together, and two are not. They are let go without a drop of each item.
#[test]
fn a_sum_of_lengths_overflows(rt: HostRuntime) -> Result<(), Fail> {
    let (mut parts, shorter) = two_parts_and_one(rt.alloc())?;
    let two_are_refused = is_joining_refused(&parts);
    let is_pushed = parts.push(TryVec::from(shorter)).is_ok();
    assert!(rt; two_are_refused && is_pushed && is_joining_too_long(&parts));
    let _leaked = ManuallyDrop::new(parts);
    Ok(())
}
