//! Calls that put numbers into a vector, as values, so that one table serves with ample memory and under refused memory.
use fc_base::TryReserveError;
use fc_vec::{FallibleCopyVec, FallibleVec, TryVec};
use std::alloc::{AllocError, Global};
use std::cell::Cell;
use test_values::is_ample;

// A vector of these items. One for the crate, as the proof of each costs seconds.
pub(crate) fn of(alloc: Global, items: &[u64]) -> Result<TryVec<u64>, TryReserveError> {
    TryVec::try_from_slice(alloc, items)
}

pub(crate) fn holds(items: &[u64], expected: &[u64]) -> bool {
    items == expected
}

pub(crate) fn is_refused(answer: &Result<(), TryReserveError>) -> bool {
    matches!(answer, Err(TryReserveError::AllocError))
}

pub(crate) fn is_overflow(answer: &Result<(), TryReserveError>) -> bool {
    matches!(answer, Err(TryReserveError::CapacityOverflow))
}

/// A call on a vector of numbers.
#[derive(Clone, Copy)]
pub(crate) enum Call {
    Push(u64),
    PushGiveBack(u64),
    Insert(usize, u64),
    Append(&'static [u64]),
    Extend(&'static [u64]),
    ExtendNoCopy(&'static [u64]),
    Resize(usize, u64),
    ResizeNoCopy(usize, u64),
    ResizeWith(usize, u64),
}

/// What a vector holds, a call, and what it holds then.
pub(crate) type Row = (&'static [u64], Call, &'static [u64]);

const ROWS: [Row; 25] = [
    (&[], Call::Push(1), &[1]),
    (&[1, 2, 3], Call::Push(4), &[1, 2, 3, 4]),
    (&[], Call::PushGiveBack(7), &[7]),
    (&[1, 2, 3], Call::PushGiveBack(4), &[1, 2, 3, 4]),
    (&[1, 3], Call::Insert(1, 2), &[1, 2, 3]),
    (&[1, 2, 3], Call::Insert(0, 0), &[0, 1, 2, 3]),
    (&[0, 1, 2, 3], Call::Insert(4, 4), &[0, 1, 2, 3, 4]),
    (&[1, 2, 3], Call::Insert(0, 4), &[4, 1, 2, 3]),
    (&[], Call::Append(&[3]), &[3]),
    (&[3], Call::Append(&[]), &[3]),
    (&[1, 2, 3], Call::Append(&[4]), &[1, 2, 3, 4]),
    (&[], Call::Extend(&[5]), &[5]),
    (&[3], Call::Extend(&[5]), &[3, 5]),
    (&[1, 2, 3], Call::Extend(&[4]), &[1, 2, 3, 4]),
    (&[3, 5], Call::ExtendNoCopy(&[7, 9]), &[3, 5, 7, 9]),
    (&[1, 2, 3], Call::ExtendNoCopy(&[4]), &[1, 2, 3, 4]),
    (&[], Call::Resize(2, 3), &[3, 3]),
    (&[3, 3], Call::Resize(1, 4), &[3]),
    (&[1, 2, 3], Call::Resize(5, 9), &[1, 2, 3, 9, 9]),
    (&[1, 2, 3], Call::ResizeNoCopy(2, 9), &[1, 2]),
    (&[1, 2], Call::ResizeNoCopy(2, 9), &[1, 2]),
    (&[1, 2, 3], Call::ResizeNoCopy(5, 9), &[1, 2, 3, 9, 9]),
    (&[], Call::ResizeWith(2, 4), &[4, 4]),
    (&[1, 2, 3], Call::ResizeWith(2, 4), &[1, 2]),
    (&[1, 2, 3], Call::ResizeWith(5, 9), &[1, 2, 3, 9, 9]),
];

fn pushed(v: &mut Vec<u64>, item: u64) -> Result<(), TryReserveError> {
    v.try_push(item)
}

// An answer with another item than was given is no answer of any row.
fn given_back(
    answer: Result<(), (u64, TryReserveError)>,
    given: u64,
) -> Result<(), TryReserveError> {
    match answer {
        Ok(()) => Ok(()),
        Err((item, error)) => Err(if item == given {
            error
        } else {
            TryReserveError::CapacityOverflow
        }),
    }
}

fn pushed_or_back(v: &mut Vec<u64>, item: u64) -> Result<(), (u64, TryReserveError)> {
    v.try_push_give_back(item)
}

fn inserted_or_back(
    v: &mut Vec<u64>,
    index: usize,
    item: u64,
) -> Result<(), (u64, TryReserveError)> {
    if index > v.len() {
        return Ok(());
    }
    v.try_insert(index, item)
}

fn joined(v: &mut Vec<u64>, other: &mut Vec<u64>) -> Result<(), TryReserveError> {
    v.try_append(other)
}

// The other vector is empty once its items are taken, and else holds them.
fn appended(alloc: Global, v: &mut Vec<u64>, items: &'static [u64]) -> Result<(), TryReserveError> {
    let mut other = Vec::from_slice(alloc, items)?;
    let answer = joined(v, &mut other);
    let left = if answer.is_ok() { &[] } else { items };
    if holds(&other, left) {
        answer
    } else {
        Err(TryReserveError::CapacityOverflow)
    }
}

fn extended(v: &mut Vec<u64>, items: &[u64]) -> Result<(), TryReserveError> {
    v.try_extend_from_slice(items)
}

fn extended_without_copy(v: &mut Vec<u64>, items: &[u64]) -> Result<(), TryReserveError> {
    v.try_extend_from_slice_no_copy(items)
}

fn resized(v: &mut Vec<u64>, length: usize, item: u64) -> Result<(), TryReserveError> {
    v.try_resize(length, item)
}

fn resized_without_copy(v: &mut Vec<u64>, length: usize, item: u64) -> Result<(), TryReserveError> {
    v.try_resize_no_copy(length, item)
}

pub(crate) fn resized_with(
    v: &mut Vec<u64>,
    length: usize,
    item: u64,
    calls: &Cell<usize>,
) -> Result<(), TryReserveError> {
    FallibleVec::try_resize_with(v, length, || {
        calls.set(calls.get().wrapping_add(1));
        item
    })
}

// One call for each new item, and none where there is no room.
fn filled(v: &mut Vec<u64>, length: usize, item: u64) -> Result<(), TryReserveError> {
    let calls = Cell::new(0);
    let lacking = length.saturating_sub(v.len());
    let answer = resized_with(v, length, item, &calls);
    let wanted = if answer.is_ok() { lacking } else { 0 };
    if calls.get() == wanted {
        answer
    } else {
        Err(TryReserveError::CapacityOverflow)
    }
}

fn called(alloc: Global, v: &mut Vec<u64>, call: Call) -> Result<(), TryReserveError> {
    match call {
        Call::Push(item) => pushed(v, item),
        Call::PushGiveBack(item) => given_back(pushed_or_back(v, item), item),
        Call::Insert(index, item) => given_back(inserted_or_back(v, index, item), item),
        Call::Append(items) => appended(alloc, v, items),
        Call::Extend(items) => extended(v, items),
        Call::ExtendNoCopy(items) => extended_without_copy(v, items),
        Call::Resize(length, item) => resized(v, length, item),
        Call::ResizeNoCopy(length, item) => resized_without_copy(v, length, item),
        Call::ResizeWith(length, item) => filled(v, length, item),
    }
}

// A vector of these items, with so much more room.
fn with_room(alloc: Global, items: &[u64], room: usize) -> Result<Vec<u64>, AllocError> {
    let mut v = Vec::from_slice(alloc, items)?;
    v.reserve(room)?;
    Ok(v)
}

// Once more where it is refused.
fn with_room_at_last(alloc: Global, items: &[u64], room: usize) -> Result<Vec<u64>, AllocError> {
    match with_room(alloc, items, room) {
        Ok(v) => Ok(v),
        Err(_refused) => with_room(alloc, items, room),
    }
}

// Whether the call that was refused is done when it is made again, or is refused again, as there is no memory.
fn is_done_again(alloc: Global, v: &mut Vec<u64>, row: &Row) -> bool {
    let (before, call, after) = *row;
    if called(alloc, v, call).is_ok() {
        holds(v, after)
    } else {
        holds(v, before) && !is_ample(alloc)
    }
}

// Whether the call of the row is done; or, where that may be, it is refused and leaves the items, and is then done.
fn ends_well(alloc: Global, row: &Row, room: usize, may_be_refused: bool) -> bool {
    let (before, call, after) = *row;
    let Ok(mut v) = with_room_at_last(alloc, before, room) else {
        return may_be_refused && !is_ample(alloc);
    };
    let answer = called(alloc, &mut v, call);
    if answer.is_ok() {
        return holds(&v, after);
    }
    may_be_refused && is_refused(&answer) && holds(&v, before) && is_done_again(alloc, &mut v, row)
}

// How many of the rows end well before one does not, each with no room to spare and with some.
fn rows_that_end_well(alloc: Global, rows: &[Row], may_be_refused: bool) -> usize {
    for place in 0..rows.len() {
        let row = &rows[place];
        if !ends_well(alloc, row, 0, may_be_refused) || !ends_well(alloc, row, 8, may_be_refused) {
            return place;
        }
    }
    rows.len()
}

/// How many of the 25 rows end well before one does not.
pub(crate) fn calls_that_end_well(alloc: Global, may_be_refused: bool) -> usize {
    rows_that_end_well(alloc, &ROWS, may_be_refused)
}
