//! What refused requests leave: the sweep refuses each request of these tests in turn.
ghost use Rattle.std.specs.Prelude.{◌≡◌};

use crate::calls::{calls_that_end_well, holds, is_refused};
use fc_base::{TryClone, TryReserveError};
use fc_vec::{FallibleVec, TryCollect, TryVec, try_from_elem};
use std::alloc::{AllocError, Global};
use std::cell::Cell;
use std::test::Fail;
use test_values::{add_one, is_ample};

#[test]
fn a_refused_call_leaves_the_vector(rt: HostRuntime) {
    assert_eq!(rt; calls_that_end_well(rt.alloc(), true), 25);
}

// A number in a box. Its copies are counted before their boxes are asked for.
#[derive(Drop)]
struct Boxed<'a> {
    number: Box<u64>,
    asked: &'a Cell<u64>,
}

impl TryClone for Boxed<'_> {
    ghost same = { λ source copy. copy.number.value ≡ source.number.value };

    fn try_clone(&self) -> Result<Self, TryReserveError> {
        add_one(self.asked);
        let number = self.number.try_clone()?;
        Ok(Boxed {
            number,
            asked: self.asked,
        })
    }
}

// The numbers from 1 on, each in a box.
fn boxes<'a>(
    alloc: Global,
    count: u64,
    asked: &'a Cell<u64>,
) -> Result<Vec<Boxed<'a>>, AllocError> {
    let mut made = Vec::with_capacity(alloc, count as usize)?;
    for i in 0..count {
        let number = Box::new(alloc, i.wrapping_add(1))?;
        made.push(Boxed { number, asked })?;
    }
    Ok(made)
}

// Once more where they are refused.
fn three_boxes<'a>(alloc: Global, asked: &'a Cell<u64>) -> Result<Vec<Boxed<'a>>, AllocError> {
    match boxes(alloc, 3, asked) {
        Ok(made) => Ok(made),
        Err(_refused) => boxes(alloc, 3, asked),
    }
}

// The boxes hold the numbers from 1 on.
fn count_up(boxes: &[Boxed]) -> bool {
    for i in 0..boxes.len() {
        if *boxes[i].number != (i as u64).wrapping_add(1) {
            return false;
        }
    }
    true
}

fn extended<'a>(v: &mut Vec<Boxed<'a>>, sources: &[Boxed<'a>]) -> Result<(), TryReserveError> {
    v.try_extend_from_slice_no_copy(sources)
}

// With the room refused no copy is asked for; with the box of a copy refused, the copies before it stay, as many as were asked for but one.
fn is_refused_after_copies(
    answer: &Result<(), TryReserveError>,
    v: &Vec<Boxed>,
    asked: u64,
) -> bool {
    is_refused(answer)
        && v.len() as u64 == asked.saturating_sub(1)
        && (v.capacity() == 0) == (asked == 0)
}

// Whether all sources go in after those that were kept by the same call once more, or it is refused again, as there is no memory.
fn is_extended_again<'a>(alloc: Global, v: &mut Vec<Boxed<'a>>, sources: &[Boxed<'a>]) -> bool {
    let kept = v.len();
    if extended(v, sources).is_err() {
        return !is_ample(alloc);
    }
    let (front, rest) = v.split_at(kept.min(v.len()));
    front.len() == kept && rest.len() == 3 && count_up(front) && count_up(rest)
}

// The room of three is asked for first, then a box for each copy. The sweep counts the refused calls.
#[test]
fn an_extension_keeps_the_boxes_before_the_refused_one(rt: HostRuntime) -> Result<(), Fail> {
    let asked = Cell::new(0);
    let Ok(sources) = three_boxes(rt.alloc(), &asked) else {
        assert!(rt; !is_ample(rt.alloc()));
        return Ok(());
    };
    let mut v = Vec::new(rt.alloc());
    let answer = extended(&mut v, &sources);
    assert!(rt; count_up(&v) && count_up(&sources));
    if answer.is_ok() {
        assert!(rt; v.len() == 3 && asked.get() == 3);
    } else {
        println!(rt; "refused")?;
        assert!(rt; is_refused_after_copies(&answer, &v, asked.get()));
        assert!(rt; is_extended_again(rt.alloc(), &mut v, &sources) && count_up(&sources));
    }
    Ok(())
}

// Once more where it is refused.
fn only_three(alloc: Global) -> Result<Vec<u64>, AllocError> {
    match Vec::from_slice(alloc, &[3]) {
        Ok(v) => Ok(v),
        Err(_refused) => Vec::from_slice(alloc, &[3]),
    }
}

fn joined(v: &mut Vec<u64>, other: &mut Vec<u64>) -> Result<(), TryReserveError> {
    v.try_append(other)
}

// The sweep refuses the room for the one item, and counts the refused call.
#[test]
fn a_refused_append_leaves_both_vectors(rt: HostRuntime) -> Result<(), Fail> {
    let Ok(mut other) = only_three(rt.alloc()) else {
        assert!(rt; !is_ample(rt.alloc()));
        return Ok(());
    };
    let mut v = Vec::new(rt.alloc());
    let answer = joined(&mut v, &mut other);
    if answer.is_err() {
        println!(rt; "refused")?;
        assert!(rt; is_refused(&answer) && v.is_empty() && holds(&other, &[3]));
        let again = joined(&mut v, &mut other);
        assert!(rt; again.is_ok() == is_ample(rt.alloc()));
    }
    let is_done = other.is_empty();
    assert!(rt;
        if is_done {
            holds(&v, &[3])
        } else {
            v.is_empty() && holds(&other, &[3])
        }
    );
    assert!(rt; is_done || answer.is_err());
    Ok(())
}

fn reserved(v: &mut TryVec<u64>, more: usize) -> Result<(), TryReserveError> {
    v.reserve(more)
}

fn pushed(v: &mut TryVec<u64>, item: u64) -> Result<(), TryReserveError> {
    v.push(item)
}

// After room for three, three pushes are Ok, whatever request is refused.
#[test]
fn reserved_room_is_not_refused(rt: HostRuntime) {
    let mut v = TryVec::new(rt.alloc());
    let is_right = if reserved(&mut v, 3).is_err() {
        v.is_empty()
    } else {
        pushed(&mut v, 1).is_ok()
            && pushed(&mut v, 2).is_ok()
            && pushed(&mut v, 3).is_ok()
            && holds(v.as_slice(), &[1, 2, 3])
    };
    assert!(rt; is_right);
}

fn inserted(v: &mut TryVec<u64>, item: u64) -> Result<(), (u64, TryReserveError)> {
    v.insert(0, item)
}

// The room is asked for: refused, the item comes back, and the vector is empty as it was.
#[test]
fn a_refused_insertion_gives_the_item_back(rt: HostRuntime) {
    let mut v = TryVec::new(rt.alloc());
    let is_right = match inserted(&mut v, 7) {
        Ok(()) => holds(v.as_slice(), &[7]),
        Err((item, error)) => {
            item == 7 && matches!(error, TryReserveError::AllocError) && v.is_empty()
        }
    };
    assert!(rt; is_right);
}

// What is made by a call is whole, or refused.
fn is_whole(answer: Result<TryVec<u64>, TryReserveError>, whole: &[u64]) -> bool {
    match answer {
        Ok(made) => holds(made.as_slice(), whole),
        Err(error) => matches!(error, TryReserveError::AllocError),
    }
}

fn repeated(alloc: Global) -> Result<TryVec<u64>, TryReserveError> {
    Ok(TryVec::from(try_from_elem(alloc, 7, 3)?))
}

fn collected(alloc: Global) -> Result<TryVec<u64>, TryReserveError> {
    TryCollect::try_collect(0..9u64, alloc)
}

fn part(alloc: Global) -> Result<TryVec<u64>, TryReserveError> {
    TryVec::try_from_slice(alloc, &[1, 2])
}

fn copied(alloc: Global) -> Result<TryVec<u64>, TryReserveError> {
    part(alloc)?.try_clone()
}

fn two_parts(alloc: Global) -> Result<TryVec<TryVec<u64>>, TryReserveError> {
    let mut parts = TryVec::new(alloc);
    for _ in 0..2 {
        parts.push(part(alloc)?)?;
    }
    Ok(parts)
}

// Once more where they are refused.
fn two_parts_at_last(alloc: Global) -> Result<TryVec<TryVec<u64>>, TryReserveError> {
    match two_parts(alloc) {
        Ok(parts) => Ok(parts),
        Err(_refused) => two_parts(alloc),
    }
}

// The parts stay as they are.
fn are_joined(parts: &TryVec<TryVec<u64>>) -> bool {
    is_whole(parts.concat(), &[1, 2, 1, 2]) && parts.len() == 2
}

#[test]
fn what_is_made_is_whole_or_refused(rt: HostRuntime) {
    assert!(rt; is_whole(repeated(rt.alloc()), &[7, 7, 7]));
    assert!(rt; is_whole(collected(rt.alloc()), &[0, 1, 2, 3, 4, 5, 6, 7, 8]));
    assert!(rt; is_whole(copied(rt.alloc()), &[1, 2]));
    match two_parts_at_last(rt.alloc()) {
        Ok(parts) => assert!(rt; are_joined(&parts)),
        Err(_refused) => assert!(rt; !is_ample(rt.alloc())),
    }
}
