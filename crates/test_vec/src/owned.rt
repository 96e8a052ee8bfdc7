//! Items that own memory, by the calls that take them or make copies of them. Where a request is refused, what was made by then is dropped, and so is what the call
//! was given and did not keep: the sweep refuses each request of these tests in turn, and finds no block that was not given back.
use fc_base::{TryClone, TryReserveError};
use fc_vec::{FallibleVec, TryCollect, TryVec, try_from_elem};
use std::alloc::Global;
use std::test::Fail;
use test_values::is_ample;

pub(crate) type Boxes = TryVec<Box<u64>>;

// Room for so many, and the numbers from `first` on, each in a box.
pub(crate) fn boxes(alloc: Global, first: u64, count: u64) -> Result<Boxes, TryReserveError> {
    let mut made = TryVec::with_capacity(alloc, count as usize)?;
    for i in 0..count {
        made.push(Box::new(alloc, first.wrapping_add(i))?)?;
    }
    Ok(made)
}

// Once more where they are refused.
fn boxes_at_last(alloc: Global, first: u64, count: u64) -> Result<Boxes, TryReserveError> {
    match boxes(alloc, first, count) {
        Ok(made) => Ok(made),
        Err(_refused) => boxes(alloc, first, count),
    }
}

pub(crate) fn are(boxes: &[Box<u64>], expected: &[u64]) -> bool {
    if boxes.len() != expected.len() {
        return false;
    }
    for i in 0..boxes.len() {
        if *boxes[i] != expected[i] {
            return false;
        }
    }
    true
}

fn is_refused(error: &TryReserveError) -> bool {
    matches!(error, TryReserveError::AllocError)
}

// Whether what was made holds these numbers, if it was made, and else was refused.
fn is_whole(answer: &Result<Boxes, TryReserveError>, expected: &[u64]) -> bool {
    match answer {
        Ok(made) => are(made.as_slice(), expected),
        Err(error) => is_refused(error),
    }
}

// 1 and 2; and 3.
fn parts(alloc: Global) -> Result<TryVec<Boxes>, TryReserveError> {
    let mut made = TryVec::with_capacity(alloc, 2)?;
    made.push(boxes(alloc, 1, 2)?)?;
    made.push(boxes(alloc, 3, 1)?)?;
    Ok(made)
}

fn parts_at_last(alloc: Global) -> Result<TryVec<Boxes>, TryReserveError> {
    match parts(alloc) {
        Ok(made) => Ok(made),
        Err(_refused) => parts(alloc),
    }
}

fn joined(parts: &TryVec<Boxes>) -> Result<Boxes, TryReserveError> {
    parts.concat()
}

// Room for three is asked for, and then a box for each copy.
#[test]
fn joined_copies(rt: HostRuntime) -> Result<(), Fail> {
    let Ok(parts) = parts_at_last(rt.alloc()) else {
        assert!(rt; !is_ample(rt.alloc()));
        return Ok(());
    };
    let answer = joined(&parts);
    if answer.is_err() {
        println!(rt; "refused")?;
    }
    assert!(rt; is_whole(&answer, &[1, 2, 3]) && parts.len() == 2);
    Ok(())
}

fn copied(source: &Boxes) -> Result<Boxes, TryReserveError> {
    source.try_clone()
}

fn sliced(alloc: Global, source: &Boxes) -> Result<Boxes, TryReserveError> {
    TryVec::try_from_slice(alloc, source.as_slice())
}

fn copied_from_std(source: &Vec<Box<u64>>) -> Result<Vec<Box<u64>>, TryReserveError> {
    source.try_clone()
}

// Three times two boxes and their room. One refused request is one refused copy.
#[test]
fn copies_of_boxes(rt: HostRuntime) -> Result<(), Fail> {
    let Ok(source) = boxes_at_last(rt.alloc(), 1, 2) else {
        assert!(rt; !is_ample(rt.alloc()));
        return Ok(());
    };
    let first = copied(&source);
    let second = sliced(rt.alloc(), &source);
    let third = copied_from_std(&source.into_vec());
    let are_made = first.is_ok() && second.is_ok() && third.is_ok();
    if !are_made {
        println!(rt; "refused")?;
    }
    assert!(rt; is_whole(&first, &[1, 2]) && is_whole(&second, &[1, 2]));
    match third {
        Ok(made) => assert!(rt; are(&made, &[1, 2])),
        Err(error) => assert!(rt; is_refused(&error)),
    }
    Ok(())
}

fn repeated(alloc: Global) -> Result<Boxes, TryReserveError> {
    let element = Box::new(alloc, 7u64)?;
    Ok(TryVec::from(try_from_elem(alloc, element, 3)?))
}

// A box, room for three, and the boxes of two copies; the element itself is the third.
#[test]
fn a_box_is_repeated(rt: HostRuntime) {
    assert!(rt; is_whole(&repeated(rt.alloc()), &[7, 7, 7]));
}

fn resized(
    alloc: Global,
    v: &mut Vec<Box<u64>>,
    length: usize,
    number: u64,
) -> Result<(), TryReserveError> {
    let value = Box::new(alloc, number)?;
    v.try_resize_no_copy(length, value)
}

// Two boxes in their room; a box, room for five, and two copies of the box. Refused, the copies that were made stay after the two.
#[test]
fn a_box_fills_a_vector(rt: HostRuntime) -> Result<(), Fail> {
    let Ok(two) = boxes_at_last(rt.alloc(), 1, 2) else {
        assert!(rt; !is_ample(rt.alloc()));
        return Ok(());
    };
    let mut v = two.into_vec();
    let is_done = resized(rt.alloc(), &mut v, 5, 9).is_ok();
    if is_done {
        assert!(rt; are(&v, &[1, 2, 9, 9, 9]));
    } else {
        println!(rt; "refused")?;
        assert!(rt; are(&v, &[1, 2]) || are(&v, &[1, 2, 9]));
    }
    Ok(())
}

fn extended(v: &mut Boxes, sources: &Boxes) -> Result<(), TryReserveError> {
    v.extend_from_slice(sources.as_slice())
}

// Two boxes in their room; room for four, and two copies.
#[test]
fn boxes_are_copied_after_others(rt: HostRuntime) -> Result<(), Fail> {
    let Ok(sources) = boxes_at_last(rt.alloc(), 1, 2) else {
        assert!(rt; !is_ample(rt.alloc()));
        return Ok(());
    };
    let mut v = TryVec::new(rt.alloc());
    let is_done = extended(&mut v, &sources).is_ok();
    if is_done {
        assert!(rt; are(v.as_slice(), &[1, 2]));
    } else {
        println!(rt; "refused")?;
        assert!(rt; are(v.as_slice(), &[]) || are(v.as_slice(), &[1]));
    }
    Ok(())
}

fn appended(v: &mut Boxes, other: &mut Boxes) -> Result<(), TryReserveError> {
    v.append(other)
}

// Two boxes and one, in their rooms; and room for four.
#[test]
fn boxes_are_moved_after_others(rt: HostRuntime) -> Result<(), Fail> {
    let Ok(mut v) = boxes_at_last(rt.alloc(), 1, 2) else {
        assert!(rt; !is_ample(rt.alloc()));
        return Ok(());
    };
    let Ok(mut other) = boxes_at_last(rt.alloc(), 3, 1) else {
        assert!(rt; !is_ample(rt.alloc()));
        return Ok(());
    };
    let is_done = appended(&mut v, &mut other).is_ok();
    if is_done {
        assert!(rt; are(v.as_slice(), &[1, 2, 3]) && other.is_empty());
    } else {
        println!(rt; "refused")?;
        assert!(rt; are(v.as_slice(), &[1, 2]) && are(other.as_slice(), &[3]));
    }
    Ok(())
}

fn pushed(alloc: Global, v: &mut Boxes, number: u64) -> Result<(), TryReserveError> {
    let item = Box::new(alloc, number)?;
    v.push(item)
}

fn given_back(alloc: Global, v: &mut Vec<Box<u64>>, number: u64) -> Result<(), TryReserveError> {
    let item = Box::new(alloc, number)?;
    match v.try_push_give_back(item) {
        Ok(()) => Ok(()),
        Err((item, error)) => { if *item == number { Err(error) } else { Ok(()) } }
    }
}

fn inserted(alloc: Global, v: &mut Boxes, number: u64) -> Result<(), TryReserveError> {
    let item = Box::new(alloc, number)?;
    match v.insert(0, item) {
        Ok(()) => Ok(()),
        Err((item, error)) => { if *item == number { Err(error) } else { Ok(()) } }
    }
}

// Three vectors of one box that has no room for another; a box more for each, and room for four. One refused request is one refused call.
#[test]
fn a_box_is_put_in_or_dropped(rt: HostRuntime) -> Result<(), Fail> {
    let Ok(mut first) = boxes_at_last(rt.alloc(), 1, 1) else {
        assert!(rt; !is_ample(rt.alloc()));
        return Ok(());
    };
    let Ok(mut second) = boxes_at_last(rt.alloc(), 1, 1) else {
        assert!(rt; !is_ample(rt.alloc()));
        return Ok(());
    };
    let mut third = TryVec::new(rt.alloc());
    let is_pushed = pushed(rt.alloc(), &mut first, 2).is_ok();
    let is_inserted = inserted(rt.alloc(), &mut second, 2).is_ok();
    let mut of_std = third.into_vec();
    let is_kept = given_back(rt.alloc(), &mut of_std, 2).is_ok();
    third = TryVec::from(of_std);
    if !(is_pushed && is_inserted && is_kept) {
        println!(rt; "refused")?;
    }
    let pushed: &[u64] = if is_pushed { &[1, 2] } else { &[1] };
    let inserted: &[u64] = if is_inserted { &[2, 1] } else { &[1] };
    let kept: &[u64] = if is_kept { &[2] } else { &[] };
    assert!(rt; are(first.as_slice(), pushed) && are(second.as_slice(), inserted));
    assert!(rt; are(third.as_slice(), kept));
    Ok(())
}

fn collected(items: Boxes, alloc: Global) -> Result<Boxes, TryReserveError> {
    TryCollect::try_collect(items, alloc)
}

// Five boxes in their room; and a vector that grows to them, from four on to eight. Refused, it is dropped with those that it has, and those to come are too.
#[test]
fn boxes_are_collected(rt: HostRuntime) -> Result<(), Fail> {
    let Ok(items) = boxes_at_last(rt.alloc(), 1, 5) else {
        assert!(rt; !is_ample(rt.alloc()));
        return Ok(());
    };
    let answer = collected(items, rt.alloc());
    if answer.is_err() {
        println!(rt; "refused")?;
    }
    assert!(rt; is_whole(&answer, &[1, 2, 3, 4, 5]));
    Ok(())
}

// The number at the place, whose box is taken out, and let go; the last one moves there, or all after it do.
fn taken(v: &mut Boxes, index: usize, by_last: bool) -> Option<u64> {
    if index >= v.len() {
        return None;
    }
    let item = if by_last {
        v.swap_remove(index)
    } else {
        v.remove(index)
    };
    Some(*item)
}

fn keep_odd(v: &mut Boxes) {
    v.retain(|item| **item % 2 == 1);
}

fn drop_front(v: &mut Boxes, count: usize) {
    if count <= v.len() {
        drop(v.drain(..count));
    }
}

// Each call that gives boxes up: no block is left.
#[test]
fn boxes_that_go_are_dropped(rt: HostRuntime) -> Result<(), Fail> {
    let mut v = boxes(rt.alloc(), 1, 9)?;
    assert!(rt; taken(&mut v, 0, false) == Some(1) && taken(&mut v, 0, true) == Some(2));
    keep_odd(&mut v);
    v.truncate(3);
    drop_front(&mut v, 1);
    assert!(rt; are(v.as_slice(), &[3, 5]));
    v.push(Box::new(rt.alloc(), 5)?)?;
    v.dedup();
    assert!(rt; are(v.as_slice(), &[3, 5]));
    drop(v.pop());
    v.clear();
    let mut walk = boxes(rt.alloc(), 1, 3)?.into_iter();
    drop(walk.next());
    drop(walk.next_back());
    drop(walk);
    Ok(())
}
