//! Vectors in a budget that refuses: a refused call leaves the vector as it was, and all bytes come back.
//!
//! A vector of five numbers takes 40 bytes, and one that grows asks for the room of more of them while it holds these. So in 79 bytes there is one such
//! vector, which neither grows nor is copied.
use fc_base::{TryClone, TryReserveError};
use fc_budget::Budget;
use fc_vec::{FallibleCopyVec, FallibleVec, TryVec, try_from_elem};
use std::alloc::Global;
use std::io::{ErrorKind, Write};

type Numbers<'b> = Vec<u64, &'b Budget<Global>>;

type Ours<'b> = TryVec<u64, &'b Budget<Global>>;

const FIVE: [u64; 5] = [1, 4, 5, 8, 9];

fn is_refused(answer: &Result<(), TryReserveError>) -> bool {
    matches!(answer, Err(TryReserveError::AllocError))
}

// A vector with room for five, by one of the calls that make one.
fn made<'b>(budget: &'b Budget<Global>, way: u64) -> Result<Ours<'b>, TryReserveError> {
    match way {
        0 => TryVec::with_capacity(budget, 5),
        1 => TryVec::try_from_slice(budget, &FIVE),
        2 => Ok(TryVec::from(Vec::try_with_capacity(budget, 5)?)),
        _ => Ok(TryVec::from(try_from_elem(budget, 7, 5)?)),
    }
}

// Whether there was such a vector, and how many bytes were out while there was.
fn held(budget: &Budget<Global>, way: u64) -> (bool, usize) {
    let answer = made(budget, way);
    (answer.is_ok(), budget.used())
}

#[test]
fn a_vector_is_made_where_it_fits(rt: HostRuntime) {
    for way in 0..4u64 {
        let short = Budget::new(rt.alloc(), 39);
        let exact = Budget::new(rt.alloc(), 40);
        let seen = (held(&short, way), held(&exact, way));
        assert_eq!(rt; seen, ((false, 0), (true, 40)));
        assert_eq!(rt; (short.used(), exact.used()), (0, 0));
    }
}

// One of the calls that grow a vector.
fn grow(v: &mut Ours<'_>, way: u64) -> Result<(), TryReserveError> {
    match way {
        0 => v.reserve(1),
        1 => v.push(7),
        2 => match v.insert(0, 7) {
            Ok(()) => Ok(()),
            Err((_given_back, refused)) => Err(refused),
        },
        3 => v.resize_with(6, || 7),
        4 => v.extend_from_slice(&FIVE),
        5 => v.reserve_exact(5),
        6 => v.resize(6, 7),
        _ => v.extend(7..9),
    }
}

// Whether the vector of five is as before, and so are the bytes that are out.
fn is_refused_ours(budget: &Budget<Global>, way: u64) -> bool {
    let Ok(mut v) = TryVec::try_from_slice(budget, &FIVE) else {
        return false;
    };
    let answer = grow(&mut v, way);
    is_refused(&answer) && v.as_slice() == FIVE.as_slice() && budget.used() == 40
}

#[test]
fn a_refused_growth_leaves_the_vector(rt: HostRuntime) {
    for way in 0..8u64 {
        let budget = Budget::new(rt.alloc(), 79);
        assert!(rt; is_refused_ours(&budget, way));
        assert!(rt; budget.used() == 0);
    }
}

// The same for std's vector.
fn grow_std(v: &mut Numbers<'_>, way: u64) -> Result<(), TryReserveError> {
    match way {
        0 => FallibleVec::try_reserve(v, 1),
        1 => v.try_push(7),
        2 => match v.try_push_give_back(7) {
            Ok(()) => Ok(()),
            Err((_given_back, refused)) => Err(refused),
        },
        3 => match v.try_insert(0, 7) {
            Ok(()) => Ok(()),
            Err((_given_back, refused)) => Err(refused),
        },
        4 => FallibleVec::try_resize_with(v, 6, || 7),
        5 => v.try_resize_no_copy(6, 7),
        6 => v.try_extend_from_slice_no_copy(&FIVE),
        7 => v.try_resize(6, 7),
        _ => v.try_extend_from_slice(&FIVE),
    }
}

fn is_refused_std(budget: &Budget<Global>, way: u64) -> bool {
    let Ok(v) = TryVec::try_from_slice(budget, &FIVE) else {
        return false;
    };
    let mut v = v.into_vec();
    let answer = grow_std(&mut v, way);
    is_refused(&answer) && v.as_slice() == FIVE.as_slice() && budget.used() == 40
}

#[test]
fn a_refused_growth_leaves_stds_vector(rt: HostRuntime) {
    for way in 0..9u64 {
        let budget = Budget::new(rt.alloc(), 79);
        assert!(rt; is_refused_std(&budget, way));
        assert!(rt; budget.used() == 0);
    }
}

// Two vectors of five, one of which is to take over the items of the other.
fn is_append_refused(budget: &Budget<Global>) -> bool {
    let (Ok(mut v), Ok(mut other)) = (made(budget, 1), made(budget, 1)) else {
        return false;
    };
    let answer = v.append(&mut other);
    let are_kept = v.as_slice() == FIVE.as_slice() && other.as_slice() == FIVE.as_slice();
    is_refused(&answer) && are_kept && budget.used() == 80
}

fn is_std_append_refused(budget: &Budget<Global>) -> bool {
    let (Ok(v), Ok(other)) = (made(budget, 1), made(budget, 1)) else {
        return false;
    };
    let mut v = v.into_vec();
    let mut other = other.into_vec();
    let answer = v.try_append(&mut other);
    let are_kept = v.as_slice() == FIVE.as_slice() && other.as_slice() == FIVE.as_slice();
    is_refused(&answer) && are_kept && budget.used() == 80
}

#[test]
fn a_refused_append_leaves_both_vectors(rt: HostRuntime) {
    let budget = Budget::new(rt.alloc(), 119);
    assert!(rt; is_append_refused(&budget) && is_std_append_refused(&budget));
    assert!(rt; budget.used() == 0);
}

// Whether no copy was made, by one of the calls that make one.
fn is_copy_refused(v: &Ours<'_>, budget: &Budget<Global>) -> bool {
    let copy = v.try_clone();
    matches!(copy, Err(TryReserveError::AllocError))
        && v.as_slice() == FIVE.as_slice()
        && budget.used() == 40
}

fn is_std_copy_refused(v: &Numbers<'_>, budget: &Budget<Global>) -> bool {
    let copy = v.try_clone();
    matches!(copy, Err(TryReserveError::AllocError))
        && v.as_slice() == FIVE.as_slice()
        && budget.used() == 40
}

fn are_copies_refused(budget: &Budget<Global>) -> bool {
    let Ok(v) = made(budget, 1) else {
        return false;
    };
    let is_refused = is_copy_refused(&v, budget);
    is_refused && is_std_copy_refused(&v.into_vec(), budget)
}

// A copy is where its source is: it takes of the same budget.
fn bytes_with_a_copy(budget: &Budget<Global>) -> usize {
    let Ok(v) = made(budget, 1) else {
        return 0;
    };
    let _copy = v.try_clone();
    budget.used()
}

#[test]
fn a_copy_takes_of_its_sources_budget(rt: HostRuntime) {
    let short = Budget::new(rt.alloc(), 79);
    let exact = Budget::new(rt.alloc(), 80);
    assert!(rt; are_copies_refused(&short));
    assert_eq!(rt; bytes_with_a_copy(&exact), 80);
    assert_eq!(rt; (short.used(), exact.used()), (0, 0));
}

// Two parts of five in one budget, in a list in another: what they are joined to is where the list is.
fn joined_bytes(list: &Budget<Global>, parts: &Budget<Global>) -> (bool, usize, usize) {
    let mut all = TryVec::new(list);
    for _ in 0..2u64 {
        let Ok(part) = made(parts, 1) else {
            return (false, 0, 0);
        };
        if all.push(part).is_err() {
            return (false, 0, 0);
        }
    }
    let before = list.used();
    let answer = all.concat();
    (
        answer.is_ok(),
        list.used().saturating_sub(before),
        parts.used(),
    )
}

#[test]
fn joined_items_lie_with_the_list(rt: HostRuntime) {
    let parts = Budget::new(rt.alloc(), 80);
    let wide = Budget::new(rt.alloc(), 1000);
    assert_eq!(rt; joined_bytes(&wide, &parts), (true, 80, 80));
    assert_eq!(rt; (wide.used(), parts.used()), (0, 0));
}

// Whether neither the text nor a byte after it has room.
fn are_bytes_refused(budget: &Budget<Global>) -> bool {
    let Ok(mut bytes) = TryVec::try_from_str(budget, "0123456789") else {
        return false;
    };
    let more = TryVec::try_from_str(budget, "0123456789");
    let is_refused = match bytes.write(b"e") {
        Ok(_written) => false,
        Err(error) => error.kind() == ErrorKind::OutOfMemory,
    };
    is_refused
        && more.is_err()
        && bytes.as_slice() == b"0123456789".as_slice()
        && budget.used() == 10
}

#[test]
fn refused_bytes_leave_those_before(rt: HostRuntime) {
    let budget = Budget::new(rt.alloc(), 19);
    assert!(rt; are_bytes_refused(&budget));
    assert!(rt; budget.used() == 0);
}

// Three in room for five, after which two of four go.
fn is_extended_up_to_its_room(budget: &Budget<Global>) -> bool {
    let Ok(mut v) = made(budget, 0) else {
        return false;
    };
    let is_ready = v.extend_from_slice(&FIVE[..3]).is_ok();
    let answer = v.extend(6..10);
    is_ready && is_refused(&answer) && v.as_slice() == [1, 4, 5, 6, 7].as_slice()
}

// The two after the first three take 16 bytes.
fn parted(budget: &Budget<Global>) -> (bool, usize, usize) {
    let Ok(mut v) = made(budget, 1) else {
        return (false, 0, 0);
    };
    let rest = v.split_off(v.len().min(3));
    (rest.is_ok(), v.len(), budget.used())
}

fn is_std_clone_refused(budget: &Budget<Global>) -> bool {
    let Ok(v) = made(budget, 1) else {
        return false;
    };
    let clone: Result<_, _> = v.clone();
    clone.is_err() && v.as_slice() == FIVE.as_slice() && budget.used() == 40
}

// 24 numbers in no order, 192 bytes, by each of the calls that sort and may take memory.
fn is_sort_refused(budget: &Budget<Global>, way: u64) -> bool {
    let Ok(mut v) = TryVec::with_capacity(budget, 24) else {
        return false;
    };
    for place in 0..24u64 {
        if v.push(place.wrapping_mul(7) % 24).is_err() {
            return false;
        }
    }
    let answer = match way {
        0 => v.sort(),
        1 => v.sort_by(|first, second| second.cmp(first)),
        _ => v.sort_by_key(|item| *item / 2),
    };
    is_refused(&answer) && v.len() == 24 && v[1] == 7 && v[23] == 17 && budget.used() == 192
}

#[test]
fn refused_parts_clones_and_sorts_leave_the_vector(rt: HostRuntime) {
    let short = Budget::new(rt.alloc(), 55);
    let exact = Budget::new(rt.alloc(), 56);
    assert_eq!(rt;
        (parted(&short), parted(&exact)),
        ((false, 5, 40), (true, 3, 56))
    );
    assert!(rt; is_extended_up_to_its_room(&short) && is_std_clone_refused(&short));
    let full = Budget::new(rt.alloc(), 192);
    for way in 0..3u64 {
        assert!(rt; is_sort_refused(&full, way));
    }
    assert_eq!(rt; (short.used(), exact.used(), full.used()), (0, 0, 0));
}
