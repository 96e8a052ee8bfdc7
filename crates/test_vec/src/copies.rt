//! Elements whose copies are refused at a given place, by either error: it comes out as it went in, and not as the other one.
use fc_base::{TryClone, TryReserveError};
use fc_vec::{FallibleVec, TryVec, try_from_elem};
use std::alloc::{AllocError, Global};
use test_values::{Tally, Token};

// The numbers from 1 on.
fn tokens_up_to<'a>(
    alloc: Global,
    last: u64,
    tally: &'a Tally,
) -> Result<Vec<Token<'a>>, AllocError> {
    let mut made = Vec::new(alloc);
    for before in 0..last {
        made.push(Token::new(before.wrapping_add(1), tally))?;
    }
    Ok(made)
}

fn are(items: &[Token], expected: &[u64]) -> bool {
    if items.len() != expected.len() {
        return false;
    }
    for i in 0..items.len() {
        if items[i].number != expected[i] {
            return false;
        }
    }
    true
}

// The error of an answer; there is none where it is Ok.
fn error_of<T: Drop>(answer: Result<T, TryReserveError>) -> Option<TryReserveError> {
    match answer {
        Ok(_made) => None,
        Err(error) => Some(error),
    }
}

// Whether there is no error where the copies were to be had, and else the copy's own.
fn is_as_given(error: Option<TryReserveError>, is_enough: bool, own: TryReserveError) -> bool {
    match error {
        None => is_enough,
        Some(error) => !is_enough && error == own,
    }
}

// The calls that copy, each in a helper that promises nothing.
fn extended<'a>(v: &mut Vec<Token<'a>>, sources: &[Token<'a>]) -> Result<(), TryReserveError> {
    v.try_extend_from_slice_no_copy(sources)
}

fn also_extended<'a>(
    v: &mut TryVec<Token<'a>>,
    sources: &[Token<'a>],
) -> Result<(), TryReserveError> {
    v.extend_from_slice(sources)
}

fn resized<'a>(
    v: &mut Vec<Token<'a>>,
    length: usize,
    value: Token<'a>,
) -> Result<(), TryReserveError> {
    v.try_resize_no_copy(length, value)
}

pub(crate) fn repeated<'a>(
    alloc: Global,
    value: Token<'a>,
    count: usize,
) -> Result<Vec<Token<'a>>, TryReserveError> {
    try_from_elem(alloc, value, count)
}

const OVERFLOW: TryReserveError = TryReserveError::CapacityOverflow;

const NO_MEMORY: TryReserveError = TryReserveError::AllocError;

const AFTER_EXTENSION: [&[u64]; 3] = [&[1, 2], &[1, 2, 1], &[1, 2, 1, 2]];

fn is_extended(alloc: Global, given: u64, own: TryReserveError, after: &[u64]) -> bool {
    let tally = Tally::of_copies(given, own);
    let Ok(mut v) = tokens_up_to(alloc, 2, &tally) else {
        return false;
    };
    let Ok(sources) = tokens_up_to(alloc, 2, &tally) else {
        return false;
    };
    let error = error_of(extended(&mut v, &sources));
    is_as_given(error, given == 2, own) && are(&v, after)
}

#[test]
fn an_extension_keeps_the_copies_before_the_refused_one(rt: HostRuntime) {
    for given in 0..3u64 {
        let after = AFTER_EXTENSION[given as usize];
        assert!(rt; is_extended(rt.alloc(), given, OVERFLOW, after));
        assert!(rt; is_extended(rt.alloc(), given, NO_MEMORY, after));
    }
}

fn is_also_extended(alloc: Global, given: u64, own: TryReserveError, after: &[u64]) -> bool {
    let tally = Tally::of_copies(given, own);
    let Ok(items) = tokens_up_to(alloc, 2, &tally) else {
        return false;
    };
    let mut v = TryVec::from(items);
    let Ok(sources) = tokens_up_to(alloc, 2, &tally) else {
        return false;
    };
    let error = error_of(also_extended(&mut v, &sources));
    is_as_given(error, given == 2, own) && are(v.as_slice(), after) && tally.left.get() == 0
}

// The same by the call of `TryVec`, whose error is the copy's too.
#[test]
fn the_other_extension_keeps_them_too(rt: HostRuntime) {
    for given in 0..3u64 {
        let after = AFTER_EXTENSION[given as usize];
        assert!(rt; is_also_extended(rt.alloc(), given, OVERFLOW, after));
        assert!(rt; is_also_extended(rt.alloc(), given, NO_MEMORY, after));
    }
}

const AFTER_RESIZE: [&[u64]; 3] = [&[1, 2], &[1, 2, 9], &[1, 2, 9, 9, 9]];

// A vector of two that is resized to five: the last place gets the value itself.
fn is_resized(alloc: Global, given: u64, own: TryReserveError, after: &[u64]) -> bool {
    let tally = Tally::of_copies(given, own);
    let Ok(mut v) = tokens_up_to(alloc, 2, &tally) else {
        return false;
    };
    let error = error_of(resized(&mut v, 5, Token::new(9, &tally)));
    is_as_given(error, given == 2, own) && are(&v, after)
}

// A body that takes the copies out again leaves no 9 after the two.
#[test]
fn a_resize_keeps_the_copies_before_the_refused_one(rt: HostRuntime) {
    for given in 0..3u64 {
        let after = AFTER_RESIZE[given as usize];
        assert!(rt; is_resized(rt.alloc(), given, OVERFLOW, after));
        assert!(rt; is_resized(rt.alloc(), given, NO_MEMORY, after));
    }
}

// One item more takes no copy.
fn are_put_in_themselves(alloc: Global) -> bool {
    let tally = Tally::of_copies(0, OVERFLOW);
    let Ok(mut v) = tokens_up_to(alloc, 2, &tally) else {
        return false;
    };
    let is_done = resized(&mut v, 3, Token::new(9, &tally)).is_ok();
    match repeated(alloc, Token::new(8, &tally), 1) {
        Ok(made) => is_done && are(&v, &[1, 2, 9]) && are(&made, &[8]),
        Err(_refused) => false,
    }
}

#[test]
fn one_element_more_takes_no_copy(rt: HostRuntime) {
    assert!(rt; are_put_in_themselves(rt.alloc()));
}

// Two parts of two numbers each.
fn parts<'a>(
    alloc: Global,
    tally: &'a Tally,
) -> Result<TryVec<TryVec<Token<'a>>>, TryReserveError> {
    let mut made = TryVec::new(alloc);
    for _ in 0..2u64 {
        made.push(TryVec::from(tokens_up_to(alloc, 2, tally)?))?;
    }
    Ok(made)
}

fn joined<'a>(parts: &TryVec<TryVec<Token<'a>>>) -> Result<TryVec<Token<'a>>, TryReserveError> {
    parts.concat()
}

fn copied<'a>(
    parts: &TryVec<TryVec<Token<'a>>>,
) -> Result<TryVec<TryVec<Token<'a>>>, TryReserveError> {
    parts.try_clone()
}

fn sliced<'a>(
    alloc: Global,
    parts: &[TryVec<Token<'a>>],
) -> Result<TryVec<TryVec<Token<'a>>>, TryReserveError> {
    TryVec::try_from_slice(alloc, parts)
}

// By each call that makes copies of the four numbers: with one copy too few, and with enough.
fn are_passed_on(alloc: Global, given: u64, own: TryReserveError) -> bool {
    let tally = Tally::of_copies(given, own);
    let Ok(parts) = parts(alloc, &tally) else {
        return false;
    };
    let by_concat = error_of(joined(&parts));
    tally.left.set(given);
    let by_clone = error_of(copied(&parts));
    tally.left.set(given);
    let by_slice = error_of(sliced(alloc, parts.as_slice()));
    tally.left.set(given);
    let by_element = error_of(repeated(alloc, Token::new(8, &tally), 5));
    let is_enough = given == 4;
    is_as_given(by_concat, is_enough, own)
        && is_as_given(by_clone, is_enough, own)
        && is_as_given(by_slice, is_enough, own)
        && is_as_given(by_element, is_enough, own)
}

#[test]
fn a_refused_copy_is_passed_on(rt: HostRuntime) {
    for given in 3..5u64 {
        assert!(rt; are_passed_on(rt.alloc(), given, OVERFLOW));
        assert!(rt; are_passed_on(rt.alloc(), given, NO_MEMORY));
    }
}
