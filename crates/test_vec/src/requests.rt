//! Calls whose requests for memory are counted outside of the program: how many they are, and of how many bytes.
//!
//! A list of ten numbers of eight bytes takes one request of 80 bytes by each of the first seven calls: std's vector takes just what is asked for where
//! it has nothing yet and that is four items or more. A body that copies without room first asks for 4, 8 and 16 items in turn, and one that reserves twice
//! the room for 160 bytes. The eighth is made of parts: a list of two vectors of 24 bytes each (48 bytes), two parts of five numbers (40 bytes each), and
//! the ten numbers that are joined. So the test makes 11 requests, of 7 * 80 + 48 + 2 * 40 + 80 = 768 bytes, and what fits makes none.
use fc_base::{TryClone, TryReserveError};
use fc_vec::{FallibleCopyVec, FallibleVec, TryVec, try_from_elem};
use std::alloc::Global;
use std::io::{self, Write};
use std::test::Fail;

const TEN: [u64; 10] = [0, 1, 2, 3, 4, 5, 6, 7, 8, 9];

fn reserved(alloc: Global) -> Result<TryVec<u64>, TryReserveError> {
    let mut v = TryVec::new(alloc);
    v.reserve(10)?;
    v.extend_from_slice(&TEN)?;
    Ok(v)
}

fn with_capacity(alloc: Global) -> Result<TryVec<u64>, TryReserveError> {
    TryVec::with_capacity(alloc, 10)
}

fn sliced(alloc: Global) -> Result<TryVec<u64>, TryReserveError> {
    TryVec::try_from_slice(alloc, &TEN)
}

fn copied(v: &TryVec<u64>) -> Result<TryVec<u64>, TryReserveError> {
    v.try_clone()
}

fn repeated(alloc: Global) -> Result<Vec<u64>, TryReserveError> {
    try_from_elem(alloc, 7, 10)
}

fn copied_from_std(v: &Vec<u64>) -> Result<Vec<u64>, TryReserveError> {
    v.try_clone()
}

fn appended(alloc: Global, other: &mut TryVec<u64>) -> Result<TryVec<u64>, TryReserveError> {
    let mut v = TryVec::new(alloc);
    v.append(other)?;
    Ok(v)
}

fn joined(alloc: Global) -> Result<TryVec<u64>, TryReserveError> {
    let mut parts = TryVec::with_capacity(alloc, 2)?;
    for _ in 0..2u64 {
        parts.push(TryVec::try_from_slice(alloc, &TEN[..5])?)?;
    }
    parts.concat()
}

// The third and the fourth list.
fn is_copied(alloc: Global) -> Result<bool, TryReserveError> {
    let third = sliced(alloc)?;
    Ok(copied(&third)?.len() == 10)
}

// The fifth and the sixth one.
fn is_copied_from_std(alloc: Global) -> Result<bool, TryReserveError> {
    let fifth = repeated(alloc)?;
    Ok(copied_from_std(&fifth)?.len() == 10)
}

// The first and the seventh one.
fn is_appended(alloc: Global) -> Result<bool, TryReserveError> {
    let mut first = reserved(alloc)?;
    let length = appended(alloc, &mut first)?.len();
    Ok(first.is_empty() && length == 10)
}

#[test]
fn calls_ask_for_what_they_say(rt: HostRuntime) -> Result<(), Fail> {
    assert!(rt; is_appended(rt.alloc())?);
    assert!(rt; with_capacity(rt.alloc())?.is_empty());
    assert!(rt; is_copied(rt.alloc())?);
    assert!(rt; is_copied_from_std(rt.alloc())?);
    assert!(rt; joined(rt.alloc())?.len() == 10);
    Ok(())
}

// The ten numbers in a list of their own.
fn ten(alloc: Global) -> Result<Vec<u64>, TryReserveError> {
    Ok(Vec::from_slice(alloc, &TEN)?)
}

// Room for just ten, and then ten numbers by one of the calls that grow std's vector.
fn grown_in_room(alloc: Global, way: u64) -> Result<Vec<u64>, TryReserveError> {
    let mut v: Vec<u64> = FallibleVec::try_with_capacity(alloc, 10)?;
    match way {
        0 => v.try_extend_from_slice(&TEN)?,
        1 => v.try_extend_from_slice_no_copy(&TEN)?,
        2 => v.try_resize(10, 7)?,
        3 => v.try_resize_no_copy(10, 7)?,
        4 => FallibleVec::try_resize_with(&mut v, 10, || 7)?,
        5 => v.try_append(&mut ten(alloc)?)?,
        _ => {
            for item in TEN {
                v.try_push(item)?;
            }
        }
    }
    FallibleVec::try_reserve(&mut v, 0)?;
    Ok(v)
}

// The same by one of the calls of the vector that has no others.
fn ours_grown_in_room(alloc: Global, way: u64) -> Result<Vec<u64>, TryReserveError> {
    let mut v = TryVec::with_capacity(alloc, 10)?;
    match way {
        0 => v.extend_from_slice(&TEN)?,
        1 => v.resize_with(10, || 7)?,
        2 => v.append(&mut TryVec::from(ten(alloc)?))?,
        _ => {
            for item in TEN {
                v.push(item)?;
            }
        }
    }
    v.reserve(0)?;
    Ok(v.into_vec())
}

// Room for just two, and then an item and one before it, by calls that hand it back.
fn put_in_room(alloc: Global) -> Result<Vec<u64>, TryReserveError> {
    let mut v: Vec<u64> = FallibleVec::try_with_capacity(alloc, 2)?;
    let is_put = v.try_push_give_back(7).is_ok() && v.try_insert(0, 7).is_ok();
    if is_put {
        Ok(v)
    } else {
        Err(TryReserveError::AllocError)
    }
}

fn written(v: &mut TryVec<u8>, bytes: &[u8]) -> io::Result<usize> {
    v.write(bytes)
}

fn is_full(v: &Vec<u64>, room: usize) -> bool {
    v.len() == room && v.capacity() == room
}

// Eleven rooms for ten numbers, two lists of ten that are appended, a room for two numbers, and one for six bytes: what goes into them makes no request.
#[test]
fn what_fits_asks_for_nothing(rt: HostRuntime) -> Result<(), Fail> {
    for way in 0..7u64 {
        assert!(rt; is_full(&grown_in_room(rt.alloc(), way)?, 10));
    }
    for way in 0..4u64 {
        assert!(rt; is_full(&ours_grown_in_room(rt.alloc(), way)?, 10));
    }
    assert!(rt; is_full(&put_in_room(rt.alloc())?, 2));
    let mut bytes = TryVec::with_capacity(rt.alloc(), 6)?;
    assert!(rt; written(&mut bytes, b"foo")? == 3 && written(&mut bytes, b"bar")? == 3);
    Ok(())
}
