//! A million items by each call that takes memory: with ample memory none is refused, and each asks for just the bytes that its items take.
//!
//! An item has eight bytes. The calls that know how many are to come ask once, for 8 * 10^6 bytes; those that put in one after another ask for 4 items first and
//! then for twice as many, so 19 times, for up to 4 * 2^18 items.
use fc_base::{TryClone, TryReserveError};
use fc_vec::{FallibleCopyVec, FallibleVec, TryCollect, TryVec, try_from_elem};
use std::alloc::Global;
use std::test::Fail;

const MANY: usize = 1000000;

fn repeated(alloc: Global) -> Result<TryVec<u64>, TryReserveError> {
    Ok(TryVec::from(try_from_elem(alloc, 7, MANY)?))
}

fn filled(alloc: Global) -> Result<TryVec<u64>, TryReserveError> {
    let mut made = Vec::new(alloc);
    made.try_resize(MANY, 7)?;
    Ok(TryVec::from(made))
}

fn resized_with(alloc: Global) -> Result<TryVec<u64>, TryReserveError> {
    let mut made = TryVec::new(alloc);
    made.resize_with(MANY, || 7)?;
    Ok(made)
}

fn copied(alloc: Global, source: &[u64]) -> Result<TryVec<u64>, TryReserveError> {
    let mut made = Vec::new(alloc);
    made.try_extend_from_slice(source)?;
    Ok(TryVec::from(made))
}

fn extended(alloc: Global, source: &[u64]) -> Result<TryVec<u64>, TryReserveError> {
    let mut made = TryVec::new(alloc);
    made.extend_from_slice(source)?;
    Ok(made)
}

fn appended(alloc: Global, source: &mut TryVec<u64>) -> Result<TryVec<u64>, TryReserveError> {
    let mut made = TryVec::new(alloc);
    made.append(source)?;
    Ok(made)
}

fn joined(alloc: Global, part: TryVec<u64>) -> Result<TryVec<u64>, TryReserveError> {
    let mut parts = TryVec::with_capacity(alloc, 1)?;
    parts.push(part)?;
    parts.concat()
}

fn cloned(source: &TryVec<u64>) -> Result<TryVec<u64>, TryReserveError> {
    source.try_clone()
}

// Whether there are a million items, and the last one is a seven.
fn is_whole(v: &TryVec<u64>) -> bool {
    v.len() == MANY && v.last().copied() == Some(7)
}

// Whether what two calls make of the source is whole, and the first of them is emptied.
fn is_extended_and_appended(alloc: Global, source: &[u64]) -> Result<bool, TryReserveError> {
    let mut made = extended(alloc, source)?;
    let is_moved = is_whole(&appended(alloc, &mut made)?);
    Ok(is_moved && made.is_empty())
}

fn is_cloned_and_joined(alloc: Global, source: &TryVec<u64>) -> Result<bool, TryReserveError> {
    let clone = cloned(source)?;
    let is_cloned = is_whole(&clone);
    let is_joined = is_whole(&joined(alloc, clone)?);
    Ok(is_cloned && is_joined)
}

// A list of a million, once for each of eight calls; and a list of one vector, of 24 bytes.
#[test]
fn a_million_at_once(rt: HostRuntime) -> Result<(), Fail> {
    assert!(rt; is_whole(&filled(rt.alloc())?));
    assert!(rt; is_whole(&resized_with(rt.alloc())?));
    let first = repeated(rt.alloc())?;
    assert!(rt; is_whole(&first));
    assert!(rt; is_whole(&copied(rt.alloc(), first.as_slice())?));
    assert!(rt; is_extended_and_appended(rt.alloc(), first.as_slice())?);
    assert!(rt; is_cloned_and_joined(rt.alloc(), &first)?);
    Ok(())
}

fn pushed(alloc: Global) -> Result<TryVec<u64>, TryReserveError> {
    let mut made = TryVec::new(alloc);
    for _ in 0..MANY {
        made.push(7)?;
    }
    Ok(made)
}

fn collected(alloc: Global, items: TryVec<u64>) -> Result<TryVec<u64>, TryReserveError> {
    TryCollect::try_collect(items, alloc)
}

// Two vectors that grow from 4 items on to 2^20, in 19 requests each.
#[test]
fn a_million_one_after_another(rt: HostRuntime) -> Result<(), Fail> {
    let first = pushed(rt.alloc())?;
    assert!(rt; is_whole(&first));
    let second = collected(rt.alloc(), first)?;
    assert!(rt; is_whole(&second));
    Ok(())
}

fn with_room(alloc: Global) -> Result<TryVec<u64>, TryReserveError> {
    TryVec::with_capacity(alloc, MANY)
}

fn reserved(alloc: Global) -> Result<TryVec<u64>, TryReserveError> {
    let mut made = TryVec::new(alloc);
    made.reserve(MANY)?;
    Ok(made)
}

fn reserved_in_std(alloc: Global) -> Result<Vec<u64>, TryReserveError> {
    let mut made: Vec<u64> = FallibleVec::try_with_capacity(alloc, 0)?;
    FallibleVec::try_reserve(&mut made, MANY)?;
    Ok(made)
}

// Three rooms.
#[test]
fn room_for_a_million(rt: HostRuntime) -> Result<(), Fail> {
    assert!(rt; with_room(rt.alloc())?.is_empty());
    assert!(rt; reserved(rt.alloc())?.is_empty());
    assert!(rt; reserved_in_std(rt.alloc())?.capacity() >= MANY);
    Ok(())
}
