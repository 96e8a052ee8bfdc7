//! A hundred thousand pairs by each call that takes memory: with ample memory none is refused.
//!
//! std's map asks four times for each of its sizes: for groups of 64 bytes, each for nine pairs, whose number doubles; for nine places of 8 bytes each; and for lists
//! of as many keys, and of as many values. 100,000 pairs take 2^14 groups, since 2^13 have 73,728 places, and a map that grows to them has 15 sizes.
use fc_base::{TryClone, TryReserveError};
use fc_hash::TryHashMap;
use fc_vec::TryCollect;
use std::alloc::Global;
use std::test::Fail;

const MANY: u64 = 100000;

type Map = TryHashMap<u64, u64>;

fn fill(map: &mut Map) -> Result<(), TryReserveError> {
    for key in 0..MANY {
        map.insert(key, 7)?;
    }
    Ok(())
}

fn inserted(alloc: Global) -> Result<Map, TryReserveError> {
    let mut map = TryHashMap::default(alloc);
    fill(&mut map)?;
    Ok(map)
}

fn extended(alloc: Global) -> Result<Map, TryReserveError> {
    let mut map = TryHashMap::default(alloc);
    map.try_extend((0..MANY).map(|key| (key, 7)))?;
    Ok(map)
}

fn collected(alloc: Global) -> Result<Map, TryReserveError> {
    TryCollect::try_collect((0..MANY).map(|key| (key, 7)), alloc)
}

// Whether so many pairs are there, those of the first and the last number among them.
fn is_whole(map: &Map) -> bool {
    let ends = (map.get(&0).copied(), map.get(&(MANY - 1)).copied());
    map.len() as u64 == MANY && ends == (Some(7), Some(7))
}

// Three maps that grow.
#[test]
fn pairs_one_after_another(rt: HostRuntime) -> Result<(), Fail> {
    assert!(rt; is_whole(&inserted(rt.alloc())?));
    assert!(rt; is_whole(&extended(rt.alloc())?));
    assert!(rt; is_whole(&collected(rt.alloc())?));
    Ok(())
}

fn with_room(alloc: Global) -> Result<Map, TryReserveError> {
    TryHashMap::with_capacity(alloc, MANY as usize)
}

fn reserved(alloc: Global) -> Result<Map, TryReserveError> {
    let mut map = TryHashMap::default(alloc);
    map.reserve(MANY as usize)?;
    Ok(map)
}

fn copied(map: &Map) -> Result<Map, TryReserveError> {
    map.try_clone()
}

// Two rooms, of which the second takes all pairs, and a copy of it.
#[test]
fn pairs_in_room(rt: HostRuntime) -> Result<(), Fail> {
    assert!(rt; reserved(rt.alloc())?.is_empty());
    let mut first = with_room(rt.alloc())?;
    fill(&mut first)?;
    assert!(rt; is_whole(&first));
    assert!(rt; is_whole(&copied(&first)?));
    Ok(())
}
