//! Calls on values that are there, on all pairs, and on the room of a map.
use fc_base::TryReserveError;
use fc_hash::TryHashMap;
use fc_vec::TryCollect;
use std::alloc::Global;
use std::test::Fail;

type Map = TryHashMap<u64, u64>;

// The number with ten times itself.
fn ten_times(key: u64) -> (u64, u64) {
    (key, key.wrapping_mul(10))
}

fn extend(map: &mut Map, start: u64, end: u64) -> Result<(), TryReserveError> {
    map.try_extend((start..end).map(ten_times))
}

fn collected(alloc: Global, end: u64) -> Result<Map, TryReserveError> {
    TryCollect::try_collect((0..end).map(ten_times), alloc)
}

// Whether the map holds the numbers below `end`, each with so many times itself, and nothing else.
fn holds_times(map: &Map, end: u64, times: u64) -> bool {
    for key in 0..end {
        if map.get(&key).copied() != Some(key.wrapping_mul(times)) {
            return false;
        }
    }
    map.len() as u64 == end
}

// Whether there was such a key.
fn write(map: &mut Map, key: u64, value: u64) -> bool {
    match map.get_mut(&key) {
        Some(place) => {
            *place = value;
            true
        }
        None => false,
    }
}

#[test]
fn a_value_is_written(rt: HostRuntime) -> Result<(), Fail> {
    let mut map = collected(rt.alloc(), 3)?;
    assert!(rt; map.contains_key(&2) && !map.contains_key(&3));
    assert!(rt; write(&mut map, 2, 7) && !write(&mut map, 3, 8));
    assert!(rt; map.get(&2).copied() == Some(7) && map.len() == 3);
    Ok(())
}

fn double_even(map: &mut Map) {
    map.retain(|key, value| {
        *value = value.wrapping_mul(2);
        key % 2 == 0
    });
}

#[test]
fn pairs_are_kept_or_dropped(rt: HostRuntime) -> Result<(), Fail> {
    let mut map = collected(rt.alloc(), 5)?;
    double_even(&mut map);
    assert!(rt; map.len() == 3 && !map.contains_key(&1));
    assert!(rt; map.get(&4).copied() == Some(80) && map.get(&2).copied() == Some(40));
    map.clear();
    assert!(rt; map.is_empty() && map.insert(1, 1)?.is_none() && !map.is_empty());
    Ok(())
}

fn is_same(alloc: Global, map: &Map, end: u64) -> Result<bool, TryReserveError> {
    let same = collected(alloc, end)?;
    Ok(*map == same && same == *map)
}

fn is_other(alloc: Global, map: &Map, end: u64) -> Result<bool, TryReserveError> {
    let other = collected(alloc, end)?;
    Ok(*map != other && other != *map)
}

#[test]
fn equal_maps(rt: HostRuntime) -> Result<(), Fail> {
    let mut map = TryHashMap::default(rt.alloc());
    extend(&mut map, 2, 4)?;
    extend(&mut map, 0, 3)?;
    assert!(rt; is_same(rt.alloc(), &map, 4)?);
    assert!(rt; is_other(rt.alloc(), &map, 3)?);
    assert!(rt; write(&mut map, 3, 1) && is_other(rt.alloc(), &map, 4)?);
    Ok(())
}

// Reservations that pass the greatest length, and more bytes than an allocation may have.
#[test]
fn room_that_cannot_be_had(rt: HostRuntime) -> Result<(), Fail> {
    let mut map = collected(rt.alloc(), 1)?;
    let too_long = map.reserve(usize::MAX);
    assert!(rt; matches!(too_long, Err(TryReserveError::CapacityOverflow)));
    let too_many = map.reserve(usize::MAX - 1);
    assert!(rt; matches!(too_many, Err(TryReserveError::AllocError)));
    assert!(rt; map.reserve(0).is_ok() && holds_times(&map, 1, 10));
    Ok(())
}

fn reserved(map: &mut Map, more: usize) -> Result<(), TryReserveError> {
    map.reserve(more)
}

// After room for three, three insertions are Ok, whatever request is refused. The sweep refuses the requests in turn.
#[test]
fn reserved_room_is_for_so_many_keys(rt: HostRuntime) {
    let mut map = TryHashMap::default(rt.alloc());
    if reserved(&mut map, 3).is_err() {
        assert!(rt; map.is_empty());
        return;
    }
    for key in 0..3u64 {
        assert!(rt; matches!(map.insert(key, 1), Ok(None)));
    }
    assert!(rt; map.len() == 3);
}

// Ten pairs, for which the map grows twice: refused, it has none of them, or the nine that the first room is for.
#[test]
fn a_refused_extension_keeps_the_pairs_before(rt: HostRuntime) {
    let mut map = TryHashMap::default(rt.alloc());
    let is_whole = extend(&mut map, 0, 10).is_ok();
    let kept = map.len() as u64;
    assert!(rt; holds_times(&map, kept, 10));
    assert!(rt;
        if is_whole {
            kept == 10
        } else {
            kept == 0 || kept == 9
        }
    );
    match collected(rt.alloc(), 10) {
        Ok(made) => assert!(rt; holds_times(&made, 10, 10)),
        Err(error) => assert!(rt; matches!(error, TryReserveError::AllocError)),
    }
}
