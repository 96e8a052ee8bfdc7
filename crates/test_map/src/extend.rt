//! Maps that are extended by the items of an iterator, or made of them, where memory is refused.
use crate::map::{
    Drops, Tracked, fresh_drops, pair, room_for, take_all_memory, were_all_dropped, were_dropped,
};
use crate::numbers::{Numbers, has, has_up_to, put_multiples};
use crate::sizes::{BEYOND, CAPACITY};
use fc_base::TryReserveError;
use fc_map::map::BTreeMap;
use fc_vec::TryFromIterator;
use std::alloc::{AllocError, Global};
use std::process::Abort;
use std::test::Fail;
use test_values::{Tally, Token, is_ample};

// The numbers below `count`, each with itself: from 0 on, always so many on, and round. Room that is refused is asked for once more.
fn pairs(alloc: Global, count: u64, step: u64) -> Result<Vec<(u64, u64)>, AllocError> {
    let mut all = Vec::new(alloc);
    for place in 0..count {
        let number = place.wrapping_mul(step) % count;
        if all.push((number, number)).is_err() {
            all.push((number, number))?;
        }
    }
    Ok(all)
}

// An extension, of which the tests know only what they see of it.
fn extend(map: &mut Numbers, pairs: Vec<(u64, u64)>) -> Result<(), TryReserveError> {
    map.try_extend(pairs)
}

// Whether a map of the numbers below 85, each with its threefold, was extended by a front of the pairs 37 apart and by nothing else:
// the first new number that is not there was refused.
fn is_extended_by_a_front(map: &Numbers) -> bool {
    let mut is_front = true;
    for place in 0..170u64 {
        let number = place.wrapping_mul(37) % 170;
        is_front = is_front && map.contains_key(&number);
        let is_right = if is_front {
            has(map, number, number)
        } else if number < 85 {
            has(map, number, number.wrapping_mul(3))
        } else {
            !map.contains_key(&number)
        };
        if !is_right {
            return false;
        }
    }
    true
}

// Whether as many pairs are there as an extension by 170 leaves: all, or fewer where the allocator refused.
fn is_told(done: Result<(), TryReserveError>, len: usize) -> bool {
    match done {
        Ok(()) => len == 170,
        Err(TryReserveError::AllocError) => len < 170,
        Err(_other) => false,
    }
}

fn keeps_the_items_before(rt: &impl Abort, alloc: Global, map: &mut Numbers) {
    if put_multiples(map, 0, 85, 3).is_err() {
        assert!(rt; !is_ample(alloc));
        return;
    }
    let Ok(items) = pairs(alloc, 170, 37) else {
        assert!(rt; !is_ample(alloc));
        return;
    };
    let done = extend(map, items);
    assert!(rt; is_told(done, map.len()) && is_extended_by_a_front(map));
}

// Each request is refused in turn by the sweep. The extension makes a third level.
#[test]
fn a_refused_extension_keeps_the_items_before(rt: HostRuntime) {
    let mut map = Numbers::new(rt.alloc());
    keeps_the_items_before(&rt, rt.alloc(), &mut map);
}

// A pair for each that counts drops, of the numbers below 170, 37 apart and round.
pub(crate) fn tracked_pairs(
    alloc: Global,
    drops: &[Drops],
) -> Result<Vec<(Token<'_>, Token<'_>)>, AllocError> {
    let mut all = room_for(alloc, drops.len())?;
    for (place, each) in drops.iter().enumerate() {
        all.push(pair((place.wrapping_mul(37) % 170) as u64, each))?;
    }
    Ok(all)
}

// Whether the map has as many of the tracked pairs as its length says, those before, and the others were dropped once. The keys
// that it is asked for count their drops in `sought`.
fn has_the_front<'a>(map: &Tracked<'a>, drops: &[Drops], sought: &'a Tally) -> bool {
    for place in 0..drops.len() {
        let is_there = place < map.len();
        let key = Token::new((place.wrapping_mul(37) % 170) as u64, sought);
        let dropped = u64::from(!is_there);
        if map.contains_key(&key) != is_there || !were_dropped(&drops[place], dropped, dropped) {
            return false;
        }
    }
    true
}

fn extend_tracked<'a>(
    map: &mut Tracked<'a>,
    items: Vec<(Token<'a>, Token<'a>)>,
) -> Result<(), TryReserveError> {
    map.try_extend(items)
}

// Extends the map, which keeps the items before; whether there was memory for the items.
fn is_extended<'a>(
    rt: &impl Abort,
    alloc: Global,
    map: &mut Tracked<'a>,
    drops: &'a [Drops],
    sought: &'a Tally,
) -> bool {
    let Ok(items) = tracked_pairs(alloc, drops) else {
        assert!(rt; !is_ample(alloc));
        return false;
    };
    let done = extend_tracked(map, items);
    assert!(rt; is_told(done, map.len()) && has_the_front(map, drops, sought));
    true
}

// Of a map that is then dropped.
fn is_extended_and_dropped(
    rt: &impl Abort,
    alloc: Global,
    drops: &[Drops],
    sought: &Tally,
) -> bool {
    let mut map = BTreeMap::new(alloc);
    is_extended(rt, alloc, &mut map, drops, sought)
}

// Each request is refused in turn by the sweep.
#[test]
fn each_item_of_an_extension_is_dropped_once(rt: HostRuntime) {
    let sought = Tally::new();
    let Ok(drops) = fresh_drops(rt.alloc(), 170) else {
        assert!(rt; !is_ample(rt.alloc()));
        return;
    };
    if is_extended_and_dropped(&rt, rt.alloc(), &drops, &sought) {
        assert!(rt; were_all_dropped(&drops, 1));
    }
}

pub(crate) fn tracked_map<'a>(
    alloc: Global,
    items: Vec<(Token<'a>, Token<'a>)>,
) -> Result<Tracked<'a>, TryReserveError> {
    BTreeMap::try_from_iterator(alloc, items)
}

// Whether a map has all pairs, or the allocator refused.
fn is_made<'a>(
    made: &Result<Tracked<'a>, TryReserveError>,
    drops: &[Drops],
    sought: &'a Tally,
) -> bool {
    match made {
        Ok(map) => map.len() == 170 && has_the_front(map, drops, sought),
        Err(e) => matches!(e, TryReserveError::AllocError),
    }
}

// Makes a map and drops it; whether there was memory for the items.
fn is_made_and_dropped(rt: &impl Abort, alloc: Global, drops: &[Drops], sought: &Tally) -> bool {
    let Ok(items) = tracked_pairs(alloc, drops) else {
        assert!(rt; !is_ample(alloc));
        return false;
    };
    let made = tracked_map(alloc, items);
    assert!(rt; is_made(&made, drops, sought));
    true
}

// Each request is refused in turn by the sweep.
#[test]
fn each_item_of_a_made_map_is_dropped_once(rt: HostRuntime) {
    let sought = Tally::new();
    let Ok(drops) = fresh_drops(rt.alloc(), 170) else {
        assert!(rt; !is_ample(rt.alloc()));
        return;
    };
    if is_made_and_dropped(&rt, rt.alloc(), &drops, &sought) {
        assert!(rt; were_all_dropped(&drops, 1));
    }
}

// Whether the map has the first numbers that fill a leaf, each with itself, and nothing else.
fn has_a_full_leaf(map: &Numbers) -> bool {
    for number in 0..CAPACITY as u64 {
        if !has(map, number, number) {
            return false;
        }
    }
    map.len() == CAPACITY
}

// Whether the map is refused an extension where there is no memory but that of the spare one, which is cleared.
fn is_refused_beside(
    alloc: Global,
    map: &mut Numbers,
    spare: &mut Numbers,
    items: Vec<(u64, u64)>,
) -> Result<bool, TryReserveError> {
    let held = take_all_memory(alloc)?;
    let has_none = !is_ample(alloc);
    spare.clear();
    let done = extend(map, items);
    drop(held);
    Ok(has_none && matches!(done, Err(TryReserveError::AllocError)))
}

fn keeps_a_leaf(
    rt: &impl Abort,
    alloc: Global,
    map: &mut Numbers,
    spare: &mut Numbers,
) -> Result<(), Fail> {
    put_multiples(spare, 0, 1, 1)?;
    let items = pairs(alloc, 30, 1)?;
    assert!(rt; is_refused_beside(alloc, map, spare, items)?);
    assert!(rt; has_a_full_leaf(map));
    Ok(())
}

// There is memory for one leaf alone: that of a map that was cleared. The clause allows an empty map too, where a first item may be
// refused. A run that gets its memory from elsewhere, as one without proof does, would show nothing, and fails.
#[test]
fn a_refused_extension_of_an_empty_map_keeps_a_leaf_not_in_a_trial(
    rt: HostRuntime,
) -> Result<(), Fail> {
    let mut map = Numbers::new(rt.alloc());
    let mut spare = Numbers::new(rt.alloc());
    keeps_a_leaf(&rt, rt.alloc(), &mut map, &mut spare)
}

// The three numbers from that which fills a leaf on, each with itself.
fn three_pairs(alloc: Global) -> Result<Vec<(u64, u64)>, AllocError> {
    let mut all = Vec::with_capacity(alloc, 3)?;
    for number in [CAPACITY as u64, BEYOND, BEYOND + 1] {
        all.push((number, number))?;
    }
    Ok(all)
}

fn fills_the_leaf(
    rt: &impl Abort,
    alloc: Global,
    map: &mut Numbers,
    spare: &mut Numbers,
) -> Result<(), Fail> {
    put_multiples(map, 1, CAPACITY as u64, 1)?;
    let items = three_pairs(alloc)?;
    assert!(rt; is_refused_beside(alloc, map, spare, items)?);
    assert!(rt; has_up_to(map, CAPACITY as u64));
    Ok(())
}

// The leaf has room for one pair, so the first of three goes in and the second, which is the first to take memory, is refused; the spare map has none. A run that
// gets its memory from elsewhere, as one without proof does, would show nothing, and fails.
#[test]
fn a_refused_extension_fills_the_leaf_not_in_a_trial(rt: HostRuntime) -> Result<(), Fail> {
    let mut map = Numbers::new(rt.alloc());
    let mut spare = Numbers::new(rt.alloc());
    fills_the_leaf(&rt, rt.alloc(), &mut map, &mut spare)
}
