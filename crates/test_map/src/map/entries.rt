//! Entries of numbers, by keys that count their comparisons, and under refused memory.
use super::*;
use crate::numbers::{has, multiples};
use fc_map::map::Entry;
use std::cell::Cell;
use test_values::{CountingKey, add_one};

// A value of its type's own, where there is none, at one number of a new map.
fn is_default_put(alloc: Global) -> Result<bool, TryReserveError> {
    let mut map: Numbers = BTreeMap::new(alloc);
    let is_zero = *map.try_entry(3)?.or_default()? == 0;
    Ok(is_zero && map.len() == 1)
}

#[test]
fn a_default_is_put_at_a_vacant_entry(rt: HostRuntime) -> Result<(), Fail> {
    assert!(rt; is_default_put(rt.alloc())?);
    Ok(())
}

// Whether an occupied entry gives the old value and then the pair, written over twice.
fn gives_old_value_and_pair(map: &mut Numbers) -> Result<bool, TryReserveError> {
    match map.try_entry(3)? {
        Entry::Vacant(_entry) => Ok(false),
        Entry::Occupied(mut entry) => {
            let is_old = *entry.key() == 3 && entry.insert(15) == 12 && *entry.get() == 15;
            *entry.get_mut() = 16;
            let (key, value) = entry.remove_entry();
            Ok(is_old && key == 3 && value == 16)
        }
    }
}

#[test]
fn an_occupied_entry_gives_the_old_value_and_the_pair(rt: HostRuntime) -> Result<(), Fail> {
    let mut map = multiples(rt.alloc(), 3, 4, 4)?;
    assert!(rt; gives_old_value_and_pair(&mut map)? && map.is_empty());
    Ok(())
}

// Fills the gap at the vacant number, and writes 7 to the value where it was put.
fn fills(map: &mut Numbers, number: u64) -> Result<bool, TryReserveError> {
    match map.try_entry(number)? {
        Entry::Vacant(entry) => {
            let is_key = *entry.key() == number;
            let value = entry.try_insert(0)?;
            let is_put = *value == 0;
            *value = 7;
            Ok(is_key && is_put)
        }
        Entry::Occupied(_entry) => Ok(false),
    }
}

// The even numbers from 2 on that fill a leaf, each with its place.
fn even_ones(alloc: Global) -> Result<Numbers, TryReserveError> {
    let mut map = BTreeMap::new(alloc);
    for below in 0..CAPACITY as u64 {
        insert(&mut map, 2 * below + 2, below)?;
    }
    Ok(map)
}

fn has_even_ones(map: &Numbers) -> bool {
    for below in 0..CAPACITY as u64 {
        if !has(map, 2 * below + 2, below) {
            return false;
        }
    }
    true
}

// Each gap of a full leaf is filled, on a map of its own, and the new value written where it was put.
#[test]
fn each_gap_of_a_full_leaf_is_filled(rt: HostRuntime) -> Result<(), Fail> {
    for gap in 0..BEYOND {
        let mut map = even_ones(rt.alloc())?;
        assert!(rt; fills(&mut map, 2 * gap + 1)? && has(&map, 2 * gap + 1, 7));
        assert!(rt; map.len() == CAPACITY + 1 && has_even_ones(&map));
    }
    Ok(())
}

type Counted<'a> = BTreeMap<CountingKey<'a>, u64>;

// A map of the numbers from 1 to 151, each with itself: three levels.
fn three_levels<'a>(
    alloc: Global,
    comparisons: &'a Cell<u64>,
) -> Result<Counted<'a>, TryReserveError> {
    let mut map = BTreeMap::new(alloc);
    for below in 0..151u64 {
        let key = CountingKey {
            number: below + 1,
            comparisons,
        };
        map.try_insert(key, below + 1)?;
    }
    Ok(map)
}

// How many comparisons a look-up of the key makes, and whether it is there. They are then forgotten.
fn look_up<'a>(map: &Counted<'a>, key: &CountingKey<'a>) -> (u64, bool) {
    key.comparisons.set(0);
    let is_there = map.contains_key(key);
    (key.comparisons.replace(0), is_there)
}

// How many comparisons the search for the key's entry made, whether it was there, and the value that the entry put in or took out.
fn enter<'a>(
    map: &mut Counted<'a>,
    key: CountingKey<'a>,
) -> Result<(u64, bool, u64), TryReserveError> {
    match map.try_entry(key)? {
        Entry::Vacant(entry) => {
            let made = key.comparisons.get();
            let value = *entry.try_insert(key.number).map_err(|back| back.2)?;
            Ok((made, false, value))
        }
        Entry::Occupied(entry) => Ok((key.comparisons.get(), true, entry.remove())),
    }
}

// The search makes the comparisons of a look-up; the insertion or the removal that follows makes none.
#[test]
fn an_entry_compares_in_its_search_alone(rt: HostRuntime) -> Result<(), Fail> {
    let comparisons = Cell::new(0);
    for number in 0..153u64 {
        let mut map = three_levels(rt.alloc(), &comparisons)?;
        let key = CountingKey {
            number,
            comparisons: &comparisons,
        };
        let (expected, is_there) = look_up(&map, &key);
        let (made, was_there, value) = enter(&mut map, key)?;
        assert!(rt; made == expected);
        assert!(rt; was_there == is_there);
        assert!(rt; value == number);
        assert!(rt; comparisons.get() == expected);
    }
    Ok(())
}

// Pairs are kept and taken out by their numbers, and then those at both ends.
fn take_by_numbers<'a>(map: &mut Counted<'a>) {
    map.retain(|key, _value| key.number % 3 > 0);
    map.extract_if(|key, _value| key.number % 5 == 0, |_key, _value| ());
    if let Some(first) = map.first_entry() {
        let _value = first.remove();
    }
    if let Some(last) = map.last_entry() {
        let _value = last.remove();
    }
}

// What searches for no key compares none; nor does an insertion that is made ready, after the search for its entry.
#[test]
fn what_searches_for_no_key_compares_none(rt: HostRuntime) -> Result<(), Fail> {
    let comparisons = Cell::new(0);
    let mut map = three_levels(rt.alloc(), &comparisons)?;
    comparisons.set(0);
    take_by_numbers(&mut map);
    assert!(rt; comparisons.get() == 0 && map.len() == 79);
    let key = CountingKey {
        number: 75,
        comparisons: &comparisons,
    };
    let (expected, is_there) = look_up(&map, &key);
    if let Entry::Vacant(entry) = map.try_entry(key)? {
        let Ok(_value) = entry.try_ready().map_err(|back| back.1)?.insert(75);
    }
    assert!(rt; !is_there && comparisons.get() == expected);
    Ok(())
}

// Fills the number's entry by a closure that counts its calls.
fn fill_entry<'a>(
    map: &mut Tracked<'a>,
    number: u64,
    drops: &'a Drops,
    calls: &Cell<u64>,
) -> Result<Fate, TryReserveError> {
    let key = Token::new(number, &drops.key);
    let filled = map.try_entry(key)?.or_try_insert_with(|| {
        add_one(calls);
        Token::new(number, &drops.value)
    });
    match filled {
        Ok(_lent) => Ok(Fate::PutIn),
        Err(back) => Ok(came_back(back, number, drops)),
    }
}

// The numbers from 1 on, whose drops are counted together. What came back where it was refused goes in once more; `None` where that is refused too.
fn tracked_up_to<'a>(alloc: Global, last: usize, kept: &'a Drops) -> Option<Tracked<'a>> {
    let mut map = BTreeMap::new(alloc);
    for number in 0..last {
        let (key, value) = pair((number + 1) as u64, kept);
        if let Err((key, value, _refused)) = map.try_insert(key, value) {
            if map.try_insert(key, value).is_err() {
                return None;
            }
        }
    }
    Some(map)
}

// A run that gets its memory from elsewhere, as one without proof does, would show nothing, and fails.
#[test]
fn a_refused_entry_calls_its_closure_once_and_hands_its_value_back_not_in_a_trial(
    rt: HostRuntime,
) -> Result<(), Fail> {
    let (kept, refused) = (no_drops(), no_drops());
    let calls = Cell::new(0);
    let Some(mut map) = tracked_up_to(rt.alloc(), CAPACITY, &kept) else {
        assert!(rt; false);
        return Ok(());
    };
    let held = take_all_memory(rt.alloc())?;
    let has_none = !is_ample(rt.alloc());
    let fate = fill_entry(&mut map, 0, &refused, &calls);
    drop(held);
    assert!(rt; has_none && matches!(fate, Ok(Fate::HandedBack)) && calls.get() == 1);
    assert!(rt; map.len() == CAPACITY && were_dropped(&kept, 0, 0));
    Ok(())
}

// Whether a map has the numbers from 1 to the last, and nothing else.
fn has_tracked_up_to<'a>(map: &Tracked<'a>, last: usize, sought: &'a Tally) -> bool {
    for number in 1..200 {
        let key = Token::new(number as u64, sought);
        if map.contains_key(&key) != (number <= last) {
            return false;
        }
    }
    map.len() == last
}

// Whether the entry after the last number is filled, or refused and its key and value came back, and all pairs stay. Where there is no memory for
// the map nothing is shown.
fn leaves_every_pair(alloc: Global, last: usize) -> Result<bool, TryReserveError> {
    let (kept, new, sought) = (no_drops(), no_drops(), no_drops());
    let calls = Cell::new(0);
    let Some(mut map) = tracked_up_to(alloc, last, &kept) else {
        return Ok(!is_ample(alloc));
    };
    let (length, dropped) = match fill_entry(&mut map, last.wrapping_add(1) as u64, &new, &calls)? {
        Fate::PutIn => (last.wrapping_add(1), 0),
        Fate::HandedBack => (last, 1),
        Fate::Lost => return Ok(false),
    };
    let has_all = has_tracked_up_to(&map, length, &sought.key);
    Ok(
        has_all
            && calls.get() == 1
            && were_dropped(&new, dropped, dropped)
            && were_dropped(&kept, 0, 0),
    )
}

// Each request is refused in turn by the sweep.
#[test]
fn a_refused_entry_leaves_every_pair(rt: HostRuntime) -> Result<(), Fail> {
    for last in [CAPACITY, CAPACITY + 1, 150] {
        assert!(rt; leaves_every_pair(rt.alloc(), last)?);
    }
    Ok(())
}
