//! The map under refused memory, by keys of another order, and by keys and values that count their drops.
pub(crate) mod entries;
mod given;
mod handed_back;

use crate::numbers::{Numbers, has_up_to, insert, is_lent, put_multiples};
use crate::sizes::{BEYOND, CAPACITY};
use fc_base::TryReserveError;
use fc_map::map::BTreeMap;
use std::alloc::{AllocError, Global};
use std::cmp::Reverse;
use std::process::Abort;
use std::test::Fail;
use test_values::{Tally, Token, is_ample};

pub(crate) type Tracked<'a> = BTreeMap<Token<'a>, Token<'a>>;

// What is told of the keys of one pair and of its values.
#[derive(Drop)]
pub(crate) struct Drops {
    pub(crate) key: Tally,
    pub(crate) value: Tally,
}

pub(crate) fn pair<'a>(number: u64, drops: &'a Drops) -> (Token<'a>, Token<'a>) {
    (
        Token::new(number, &drops.key),
        Token::new(number, &drops.value),
    )
}

// Inserts the numbers from 1 to the last until one is refused: how many were taken, or `None` where one was there already or refused
// by another error than that of the allocator.
fn taken_up_to(map: &mut Numbers, last: u64) -> Option<u64> {
    for present in 0..last {
        let number = present.wrapping_add(1);
        match insert(map, number, number) {
            Ok(None) => (),
            Err(TryReserveError::AllocError) => return Some(present),
            _ => return None,
        }
    }
    Some(last)
}

// Each request is refused in turn by the sweep. Of ascending numbers the 151st makes a third level.
#[test]
fn a_refused_insertion_leaves_every_pair(rt: HostRuntime) {
    let mut map = BTreeMap::new(rt.alloc());
    let taken = taken_up_to(&mut map, 151);
    assert!(rt; taken.is_some_and(|taken| has_up_to(&map, taken)));
}

// Takes blocks of one size until one is refused.
fn take_blocks(alloc: Global, size: usize, held: &mut Vec<Vec<u8>>) {
    for _ in 0..20_000 {
        let Ok(block) = Vec::with_capacity(alloc, size) else {
            return;
        };
        if held.push(block).is_err() {
            return;
        }
    }
}

// Takes blocks until every request is refused, large ones first.
pub(crate) fn take_all_memory(alloc: Global) -> Result<Vec<Vec<u8>>, AllocError> {
    let mut held = Vec::with_capacity(alloc, 60_000)?;
    let mut size = 1 << 46;
    for _ in 0..36 {
        take_blocks(alloc, size, &mut held);
        size /= 2;
    }
    for small in 1..129 {
        take_blocks(alloc, small * 8, &mut held);
    }
    Ok(held)
}

// Whether a map whose leaf has room for one number takes it and an old one, and refuses one more; and one of 150, whose first leaf has room,
// takes a lower one.
fn only_a_full_leaf_refuses(small: &mut Numbers, large: &mut Numbers) -> bool {
    matches!(insert(small, CAPACITY as u64, CAPACITY as u64), Ok(None))
        && matches!(insert(small, 5, 5), Ok(Some(5)))
        && matches!(
            insert(small, BEYOND, BEYOND),
            Err(TryReserveError::AllocError)
        )
        && matches!(insert(large, 0, 0), Ok(None))
}

fn refuses_without_memory(
    alloc: Global,
    small: &mut Numbers,
    large: &mut Numbers,
) -> Result<bool, TryReserveError> {
    put_multiples(small, 1, CAPACITY as u64, 1)?;
    put_multiples(large, 1, 151, 1)?;
    let held = take_all_memory(alloc)?;
    let is_right = !is_ample(alloc) && only_a_full_leaf_refuses(small, large);
    drop(held);
    Ok(is_right && has_up_to(small, CAPACITY as u64) && large.len() == 151)
}

fn is_refused_a_leaf(alloc: Global) -> Result<bool, TryReserveError> {
    let mut small = Numbers::new(alloc);
    let mut large = Numbers::new(alloc);
    refuses_without_memory(alloc, &mut small, &mut large)
}

// A run that gets its memory from elsewhere, as one without proof does, would show nothing, and fails.
#[test]
fn with_all_memory_refused_only_a_full_leaf_refuses_not_in_a_trial(
    rt: HostRuntime,
) -> Result<(), Fail> {
    assert!(rt; is_refused_a_leaf(rt.alloc())?);
    Ok(())
}

fn insert_reversed(map: &mut BTreeMap<Reverse<u64>, u64>, number: u64) -> bool {
    matches!(map.try_insert(Reverse(number), number), Ok(None))
}

fn remove_reversed(map: &mut BTreeMap<Reverse<u64>, u64>, number: u64) -> bool {
    map.remove(&Reverse(number)) == Some(number)
}

// Whether the map has the numbers from 100 on below 200, each with itself.
fn has_upper_half(map: &BTreeMap<Reverse<u64>, u64>) -> bool {
    for number in 0..200u64 {
        let found = map.get(&Reverse(number));
        if found.is_some() != (number >= 100) || number >= 100 && !is_lent(found, number) {
            return false;
        }
    }
    map.len() == 100
}

#[test]
fn keys_in_reversed_order(rt: HostRuntime) {
    let mut map = BTreeMap::new(rt.alloc());
    for number in 0..200u64 {
        assert!(rt; insert_reversed(&mut map, number));
    }
    for number in 0..100u64 {
        assert!(rt; remove_reversed(&mut map, number));
    }
    assert!(rt; has_upper_half(&map));
}

// Whether key and value were dropped so often.
pub(crate) fn were_dropped(drops: &Drops, key: u64, value: u64) -> bool {
    drops.key.dropped.get() == key && drops.value.dropped.get() == value
}

pub(crate) fn no_drops() -> Drops {
    Drops {
        key: Tally::new(),
        value: Tally::new(),
    }
}

// Whether each key and each value were dropped so often.
pub(crate) fn were_all_dropped(drops: &[Drops], times: u64) -> bool {
    for i in 0..drops.len() {
        if !were_dropped(&drops[i], times, times) {
            return false;
        }
    }
    true
}

// Room for so many, once more where it is refused.
pub(crate) fn room_for<T>(alloc: Global, count: usize) -> Result<Vec<T>, AllocError> {
    match Vec::with_capacity(alloc, count) {
        Ok(room) => Ok(room),
        Err(_refused) => Vec::with_capacity(alloc, count),
    }
}

pub(crate) fn fresh_drops(alloc: Global, count: usize) -> Result<Vec<Drops>, AllocError> {
    let mut all = room_for(alloc, count)?;
    for _ in 0..count {
        all.push(no_drops())?;
    }
    Ok(all)
}

// What became of a pair that was to be put in.
#[derive(Clone, Copy)]
pub(crate) enum Fate {
    PutIn,
    HandedBack,
    Lost,
}

// Whether a refused pair came back, for want of memory: neither its key nor its value was dropped by then, and each is once it is let go.
fn came_back(back: (Token<'_>, Token<'_>, TryReserveError), number: u64, drops: &Drops) -> Fate {
    let (key, value, e) = back;
    let is_told = key.number == number && matches!(e, TryReserveError::AllocError);
    let is_whole = were_dropped(drops, 0, 0);
    drop(key);
    let is_key = were_dropped(drops, 1, 0);
    drop(value);
    if is_told && is_whole && is_key && were_dropped(drops, 1, 1) {
        Fate::HandedBack
    } else {
        Fate::Lost
    }
}

fn insert_tracked<'a>(map: &mut Tracked<'a>, number: u64, drops: &'a Drops) -> Fate {
    let (key, value) = pair(number, drops);
    match map.try_insert(key, value) {
        Ok(_old) => Fate::PutIn,
        Err(back) => came_back(back, number, drops),
    }
}

// Takes the pair of the number out, with a key whose own drop is counted in `sought`.
fn remove_tracked<'a>(map: &mut Tracked<'a>, number: u64, sought: &'a Tally) {
    let _ = map.remove(&Token::new(number, sought));
}

// Inserts a pair for each that counts drops; whether each came back where it was refused, and else neither its key nor its value was dropped.
pub(crate) fn keeps_or_hands_back_each<'a>(map: &mut Tracked<'a>, drops: &'a [Drops]) -> bool {
    for i in 0..drops.len() {
        let is_right = match insert_tracked(map, i as u64, &drops[i]) {
            Fate::PutIn => were_dropped(&drops[i], 0, 0),
            Fate::HandedBack => true,
            Fate::Lost => false,
        };
        if !is_right {
            return false;
        }
    }
    true
}

// Takes sixty even ones out; whether each was dropped once.
fn drops_even_ones<'a>(map: &mut Tracked<'a>, drops: &[Drops], sought: &'a Tally) -> bool {
    for i in 0..drops.len() {
        if i < 120 && i % 2 == 0 {
            remove_tracked(map, i as u64, sought);
            if !were_dropped(&drops[i], 1, 1) {
                return false;
            }
        }
    }
    true
}

fn keeps_and_takes_out<'a>(
    rt: &impl Abort,
    map: &mut Tracked<'a>,
    drops: &'a [Drops],
    sought: &'a Tally,
) {
    assert!(rt; keeps_or_hands_back_each(map, drops));
    assert!(rt; drops_even_ones(map, drops, sought));
}

// By a map that is then dropped.
fn keeps_takes_out_and_drops(rt: &impl Abort, alloc: Global, drops: &[Drops], sought: &Tally) {
    let mut map = BTreeMap::new(alloc);
    keeps_and_takes_out(rt, &mut map, drops, sought);
}

// Each request is refused in turn by the sweep. Each key and value is in the map, of three levels, or came back, once.
#[test]
fn each_key_and_value_is_dropped_once(rt: HostRuntime) {
    let Ok(drops) = fresh_drops(rt.alloc(), 170) else {
        assert!(rt; !is_ample(rt.alloc()));
        return;
    };
    let sought = Tally::new();
    keeps_takes_out_and_drops(&rt, rt.alloc(), &drops, &sought);
    assert!(rt; were_all_dropped(&drops, 1));
}
