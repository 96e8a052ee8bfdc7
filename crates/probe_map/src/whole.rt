//! Calls on a map as a whole: filled, held against numbers, copied, compared, extended and dropped.
use crate::Map;
use crate::alike::step;
use crate::answer::{Answer, DONE, UNKNOWN, WRONG, done_or_refused, refused, whether};
use crate::pairs::insert;
use crate::walks::{follows, is_owned_pair, is_pair};
use fc_base::{TryClone, TryReserveError};
use fc_map::map::BTreeMap;
use fc_vec::TryFromIterator;
use probe_rows::items::{Item, World, are_same};
use probe_rows::row::{Row, WORDS};
use probe_rows::stretch::{BACK, FORTH, Stretch, stretch_in};
use std::cmp::Ordering;
use std::mem;

type Pairs<'a> = Vec<(Item<'a>, Item<'a>)>;

/// The rows that make a map of another one, or of a list of pairs.
pub(crate) fn run<'a>(
    map: &mut Map<'a>,
    other: &mut Map<'a>,
    world: World<'a>,
    row: &Row,
) -> Answer {
    let number = row.number(0);
    let distance = row.number(1);
    match row.place {
        0 => swap(map, other),
        1 => copy(map, other),
        2 => compare(map, other),
        3 => done_or_refused(extend_by_map(map, other, world)),
        4 => step(map, other, world, number),
        5 => whether(refuses_copy(map, world, number, distance)),
        6 => done_or_refused(extend(map, listed(world, number, distance))),
        7 => done_or_refused(make(map, world, listed(world, number, distance))),
        8 => done_or_refused(extend(map, told(world, row))),
        9 => done_or_refused(make(map, world, told(world, row))),
        10 => extend_from_vec(map, listed(world, number, distance), number, distance),
        _ => UNKNOWN,
    }
}

/// The rows of one map alone.
pub(crate) fn run_one<'a>(map: &mut Map<'a>, world: World<'a>, row: &Row) -> Answer {
    let all = stretch_in(row, 0);
    match row.place {
        0 => Answer::Number(map.len() as u64),
        1 => whether(map.is_empty()),
        2 => clear(map),
        3 => replace_by(map, BTreeMap::new(world.alloc)),
        4 => done_or_refused(fill(map, world, all)),
        5 => whether(holds(map, all)),
        6 => whether(pops(map, all, row.number(3))),
        _ => UNKNOWN,
    }
}

/// The rows that tell what was counted.
pub(crate) fn tell(world: World<'_>, row: &Row) -> Answer {
    match row.place {
        0 => Answer::Number(world.counts.comparisons.get()),
        1 => Answer::Number(world.counts.calls.get()),
        2 => leave(world, row.number(0)),
        3 => Answer::Number(world.counts.left.get()),
        4 => lives_in(world, stretch_in(row, 0)),
        5 => forget(world),
        6 => whether(world.counts.comparisons.get() <= row.number(0)),
        _ => UNKNOWN,
    }
}

fn leave(world: World<'_>, copies: u64) -> Answer {
    world.counts.left.set(copies);
    DONE
}

fn forget(world: World<'_>) -> Answer {
    world.forget();
    DONE
}

fn clear(map: &mut Map<'_>) -> Answer {
    map.clear();
    DONE
}

fn swap<'a>(map: &mut Map<'a>, other: &mut Map<'a>) -> Answer {
    mem::swap(map, other);
    DONE
}

// The lives of the numbers' keys and values, if they are all the same.
fn lives_in(world: World<'_>, all: Stretch) -> Answer {
    let first = world.lives_of(all.first);
    for place in 0..all.count {
        if !are_same(first, world.lives_of(all.number(place))) {
            return Answer::Text("not the same");
        }
    }
    Answer::Lives([
        first.key.copies.get(),
        first.value.copies.get(),
        first.key.drops.get(),
        first.value.drops.get(),
    ])
}

/// Inserts the numbers in turn, each with its tenfold.
pub(crate) fn fill<'a>(
    map: &mut Map<'a>,
    world: World<'a>,
    all: Stretch,
) -> Result<(), TryReserveError> {
    for place in 0..all.count {
        let number = all.number(place);
        insert(map, world, number, number.wrapping_mul(10), 0)?;
    }
    Ok(())
}

/// Fills the map if it is empty; whether it has then so many pairs.
pub(crate) fn is_filled<'a>(map: &mut Map<'a>, world: World<'a>, all: Stretch) -> bool {
    let is_whole = !map.is_empty() || fill(map, world, all).is_ok();
    is_whole && map.len() as u64 == all.count
}

// The old map is dropped.
fn replace_by<'a>(map: &mut Map<'a>, new: Map<'a>) -> Answer {
    drop(mem::replace(map, new));
    DONE
}

/// Whether a new map is made of the numbers. Nothing is counted by then.
pub(crate) fn is_fresh<'a>(map: &mut Map<'a>, world: World<'a>, all: Stretch) -> bool {
    replace_by(map, BTreeMap::new(world.alloc));
    let is_filled = fill(map, world, all).is_ok();
    world.counts.comparisons.set(0);
    is_filled
}

// Whether the map has these numbers, each with its tenfold, seen from both ends.
fn holds(map: &Map<'_>, all: Stretch) -> bool {
    follows(&mut map.iter(), all, FORTH)
        && follows(&mut map.iter(), all, BACK)
        && map.len() as u64 == all.count
}

fn copy<'a>(map: &Map<'a>, other: &mut Map<'a>) -> Answer {
    match map.try_clone() {
        Ok(copy) => {
            replace_by(other, copy);
            whether(*map == *other)
        }
        Err(e) => refused(e),
    }
}

// How the map stands to the other one, if all comparisons agree.
fn compare<'a>(map: &Map<'a>, other: &Map<'a>) -> Answer {
    let order = map.cmp(other);
    if !agree(map, other, order) {
        WRONG
    } else if order.is_lt() {
        Answer::Text("less")
    } else if order.is_gt() {
        Answer::Text("greater")
    } else {
        Answer::Text("equal")
    }
}

fn agree<'a>(map: &Map<'a>, other: &Map<'a>, order: Ordering) -> bool {
    map.partial_cmp(other) == Some(order)
        && other.cmp(map) == order.reverse()
        && (*map == *other) == order.is_eq()
        && (*map < *other) == order.is_lt()
        && (*map > *other) == order.is_gt()
}

fn push<'a>(
    all: &mut Pairs<'a>,
    world: World<'a>,
    number: u64,
    value: u64,
    tag: u64,
) -> Result<(), TryReserveError> {
    all.push((world.key(number, tag), world.value(number, value)))?;
    Ok(())
}

// The numbers below the count, each with its tenfold: from 0 on, always so many on, and round.
fn listed<'a>(world: World<'a>, count: u64, step: u64) -> Result<Pairs<'a>, TryReserveError> {
    let mut all = Vec::new(world.alloc);
    for place in 0..count {
        let number = place.wrapping_mul(step) % count;
        push(&mut all, world, number, number.wrapping_mul(10), 0)?;
    }
    Ok(all)
}

// The pairs that the words tell, tagged by their places from 1 on.
fn told<'a>(world: World<'a>, row: &Row) -> Result<Pairs<'a>, TryReserveError> {
    let mut all = Vec::new(world.alloc);
    for place in 0..WORDS / 2 {
        if place * 2 + 1 < row.given {
            let (number, value) = (row.number(place * 2), row.number(place * 2 + 1));
            push(&mut all, world, number, value, place as u64 + 1)?;
        }
    }
    Ok(all)
}

fn extend<'a>(
    map: &mut Map<'a>,
    pairs: Result<Pairs<'a>, TryReserveError>,
) -> Result<(), TryReserveError> {
    map.try_extend(pairs?)
}

fn extend_by_map<'a>(
    map: &mut Map<'a>,
    other: &mut Map<'a>,
    world: World<'a>,
) -> Result<(), TryReserveError> {
    map.try_extend(mem::replace(other, BTreeMap::new(world.alloc)))
}

// Extends by a vector of the listed numbers, which comes back whole where it is refused.
fn extend_from_vec<'a>(
    map: &mut Map<'a>,
    pairs: Result<Pairs<'a>, TryReserveError>,
    count: u64,
    step: u64,
) -> Answer {
    let pairs = match pairs {
        Ok(pairs) => pairs,
        Err(e) => return refused(e),
    };
    match map.try_extend_from_vec(pairs) {
        Ok(()) => DONE,
        Err((back, e)) => {
            if are_listed(&back, count, step) {
                refused(e)
            } else {
                WRONG
            }
        }
    }
}

// Whether these are the pairs of `listed`.
fn are_listed(all: &Pairs<'_>, count: u64, step: u64) -> bool {
    let mut place = 0u64;
    for (key, value) in all {
        if place >= count || !is_pair(Some((key, value)), place.wrapping_mul(step) % count, 0) {
            return false;
        }
        place = place.wrapping_add(1);
    }
    place == count
}

// A new map of the pairs takes the place of the old one.
fn make<'a>(
    map: &mut Map<'a>,
    world: World<'a>,
    pairs: Result<Pairs<'a>, TryReserveError>,
) -> Result<(), TryReserveError> {
    let made = BTreeMap::try_from_iterator(world.alloc, pairs?)?;
    replace_by(map, made);
    Ok(())
}

// Whether the pairs at the ends, read and taken out, are those of the numbers: each so-manieth from the front, the others from the
// back; 0 takes all from the back.
fn pops(map: &mut Map<'_>, all: Stretch, every: u64) -> bool {
    let mut left = all;
    for turn in 0..all.count {
        let is_front = every != 0 && turn % every == 0;
        if !pops_at(map, is_front, left.end(is_front)) {
            return false;
        }
        left = left.without(is_front);
        if map.len() as u64 != left.count {
            return false;
        }
    }
    map.is_empty()
}

fn pops_at(map: &mut Map<'_>, is_front: bool, number: u64) -> bool {
    if is_front {
        is_pair(map.first_key_value(), number, 0) && is_owned_pair(map.pop_first(), number)
    } else {
        is_pair(map.last_key_value(), number, 0) && is_owned_pair(map.pop_last(), number)
    }
}

// Whether a copy is refused once so many keys and values were copied, what was copied is dropped, and the map is as it was.
fn refuses_copy(map: &Map<'_>, world: World<'_>, made: u64, count: u64) -> bool {
    world.forget();
    world.counts.left.set(made);
    let is_refused = matches!(map.try_clone(), Err(TryReserveError::CapacityOverflow));
    world.counts.left.set(u64::MAX);
    let all = Stretch {
        first: 0,
        count,
        distance: 1,
    };
    is_refused && world.dropped_copies() == Some(made) && holds(map, all)
}
