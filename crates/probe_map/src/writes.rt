//! Writing walks, against the numbers that the map has. What is written is one more than the tenfold.
use crate::Map;
use crate::answer::{Answer, UNKNOWN, whether};
use crate::walks::{Walk, follows, gives_some, is_pair};
use crate::whole::is_fresh;
use fc_map::map::{IterMut, RangeMut};
use probe_rows::items::{Item, World};
use probe_rows::row::Row;
use probe_rows::stretch::{BACK, FORTH, Stretch, Turns, stretch_in, turns_in};

pub(crate) fn run<'a>(map: &mut Map<'a>, world: World<'a>, row: &Row) -> Answer {
    let all = stretch_in(row, 0);
    let turns = turns_in(row, 3);
    let met = row.number(3);
    match row.place {
        0 => whether(is_fresh(map, world, all) && writes_all(map, all, turns)),
        1 => whether(is_fresh(map, world, all) && writes_values(map, all, turns)),
        2 => whether(is_fresh(map, world, all) && writes_in_two_parts(map, all, met)),
        3 => whether(overwrites(&mut map.iter_mut(), world, all.first)),
        4 => whether(is_fresh(map, world, all) && visits_all(map, all, met)),
        _ => UNKNOWN,
    }
}

fn is_among(number: u64, some: Stretch) -> bool {
    some.count > 0 && some.first <= number && number <= some.end(false)
}

/// Whether the map has the numbers, of which those of the part are written.
pub(crate) fn is_written(map: &Map<'_>, all: Stretch, part: Stretch) -> bool {
    let mut left = all;
    for pair in map {
        let number = left.first;
        if !is_pair(Some(pair), number, u64::from(is_among(number, part))) {
            return false;
        }
        left = left.without(true);
    }
    left.count == 0 && map.len() as u64 == all.count
}

// Writes to a value; whether it was lent, and is that of the number.
fn adds_one(lent: Option<&mut Item<'_>>, number: u64) -> bool {
    match lent {
        Some(value) => {
            let old = value.counted.number;
            value.counted.number = old.wrapping_add(1);
            old == number.wrapping_mul(10)
        }
        None => false,
    }
}

impl Walk for IterMut<'_, Item<'_>, Item<'_>> {
    fn tells(&self, left: Stretch) -> bool {
        self.len() as u64 == left.count && self.is_done() == (left.count == 0)
    }

    fn gives(&mut self, is_front: bool, number: u64) -> bool {
        if is_front {
            is_pair(self.peek(), number, 0) && adds_one(self.next(), number)
        } else {
            is_pair(self.peek_back(), number, 0) && adds_one(self.next_back(), number)
        }
    }

    fn is_met(&mut self) -> bool {
        self.len() == 0
            && self.is_done()
            && self.peek().is_none()
            && self.peek_back().is_none()
            && self.next().is_none()
            && self.next_back().is_none()
    }
}

// Whether an end of a walk is that of what is left.
fn is_shown(item: Option<(&Item<'_>, &Item<'_>)>, left: Stretch, is_front: bool) -> bool {
    match item {
        Some(pair) => left.count > 0 && is_pair(Some(pair), left.end(is_front), 0),
        None => left.count == 0,
    }
}

impl Walk for RangeMut<'_, Item<'_>, Item<'_>> {
    fn tells(&self, left: Stretch) -> bool {
        self.is_done() == (left.count == 0)
            && is_shown(self.peek(), left, true)
            && is_shown(self.peek_back(), left, false)
    }

    fn gives(&mut self, is_front: bool, number: u64) -> bool {
        if is_front {
            adds_one(self.next(), number)
        } else {
            adds_one(self.next_back(), number)
        }
    }

    fn is_met(&mut self) -> bool {
        self.is_done() && self.next().is_none() && self.next_back().is_none()
    }
}

fn writes_all(map: &mut Map<'_>, all: Stretch, turns: Turns) -> bool {
    follows(&mut map.iter_mut(), all, turns) && is_written(map, all, all)
}

fn writes_values(map: &mut Map<'_>, all: Stretch, turns: Turns) -> bool {
    follows(&mut map.values_mut(), all, turns) && is_written(map, all, all)
}

// So many are written from the front, by a walk that is then dropped, and the rest by another one from the back.
fn writes_in_two_parts(map: &mut Map<'_>, all: Stretch, met: u64) -> bool {
    let rest = all.count.saturating_sub(met);
    gives_some(&mut map.iter_mut(), all, FORTH, met)
        && is_written(map, all, all.front(met))
        && gives_some(&mut map.iter_mut(), all, BACK, rest)
        && is_written(map, all, all)
}

// Writes new values, whose lives are those that are sought, over so many: whether each old one is dropped once and no new one is.
fn overwrites<'a>(
    walk: &mut IterMut<'_, Item<'a>, Item<'a>>,
    world: World<'a>,
    times: u64,
) -> bool {
    for number in 0..times {
        match walk.next() {
            Some(value) => *value = world.value(u64::MAX, number),
            None => return false,
        }
        let dropped = world.lives_of(number).value.drops.get();
        if dropped != 1 || world.sought.value.drops.get() != 0 {
            return false;
        }
    }
    true
}

// Whether `for_each` visits the pairs that are left when so many were taken before.
fn visits_all(map: &mut Map<'_>, all: Stretch, taken: u64) -> bool {
    let mut walk = map.iter_mut();
    if !gives_some(&mut walk, all, FORTH, taken) {
        return false;
    }
    let mut place = taken;
    let mut right = true;
    walk.for_each(|key, value| {
        right = right && is_pair(Some((key, &*value)), all.number(place), 0);
        place = place.wrapping_add(1);
        value.counted.number = value.counted.number.wrapping_add(1);
    });
    right && place == all.count && is_written(map, all, all)
}
