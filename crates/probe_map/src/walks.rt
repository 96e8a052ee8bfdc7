//! Walks from both ends, against the numbers that the map has.
use crate::Map;
use crate::answer::{Answer, UNKNOWN, whether};
use crate::whole::{fill, is_filled};
use fc_map::map::{BTreeMap, IntoIter, Iter, Keys, Values};
use probe_rows::items::{Item, World};
use probe_rows::row::Row;
use probe_rows::stretch::{
    BACK_FIRST, FORTH, MIXED, NOTHING, Stretch, Turns, stretch_in, turns_in,
};
use std::mem;

pub(crate) fn run<'a>(map: &mut Map<'a>, world: World<'a>, row: &Row) -> Answer {
    let all = stretch_in(row, 0);
    let turns = turns_in(row, 3);
    match row.place {
        0 => whether(follows(&mut map.iter(), all, turns)),
        1 => whether(both_follow(map, all, turns)),
        2 => whether(is_cloned(map, all, row.number(3))),
        3 => whether(are_keys_cloned(map, all) && are_values_cloned(map, all)),
        4 => whether(is_filled(map, world, all) && owned(map, world, all, turns)),
        5 => whether(is_filled(map, world, all) && loops_take_all(map, world, all)),
        6 => whether(holds_what_it_gave(taken_out(map, world), world)),
        7 => drop_walk(taken_out(map, world), all.first),
        _ => UNKNOWN,
    }
}

/// What gives the pairs of a map, or a part of each, from both ends.
pub(crate) trait Walk {
    /// Whether it tells that so many are left, and shows the ends of them, where it can tell and show.
    fn tells(&self, left: Stretch) -> bool;

    /// Whether what it gives at an end is that of the number.
    fn gives(&mut self, is_front: bool, number: u64) -> bool;

    /// Whether it gives nothing at either end.
    fn is_met(&mut self) -> bool;
}

/// Whether a walk gives each number once, from the ends that the turns name, tells at each turn how many are left, and then gives
/// nothing at either end.
pub(crate) fn follows<W: Walk>(walk: &mut W, all: Stretch, turns: Turns) -> bool {
    gives_some(walk, all, turns, all.count) && walk.is_met() && walk.is_met() && walk.is_met()
}

/// Whether a walk gives so many of the numbers, and tells then what is left.
pub(crate) fn gives_some<W: Walk>(walk: &mut W, all: Stretch, turns: Turns, times: u64) -> bool {
    let mut left = all;
    for turn in 0..times {
        let is_front = turns.is_front(turn);
        if !walk.tells(left) || !walk.gives(is_front, left.end(is_front)) {
            return false;
        }
        left = left.without(is_front);
    }
    walk.tells(left)
}

/// Whether a walk and its clone each give what is left.
pub(crate) fn both_go_on<W: Walk>(walk: &mut W, clone: &mut W, left: Stretch) -> bool {
    follows(clone, left, BACK_FIRST) && follows(walk, left, FORTH)
}

/// Whether it is the pair of the number: its tenfold, and so much more.
pub(crate) fn is_pair(item: Option<(&Item<'_>, &Item<'_>)>, number: u64, more: u64) -> bool {
    match item {
        Some((key, value)) => {
            key.counted.number == number
                && value.counted.number == number.wrapping_mul(10).wrapping_add(more)
        }
        None => false,
    }
}

pub(crate) fn is_owned_pair(item: Option<(Item<'_>, Item<'_>)>, number: u64) -> bool {
    match &item {
        Some((key, value)) => is_pair(Some((key, value)), number, 0),
        None => false,
    }
}

// Whether what an iterator tells of its length is just this.
fn tells(hint: (usize, Option<usize>), left: Stretch) -> bool {
    match hint {
        (least, Some(most)) => least as u64 == left.count && most as u64 == left.count,
        (_, None) => false,
    }
}

impl Walk for Iter<'_, Item<'_>, Item<'_>> {
    fn tells(&self, left: Stretch) -> bool {
        self.len() as u64 == left.count && tells(self.size_hint(), left)
    }

    fn gives(&mut self, is_front: bool, number: u64) -> bool {
        let item = if is_front {
            self.next()
        } else {
            self.next_back()
        };
        is_pair(item, number, 0)
    }

    fn is_met(&mut self) -> bool {
        self.next().is_none() && self.next_back().is_none() && self.tells(NOTHING)
    }
}

impl Walk for Keys<'_, Item<'_>, Item<'_>> {
    fn tells(&self, left: Stretch) -> bool {
        self.len() as u64 == left.count && tells(self.size_hint(), left)
    }

    fn gives(&mut self, is_front: bool, number: u64) -> bool {
        let item = if is_front {
            self.next()
        } else {
            self.next_back()
        };
        match item {
            Some(key) => key.counted.number == number,
            None => false,
        }
    }

    fn is_met(&mut self) -> bool {
        self.next().is_none() && self.next_back().is_none() && self.tells(NOTHING)
    }
}

impl Walk for Values<'_, Item<'_>, Item<'_>> {
    fn tells(&self, left: Stretch) -> bool {
        self.len() as u64 == left.count && tells(self.size_hint(), left)
    }

    fn gives(&mut self, is_front: bool, number: u64) -> bool {
        let item = if is_front {
            self.next()
        } else {
            self.next_back()
        };
        match item {
            Some(value) => value.counted.number == number.wrapping_mul(10),
            None => false,
        }
    }

    fn is_met(&mut self) -> bool {
        self.next().is_none() && self.next_back().is_none() && self.tells(NOTHING)
    }
}

impl Walk for IntoIter<Item<'_>, Item<'_>> {
    fn tells(&self, left: Stretch) -> bool {
        self.len() as u64 == left.count && tells(self.size_hint(), left)
    }

    fn gives(&mut self, is_front: bool, number: u64) -> bool {
        let item = if is_front {
            self.next()
        } else {
            self.next_back()
        };
        is_owned_pair(item, number)
    }

    fn is_met(&mut self) -> bool {
        self.next().is_none() && self.next_back().is_none() && self.tells(NOTHING)
    }
}

fn both_follow(map: &Map<'_>, all: Stretch, turns: Turns) -> bool {
    follows(&mut map.keys(), all, turns) && follows(&mut map.values(), all, turns)
}

// Whether a clone and its source go on by themselves, when so many were taken at either end.
fn is_cloned(map: &Map<'_>, all: Stretch, skipped: u64) -> bool {
    let mut walk = map.iter();
    let is_skipped = gives_some(&mut walk, all, MIXED, skipped.wrapping_mul(2));
    match walk.clone() {
        Ok(mut clone) => is_skipped && both_go_on(&mut walk, &mut clone, all.within(skipped)),
        Err(_refused) => false,
    }
}

// The same of keys, when one was taken before.
fn are_keys_cloned(map: &Map<'_>, all: Stretch) -> bool {
    let mut keys = map.keys();
    let is_taken = keys.gives(true, all.first);
    match keys.clone() {
        Ok(mut clone) => is_taken && both_go_on(&mut keys, &mut clone, all.without(true)),
        Err(_refused) => false,
    }
}

// The same of values, when one was taken at the back.
fn are_values_cloned(map: &Map<'_>, all: Stretch) -> bool {
    let mut values = map.values();
    let is_taken = values.gives(false, all.end(false));
    match values.clone() {
        Ok(mut clone) => is_taken && both_go_on(&mut values, &mut clone, all.without(false)),
        Err(_refused) => false,
    }
}

// A walk over the pairs of the map, which is then empty.
fn taken_out<'a>(map: &mut Map<'a>, world: World<'a>) -> IntoIter<Item<'a>, Item<'a>> {
    mem::replace(map, BTreeMap::new(world.alloc)).into_iter()
}

fn owned<'a>(map: &mut Map<'a>, world: World<'a>, all: Stretch, turns: Turns) -> bool {
    let mut walk = taken_out(map, world);
    follows(&mut walk, all, turns)
}

// Whether loops take each pair, forth and in reverse.
fn loops_take_all<'a>(map: &mut Map<'a>, world: World<'a>, all: Stretch) -> bool {
    is_forth(taken_out(map, world), all)
        && fill(map, world, all).is_ok()
        && is_reversed(taken_out(map, world), all)
}

fn is_forth(walk: IntoIter<Item<'_>, Item<'_>>, all: Stretch) -> bool {
    let mut left = all;
    for pair in walk {
        if !is_owned_pair(Some(pair), left.first) {
            return false;
        }
        left = left.without(true);
    }
    left.count == 0
}

fn is_reversed(walk: IntoIter<Item<'_>, Item<'_>>, all: Stretch) -> bool {
    let mut left = all;
    for pair in walk.rev() {
        if !is_owned_pair(Some(pair), left.end(false)) {
            return false;
        }
        left = left.without(false);
    }
    left.count == 0
}

// Of twenty pairs three are given from the front and two from the back: the walk drops the other fifteen, and the caller these five.
fn holds_what_it_gave(walk: IntoIter<Item<'_>, Item<'_>>, world: World<'_>) -> bool {
    let mut walk = walk;
    let front = [walk.next(), walk.next(), walk.next()];
    let back = [walk.next_back(), walk.next_back()];
    let left = walk.len();
    drop(walk);
    let is_right = left == 15
        && world.were_dropped(0, 3, 0)
        && world.were_dropped(3, 15, 1)
        && world.were_dropped(18, 2, 0);
    drop(front);
    drop(back);
    is_right
}

// Drops a pair from each end, so many times, and then the walk: how many were left.
fn drop_walk(walk: IntoIter<Item<'_>, Item<'_>>, times: u64) -> Answer {
    let mut walk = walk;
    for _ in 0..times {
        let _ = walk.next();
        let _ = walk.next_back();
    }
    Answer::Number(walk.len() as u64)
}
