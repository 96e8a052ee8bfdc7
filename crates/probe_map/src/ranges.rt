//! Ranges from both ends, against the numbers that their bounds let in.
use crate::Map;
use crate::answer::{Answer, UNKNOWN, number_if, whether};
use crate::walks::{Walk, both_go_on, follows, gives_some, is_pair};
use crate::whole::is_fresh;
use crate::writes::is_written;
use fc_map::map::{Range, is_range};
use probe_rows::items::{Item, World};
use probe_rows::row::Row;
use probe_rows::stretch::{BACK, BACK_FIRST, FORTH, MIXED, RAGGED, Stretch, Turns, stretch_in};
use std::cell::Cell;
use std::ops::Bound;

/// Both bounds of a range: their marks, and keys of their numbers.
#[derive(Drop)]
struct Bounds<'a> {
    lo: u8,
    hi: u8,
    lo_key: Item<'a>,
    hi_key: Item<'a>,
}

const INCLUDED: u8 = b'=';

const EXCLUDED: u8 = b'!';

impl<'a> Bounds<'a> {
    fn lo(&self) -> Bound<&Item<'a>> {
        with_key(self.lo, &self.lo_key)
    }

    fn hi(&self) -> Bound<&Item<'a>> {
        with_key(self.hi, &self.hi_key)
    }

    fn comparisons(&self) -> &Cell<u64> {
        &self.lo_key.counts.comparisons
    }

    // Whether upstream takes these bounds.
    fn are_taken(&self) -> bool {
        let (lo, hi) = (self.lo_key.counted.number, self.hi_key.counted.number);
        let is_one_included = self.lo == INCLUDED || self.hi == INCLUDED;
        self.lo == 0 || self.hi == 0 || lo < hi || lo == hi && is_one_included
    }

    fn let_in_number(&self, number: u64) -> bool {
        let (lo, hi) = (self.lo_key.counted.number, self.hi_key.counted.number);
        let is_after = self.lo == 0 || lo < number || lo == number && self.lo == INCLUDED;
        let is_before = self.hi == 0 || number < hi || number == hi && self.hi == INCLUDED;
        is_after && is_before
    }

    // The numbers that both let in.
    fn let_in(&self, all: Stretch) -> Stretch {
        let mut found = all.front(0);
        for place in 0..all.count {
            let number = all.number(place);
            if self.let_in_number(number) {
                if found.count == 0 {
                    found.first = number;
                }
                found.count = found.count.wrapping_add(1);
            }
        }
        found
    }
}

fn with_key<'b, 'a>(mark: u8, key: &'b Item<'a>) -> Bound<&'b Item<'a>> {
    if mark == INCLUDED {
        Bound::Included(key)
    } else if mark == EXCLUDED {
        Bound::Excluded(key)
    } else {
        Bound::Unbounded
    }
}

pub(crate) fn run<'a>(map: &mut Map<'a>, world: World<'a>, row: &Row) -> Answer {
    let bounds = Bounds {
        lo: row.bound(0),
        hi: row.bound(1),
        lo_key: world.sought(row.number(0)),
        hi_key: world.sought(row.number(1)),
    };
    let all = stretch_in(row, 2);
    let wanted = bounds.let_in(all);
    match row.place {
        0 => range(map, &bounds, wanted),
        1 => whether(is_cloned(map, &bounds, wanted, row.number(5))),
        2 => {
            let is_forth = is_lent(map, world, &bounds, all, FORTH);
            let is_right = is_forth && is_lent(map, world, &bounds, all, BACK);
            number_if(is_right, wanted.count)
        }
        3 => number_if(is_visited(map, world, &bounds, all), wanted.count),
        4 => costs(map, &bounds),
        _ => UNKNOWN,
    }
}

// How many pairs lie between the bounds, if each form of the range gives just these: none where upstream does not take the bounds.
fn range<'a>(map: &Map<'a>, bounds: &Bounds<'a>, wanted: Stretch) -> Answer {
    let is_taken = bounds.are_taken();
    let is_right = is_range(&bounds.lo(), &bounds.hi()) == is_taken
        && meets(map, bounds, wanted, FORTH)
        && meets(map, bounds, wanted, BACK)
        && meets(map, bounds, wanted, BACK_FIRST)
        && meets(map, bounds, wanted, RAGGED);
    if is_right && !is_taken {
        return Answer::Text("-");
    }
    number_if(is_right, wanted.count)
}

impl Walk for Range<'_, Item<'_>, Item<'_>> {
    fn tells(&self, _left: Stretch) -> bool {
        true
    }

    fn gives(&mut self, is_front: bool, number: u64) -> bool {
        let item = if is_front {
            self.next()
        } else {
            self.next_back()
        };
        is_pair(item, number, 0)
    }

    fn is_met(&mut self) -> bool {
        self.next().is_none() && self.next_back().is_none() && self.next().is_none()
    }
}

// Whether the range between the bounds gives the numbers. Its steps compare nothing.
fn meets<'a>(map: &Map<'a>, bounds: &Bounds<'a>, wanted: Stretch, turns: Turns) -> bool {
    let (lo, hi) = (bounds.lo(), bounds.hi());
    let comparisons = bounds.comparisons();
    let mut range = map.range((lo, hi));
    comparisons.set(0);
    follows(&mut range, wanted, turns) && comparisons.get() == 0
}

// How many comparisons it takes to find a range, if it takes a writing one as many, and one whose pairs all stay.
fn costs<'a>(map: &mut Map<'a>, bounds: &Bounds<'a>) -> Answer {
    let comparisons = bounds.comparisons();
    comparisons.set(0);
    drop(map.range((bounds.lo(), bounds.hi())));
    let reading = comparisons.get();
    comparisons.set(0);
    drop(map.range_mut((bounds.lo(), bounds.hi())));
    let writing = comparisons.get();
    comparisons.set(0);
    map.retain_range((bounds.lo(), bounds.hi()), |_key, _value| true);
    number_if(reading == writing && reading == comparisons.get(), reading)
}

// Whether a clone and its source each give what is left when so many were taken at either end, and compare nothing.
fn is_cloned<'a>(map: &Map<'a>, bounds: &Bounds<'a>, wanted: Stretch, skipped: u64) -> bool {
    let (lo, hi) = (bounds.lo(), bounds.hi());
    let comparisons = bounds.comparisons();
    let mut range = map.range((lo, hi));
    comparisons.set(0);
    let is_skipped = gives_some(&mut range, wanted, MIXED, skipped.wrapping_mul(2));
    let is_right = match range.clone() {
        Ok(mut clone) => is_skipped && both_go_on(&mut range, &mut clone, wanted.within(skipped)),
        Err(_refused) => false,
    };
    is_right && comparisons.get() == 0
}

// Whether a range of a new map lends the values of the numbers alone, from an end.
fn is_lent<'a>(
    map: &mut Map<'a>,
    world: World<'a>,
    bounds: &Bounds<'a>,
    all: Stretch,
    turns: Turns,
) -> bool {
    let wanted = bounds.let_in(all);
    is_fresh(map, world, all) && writes(map, bounds, wanted, turns) && is_written(map, all, wanted)
}

// Only the searches for the two ends compare.
fn writes<'a>(map: &mut Map<'a>, bounds: &Bounds<'a>, wanted: Stretch, turns: Turns) -> bool {
    let (lo, hi) = (bounds.lo(), bounds.hi());
    let comparisons = bounds.comparisons();
    let mut walk = map.range_mut((lo, hi));
    comparisons.set(0);
    follows(&mut walk, wanted, turns) && comparisons.get() == 0
}

// Whether `for_each` visits the values of a range of a new map.
fn is_visited<'a>(map: &mut Map<'a>, world: World<'a>, bounds: &Bounds<'a>, all: Stretch) -> bool {
    let wanted = bounds.let_in(all);
    is_fresh(map, world, all) && visits(map, bounds, wanted) && is_written(map, all, wanted)
}

fn visits<'a>(map: &mut Map<'a>, bounds: &Bounds<'a>, wanted: Stretch) -> bool {
    let (lo, hi) = (bounds.lo(), bounds.hi());
    let mut place = 0u64;
    let mut right = true;
    map.range_mut((lo, hi)).for_each(|key, value| {
        right = right && is_pair(Some((key, &*value)), wanted.number(place), 0);
        place = place.wrapping_add(1);
        value.counted.number = value.counted.number.wrapping_add(1);
    });
    right && place == wanted.count
}
