//! Many items that come in each order, some of equal keys, put into a map and a set: of equal keys the first stays, with the last value.
use fc_base::TryReserveError;
use fc_map::map::BTreeMap;
use fc_set::set::BTreeSet;
use fc_vec::TryFromIterator;
use std::alloc::{AllocError, Global};
use std::test::Fail;
use test_values::Tagged;

// So many items that some are gathered twice, and so many numbers at most.
const ITEMS: u64 = 12_000;

const NUMBERS: usize = 8_000;

// The number of the item at the place: 37 apart and round, down, in two runs, or up but for one in a hundred.
fn number_at(order: u64, place: u64) -> u64 {
    match order {
        0 => place.wrapping_mul(37) % 4_000,
        1 => 7_999u64.wrapping_sub(place % 8_000),
        2 => place % 6_000,
        _ => {
            let even = place / 2;
            if even % 100 == 0 { even / 2 } else { even }
        }
    }
}

fn key_at(order: u64, place: u64) -> Tagged {
    let letter = if place % 3 == 0 { 'a' } else { 'b' };
    Tagged::new(number_at(order, place), letter)
}

// What a plain list tells of the items: for each number the places of the first item and of the last one, counted from one.
#[derive(Drop)]
struct Plain {
    first: Vec<u64>,
    last: Vec<u64>,
}

impl Plain {
    fn try_new(alloc: Global) -> Result<Plain, AllocError> {
        let mut first = Vec::new(alloc);
        let mut last = Vec::new(alloc);
        for _number in 0..NUMBERS {
            first.push(0u64)?;
            last.push(0u64)?;
        }
        Ok(Plain { first, last })
    }

    fn note(&mut self, number: u64, place: u64) {
        let at = number as usize;
        if at < self.first.len() && at < self.last.len() {
            if self.first[at] == 0 {
                self.first[at] = place.wrapping_add(1);
            }
            self.last[at] = place.wrapping_add(1);
        }
    }

    // How many numbers there are.
    fn count(&self) -> usize {
        self.first.iter().filter(|place| **place > 0).count()
    }
}

fn told(alloc: Global, order: u64) -> Result<Plain, AllocError> {
    let mut plain = Plain::try_new(alloc)?;
    for place in 0..ITEMS {
        plain.note(number_at(order, place), place);
    }
    Ok(plain)
}

// Whether the pair is the one that the list tells: the first key of its number, and the last value.
fn is_told(plain: &Plain, order: u64, key: &Tagged, value: u64) -> bool {
    let at = key.number as usize;
    match (plain.first.get(at), plain.last.get(at)) {
        (Some(first), Some(last)) => {
            let wanted = key_at(order, first.wrapping_sub(1));
            *first > 0 && key.is(wanted.number, wanted.letter) && last.wrapping_sub(1) == value
        }
        _ => false,
    }
}

fn is_right_map(alloc: Global, order: u64) -> Result<bool, TryReserveError> {
    let plain = told(alloc, order)?;
    let items = (0..ITEMS).map(|place| (key_at(order, place), place));
    let map: BTreeMap<Tagged, u64> = BTreeMap::try_from_iterator(alloc, items)?;
    let mut walk = map.iter();
    let mut before = None;
    for _pair in 0..map.len() {
        let Some((key, value)) = walk.next() else {
            return Ok(false);
        };
        if !is_told(&plain, order, key, *value) || before >= Some(key.number) {
            return Ok(false);
        }
        before = Some(key.number);
    }
    Ok(map.len() == plain.count())
}

// A set of which some of the items are there before.
fn is_right_set(alloc: Global, order: u64) -> Result<bool, TryReserveError> {
    let plain = told(alloc, order)?;
    let mut set = BTreeSet::new(alloc);
    for place in 0..100 {
        set.try_insert(key_at(order, place))?;
    }
    let mut items = Vec::new(alloc);
    for place in 0..ITEMS {
        items.push(key_at(order, place))?;
    }
    if set.try_extend_from_vec(items).is_err() {
        return Ok(false);
    }
    let mut walk = set.iter();
    for _item in 0..set.len() {
        let Some(item) = walk.next() else {
            return Ok(false);
        };
        let last = plain.last.get(item.number as usize).copied().unwrap_or(0);
        if !is_told(&plain, order, item, last.wrapping_sub(1)) {
            return Ok(false);
        }
    }
    Ok(set.len() == plain.count())
}

#[test]
fn many_pairs_in_each_order_leave_the_first_key_and_the_last_value(
    rt: HostRuntime,
) -> Result<(), Fail> {
    for order in 0..4 {
        assert!(rt; is_right_map(rt.alloc(), order)?);
    }
    Ok(())
}

#[test]
fn many_items_in_each_order_leave_the_first(rt: HostRuntime) -> Result<(), Fail> {
    for order in 0..4 {
        assert!(rt; is_right_set(rt.alloc(), order)?);
    }
    Ok(())
}
