//! Pairs of a map within two bounds taken out, beside a plain look at each number, under all kinds of bounds.
use crate::map::{
    Drops, Tracked, fresh_drops, keeps_or_hands_back_each, no_drops, pair, were_all_dropped,
    were_dropped,
};
use crate::numbers::{Numbers, has, insert, multiples};
use fc_base::TryReserveError;
use fc_map::map::BTreeMap;
use std::alloc::Global;
use std::ops::Bound;
use std::process::Abort;
use std::test::Fail;
use test_values::{Token, is_ample};

type Ends = (Bound<u64>, Bound<u64>);

fn bound(kind: u64, number: u64) -> Bound<u64> {
    match kind {
        0 => Bound::Unbounded,
        1 => Bound::Included(number),
        _ => Bound::Excluded(number),
    }
}

// Whether a number lies within both bounds.
fn lies(ends: Ends, number: u64) -> bool {
    let starts = match ends.0 {
        Bound::Unbounded => true,
        Bound::Included(first) => first <= number,
        Bound::Excluded(first) => first < number,
    };
    let stops = match ends.1 {
        Bound::Unbounded => true,
        Bound::Included(last) => number <= last,
        Bound::Excluded(last) => number < last,
    };
    starts && stops
}

fn lent(bound: &Bound<u64>) -> Bound<&u64> {
    match bound {
        Bound::Unbounded => Bound::Unbounded,
        Bound::Included(number) => Bound::Included(number),
        Bound::Excluded(number) => Bound::Excluded(number),
    }
}

// Whether the map has each number below the end that does not lie within the bounds, with its value, and no other.
fn has_those(map: &Numbers, end: u64, ends: Ends) -> bool {
    let mut count = 0usize;
    for number in 0..end {
        if lies(ends, number) {
            if map.contains_key(&number) {
                return false;
            }
        } else {
            count = count.wrapping_add(1);
            if !has(map, number, number.wrapping_mul(2)) {
                return false;
            }
        }
    }
    let mut walked = 0usize;
    for _pair in map {
        walked = walked.wrapping_add(1);
    }
    map.len() == count && walked == count
}

fn count_within(end: u64, ends: Ends) -> usize {
    let mut count = 0usize;
    for number in 0..end {
        if lies(ends, number) {
            count = count.wrapping_add(1);
        }
    }
    count
}

// Puts all numbers in again, of which some are there; whether the map then has all.
fn puts_back(map: &mut Numbers, end: u64) -> Result<bool, TryReserveError> {
    for number in 0..end {
        let double = number.wrapping_mul(2);
        insert(map, number, double)?;
    }
    Ok(map.len() as u64 == end)
}

fn is_right_at(alloc: Global, end: u64, ends: Ends) -> Result<bool, TryReserveError> {
    let mut map = multiples(alloc, 0, end, 2)?;
    let gone = map.remove_range((lent(&ends.0), lent(&ends.1)));
    Ok(gone == count_within(end, ends) && has_those(&map, end, ends) && puts_back(&mut map, end)?)
}

// Each kind of bound at both ends, also those that are no range.
fn is_right(alloc: Global, end: u64, first: u64, last: u64) -> Result<bool, TryReserveError> {
    for kind in 0..9 {
        let ends = (bound(kind / 3, first), bound(kind % 3, last));
        if !is_right_at(alloc, end, ends)? {
            return Ok(false);
        }
    }
    Ok(true)
}

// Maps of no pair, of one leaf, of two levels and of three.
#[test]
fn the_pairs_of_a_range_alone_go(rt: HostRuntime) -> Result<(), Fail> {
    for end in [0, 1, 9, 15, 16, 100, 300] {
        let half = end / 2;
        assert!(rt; is_right(rt.alloc(), end, 0, end)?);
        assert!(rt; is_right(rt.alloc(), end, half, half)?);
        assert!(rt; is_right(rt.alloc(), end, end / 3, end.wrapping_sub(end / 4))?);
        assert!(rt; is_right(rt.alloc(), end, half.wrapping_add(3), half)?);
        assert!(rt; is_right(rt.alloc(), end, half, half.wrapping_add(40))?);
        assert!(rt; is_right(rt.alloc(), end, end, end.wrapping_add(9))?);
    }
    Ok(())
}

// Takes the keys from 40 on below 90 out, and answers whether each of these that was in the map or came back was dropped, and no other
// of the map.
fn drops_a_stretch<'a>(
    map: &mut Tracked<'a>,
    first: &Token<'a>,
    last: &Token<'a>,
    drops: &[Drops],
) -> bool {
    let was = map.len();
    let gone = map.remove_range((Bound::Included(first), Bound::Excluded(last)));
    let mut living = 0usize;
    for i in 0..drops.len() {
        if were_dropped(&drops[i], 0, 0) {
            if 40 <= i && i < 90 {
                return false;
            }
            living = living.wrapping_add(1);
        } else if !were_dropped(&drops[i], 1, 1) {
            return false;
        }
    }
    map.len() == living && living.wrapping_add(gone) == was
}

fn keeps_and_drops_a_stretch<'a>(
    rt: &impl Abort,
    map: &mut Tracked<'a>,
    first: &Token<'a>,
    last: &Token<'a>,
    drops: &'a [Drops],
) {
    assert!(rt; keeps_or_hands_back_each(map, drops));
    assert!(rt; drops_a_stretch(map, first, last, drops));
}

// Of a map that is then dropped, by bounds that count their drops too.
fn drops_a_stretch_and_the_rest(rt: &impl Abort, alloc: Global, drops: &[Drops], bounds: &Drops) {
    let (first, _value) = pair(40, bounds);
    let (last, _value) = pair(90, bounds);
    let mut map = BTreeMap::new(alloc);
    keeps_and_drops_a_stretch(rt, &mut map, &first, &last, drops);
}

// Each request is refused in turn by the sweep.
#[test]
fn those_of_a_range_are_dropped_once(rt: HostRuntime) {
    let Ok(drops) = fresh_drops(rt.alloc(), 170) else {
        assert!(rt; !is_ample(rt.alloc()));
        return;
    };
    let bounds = no_drops();
    drops_a_stretch_and_the_rest(&rt, rt.alloc(), &drops, &bounds);
    assert!(rt; were_all_dropped(&drops, 1));
}
