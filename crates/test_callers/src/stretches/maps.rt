//! Pairs of a range of a map: which were asked and in which order, what is left, and that the map takes pairs again.
ghost use Rattle.std.specs.Prelude.{◌<◌};

use super::rules::{Rule, count_gone, count_within, goes, lies_within, rule_of};
use fc_base::TryReserveError;
use fc_map::map::BTreeMap;
use std::alloc::Global;
use std::ops::Bound;
use std::test::Fail;

type Numbers = BTreeMap<u64, u64>;

// The numbers below the end, each with its double.
fn doubles(alloc: Global, end: u64) -> Result<Numbers, TryReserveError> {
    let mut map = BTreeMap::new(alloc);
    put_in(&mut map, end)?;
    Ok(map)
}

// Puts the numbers below the end in, each with its double.
fn put_in(map: &mut Numbers, end: u64) -> Result<(), TryReserveError> {
    for number in 0..end {
        if let Err((_number, _double, error)) = map.try_insert(number, number.wrapping_mul(2)) {
            return Err(error);
        }
    }
    Ok(())
}

// Whether the map has a number as the rule leaves it: within, one more than its double where it stays; outside, its double.
fn is_left_right(map: &Numbers, rule: Rule, number: u64) -> bool {
    let double = number.wrapping_mul(2);
    match map.get(&number) {
        None => lies_within(rule, number) && goes(rule, number),
        Some(value) => {
            if lies_within(rule, number) {
                !goes(rule, number) && *value == double.wrapping_add(1)
            } else {
                *value == double
            }
        }
    }
}

// Whether the map has what the rule leaves of the numbers below the end, and nothing else.
fn has_what_is_left(map: &Numbers, rule: Rule, end: u64) -> bool {
    for number in 0..end {
        if !is_left_right(map, rule, number) {
            return false;
        }
    }
    let mut walked = 0usize;
    for _pair in map {
        walked = walked.wrapping_add(1);
    }
    map.len() == walked && walked.wrapping_add(count_gone(rule, end)) as u64 == end
}

// Whether all numbers below the end can be put in again, and are there.
fn takes_all_again(map: &mut Numbers, end: u64) -> Result<bool, TryReserveError> {
    put_in(map, end)?;
    Ok(map.len() as u64 == end)
}

// Whether `retain_range` asks at each number within once, in order, and leaves what the rule says.
fn retains(alloc: Global, rule: Rule, end: u64) -> Result<bool, TryReserveError> {
    let mut map = doubles(alloc, end)?;
    let mut asked = 0usize;
    let mut next = rule.first;
    let mut in_order = true;
    map.retain_range(rule.first..rule.last, |key, value| {
        in_order = in_order && *key == next;
        next = next.wrapping_add(1);
        asked = asked.wrapping_add(1);
        *value = value.wrapping_add(1);
        !goes(rule, *key)
    });
    let was_asked = in_order && asked == count_within(rule, end);
    Ok(was_asked && has_what_is_left(&map, rule, end) && takes_all_again(&mut map, end)?)
}

// The same by `extract_range_if`, which hands on those that go, each with one more than its double, before the next is asked.
fn extracts(alloc: Global, rule: Rule, end: u64) -> Result<bool, TryReserveError> {
    let mut map = doubles(alloc, end)?;
    let mut asked = 0usize;
    let mut given = 0usize;
    let mut least = 0u64;
    let mut is_right = true;
    map.extract_range_if(
        (Bound::Included(&rule.first), Bound::Excluded(&rule.last)),
        |key, value| {
            asked = asked.wrapping_add(1);
            *value = value.wrapping_add(1);
            goes(rule, *key)
        },
        |key, value| {
            let is_of_key = value == key.wrapping_mul(2).wrapping_add(1);
            is_right = is_right && is_of_key && least <= key && lies_within(rule, key);
            least = key.wrapping_add(1);
            given = given.wrapping_add(1);
        },
    );
    let was_asked = is_right && asked == count_within(rule, end);
    let was_given = given == count_gone(rule, end);
    Ok(
        was_asked
            && was_given
            && has_what_is_left(&map, rule, end)
            && takes_all_again(&mut map, end)?,
    )
}

// Both calls, by each kind.
fn is_right(alloc: Global, first: u64, last: u64, end: u64) -> Result<bool, TryReserveError> {
    for kind in 0..4 {
        let rule = rule_of(first, last, kind);
        if !retains(alloc, rule, end)? || !extracts(alloc, rule, end)? {
            return Ok(false);
        }
    }
    Ok(true)
}

// From each of these numbers on, so many of them.
fn is_right_all_along(
    alloc: Global,
    width: u64,
    step: usize,
    end: u64,
) -> Result<bool, TryReserveError>
    requires { 0 < step }
{
    for first in (0..end).step_by(step) {
        if !is_right(alloc, first, first.wrapping_add(width), end)? {
            return Ok(false);
        }
    }
    Ok(true)
}

// Maps of no pair, of one leaf, of two levels and of three: the whole, no number, and ranges at each place.
#[test]
fn the_keys_of_a_range_alone_are_asked(rt: HostRuntime) -> Result<(), Fail> {
    for end in [0, 1, 9, 15, 16, 60, 300] {
        assert!(rt; is_right(rt.alloc(), 0, end, end)?);
        assert!(rt; is_right(rt.alloc(), end, 0, end)?);
        assert!(rt; is_right(rt.alloc(), end / 3, end.wrapping_sub(end / 4), end)?);
        assert!(rt; is_right(rt.alloc(), end / 2, end.wrapping_add(9), end)?);
    }
    assert!(rt; is_right_all_along(rt.alloc(), 1, 1, 40)?);
    assert!(rt; is_right_all_along(rt.alloc(), 9, 1, 60)?);
    assert!(rt; is_right_all_along(rt.alloc(), 130, 17, 400)?);
    Ok(())
}
