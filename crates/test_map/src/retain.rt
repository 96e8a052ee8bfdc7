//! Pairs that stay and pairs that are taken out, by their keys: which were asked and in which order, what is left, and that it takes
//! pairs again.
use crate::map::{
    Drops, Tracked, fresh_drops, keeps_or_hands_back_each, were_all_dropped, were_dropped,
};
use crate::numbers::{Numbers, insert, multiples};
use fc_base::TryReserveError;
use fc_map::map::BTreeMap;
use std::alloc::Global;
use std::process::Abort;
use std::test::Fail;
use test_values::is_ample;

// Which numbers stay: those with these bits in the mask, or those without them.
#[derive(Clone, Copy)]
struct Rule {
    mask: u64,
    bits: u64,
    is_turned: bool,
}

fn stays(rule: Rule, number: u64) -> bool {
    (number & rule.mask == rule.bits) != rule.is_turned
}

fn count_of(end: u64, rule: Rule) -> usize {
    let mut count = 0usize;
    for number in 0..end {
        if stays(rule, number) {
            count = count.wrapping_add(1);
        }
    }
    count
}

// Whether the map has the numbers below the end that stay, each with one more than its double, and nothing else: so many as stay, in
// ascending order.
fn has_those(map: &Numbers, end: u64, rule: Rule) -> bool {
    let mut least = 0u64;
    for (key, value) in map {
        let is_right = least <= *key && *key < end && stays(rule, *key);
        if !is_right || *value != key.wrapping_mul(2).wrapping_add(1) {
            return false;
        }
        least = key.wrapping_add(1);
    }
    map.len() == count_of(end, rule)
}

// Puts the numbers below the end in that do not stay; whether each was new.
fn puts_back(map: &mut Numbers, end: u64, rule: Rule) -> Result<bool, TryReserveError> {
    for number in 0..end {
        if !stays(rule, number) {
            let double = number.wrapping_mul(2);
            if insert(map, number, double.wrapping_add(1))?.is_some() {
                return Ok(false);
            }
        }
    }
    Ok(true)
}

const ALL: Rule = Rule {
    mask: 0,
    bits: 0,
    is_turned: false,
};

// Whether a map of the numbers below the end is asked of each once, in order, keeps those that are to stay, and takes the others again.
fn retains(alloc: Global, end: u64, rule: Rule) -> Result<bool, TryReserveError> {
    let mut map = multiples(alloc, 0, end, 2)?;
    let mut asked = 0u64;
    let mut in_order = true;
    map.retain(|key, value| {
        in_order = in_order && *key == asked;
        asked = asked.wrapping_add(1);
        *value = value.wrapping_add(1);
        stays(rule, *key)
    });
    let is_left = has_those(&map, end, rule);
    Ok(
        in_order
            && asked == end
            && is_left
            && puts_back(&mut map, end, rule)?
            && has_those(&map, end, ALL),
    )
}

// The same, where those that do not stay are handed on in order.
fn extracts(alloc: Global, end: u64, rule: Rule) -> Result<bool, TryReserveError> {
    let mut map = multiples(alloc, 0, end, 2)?;
    let mut left = 0u64;
    let mut keys = 0u64;
    let mut values = 0u64;
    map.extract_if(
        |key, value| {
            *value = value.wrapping_add(1);
            left = left.wrapping_add(*key);
            !stays(rule, *key)
        },
        |key, value| {
            keys = keys.wrapping_mul(3).wrapping_add(key);
            values = values.wrapping_add(value);
        },
    );
    let mut wanted = 0u64;
    let mut wanted_values = 0u64;
    let mut all = 0u64;
    for number in 0..end {
        all = all.wrapping_add(number);
        if !stays(rule, number) {
            wanted = wanted.wrapping_mul(3).wrapping_add(number);
            wanted_values = wanted_values.wrapping_add(number.wrapping_mul(2).wrapping_add(1));
        }
    }
    Ok(left == all && keys == wanted && values == wanted_values && has_those(&map, end, rule))
}

// All stay, none, each second, runs of 512, one in 64, one, and all but one, and what does not stay there.
fn is_right(alloc: Global, end: u64) -> Result<bool, TryReserveError> {
    for (mask, bits) in [(0, 0), (1, 0), (512, 512), (63, 7), (u64::MAX, 500)] {
        for is_turned in [false, true] {
            let rule = Rule {
                mask,
                bits,
                is_turned,
            };
            if !retains(alloc, end, rule)? || !extracts(alloc, end, rule)? {
                return Ok(false);
            }
        }
    }
    Ok(true)
}

// Maps of no pair, of one leaf, of two levels and of three.
#[test]
fn those_stay_at_which_the_closure_answers_true(rt: HostRuntime) -> Result<(), Fail> {
    for end in [0, 9, 100, 1000] {
        assert!(rt; is_right(rt.alloc(), end)?);
    }
    Ok(())
}

// Keeps the even ones, and answers whether each odd one was dropped once that was in the map or came back, and no even one of the map.
fn drops_odd_ones<'a>(map: &mut Tracked<'a>, drops: &[Drops]) -> bool {
    let before = map.len();
    map.retain(|key, _value| key.number % 2 == 0);
    let mut living = 0usize;
    for i in 0..drops.len() {
        if were_dropped(&drops[i], 0, 0) {
            if i % 2 == 1 {
                return false;
            }
            living = living.wrapping_add(1);
        } else if !were_dropped(&drops[i], 1, 1) {
            return false;
        }
    }
    map.len() == living && living <= before
}

fn keeps_and_drops_odd_ones<'a>(rt: &impl Abort, map: &mut Tracked<'a>, drops: &'a [Drops]) {
    assert!(rt; keeps_or_hands_back_each(map, drops));
    assert!(rt; drops_odd_ones(map, drops));
}

// Of a map that is then dropped.
fn drops_odd_ones_and_the_rest(rt: &impl Abort, alloc: Global, drops: &[Drops]) {
    let mut map = BTreeMap::new(alloc);
    keeps_and_drops_odd_ones(rt, &mut map, drops);
}

// Each request is refused in turn by the sweep.
#[test]
fn those_that_do_not_stay_are_dropped_once(rt: HostRuntime) {
    let Ok(drops) = fresh_drops(rt.alloc(), 170) else {
        assert!(rt; !is_ample(rt.alloc()));
        return;
    };
    drops_odd_ones_and_the_rest(&rt, rt.alloc(), &drops);
    assert!(rt; were_all_dropped(&drops, 1));
}
