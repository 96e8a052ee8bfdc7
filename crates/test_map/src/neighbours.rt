//! The pairs next to a key, against numbers: for each key from below the first to after the last.
use fc_base::{Count, TryReserveError};
use fc_map::map::BTreeMap;
use std::alloc::Global;
use std::cell::Cell;
use std::test::Fail;
use test_values::{CountingKey, Tagged};

// The even numbers from 2 on, so many, each with its tenfold, put in from the first on.
fn even(alloc: Global, n: u64) -> Result<BTreeMap<u64, u64>, TryReserveError> {
    let mut map = BTreeMap::new(alloc);
    for i in 0..n {
        let number = i.wrapping_add(1).wrapping_mul(2);
        map.try_insert(number, number.wrapping_mul(10))?;
    }
    Ok(map)
}

// The same, put in from the last on.
fn even_from_last(alloc: Global, n: u64) -> Result<BTreeMap<u64, u64>, TryReserveError> {
    let mut map = BTreeMap::new(alloc);
    for i in 0..n {
        let number = n.wrapping_sub(i).wrapping_mul(2);
        map.try_insert(number, number.wrapping_mul(10))?;
    }
    Ok(map)
}

// The first of these numbers from `from` on, and 0 where there is none.
fn first_even(from: u64, n: u64) -> u64 {
    let number = from.wrapping_add(from % 2).max(2);
    if number > n.wrapping_mul(2) {
        0
    } else {
        number
    }
}

// The last of these numbers up to `to`, and 0 where there is none.
fn last_even(to: u64, n: u64) -> u64 {
    to.wrapping_sub(to % 2).min(n.wrapping_mul(2))
}

// Whether the pair of the number is there, or none where the number is 0.
fn is_asked(found: Option<(&u64, &u64)>, number: u64) -> bool {
    match found {
        Some((key, value)) => *key == number && *value == number.wrapping_mul(10),
        None => number == 0,
    }
}

fn are_next(map: &BTreeMap<u64, u64>, key: u64, n: u64) -> bool {
    is_asked(map.first_at_or_after(&key), first_even(key, n))
        && is_asked(map.first_after(&key), first_even(key.wrapping_add(1), n))
        && is_asked(map.last_at_or_before(&key), last_even(key, n))
        && is_asked(map.last_before(&key), last_even(key.saturating_sub(1), n))
}

// Each key from 0 to after the last, in each of the four calls.
fn are_all_next(map: &BTreeMap<u64, u64>, n: u64) -> bool {
    for key in 0..n.wrapping_mul(2).wrapping_add(4) {
        if !are_next(map, key, n) {
            return false;
        }
    }
    are_next(map, u64::MAX / 2, n)
}

// Up to 39 ascending pairs have one level or two, 151 have three, and 3000 have four.
#[test]
fn neighbours_of_each_key_on_each_level(rt: HostRuntime) -> Result<(), Fail> {
    for n in 0..40 {
        assert!(rt; are_all_next(&even(rt.alloc(), n)?, n));
    }
    for n in 140..160 {
        assert!(rt; are_all_next(&even(rt.alloc(), n)?, n));
        assert!(rt; are_all_next(&even_from_last(rt.alloc(), n)?, n));
    }
    assert!(rt; are_all_next(&even(rt.alloc(), 3000)?, 3000));
    Ok(())
}

fn is_tagged(found: Option<(&Tagged, &u64)>, number: u64) -> bool {
    match found {
        Some((key, _value)) => key.is(number, 'a'),
        None => number == 0,
    }
}

/// The numbers from 1 on below the end, each with the letter a and itself.
pub(crate) fn tagged_below(
    alloc: Global,
    end: u64,
) -> Result<BTreeMap<Tagged, u64>, TryReserveError> {
    let mut map = BTreeMap::new(alloc);
    for number in 1..end {
        map.try_insert(Tagged::new(number, 'a'), number)?;
    }
    Ok(map)
}

// Keys equal to what is sought, but not the same: those of the map are answered, and an equal one is not passed over or taken for one after.
#[test]
fn neighbours_are_the_keys_of_the_map(rt: HostRuntime) -> Result<(), Fail> {
    let map = tagged_below(rt.alloc(), 153)?;
    for number in 1..153 {
        let key = Tagged::new(number, 'b');
        assert!(rt; is_tagged(map.first_at_or_after(&key), number));
        assert!(rt; is_tagged(map.last_at_or_before(&key), number));
        assert!(rt; is_tagged(map.first_after(&key), number.wrapping_add(1) % 153));
        assert!(rt; is_tagged(map.last_before(&key), number.wrapping_sub(1)));
    }
    Ok(())
}

// The keys from 1 to the last, in this order.
fn ascending<'a>(
    alloc: Global,
    last: u64,
    comparisons: &'a Cell<u64>,
) -> Result<BTreeMap<CountingKey<'a>, u64>, TryReserveError> {
    let mut map = BTreeMap::new(alloc);
    for below in 0..last {
        let number = below + 1;
        let key = CountingKey {
            number,
            comparisons,
        };
        map.try_insert(key, number)?;
    }
    Ok(map)
}

// Whether each of the four calls compares as often as a look-up of the key does.
fn costs_a_look_up<'a>(map: &BTreeMap<CountingKey<'a>, u64>, key: &CountingKey<'a>) -> bool {
    let made = key.comparisons;
    made.set(0);
    let _there = map.contains_key(key);
    let of_one = made.get();
    let _from = map.first_at_or_after(key);
    let is_first = made.get() == of_one.wrapping_mul(2);
    let _after = map.first_after(key);
    let is_second = made.get() == of_one.wrapping_mul(3);
    let _to = map.last_at_or_before(key);
    let is_third = made.get() == of_one.wrapping_mul(4);
    let _before = map.last_before(key);
    is_first && is_second && is_third && made.get() == of_one.wrapping_mul(5)
}

// Of 151 ascending keys, the search for the last passes 15, and one after it no less.
#[test]
fn neighbours_cost_a_look_up(rt: HostRuntime) -> Result<(), Fail> {
    let made = Cell::new(0);
    let comparisons = &made;
    let map = ascending(rt.alloc(), 151, comparisons)?;
    for number in 0..154 {
        let key = CountingKey {
            number,
            comparisons,
        };
        assert!(rt; costs_a_look_up(&map, &key));
    }
    let number = 151;
    let key = CountingKey {
        number,
        comparisons,
    };
    comparisons.set(0);
    assert!(rt; map.first_after(&key).is_none() && comparisons.get() == 15);
    Ok(())
}

// Whether the text is the key that is found, or `-` where none is.
fn is_text(found: Option<(&String, &u64)>, text: &str) -> bool {
    match found {
        Some((key, _value)) => key.as_str() == text,
        None => text == "-",
    }
}

fn are_next_texts(map: &BTreeMap<String, u64>, text: &str, wanted: [&str; 4]) -> bool {
    is_text(map.last_before(text), wanted[0])
        && is_text(map.last_at_or_before(text), wanted[1])
        && is_text(map.first_at_or_after(text), wanted[2])
        && is_text(map.first_after(text), wanted[3])
}

fn sixteen_texts(alloc: Global) -> Result<BTreeMap<String, u64>, TryReserveError> {
    let mut map = BTreeMap::new(alloc);
    for text in [
        "a", "ab", "b", "c", "e", "f", "g", "h", "i", "j", "k", "l", "m", "n", "o", "word",
    ] {
        map.try_insert(String::from_str(alloc, text)?, 1)?;
    }
    Ok(map)
}

// A text comes after its own beginnings. Sixteen texts stand on two levels of nodes.
#[test]
fn texts_are_sought_by_slices(rt: HostRuntime) -> Result<(), Fail> {
    let map = sixteen_texts(rt.alloc())?;
    assert!(rt; are_next_texts(&map, "", ["-", "-", "a", "a"]));
    assert!(rt; are_next_texts(&map, "a", ["-", "a", "a", "ab"]));
    assert!(rt; are_next_texts(&map, "aa", ["a", "a", "ab", "ab"]));
    assert!(rt; are_next_texts(&map, "ab", ["a", "ab", "ab", "b"]));
    assert!(rt; are_next_texts(&map, "d", ["c", "c", "e", "e"]));
    assert!(rt; are_next_texts(&map, "word", ["o", "word", "word", "-"]));
    assert!(rt; are_next_texts(&map, "words", ["word", "word", "-", "-"]));
    Ok(())
}

#[test]
fn counted_forms_answer_the_same(rt: HostRuntime) -> Result<(), Fail> {
    let map = even(rt.alloc(), 20)?;
    let mut count = Count::new();
    for key in 0..44 {
        assert!(rt;
            is_asked(
                map.first_at_or_after_counted(&key, &mut count),
                first_even(key, 20)
            )
        );
        assert!(rt;
            is_asked(
                map.first_after_counted(&key, &mut count),
                first_even(key.wrapping_add(1), 20)
            )
        );
        assert!(rt;
            is_asked(
                map.last_at_or_before_counted(&key, &mut count),
                last_even(key, 20)
            )
        );
        assert!(rt;
            is_asked(
                map.last_before_counted(&key, &mut count),
                last_even(key.saturating_sub(1), 20)
            )
        );
    }
    Ok(())
}
