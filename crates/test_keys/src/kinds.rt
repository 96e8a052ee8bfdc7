//! Keys of several parts, of any length and in reversed order: one run of calls for all of them.
use fc_base::TryReserveError;
use fc_map::map::{BTreeMap, is_range};
use fc_set::set::BTreeSet;
use std::alloc::Global;
use std::cmp::Reverse;
use std::ops::Bound;
use std::test::Fail;
use test_values::Tagged;

// A type of keys, of which each number below the end has one of its own, in the order of the numbers.
trait Nth: Ord + Drop {
    fn nth(alloc: Global, number: u64) -> Result<Self, TryReserveError>
    where
        Self: Sized;
}

// So many pairs stand on three levels, since two hold at most 255.
const END: u64 = 300;

impl Nth for (u32, (u8, bool)) {
    fn nth(_alloc: Global, number: u64) -> Result<Self, TryReserveError> {
        let rest = number % 16;
        Ok((
            (number / 16 % 1000) as u32,
            ((rest / 2) as u8, rest % 2 == 1),
        ))
    }
}

// A byte for each sixteen numbers, and up to fifteen more after it: most begin with the one before.
impl Nth for Vec<u8> {
    fn nth(alloc: Global, number: u64) -> Result<Self, TryReserveError> {
        let mut bytes = Vec::new(alloc);
        bytes.push((number / 16 % 200) as u8)?;
        for _ in 0..number % 16 {
            bytes.push(255)?;
        }
        Ok(bytes)
    }
}

// As above, by letters, the first of two bytes. The first of all is empty.
impl Nth for String {
    fn nth(alloc: Global, number: u64) -> Result<Self, TryReserveError> {
        let mut text = String::new(alloc);
        let group = (number / 16 % 20) as u8;
        if group > 0 {
            text.push(char::from(0xe0u8.wrapping_add(group)))?;
        }
        for _ in 0..number % 16 {
            text.push('!')?;
        }
        Ok(text)
    }
}

impl Nth for Reverse<u64> {
    fn nth(_alloc: Global, number: u64) -> Result<Self, TryReserveError> {
        Ok(Reverse(u64::MAX.wrapping_sub(number)))
    }
}

impl Nth for Tagged {
    fn nth(_alloc: Global, number: u64) -> Result<Self, TryReserveError> {
        Ok(Tagged::new(number, 'b'))
    }
}

// Puts in the keys below the end, each with its number, 37 apart and round.
fn fill<K: Nth>(alloc: Global, map: &mut BTreeMap<K, u64>) -> Result<(), TryReserveError> {
    for place in 0..END {
        let number = place.wrapping_mul(37) % END;
        let key = K::nth(alloc, number)?;
        map.try_insert(key, number)?;
    }
    Ok(())
}

fn is_key<K: Nth>(alloc: Global, key: &K, number: u64) -> Result<bool, TryReserveError> {
    let wanted = K::nth(alloc, number)?;
    Ok(*key == wanted)
}

fn is_nth<K: Nth>(
    alloc: Global,
    found: Option<(&K, &u64)>,
    number: u64,
) -> Result<bool, TryReserveError> {
    match found {
        Some((key, value)) => Ok(is_key(alloc, key, number)? && *value == number),
        None => Ok(false),
    }
}

fn is_found<K: Nth>(
    alloc: Global,
    map: &BTreeMap<K, u64>,
    number: u64,
) -> Result<bool, TryReserveError> {
    let key = K::nth(alloc, number)?;
    is_nth(alloc, map.get_key_value(&key), number)
}

// Whether a walk gives the keys from `first` on below `end`, and each is found.
fn counts_up<K: Nth>(
    alloc: Global,
    map: &BTreeMap<K, u64>,
    first: u64,
    end: u64,
) -> Result<bool, TryReserveError> {
    let mut walk = map.iter();
    for number in first..end {
        if !is_nth(alloc, walk.next(), number)? || !is_found(alloc, map, number)? {
            return Ok(false);
        }
    }
    Ok(walk.next().is_none() && map.len() as u64 == end.wrapping_sub(first))
}

fn cut<K: Nth>(
    alloc: Global,
    map: &mut BTreeMap<K, u64>,
    at: u64,
) -> Result<BTreeMap<K, u64>, TryReserveError> {
    let key = K::nth(alloc, at)?;
    map.split_off(&key)
}

// Whether the rest has the keys that were cut off, and an append makes one map again.
fn are_parts<K: Nth>(
    alloc: Global,
    map: &mut BTreeMap<K, u64>,
    rest: &mut BTreeMap<K, u64>,
    at: u64,
) -> Result<bool, TryReserveError> {
    let is_cut = counts_up(alloc, map, 0, at)? && counts_up(alloc, rest, at, END)?;
    map.append(rest)?;
    Ok(is_cut && rest.is_empty() && counts_up(alloc, map, 0, END)?)
}

// Whether a split at the key leaves those below it, and an append makes one map again.
fn splits<K: Nth>(
    alloc: Global,
    map: &mut BTreeMap<K, u64>,
    at: u64,
) -> Result<bool, TryReserveError> {
    let mut rest = cut(alloc, map, at)?;
    are_parts(alloc, map, &mut rest, at)
}

// Whether the keys between two, of these numbers, are walked, from the back.
fn walks_between<K: Nth>(
    alloc: Global,
    map: &BTreeMap<K, u64>,
    from: (&K, u64),
    to: (&K, u64),
) -> Result<bool, TryReserveError> {
    let (lo, hi) = (Bound::Included(from.0), Bound::Excluded(to.0));
    if !is_range(&lo, &hi) {
        return Ok(false);
    }
    let (first, end) = (from.1, to.1);
    let mut walk = map.range((lo, hi));
    for after in first..end {
        let number = end.wrapping_sub(1).wrapping_sub(after.wrapping_sub(first));
        if !is_nth(alloc, walk.next_back(), number)? {
            return Ok(false);
        }
    }
    Ok(walk.next_back().is_none())
}

fn walks_between_numbers<K: Nth>(
    alloc: Global,
    map: &BTreeMap<K, u64>,
    first: u64,
    end: u64,
) -> Result<bool, TryReserveError> {
    let from = K::nth(alloc, first)?;
    let to = K::nth(alloc, end)?;
    walks_between(alloc, map, (&from, first), (&to, end))
}

fn is_taken<K: Nth>(map: &mut BTreeMap<K, u64>, key: &K, number: u64) -> bool {
    match map.remove(key) {
        Some(value) => value == number && !map.contains_key(key),
        None => false,
    }
}

// Whether each key is taken out, 77 apart and round, and none is then there.
fn takes_each<K: Nth>(alloc: Global, map: &mut BTreeMap<K, u64>) -> Result<bool, TryReserveError> {
    for place in 0..END {
        let number = place.wrapping_mul(77) % END;
        let key = K::nth(alloc, number)?;
        if !is_taken(map, &key, number) {
            return Ok(false);
        }
    }
    Ok(map.is_empty())
}

fn is_right<K: Nth>(alloc: Global, map: &mut BTreeMap<K, u64>) -> Result<bool, TryReserveError> {
    fill(alloc, map)?;
    Ok(
        counts_up(alloc, map, 0, END)?
            && splits(alloc, map, 100)?
            && walks_between_numbers(alloc, map, 15, 273)?
            && takes_each(alloc, map)?,
    )
}

fn map_is_right<K: Nth>(alloc: Global) -> Result<bool, TryReserveError> {
    let mut map: BTreeMap<K, u64> = BTreeMap::new(alloc);
    is_right(alloc, &mut map)
}

// Puts in the keys below the end whose numbers the divisor divides.
fn put_multiples<K: Nth>(
    alloc: Global,
    set: &mut BTreeSet<K>,
    divisor: u64,
) -> Result<(), TryReserveError> {
    for number in 0..END {
        if number.checked_rem(divisor).unwrap_or(1) == 0 {
            let key = K::nth(alloc, number)?;
            set.try_insert(key)?;
        }
    }
    Ok(())
}

fn has_multiples_of_six<K: Nth>(
    alloc: Global,
    even: &BTreeSet<K>,
    threes: &BTreeSet<K>,
) -> Result<bool, TryReserveError> {
    let mut common = 0u64;
    for item in even.intersection(threes) {
        if !is_key(alloc, item, common.wrapping_mul(6))? {
            return Ok(false);
        }
        common = common.wrapping_add(1);
    }
    Ok(common == 50)
}

fn has_either<K: Nth>(even: &BTreeSet<K>, threes: &BTreeSet<K>) -> bool {
    let mut either = 0u64;
    for _item in even.union(threes) {
        either = either.wrapping_add(1);
    }
    either == 200
}

// Whether the keys of even numbers and of multiples of three have those of multiples of six in common, 50 keys, and 100 + 150 - 50 in either.
fn are_right<K: Nth>(
    alloc: Global,
    even: &mut BTreeSet<K>,
    threes: &mut BTreeSet<K>,
) -> Result<bool, TryReserveError> {
    put_multiples(alloc, even, 2)?;
    put_multiples(alloc, threes, 3)?;
    let has_six = has_multiples_of_six(alloc, even, threes)?;
    Ok(has_six && has_either(even, threes) && !even.is_subset(threes))
}

fn sets_are_right<K: Nth>(alloc: Global) -> Result<bool, TryReserveError> {
    let mut even: BTreeSet<K> = BTreeSet::new(alloc);
    let mut threes: BTreeSet<K> = BTreeSet::new(alloc);
    are_right(alloc, &mut even, &mut threes)
}

#[test]
fn keys_of_each_kind_stand_in_order(rt: HostRuntime) -> Result<(), Fail> {
    assert!(rt; map_is_right::<(u32, (u8, bool))>(rt.alloc())?);
    assert!(rt; map_is_right::<Vec<u8>>(rt.alloc())?);
    assert!(rt; map_is_right::<String>(rt.alloc())?);
    assert!(rt; map_is_right::<Reverse<u64>>(rt.alloc())?);
    assert!(rt; map_is_right::<Tagged>(rt.alloc())?);
    Ok(())
}

#[test]
fn items_of_each_kind_are_joined(rt: HostRuntime) -> Result<(), Fail> {
    assert!(rt; sets_are_right::<(u32, (u8, bool))>(rt.alloc())?);
    assert!(rt; sets_are_right::<Vec<u8>>(rt.alloc())?);
    assert!(rt; sets_are_right::<String>(rt.alloc())?);
    assert!(rt; sets_are_right::<Reverse<u64>>(rt.alloc())?);
    assert!(rt; sets_are_right::<Tagged>(rt.alloc())?);
    Ok(())
}

type Down = BTreeMap<Reverse<u64>, u64>;

fn goes_down(map: &Down) -> bool {
    let mut wanted = 3u64;
    for (key, value) in map {
        if key.0 != wanted || *value != wanted {
            return false;
        }
        wanted = wanted.wrapping_sub(1);
    }
    wanted == 0
}

// Of the numbers 1, 2 and 3, put in in this order, a walk by the reversed order gives the last first.
fn is_reversed(map: &mut Down) -> Result<bool, TryReserveError> {
    map.try_insert(Reverse(1), 1)?;
    map.try_insert(Reverse(2), 2)?;
    map.try_insert(Reverse(3), 3)?;
    Ok(goes_down(map))
}

fn walks_down(alloc: Global) -> Result<bool, TryReserveError> {
    let mut map = Down::new(alloc);
    is_reversed(&mut map)
}

#[test]
fn a_reversed_order_walks_down(rt: HostRuntime) -> Result<(), Fail> {
    assert!(rt; walks_down(rt.alloc())?);
    Ok(())
}
