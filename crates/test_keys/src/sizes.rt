//! Keys and values of no size, and values of 4,096 bytes.
use fc_base::TryReserveError;
use fc_map::map::BTreeMap;
use fc_set::set::BTreeSet;
use std::alloc::Global;
use std::test::Fail;

// A type of values, one of which is told by a number.
trait Held: Drop {
    fn of(number: u64) -> Self
    where
        Self: Sized;

    fn is_of(&self, number: u64) -> bool;
}

impl Held for () {
    fn of(_number: u64) -> () {}

    fn is_of(&self, _number: u64) -> bool {
        true
    }
}

// A value of 4,096 bytes.
#[derive(Drop)]
struct Page {
    words: [u64; 512],
}

impl Held for Page {
    fn of(number: u64) -> Page {
        Page {
            words: [number; 512],
        }
    }

    fn is_of(&self, number: u64) -> bool {
        self.words[0] == number && self.words[255] == number && self.words[511] == number
    }
}

// So many pairs stand on three levels, since two hold at most 255.
const END: u64 = 300;

type Map<V> = BTreeMap<u64, V>;

// Puts in the numbers below the end, 37 apart and round.
fn fill<V: Held>(map: &mut Map<V>) -> Result<(), TryReserveError> {
    for place in 0..END {
        let number = place.wrapping_mul(37) % END;
        map.try_insert(number, V::of(number))?;
    }
    Ok(())
}

// Whether a walk gives the numbers from `first` on below `end`, each with so much more.
fn counts_up<V: Held>(map: &Map<V>, first: u64, end: u64, more: u64) -> bool {
    let mut number = first;
    for (key, value) in map {
        if *key != number || !value.is_of(number.wrapping_add(more)) {
            return false;
        }
        number = number.wrapping_add(1);
    }
    number == end && map.len() as u64 == end.wrapping_sub(first)
}

fn is_old<V: Held>(old: Option<V>, number: u64) -> bool {
    match old {
        Some(value) => value.is_of(number),
        None => false,
    }
}

fn write_by_insertion<V: Held>(map: &mut Map<V>, number: u64) -> Result<bool, TryReserveError> {
    let old = map.try_insert(number, V::of(number.wrapping_add(1)))?;
    Ok(is_old(old, number))
}

fn write_by_entry<V: Held>(map: &mut Map<V>, number: u64) -> Result<bool, TryReserveError> {
    let value = map.try_entry(number)?.or_try_insert(V::of(0))?;
    *value = V::of(number.wrapping_add(1));
    Ok(true)
}

fn write<V: Held>(map: &mut Map<V>, number: u64) -> Result<bool, TryReserveError> {
    if number % 3 == 0 {
        write_by_insertion(map, number)
    } else if number % 3 == 1 {
        write_by_entry(map, number)
    } else {
        Ok(write_at(map, number, V::of(number.wrapping_add(1))))
    }
}

// Writes each value over, by an insertion, an entry or a look-up in turn.
fn writes_each<V: Held>(map: &mut Map<V>) -> Result<bool, TryReserveError> {
    for number in 0..END {
        if !write(map, number)? {
            return Ok(false);
        }
    }
    Ok(counts_up(map, 0, END, 1))
}

fn write_at<V: Held>(map: &mut Map<V>, number: u64, new: V) -> bool {
    match map.get_mut(&number) {
        Some(value) => {
            *value = new;
            true
        }
        None => false,
    }
}

fn are_parts<V: Held>(map: &mut Map<V>, rest: &mut Map<V>) -> Result<bool, TryReserveError> {
    let is_cut = counts_up(map, 0, 100, 1) && counts_up(rest, 100, END, 1);
    map.append(rest)?;
    Ok(is_cut && counts_up(map, 0, END, 1))
}

fn splits<V: Held>(map: &mut Map<V>) -> Result<bool, TryReserveError> {
    let mut rest = map.split_off(&100)?;
    are_parts(map, &mut rest)
}

fn takes_each<V: Held>(map: &mut Map<V>) -> bool {
    for place in 0..END {
        let number = place.wrapping_mul(77) % END;
        if !is_old(map.remove(&number), number.wrapping_add(1)) {
            return false;
        }
    }
    map.is_empty()
}

fn is_right<V: Held>(map: &mut Map<V>) -> Result<bool, TryReserveError> {
    fill(map)?;
    Ok(counts_up(map, 0, END, 0) && writes_each(map)? && splits(map)? && takes_each(map))
}

fn are_kept<V: Held>(alloc: Global) -> Result<bool, TryReserveError> {
    let mut map: Map<V> = BTreeMap::new(alloc);
    is_right(&mut map)
}

#[test]
fn values_of_no_size_and_of_a_page_are_kept(rt: HostRuntime) -> Result<(), Fail> {
    assert!(rt; are_kept::<()>(rt.alloc())?);
    assert!(rt; are_kept::<Page>(rt.alloc())?);
    Ok(())
}

type Unit = BTreeMap<(), ()>;

fn is_all_in_the_rest(map: &mut Unit) -> Result<bool, TryReserveError> {
    let mut rest = map.split_off(&())?;
    let is_cut = map.is_empty() && rest.len() == 1;
    map.append(&mut rest)?;
    Ok(is_cut)
}

// A map of the one key of no size, with a value of no size, and the set of it: one pair at most.
fn has_one_pair(map: &mut Unit) -> Result<bool, TryReserveError> {
    let is_new = map.try_insert((), ())?.is_none();
    let is_old = map.try_insert((), ())?.is_some();
    let is_one = map.len() == 1 && map.get(&()).is_some();
    let is_cut = is_all_in_the_rest(map)?;
    let is_taken = map.remove(&()).is_some() && map.remove(&()).is_none();
    Ok(is_new && is_old && is_one && is_cut && is_taken && map.is_empty())
}

fn map_has_one_pair(alloc: Global) -> Result<bool, TryReserveError> {
    let mut map = Unit::new(alloc);
    has_one_pair(&mut map)
}

fn has_one_item(set: &mut BTreeSet<()>) -> Result<bool, TryReserveError> {
    let is_new = set.try_insert(())?;
    let is_old = !set.try_insert(())?;
    let is_one = set.len() == 1 && set.contains(&());
    Ok(is_new && is_old && is_one && set.take(&()).is_some() && set.is_empty())
}

fn set_has_one_item(alloc: Global) -> Result<bool, TryReserveError> {
    let mut set = BTreeSet::new(alloc);
    has_one_item(&mut set)
}

#[test]
fn a_key_of_no_size_is_the_only_one(rt: HostRuntime) -> Result<(), Fail> {
    assert!(rt; map_has_one_pair(rt.alloc())? && set_has_one_item(rt.alloc())?);
    Ok(())
}
