use callers_of_map::requests::{
    copy_below_thousand, cut_and_join, insert_below_thousand, put_and_take, put_hundred,
    take_blocks, write_hundred,
};
use fc_base::{Asked, Count, TryReserveError};
use fc_budget::Account;
use fc_map::map::{BTreeMap, Entry, Reservation};
use fc_set::set::BTreeSet;
use std::alloc::Global;
use std::test::Fail;

type Numbers = BTreeMap<u64, u64>;

fn has(map: &Numbers, number: u64, wanted: u64) -> bool {
    match map.get(&number) {
        Some(value) => *value == wanted,
        None => false,
    }
}

#[test]
fn the_requests_of_two_insertions_are_counted(rt: HostRuntime) -> Result<(), Fail> {
    let mut map = BTreeMap::new(rt.alloc());
    // example: BTreeMap::try_insert_asked, Asked::new
    let (count, asked) = (&mut Count::new(), &mut Asked::new());
    map.try_insert_asked(1u64, 'a', count, asked)?; // one, for the first leaf
    map.try_insert_asked(1, 'b', count, asked)?; // none: the key is there
    assert_eq!(rt; map.get(&1), Some(&'b'));
    // end
    Ok(())
}

// Puts the numbers up to 15 in, each with itself: the last one splits the first leaf.
fn put_sixteen(map: &mut Numbers) -> Result<(), TryReserveError> {
    let (count, asked) = (&mut Count::new(), &mut Asked::new());
    for number in 0..16 {
        map.try_insert_asked(number, number, count, asked)?;
    }
    Ok(())
}

// Puts a number in with itself by its entry, where it is not there.
fn put_by_entry(map: &mut Numbers, number: u64) -> Result<bool, TryReserveError> {
    match map.try_entry(number)? {
        Entry::Vacant(gap) => {
            *gap.try_insert_asked(0, &mut Count::new(), &mut Asked::new())? = number;
            Ok(true)
        }
        Entry::Occupied(_) => Ok(false),
    }
}

// The same, by nodes that are made first.
fn put_when_ready(map: &mut Numbers, number: u64) -> Result<bool, TryReserveError> {
    match map.try_entry(number)? {
        Entry::Vacant(gap) => {
            let Ok(_value) = gap.try_ready_asked(&mut Asked::new())?.insert(number);
            Ok(true)
        }
        Entry::Occupied(_) => Ok(false),
    }
}

#[test]
fn insertions_that_count_requests_do_as_those_that_do_not(rt: HostRuntime) -> Result<(), Fail> {
    let mut map = Numbers::new(rt.alloc());
    put_sixteen(&mut map)?;
    assert!(rt; put_by_entry(&mut map, 16)? && put_when_ready(&mut map, 17)?);
    assert!(rt; map.len() == 18 && has(&map, 0, 0) && has(&map, 16, 16) && has(&map, 17, 17));
    Ok(())
}

#[test]
fn a_cut_that_counts_requests_does_as_one_that_does_not(rt: HostRuntime) -> Result<(), Fail> {
    let mut map = Numbers::new(rt.alloc());
    put_sixteen(&mut map)?;
    let rest = map.split_off_asked(&9, &mut Asked::new())?;
    assert!(rt; map.len() == 9 && has(&map, 8, 8) && rest.len() == 7 && has(&rest, 9, 9));
    Ok(())
}

// Whether there is a place for each of two insertions into a map of no pairs, and so for two pairs.
fn serves_two(reservation: &Reservation<u64, u64>) -> bool {
    reservation.places() == 2 && reservation.pairs() == 2
}

#[test]
fn reservations_that_count_requests_do_as_those_that_do_not(rt: HostRuntime) -> Result<(), Fail> {
    let map = Numbers::new(rt.alloc());
    assert!(rt; serves_two(&map.try_reserve_nodes_asked(2, &mut Asked::new())?));
    assert!(rt; serves_two(&Reservation::try_new_asked(rt.alloc(), 0, 2, &mut Asked::new())?));
    Ok(())
}

// Whether the number is new to the set, once it is put in.
fn is_new(set: &mut BTreeSet<u64>, number: u64) -> Result<bool, TryReserveError> {
    let new = set.try_insert_asked(number, &mut Count::new(), &mut Asked::new())?;
    Ok(new)
}

#[test]
fn a_set_that_counts_requests_does_as_one_that_does_not(rt: HostRuntime) -> Result<(), Fail> {
    let mut set = BTreeSet::new(rt.alloc());
    assert!(rt; is_new(&mut set, 3)?);
    assert!(rt; !is_new(&mut set, 3)? && set.len() == 1);
    Ok(())
}

// Puts numbers in after all others, and then one among them whose value takes the place of another.
fn is_joined(map: &mut Numbers, other: &mut Numbers) -> Result<bool, TryReserveError> {
    put_sixteen(map)?;
    other.try_insert(20, 20)?;
    map.append_asked(other, &mut Count::new(), &mut Asked::new())?;
    other.try_insert(5, 50)?;
    map.append_asked(other, &mut Count::new(), &mut Asked::new())?;
    Ok(map.len() == 17 && other.is_empty() && has(map, 5, 50) && has(map, 20, 20))
}

#[test]
fn an_append_that_counts_requests_does_as_one_that_does_not(rt: HostRuntime) -> Result<(), Fail> {
    let mut map = Numbers::new(rt.alloc());
    let mut other = Numbers::new(rt.alloc());
    assert!(rt; is_joined(&mut map, &mut other)?);
    Ok(())
}

// Whether a copy of sixteen pairs has them.
fn is_copied(map: &mut Numbers) -> Result<bool, TryReserveError> {
    put_sixteen(map)?;
    // example: BTreeMap::try_clone_asked
    let asked = &mut Asked::new();
    let copy = map.try_clone_asked(asked)?; // four: two leaves and a root above them
    let is_whole = copy.len() == 16 && map.len() == 16;
    // end
    Ok(is_whole && has(&copy, 0, 0) && has(&copy, 15, 15))
}

#[test]
fn a_copy_that_counts_requests_does_as_one_that_does_not(rt: HostRuntime) -> Result<(), Fail> {
    let mut map = Numbers::new(rt.alloc());
    assert!(rt; is_copied(&mut map)?);
    Ok(())
}

// Puts 3 in, which an equal one then replaces, and 9 by another set.
fn are_put(set: &mut BTreeSet<u64>, other: &mut BTreeSet<u64>) -> Result<bool, TryReserveError> {
    let new = set.replace_asked(3, &mut Count::new(), &mut Asked::new())?;
    let old = set.replace_asked(3, &mut Count::new(), &mut Asked::new())?;
    let places = set.try_reserve_nodes_asked(2, &mut Asked::new())?.places();
    other.try_insert(9)?;
    set.append_asked(other, &mut Count::new(), &mut Asked::new())?;
    Ok(new.is_none() && old == Some(3) && places == 2 && other.is_empty() && set.len() == 2)
}

fn is_copy(set: &BTreeSet<u64>) -> Result<bool, TryReserveError> {
    // example: BTreeSet::try_clone_asked
    let asked = &mut Asked::new();
    let copy = set.try_clone_asked(asked)?; // one, for a leaf of two items
    let is_whole = copy.len() == 2;
    // end
    Ok(is_whole && copy.contains(&3) && copy.contains(&9))
}

fn is_cut(set: &mut BTreeSet<u64>) -> Result<bool, TryReserveError> {
    let rest = set.try_split_off_asked(&9, &mut Asked::new())?;
    Ok(rest.len() == 1 && rest.contains(&9) && set.len() == 1)
}

#[test]
fn whole_sets_that_count_requests_do_as_those_that_do_not(rt: HostRuntime) -> Result<(), Fail> {
    let mut set = BTreeSet::new(rt.alloc());
    let mut other = BTreeSet::new(rt.alloc());
    assert!(rt; are_put(&mut set, &mut other)? && is_copy(&set)? && is_cut(&mut set)?);
    Ok(())
}

// Writes another value at each number, and answers whether it stands there.
fn is_written(alloc: Global) -> Result<bool, TryReserveError> {
    let mut map = Numbers::new(alloc);
    put_hundred(&mut map, 1)?;
    write_hundred(&mut map, 2, &mut Asked::new())?;
    Ok(map.len() == 100 && has(&map, 0, 2) && has(&map, 99, 2))
}

#[test]
fn what_is_there_is_written_over(rt: HostRuntime) -> Result<(), Fail> {
    assert!(rt; is_written(rt.alloc())?);
    Ok(())
}

// Puts a number in with a value, where the map has fewer than a thousand, and answers whether it was new.
fn is_put(map: &mut Numbers, number: u64, value: u64) -> Result<bool, TryReserveError> {
    if map.len() >= 1000 {
        return Ok(false);
    }
    let old = insert_below_thousand(map, number, value, &mut Asked::new())?;
    Ok(old.is_none())
}

#[test]
fn a_pair_is_put_into_a_map_of_few(rt: HostRuntime) -> Result<(), Fail> {
    let mut map = Numbers::new(rt.alloc());
    assert!(rt; is_put(&mut map, 7, 70)?);
    assert!(rt; !is_put(&mut map, 7, 71)? && map.len() == 1 && has(&map, 7, 71));
    Ok(())
}

#[test]
fn a_pair_is_put_in_and_taken_out_again(rt: HostRuntime) -> Result<(), Fail> {
    let mut map = Numbers::new(rt.alloc());
    put_and_take(&mut map, 7, 70, &mut Asked::new())?;
    assert!(rt; map.is_empty());
    Ok(())
}

#[test]
fn the_requests_of_loads_are_counted(rt: HostRuntime) -> Result<(), Fail> {
    let alloc = rt.alloc();
    // example: BTreeMap::try_from_iterator_asked
    let asked = &mut Asked::new();
    let pairs = [(1u64, 10u64), (2, 20), (3, 30)];
    let map = BTreeMap::try_from_iterator_asked(alloc, pairs, asked)?; // one, for a leaf
    assert_eq!(rt; map.get(&2), Some(&20));
    // end
    // example: BTreeSet::try_from_iterator_asked
    let asked = &mut Asked::new();
    let set = BTreeSet::try_from_iterator_asked(alloc, [1u64, 2, 3], asked)?; // one, for a leaf
    assert!(rt; set.len() == 3 && set.contains(&2));
    // end
    assert!(rt; map.len() == 3);
    Ok(())
}

#[test]
fn a_map_is_cut_in_two_and_joined_again(rt: HostRuntime) -> Result<(), Fail> {
    let mut map = Numbers::new(rt.alloc());
    put_sixteen(&mut map)?;
    cut_and_join(&mut map, 9, &mut Asked::new())?;
    assert!(rt; map.len() == 16 && has(&map, 7, 7) && has(&map, 9, 9));
    Ok(())
}

// Whether a copy of sixteen pairs, made where there are fewer than a thousand, has them.
fn is_copied_below_thousand(map: &mut Numbers) -> Result<bool, TryReserveError> {
    put_sixteen(map)?;
    if map.len() >= 1000 {
        return Ok(false);
    }
    let copy = copy_below_thousand(map, &mut Asked::new())?;
    Ok(copy.len() == 16 && has(&copy, 7, 7))
}

#[test]
fn a_map_of_few_pairs_is_copied(rt: HostRuntime) -> Result<(), Fail> {
    let mut map = Numbers::new(rt.alloc());
    assert!(rt; is_copied_below_thousand(&mut map)?);
    Ok(())
}

#[test]
fn an_account_that_has_room_for_all_blocks_refuses_none(rt: HostRuntime) -> Result<(), Fail> {
    let mut account = Account::new(30);
    let taken = take_blocks(&mut account, 3, 10);
    assert!(rt; taken.is_ok() && account.used() == 30 && account.take(1).is_err());
    Ok(())
}
