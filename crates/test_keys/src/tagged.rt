//! Keys whose order reads one of three fields: which of two equal keys a call keeps, answers or hands back. A map has the letter a at each number
//! and is asked by other letters.
use fc_base::{TryClone, TryReserveError};
use fc_map::map::{BTreeMap, Entry, Reservation, insert_both, is_range};
use fc_vec::TryFromIterator;
use std::alloc::Global;
use std::ops::Bound;
use std::test::Fail;
use test_values::Tagged;

type Map = BTreeMap<Tagged, u64>;

// So many pairs stand on three levels, since two hold at most 255.
const END: u64 = 300;

// Puts in the numbers below the end, each with this letter and itself, 37 apart and round.
fn put_letters(map: &mut Map, letter: char, end: u64) -> Result<(), TryReserveError> {
    for place in 0..end {
        let number = place.wrapping_mul(37) % end;
        map.try_insert(Tagged::new(number, letter), number)?;
    }
    Ok(())
}

fn lettered(alloc: Global, letter: char, end: u64) -> Result<Map, TryReserveError> {
    let mut map = Map::new(alloc);
    put_letters(&mut map, letter, end)?;
    Ok(map)
}

// Whether the pair has the key that was made of the number and the letter, and this value.
fn is_pair(found: Option<(&Tagged, &u64)>, number: u64, letter: char, value: u64) -> bool {
    match found {
        Some((there, held)) => there.is(number, letter) && *held == value,
        None => false,
    }
}

fn is_owned_pair(found: Option<(Tagged, u64)>, number: u64, letter: char) -> bool {
    match found {
        Some((there, value)) => is_pair(Some((&there, &value)), number, letter, number),
        None => false,
    }
}

// Whether the key that is equal to the number has this letter and this value.
fn has(map: &Map, number: u64, letter: char, value: u64) -> bool {
    is_pair(
        map.get_key_value(&Tagged::new(number, 'b')),
        number,
        letter,
        value,
    )
}

// Whether the map has the numbers from `first` on below `end`, each with this letter and itself, as a walk gives them.
fn counts_up(map: &Map, first: u64, end: u64, letter: char) -> bool {
    let mut walk = map.iter();
    for number in first..end {
        if !is_pair(walk.next(), number, letter, number) {
            return false;
        }
    }
    walk.next().is_none() && map.len() as u64 == end.wrapping_sub(first)
}

fn is_number(found: Option<u64>, wanted: u64) -> bool {
    match found {
        Some(number) => number == wanted,
        None => false,
    }
}

// An insertion puts another value at the key that is there, and one more the former value.
fn insertions_keep_it(map: &mut Map, number: u64) -> Result<bool, TryReserveError> {
    let old = map.try_insert(Tagged::new(number, 'b'), 1000)?;
    let is_kept = is_number(old, number) && has(map, number, 'a', 1000);
    let second = map.try_insert(Tagged::new(number, 'c'), number)?;
    Ok(is_kept && is_number(second, 1000) && has(map, number, 'a', number))
}

fn occupied_entry_has_it(map: &mut Map, number: u64) -> Result<bool, TryReserveError> {
    match map.try_entry(Tagged::new(number, 'b'))? {
        Entry::Vacant(_entry) => Ok(false),
        Entry::Occupied(mut entry) => {
            let is_key = entry.key().letter == 'a' && entry.key().number == number;
            Ok(is_key && entry.insert(number) == number && entry.key().letter == 'a')
        }
    }
}

fn entry_keeps_it(map: &mut Map, number: u64) -> Result<bool, TryReserveError> {
    let entry = map.try_entry(Tagged::new(number, 'b'))?;
    let is_key = entry.key().letter == 'a' && entry.key().number == number;
    let value = *entry
        .and_modify(|held| *held = held.wrapping_add(1))
        .or_try_insert(0)?;
    let is_changed = value == number.wrapping_add(1) && has(map, number, 'a', value);
    let old = map.try_insert(Tagged::new(number, 'b'), number)?;
    Ok(is_key && is_changed && is_number(old, value))
}

fn each_key_stays(map: &mut Map) -> Result<bool, TryReserveError> {
    for number in 0..END {
        if !insertions_keep_it(map, number)?
            || !occupied_entry_has_it(map, number)?
            || !entry_keeps_it(map, number)?
        {
            return Ok(false);
        }
    }
    Ok(counts_up(map, 0, END, 'a'))
}

fn keys_stay(alloc: Global) -> Result<bool, TryReserveError> {
    let mut map = lettered(alloc, 'a', END)?;
    each_key_stays(&mut map)
}

#[test]
fn an_insertion_keeps_the_key_that_is_there(rt: HostRuntime) -> Result<(), Fail> {
    assert!(rt; keys_stay(rt.alloc())?);
    Ok(())
}

// A pair that is taken out by its entry has the key that was there; a vacant entry has its own, gives it back and puts it in.
fn entry_gives_it(map: &mut Map, number: u64) -> Result<bool, TryReserveError> {
    match map.try_entry(Tagged::new(number, 'b'))? {
        Entry::Vacant(_entry) => Ok(false),
        Entry::Occupied(entry) => Ok(is_owned_pair(Some(entry.remove_entry()), number, 'a')),
    }
}

fn vacant_entry_gives_its_own(map: &mut Map, number: u64) -> Result<bool, TryReserveError> {
    match map.try_entry(Tagged::new(number, 'b'))? {
        Entry::Vacant(entry) => {
            let is_own = entry.key().letter == 'b';
            Ok(is_own && entry.into_key().letter == 'b')
        }
        Entry::Occupied(_entry) => Ok(false),
    }
}

fn ready_entry_gives_its_own(map: &mut Map, number: u64) -> Result<bool, TryReserveError> {
    match map.try_entry(Tagged::new(number, 'c'))? {
        Entry::Vacant(entry) => {
            let ready = entry.try_ready()?;
            let is_own = ready.key().letter == 'c';
            Ok(is_own && ready.into_key().letter == 'c')
        }
        Entry::Occupied(_entry) => Ok(false),
    }
}

// Puts the number in by its entry, or by one that was made ready.
fn vacant_entry_puts_it_in(map: &mut Map, number: u64) -> Result<bool, TryReserveError> {
    match map.try_entry(Tagged::new(number, 'd'))? {
        Entry::Vacant(entry) => Ok(*entry.try_insert(number)? == number),
        Entry::Occupied(_entry) => Ok(false),
    }
}

fn ready_entry_puts_it_in(map: &mut Map, number: u64) -> Result<bool, TryReserveError> {
    match map.try_entry(Tagged::new(number, 'd'))? {
        Entry::Vacant(entry) => {
            let there = entry.try_ready()?.insert_entry(number);
            Ok(there.key().letter == 'd')
        }
        Entry::Occupied(_entry) => Ok(false),
    }
}

fn puts_it_in(map: &mut Map, number: u64) -> Result<bool, TryReserveError> {
    if number % 2 == 0 {
        vacant_entry_puts_it_in(map, number)
    } else {
        ready_entry_puts_it_in(map, number)
    }
}

fn each_key_is_given(map: &mut Map) -> Result<bool, TryReserveError> {
    for number in 0..END {
        if !entry_gives_it(map, number)?
            || !vacant_entry_gives_its_own(map, number)?
            || !ready_entry_gives_its_own(map, number)?
            || !puts_it_in(map, number)?
        {
            return Ok(false);
        }
    }
    Ok(counts_up(map, 0, END, 'd'))
}

fn keys_are_given(alloc: Global) -> Result<bool, TryReserveError> {
    let mut map = lettered(alloc, 'a', END)?;
    each_key_is_given(&mut map)
}

#[test]
fn an_entry_gives_the_key_that_is_there_or_its_own(rt: HostRuntime) -> Result<(), Fail> {
    assert!(rt; keys_are_given(rt.alloc())?);
    Ok(())
}

// Pops from both ends in turn, until nothing is left.
fn pops_each(map: &mut Map) -> bool {
    for first in 0..END / 2 {
        let last = END.wrapping_sub(1).wrapping_sub(first);
        if !is_pair(map.first_key_value(), first, 'a', first)
            || !is_owned_pair(map.pop_first(), first, 'a')
            || !is_pair(map.last_key_value(), last, 'a', last)
            || !is_owned_pair(map.pop_last(), last, 'a')
        {
            return false;
        }
    }
    map.is_empty()
}

fn keys_are_popped(alloc: Global) -> Result<bool, TryReserveError> {
    let mut map = lettered(alloc, 'a', END)?;
    Ok(pops_each(&mut map))
}

#[test]
fn the_ends_give_the_keys_of_the_map(rt: HostRuntime) -> Result<(), Fail> {
    assert!(rt; keys_are_popped(rt.alloc())?);
    Ok(())
}

// Whether the numbers below `middle` have the one letter, and those from there on below the end the other.
fn has_two_parts(
    map: &mut Map,
    middle: u64,
    first: char,
    second: char,
) -> Result<bool, TryReserveError> {
    let rest = map.split_off(&Tagged::new(middle, '?'))?;
    Ok(counts_up(map, 0, middle, first) && counts_up(&rest, middle, END, second))
}

// Joined with the first of them under another letter, the map has these under that letter, and the others as before.
fn is_joined(map: &mut Map, other: &mut Map) -> Result<bool, TryReserveError> {
    put_letters(map, 'a', END)?;
    put_letters(other, 'b', 100)?;
    map.append(other)?;
    Ok(other.is_empty() && has_two_parts(map, 100, 'b', 'a')?)
}

fn append_takes_theirs(alloc: Global) -> Result<bool, TryReserveError> {
    let mut map = Map::new(alloc);
    let mut other = Map::new(alloc);
    is_joined(&mut map, &mut other)
}

fn are_parts(map: &mut Map, rest: &mut Map, at: u64) -> Result<bool, TryReserveError> {
    let is_cut = counts_up(map, 0, at, 'a') && counts_up(rest, at, END, 'a');
    map.append(rest)?;
    Ok(is_cut)
}

fn is_cut(map: &mut Map, at: u64) -> Result<bool, TryReserveError> {
    let mut rest = map.split_off(&Tagged::new(at, 'b'))?;
    are_parts(map, &mut rest, at)
}

// A split at each seventh number leaves each key in its part.
fn is_cut_at_each(map: &mut Map) -> Result<bool, TryReserveError> {
    for part in 0..43 {
        if !is_cut(map, part * 7)? {
            return Ok(false);
        }
    }
    Ok(counts_up(map, 0, END, 'a'))
}

fn split_keeps_them(alloc: Global) -> Result<bool, TryReserveError> {
    let mut map = lettered(alloc, 'a', END)?;
    is_cut_at_each(&mut map)
}

fn copy_has_two_parts(map: &Map) -> Result<bool, TryReserveError> {
    let mut copy = map.try_clone()?;
    has_two_parts(&mut copy, 200, 'a', 'b')
}

// An extension keeps the keys that are there, and puts the others in; a copy has them all.
fn is_extended(alloc: Global, map: &mut Map) -> Result<bool, TryReserveError> {
    let more = lettered(alloc, 'b', END)?;
    map.try_extend(more)?;
    Ok(copy_has_two_parts(map)? && has_two_parts(map, 200, 'a', 'b')?)
}

fn extension_keeps_them(alloc: Global) -> Result<bool, TryReserveError> {
    let mut map = lettered(alloc, 'a', 200)?;
    is_extended(alloc, &mut map)
}

// The keys of letter a come first, and then those of letter b.
fn pair_at(place: u64) -> (Tagged, u64) {
    let number = place % END;
    let letter = if place < END { 'a' } else { 'b' };
    (Tagged::new(number, letter), number)
}

// Of equal keys a map that is made of pairs has the first.
fn made_map_has_the_first(alloc: Global) -> Result<bool, TryReserveError> {
    let pairs = (0..END.wrapping_mul(2)).map(pair_at);
    let map: Map = BTreeMap::try_from_iterator(alloc, pairs)?;
    Ok(counts_up(&map, 0, END, 'a'))
}

#[test]
fn calls_on_whole_maps_keep_or_take_keys(rt: HostRuntime) -> Result<(), Fail> {
    assert!(rt; append_takes_theirs(rt.alloc())? && split_keeps_them(rt.alloc())?);
    assert!(rt; extension_keeps_them(rt.alloc())? && made_map_has_the_first(rt.alloc())?);
    Ok(())
}

// Of two pairs for two maps each is put at the key that is there, or goes in with its own.
fn both_keep_theirs(a: &mut Map, b: &mut Map, number: u64) -> Result<bool, TryReserveError> {
    let new = number.wrapping_add(END);
    match insert_both(
        a,
        b,
        Tagged::new(number, 'b'),
        number,
        Tagged::new(new, 'c'),
        new,
    ) {
        Ok((old, none)) => {
            let is_kept = is_number(old, number) && has(a, number, 'a', number);
            Ok(is_kept && none.is_none() && has(b, new, 'c', new))
        }
        Err(back) => Err(back.4),
    }
}

fn each_of_both_stays(a: &mut Map, b: &mut Map) -> Result<bool, TryReserveError> {
    put_letters(a, 'a', END)?;
    put_letters(b, 'b', END)?;
    for number in 0..END {
        if !both_keep_theirs(a, b, number)? {
            return Ok(false);
        }
    }
    Ok(counts_up(a, 0, END, 'a') && b.len() as u64 == 2 * END)
}

fn keys_of_both_stay(alloc: Global) -> Result<bool, TryReserveError> {
    let mut a = Map::new(alloc);
    let mut b = Map::new(alloc);
    each_of_both_stays(&mut a, &mut b)
}

#[test]
fn two_insertions_keep_the_keys_that_are_there(rt: HostRuntime) -> Result<(), Fail> {
    assert!(rt; keys_of_both_stay(rt.alloc())?);
    Ok(())
}

// Puts the number in where the room serves the map.
fn put(map: &mut Map, reservation: &mut Reservation<Tagged, u64>, number: u64) {
    if reservation.places() == 0 || map.len() >= reservation.pairs() {
        return;
    }
    map.insert_reserved(reservation, Tagged::new(number, 'b'), number);
}

fn put_with_room(map: &mut Map) -> Result<(), TryReserveError> {
    let mut reservation = map.try_reserve_nodes(100)?;
    for number in 0..END.wrapping_add(100) {
        put(map, &mut reservation, number);
    }
    Ok(())
}

// With room for a hundred insertions, equal keys stay and use none of it, and new ones go in.
fn is_put_with_room(map: &mut Map) -> Result<bool, TryReserveError> {
    put_with_room(map)?;
    let rest = map.split_off(&Tagged::new(END, 'c'))?;
    Ok(counts_up(map, 0, END, 'a') && counts_up(&rest, END, END.wrapping_add(100), 'b'))
}

fn a_reservation_keeps_them(alloc: Global) -> Result<bool, TryReserveError> {
    let mut map = lettered(alloc, 'a', END)?;
    is_put_with_room(&mut map)
}

#[test]
fn a_reservation_leaves_the_keys_that_are_there(rt: HostRuntime) -> Result<(), Fail> {
    assert!(rt; a_reservation_keeps_them(rt.alloc())?);
    Ok(())
}

// The keys from the bound on, whose own letter is another.
fn range_gives_them(map: &Map, from: u64) -> bool {
    let at = Tagged::new(from, 'b');
    let (lo, hi) = (Bound::Included(&at), Bound::Unbounded);
    if !is_range(&lo, &hi) {
        return false;
    }
    let mut walk = map.range((lo, hi));
    for number in from..END {
        if !is_pair(walk.next(), number, 'a', number) {
            return false;
        }
    }
    walk.next().is_none()
}

fn ranges_give_them(map: &Map) -> bool {
    for from in [0, 1, 8, 149, 298] {
        if !range_gives_them(map, from) {
            return false;
        }
    }
    true
}

// A writing walk shows each key of the map before it lends its value.
fn writing_walk_shows_them(map: &mut Map) -> bool {
    let mut walk = map.iter_mut();
    for number in 0..END {
        if !is_pair(walk.peek(), number, 'a', number) {
            return false;
        }
        let _lent = walk.next();
    }
    walk.is_done()
}

fn keys_are_walked(map: &Map) -> bool {
    let mut number = 0u64;
    for there in map.keys() {
        if there.letter != 'a' || there.number != number {
            return false;
        }
        number = number.wrapping_add(1);
    }
    number == END
}

fn owned_walk_gives_them(map: Map) -> bool {
    let mut number = 0u64;
    for (key, value) in map {
        if !is_owned_pair(Some((key, value)), number, 'a') {
            return false;
        }
        number = number.wrapping_add(1);
    }
    number == END
}

// Whether ranges give the keys, and whether the other walks do.
fn walks_give_them(alloc: Global) -> Result<(bool, bool), TryReserveError> {
    let mut map = lettered(alloc, 'a', END)?;
    let by_ranges = ranges_give_them(&map);
    let by_lent_walks = writing_walk_shows_them(&mut map) && keys_are_walked(&map);
    Ok((by_ranges, owned_walk_gives_them(map) && by_lent_walks))
}

#[test]
fn walks_give_the_keys_of_the_map(rt: HostRuntime) -> Result<(), Fail> {
    let (by_ranges, by_walks) = walks_give_them(rt.alloc())?;
    assert!(rt; by_ranges);
    assert!(rt; by_walks);
    Ok(())
}
