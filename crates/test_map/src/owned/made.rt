//! Maps that are made of others or of items, made one of two or two of one, and rooms.
use super::{FEW, Owners, is_right, pair, put_owners};
use fc_base::{TryClone, TryReserveError};
use fc_map::map::{BTreeMap, Reservation};
use fc_vec::TryFromIterator;
use std::alloc::Global;
use test_values::Owned;

// The first number, the end and the step.
type Steps = (u64, u64, u64);

fn joins(
    alloc: Global,
    map: &mut Owners,
    other: &mut Owners,
    ours: Steps,
    theirs: Steps,
) -> Result<usize, TryReserveError> {
    put_owners(alloc, map, ours.0, ours.1, ours.2)?;
    put_owners(alloc, other, theirs.0, theirs.1, theirs.2)?;
    map.append(other)?;
    Ok(if other.is_empty() { map.len() } else { 0 })
}

fn joined(alloc: Global, ours: Steps, theirs: Steps) -> Result<usize, TryReserveError> {
    let mut map = Owners::new(alloc);
    let mut other = Owners::new(alloc);
    joins(alloc, &mut map, &mut other, ours, theirs)
}

// Appends the second numbers to the first: whether there are so many then, of which some are in both.
fn appends(
    alloc: Global,
    ours: Steps,
    theirs: Steps,
    wanted: usize,
) -> Result<bool, TryReserveError> {
    Ok(joined(alloc, ours, theirs)? == wanted)
}

// Two trees of two levels are joined above, below, and where 7 of 20 and 14 keys are equal.
#[test]
fn an_append_gives_up_pairs_of_equal_keys_and_spare_nodes(rt: HostRuntime) {
    assert!(rt; is_right(appends(rt.alloc(), (0, 20, 1), (20, 40, 1), 40)));
    assert!(rt; is_right(appends(rt.alloc(), (20, 40, 1), (0, 20, 1), 40)));
    assert!(rt; is_right(appends(rt.alloc(), (0, 40, 2), (0, 42, 3), 27)));
}

// Trees of three levels, not swept: above a lower one, below it, and where each second key is equal.
#[test]
fn an_append_of_three_levels_gives_up_what_it_does_not_keep(rt: HostRuntime) {
    for (ours, theirs, wanted) in [
        ((0, 300, 1), (300, 320, 1), 320),
        ((20, 320, 1), (0, 20, 1), 320),
        ((0, 20, 1), (20, 320, 1), 320),
        ((0, 300, 1), (0, 600, 2), 450),
    ] {
        assert!(rt; is_right(appends(rt.alloc(), ours, theirs, wanted)));
    }
}

// How many numbers stay and go where so many are cut in two.
fn cut_in_two(
    alloc: Global,
    map: &mut Owners,
    end: u64,
    cut: u64,
) -> Result<(usize, usize), TryReserveError> {
    put_owners(alloc, map, 0, end, 1)?;
    let sought = Owned::try_new(alloc, cut)?;
    let rest = map.split_off(&sought)?;
    Ok((map.len(), rest.len()))
}

// Both parts are then dropped.
fn splits(alloc: Global, end: u64, cut: u64) -> Result<bool, TryReserveError> {
    let mut map = Owners::new(alloc);
    let (stay, go) = cut_in_two(alloc, &mut map, end, cut)?;
    Ok(stay as u64 == cut && go as u64 == end.wrapping_sub(cut))
}

#[test]
fn a_refused_split_of_owners_gives_up_its_spare_nodes(rt: HostRuntime) {
    assert!(rt; is_right(splits(rt.alloc(), FEW, 7)));
}

#[test]
fn a_split_gives_up_each_node_that_it_empties(rt: HostRuntime) {
    for cut in [0, 1, 15, 143, 150, 299, 300] {
        assert!(rt; is_right(splits(rt.alloc(), 300, cut)));
    }
}

fn is_copied(alloc: Global, map: &mut Owners) -> Result<bool, TryReserveError> {
    put_owners(alloc, map, 0, FEW, 1)?;
    let copy = map.try_clone()?;
    Ok(copy.len() == map.len() && copy == *map)
}

fn copies(alloc: Global) -> Result<bool, TryReserveError> {
    let mut map = Owners::new(alloc);
    is_copied(alloc, &mut map)
}

#[test]
fn a_refused_copy_of_owners_gives_up_what_it_made(rt: HostRuntime) {
    assert!(rt; is_right(copies(rt.alloc())));
}

// So many pairs, 7 apart and round, so that the map has some of them and not others.
fn items(alloc: Global, count: u64) -> Result<Vec<(Owned, Owned)>, TryReserveError> {
    let mut all = Vec::with_capacity(alloc, count as usize)?;
    for place in 0..count {
        all.push(pair(alloc, place.wrapping_mul(7) % count)?)?;
    }
    Ok(all)
}

fn is_extended(alloc: Global, map: &mut Owners) -> Result<bool, TryReserveError> {
    put_owners(alloc, map, 0, 15, 1)?;
    map.try_extend(items(alloc, FEW)?)?;
    Ok(map.len() as u64 == FEW)
}

fn extends(alloc: Global) -> Result<bool, TryReserveError> {
    let mut map = Owners::new(alloc);
    is_extended(alloc, &mut map)
}

#[test]
fn an_extension_gives_up_keys_that_are_there_and_the_item_that_is_refused(rt: HostRuntime) {
    assert!(rt; is_right(extends(rt.alloc())));
}

fn ascending(alloc: Global) -> Result<Vec<(Owned, Owned)>, TryReserveError> {
    let mut all = Vec::with_capacity(alloc, 20)?;
    for number in 15..35 {
        all.push(pair(alloc, number)?)?;
    }
    Ok(all)
}

// Ascending items, which are put in at the end of the tree.
fn is_extended_after(alloc: Global, map: &mut Owners) -> Result<bool, TryReserveError> {
    put_owners(alloc, map, 0, 15, 1)?;
    map.try_extend(ascending(alloc)?)?;
    Ok(map.len() == 35)
}

fn extends_after(alloc: Global) -> Result<bool, TryReserveError> {
    let mut map = Owners::new(alloc);
    is_extended_after(alloc, &mut map)
}

#[test]
fn an_extension_after_the_last_key_gives_up_the_item_that_is_refused(rt: HostRuntime) {
    assert!(rt; is_right(extends_after(rt.alloc())));
}

fn makes(alloc: Global) -> Result<bool, TryReserveError> {
    let map: Owners = BTreeMap::try_from_iterator(alloc, items(alloc, FEW)?)?;
    Ok(map.len() as u64 == FEW)
}

#[test]
fn a_map_that_is_made_or_refused_gives_up_each_item(rt: HostRuntime) {
    assert!(rt; is_right(makes(rt.alloc())));
}

fn put_reserved(
    alloc: Global,
    map: &mut Owners,
    reservation: &mut Reservation<Owned, Owned>,
    number: u64,
) -> Result<(), TryReserveError> {
    let (key, value) = pair(alloc, number)?;
    if reservation.places() > 0 && map.len() < reservation.pairs() {
        map.insert_reserved(reservation, key, value);
    }
    Ok(())
}

// How many places are left of four where so many are used.
fn left_of_four(
    alloc: Global,
    map: &mut Owners,
    len: u64,
    used: u64,
) -> Result<usize, TryReserveError> {
    put_owners(alloc, map, 0, len, 1)?;
    let mut reservation = map.try_reserve_nodes(4)?;
    for number in len..len.wrapping_add(used) {
        put_reserved(alloc, map, &mut reservation, number)?;
    }
    Ok(reservation.places())
}

// Takes room for four more in a map of so many, puts so many in, and drops the room and the map with what is left.
fn has_reserved(alloc: Global, len: u64, used: u64) -> Result<bool, TryReserveError> {
    let mut map = Owners::new(alloc);
    let left = left_of_four(alloc, &mut map, len, used)? as u64;
    Ok(map.len() as u64 == len.wrapping_add(used) && left.wrapping_add(used) == 4)
}

#[test]
fn a_reservation_that_is_used_or_not_is_given_up(rt: HostRuntime) {
    for (len, used) in [(0, 0), (0, 1), (15, 0), (15, 1), (15, 4)] {
        assert!(rt; is_right(has_reserved(rt.alloc(), len, used)));
    }
}

// The root of a full path is split, for which three nodes of the room are taken.
#[test]
fn a_reservation_on_three_levels_is_given_up(rt: HostRuntime) {
    for used in 0..5 {
        assert!(rt; is_right(has_reserved(rt.alloc(), 150, used)));
    }
}
