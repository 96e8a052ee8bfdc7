//! A call on a set that takes a count does as the one without: what is counted is seen by contracts alone.
use fc_base::{Count, TryReserveError};
use fc_map::map::Reservation;
use fc_set::set::BTreeSet;
use std::alloc::Global;
use std::test::Fail;

// Puts a number in where the reservation serves the set, and answers whether it was served and new.
fn put(set: &mut BTreeSet<u64>, reservation: &mut Reservation<u64, ()>, number: u64) -> bool {
    if reservation.places() == 0 || set.len() >= reservation.pairs() {
        return false;
    }
    set.insert_reserved_counted(reservation, number, &mut Count::new())
}

// Whether the first number takes a place, the same again none, and another one the last, and whether both are then there.
fn take_places(
    set: &mut BTreeSet<u64>,
    reservation: &mut Reservation<u64, ()>,
) -> (bool, bool, bool, bool) {
    let first = put(set, reservation, 3) && reservation.places() == 1;
    let again = !put(set, reservation, 3) && reservation.places() == 1;
    let second = put(set, reservation, 5) && reservation.places() == 0;
    let both = set.len() == 2 && set.contains(&3) && set.contains(&5);
    (first, again, second, both)
}

fn places_are_taken(alloc: Global) -> Result<(bool, bool, bool, bool), TryReserveError> {
    let mut set = BTreeSet::new(alloc);
    let mut reservation = set.try_reserve_nodes(2)?;
    Ok(take_places(&mut set, &mut reservation))
}

// A number that is there takes no place.
#[test]
fn a_counted_insertion_takes_a_place_of_the_reservation(rt: HostRuntime) -> Result<(), Fail> {
    let (first, again, second, both) = places_are_taken(rt.alloc())?;
    assert!(rt; first);
    assert!(rt; again);
    assert!(rt; second);
    assert!(rt; both);
    Ok(())
}
