//! Items of a set, by room that was taken before.
use fallible_collections::btree::BTreeSet;
use fallible_collections::btree::map::Reservation;
use std::test::Fail;

// Puts the item in where the room serves the set, and answers whether it was served and new.
fn put(set: &mut BTreeSet<u64>, reservation: &mut Reservation<u64, ()>, item: u64) -> bool {
    if reservation.places() == 0 || set.len() >= reservation.pairs() {
        return false;
    }
    set.insert_reserved(reservation, item)
}

// A second of an item uses no place, and a third item finds none.
#[test]
fn each_place_takes_an_item(rt: HostRuntime) -> Result<(), Fail> {
    let mut set = BTreeSet::new(rt.alloc());
    let mut reservation = set.try_reserve_nodes(2)?;
    assert!(rt;
        put(&mut set, &mut reservation, 5)
            && !put(&mut set, &mut reservation, 5)
            && reservation.places() == 1
    );
    assert!(rt;
        put(&mut set, &mut reservation, 3)
            && !put(&mut set, &mut reservation, 4)
            && reservation.places() == 0
    );
    assert!(rt; set.len() == 2 && set.contains(&3) && set.contains(&5));
    Ok(())
}
