//! Maps made of the pairs that an iterator gives.
use crate::odds::{Order, has_odds, nth, odd};
use fc_base::TryReserveError;
use fc_map::map::BTreeMap;
use fc_tree_node::node::CAPACITY;
use fc_vec::TryFromIterator;
use std::alloc::{AllocError, Global};
use std::test::Fail;

// The first n odd numbers in this order, each with its place among them.
fn pairs(alloc: Global, order: Order, n: u64) -> Result<Vec<(u64, u64)>, AllocError> {
    let mut all = Vec::new(alloc);
    for i in 0..n {
        let place = nth(order, i, n);
        all.push((odd(place), place))?;
    }
    Ok(all)
}

// Whether the map that is made of the first n odd numbers holds just these.
fn is_made(alloc: Global, order: Order, n: u64) -> Result<bool, TryReserveError> {
    let map: BTreeMap<u64, u64> = BTreeMap::try_from_iterator(alloc, pairs(alloc, order, n)?)?;
    Ok(has_odds(&map, 0, n))
}

#[test]
fn pairs_in_each_order(rt: HostRuntime) -> Result<(), Fail> {
    for n in [0, 1, 2, CAPACITY as u64, CAPACITY as u64 + 1, 200, 2000] {
        assert!(rt; is_made(rt.alloc(), Order::Ascending, n)?);
        assert!(rt; is_made(rt.alloc(), Order::Descending, n)?);
        assert!(rt; is_made(rt.alloc(), Order::Scrambled, n)?);
    }
    Ok(())
}

fn is_letter(item: Option<&char>, wanted: char) -> bool {
    match item {
        Some(letter) => *letter == wanted,
        None => false,
    }
}

#[test]
fn the_last_value_of_a_key_stays(rt: HostRuntime) -> Result<(), Fail> {
    let mut pairs = Vec::new(rt.alloc());
    pairs.push((1, 'a'))?;
    pairs.push((1, 'b'))?;
    let map: BTreeMap<u64, char> = BTreeMap::try_from_iterator(rt.alloc(), pairs)?;
    assert!(rt; map.len() == 1 && is_letter(map.get(&1), 'b'));
    Ok(())
}
