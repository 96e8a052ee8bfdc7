//! Splits at each key and in each gap, and the maps that they leave.
use crate::odds::{Order, has_odds, odds};
use fc_base::TryReserveError;
use fc_map::map::BTreeMap;
use fc_tree_node::node::CAPACITY;
use std::alloc::Global;
use std::test::Fail;

// Whether a split of the first n odd numbers leaves those below the key, and answers the others; and whether an append then takes these
// back, and leaves none. The joined map is then to be looked at, or split again, which shows each of its pairs.
fn splits(map: &mut BTreeMap<u64, u64>, n: u64, key: u64) -> Result<bool, TryReserveError> {
    let cut = n.min(key / 2);
    let mut rest = map.split_off(&key)?;
    let is_cut = has_odds(map, 0, cut) && has_odds(&rest, cut, n);
    map.append(&mut rest)?;
    Ok(is_cut && map.len() as u64 == n && has_odds(&rest, 0, 0))
}

// Whether a map that was made by insertions is split at the key.
fn splits_new(alloc: Global, order: Order, n: u64, key: u64) -> Result<bool, TryReserveError> {
    let mut map = odds(alloc, order, n)?;
    Ok(splits(&mut map, n, key)? && has_odds(&map, 0, n))
}

// Whether the numbers are split at each key and in each gap, also before the first one and after the last.
fn splits_everywhere(alloc: Global, order: Order, n: u64) -> Result<bool, TryReserveError> {
    for key in 0..n.saturating_mul(2).saturating_add(2) {
        if !splits_new(alloc, order, n, key)? {
            return Ok(false);
        }
    }
    Ok(true)
}

#[test]
fn every_split_of_up_to_a_hundred_pairs(rt: HostRuntime) -> Result<(), Fail> {
    for n in 0..101 {
        assert!(rt; splits_everywhere(rt.alloc(), Order::Ascending, n)?);
    }
    Ok(())
}

// Ascending pairs stand on three levels from 151 on.
#[test]
fn every_split_where_a_third_level_begins(rt: HostRuntime) -> Result<(), Fail> {
    for n in 148..155 {
        assert!(rt; splits_everywhere(rt.alloc(), Order::Ascending, n)?);
    }
    Ok(())
}

// Whether one map is split at each key and in each gap, each time as the append before has left it.
fn is_split_everywhere(alloc: Global, n: u64) -> Result<bool, TryReserveError> {
    let mut map = odds(alloc, Order::Scrambled, n)?;
    for key in 0..n.saturating_mul(2).saturating_add(2) {
        if !splits(&mut map, n, key)? {
            return Ok(false);
        }
    }
    Ok(has_odds(&map, 0, n))
}

// Whether maps of so many pairs are tried: those of one leaf or two, those about as many as fill two levels, which are 255, and each
// seventeenth length. Their splits at each key leave parts of each length.
fn is_tried(n: u64) -> bool {
    n < 34 || (n > 252 && n < 259) || n % 17 == 0
}

#[test]
fn every_split_of_appended_maps_of_up_to_three_hundred_pairs(rt: HostRuntime) -> Result<(), Fail> {
    for n in 0..301 {
        if is_tried(n) {
            assert!(rt; is_split_everywhere(rt.alloc(), n)?);
        }
    }
    Ok(())
}

#[test]
fn every_split_of_pairs_that_came_in_other_orders(rt: HostRuntime) -> Result<(), Fail> {
    for n in [CAPACITY as u64, CAPACITY as u64 + 1, 23, 150, 151, 256, 300] {
        assert!(rt; splits_everywhere(rt.alloc(), Order::Descending, n)?);
        assert!(rt; splits_everywhere(rt.alloc(), Order::Scrambled, n)?);
    }
    Ok(())
}

// Whether the numbers are split at 34 keys, of which every other is there: around the first, after the last, and in all parts.
fn splits_here_and_there(alloc: Global, order: Order, n: u64) -> Result<bool, TryReserveError> {
    for part in 0..17 {
        let key = n.saturating_mul(part) / 16 * 2;
        if !splits_new(alloc, order, n, key)? || !splits_new(alloc, order, n, key + 1)? {
            return Ok(false);
        }
    }
    Ok(true)
}

// Trees of three levels and of four: ascending pairs stand on four levels from 1366 on.
#[test]
fn splits_of_large_maps(rt: HostRuntime) -> Result<(), Fail> {
    for n in [500, 1500, 4000] {
        assert!(rt; splits_here_and_there(rt.alloc(), Order::Ascending, n)?);
        assert!(rt; splits_here_and_there(rt.alloc(), Order::Descending, n)?);
        assert!(rt; splits_here_and_there(rt.alloc(), Order::Scrambled, n)?);
    }
    Ok(())
}
