//! Maps of odd numbers, so that there is an even one in each gap, and whether a map holds just these.
use fc_base::TryReserveError;
use fc_map::map::BTreeMap;
use std::alloc::Global;

// In which order the pairs come.
#[derive(Clone, Copy)]
pub(crate) enum Order {
    Ascending,
    Descending,
    Scrambled,
}

// Which of the n numbers from 0 on comes after `i` others. Scrambled, each comes once where n is no multiple of 1103.
pub(crate) fn nth(order: Order, i: u64, n: u64) -> u64 {
    match order {
        Order::Ascending => i,
        Order::Descending => n.wrapping_sub(1).wrapping_sub(i),
        Order::Scrambled => i.wrapping_mul(1103).checked_rem(n).unwrap_or(0),
    }
}

pub(crate) fn odd(i: u64) -> u64 {
    i.wrapping_mul(2).wrapping_add(1)
}

// A map of the first n odd numbers, each with its place among them.
pub(crate) fn odds(
    alloc: Global,
    order: Order,
    n: u64,
) -> Result<BTreeMap<u64, u64>, TryReserveError> {
    let mut map = BTreeMap::new(alloc);
    for i in 0..n {
        let place = nth(order, i, n);
        map.try_insert(odd(place), place)?;
    }
    Ok(map)
}

fn is_odd(item: Option<(&u64, &u64)>, place: u64) -> bool {
    match item {
        Some((number, found)) => *number == odd(place) && *found == place,
        None => false,
    }
}

fn gives_forward(map: &BTreeMap<u64, u64>, first: u64, end: u64) -> bool {
    let mut walk = map.iter();
    for place in first..end {
        if !is_odd(walk.next(), place) {
            return false;
        }
    }
    walk.next().is_none()
}

fn gives_backward(map: &BTreeMap<u64, u64>, first: u64, end: u64) -> bool {
    let mut walk = map.iter();
    for after in first..end {
        let place = end.wrapping_sub(1).wrapping_sub(after.wrapping_sub(first));
        if !is_odd(walk.next_back(), place) {
            return false;
        }
    }
    walk.next_back().is_none()
}

// Whether the map holds the odd numbers of these places, as its length tells and walks from both ends.
pub(crate) fn has_odds(map: &BTreeMap<u64, u64>, first: u64, end: u64) -> bool {
    map.len() as u64 == end.wrapping_sub(first)
        && map.is_empty() == (first == end)
        && gives_forward(map, first, end)
        && gives_backward(map, first, end)
}
