//! The texts of maps, of their walks and of their entries.
use crate::out::Out;
use fc_base::TryReserveError;
use fc_map::map::{BTreeMap, Entry, IntoIter, is_range};
use std::alloc::Global;
use std::fmt::Debug;
use std::ops::Bound;

type Map = BTreeMap<u64, u64>;

// The odd numbers from 1 on, so many, each with the number after it.
fn odd(alloc: Global, count: u64) -> Result<Map, TryReserveError> {
    let mut map = BTreeMap::new(alloc);
    for i in 0..count {
        let key = i.wrapping_mul(2).wrapping_add(1);
        map.try_insert(key, key.wrapping_add(1))?;
    }
    Ok(map)
}

// Answers with the texts of a map of so many pairs: of its own, of a walk over it, or of its entries.
pub(crate) fn show_text(alloc: Global, what: &str, count: &str, out: &mut Out) {
    let count = count.parse::<u64>().unwrap_or(0);
    let Ok(map) = odd(alloc, count) else {
        return out.word("no memory");
    };
    let is_fore = what == "into_iter" || what == "into_iter_from_the_front";
    let is_back = what == "into_iter" || what == "into_iter_from_the_back";
    if is_fore || is_back {
        show_owned_walk(alloc, map, (is_fore, is_back), count, out);
    } else if what == "entry_of_1" {
        show_entry(map, 1, out);
    } else if what == "entry_of_5" {
        show_entry(map, 5, out);
    } else {
        show_lent(alloc, &map, what, count, out);
    }
}

// Answers with the texts of what lends the pairs.
fn show_lent(alloc: Global, map: &Map, what: &str, count: u64, out: &mut Out) {
    match what {
        "text" => out.debug(map),
        "keys" => out.debug(&map.keys()),
        "values" => out.debug(&map.values()),
        "range" => show_range(map, Bound::Unbounded, Bound::Unbounded, out),
        "range_from_21_below_41" => {
            show_range(map, Bound::Included(&21), Bound::Excluded(&41), out);
        }
        "iter" => show_walk(alloc, map, count, out),
        _ => out.word("?"),
    }
}

fn show_range(map: &Map, lo: Bound<&u64>, hi: Bound<&u64>, out: &mut Out) {
    if is_range(&lo, &hi) {
        out.debug(&map.range((lo, hi)));
    }
}

// Shows the key's entry, and then what it holds, a vacant or an occupied one.
fn show_entry(mut map: Map, key: u64, out: &mut Out) {
    if let Ok(entry) = map.try_entry(key) {
        out.debug(&entry);
        match entry {
            Entry::Vacant(entry) => out.debug(&entry),
            Entry::Occupied(entry) => out.debug(&entry),
        }
    }
}

// Whether the text of a walk is that of the pairs of odd numbers from the one with this index on, up to this index.
fn is_listed<D: Debug>(alloc: Global, walk: &D, first: u64, end: u64) -> bool {
    let (Ok(mut wanted), Ok(mut shown)) = (Out::with_room(alloc), Out::with_room(alloc)) else {
        return false;
    };
    wanted.put(" [");
    for i in first..end {
        wanted.put(if i == first { "(" } else { ", (" });
        let key = i.wrapping_mul(2).wrapping_add(1);
        wanted.put_number(key);
        wanted.put(", ");
        wanted.put_number(key.wrapping_add(1));
        wanted.put(")");
    }
    wanted.put("]");
    shown.debug(walk);
    !shown.has_failed() && shown.text() == wanted.text()
}

// Takes a pair from both ends in turn. Answers with how often the walk's text was that of the pairs to come, and the walk went on as long as there
// were any; the last time none is left.
fn show_walk(alloc: Global, map: &Map, count: u64, out: &mut Out) {
    let mut walk = map.iter();
    let (mut first, mut end) = (0, count);
    let mut agree = 0u64;
    for _ in 0..count {
        let is_left = first < end;
        let is_listed = is_listed(alloc, &walk, first, end);
        let goes_on = walk.next().is_some() == is_left && walk.next_back().is_some() == is_left;
        agree = agree.wrapping_add(u64::from(is_listed));
        if !(is_listed && goes_on && is_left) {
            break;
        }
        first = first.wrapping_add(1);
        end = end.wrapping_sub(1);
    }
    out.number(agree);
}

// As a walk that lends, but it takes a pair only from the ends that are said.
fn show_owned_walk(alloc: Global, map: Map, ends: (bool, bool), count: u64, out: &mut Out) {
    let mut walk = map.into_iter();
    let (mut first, mut end) = (0, count);
    let mut agree = 0u64;
    for _ in 0..count {
        let is_left = first < end;
        let is_listed = is_listed(alloc, &walk, first, end);
        agree = agree.wrapping_add(u64::from(is_listed));
        if !(is_listed && is_left && takes(&mut walk, ends)) {
            break;
        }
        first = first.wrapping_add(u64::from(ends.0));
        end = end.wrapping_sub(u64::from(ends.1));
    }
    out.number(agree);
}

// Takes a pair from the ends that are said. Whether there was one.
fn takes(walk: &mut IntoIter<u64, u64>, ends: (bool, bool)) -> bool {
    let is_first = !ends.0 || walk.next().is_some();
    is_first && (!ends.1 || walk.next_back().is_some())
}
