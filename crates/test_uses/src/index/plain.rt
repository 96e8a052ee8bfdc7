//! A table beside its rows in an array, where each id is a place.
use fc_index::{Keyed, Table};
use fc_set::set::Range;
use std::ops::Bound;

// How many ids there are, and how many keys of each kind.
pub(crate) const IDS: usize = 24;

pub(crate) const KEYS: u64 = 5;

pub(crate) type Part = Keyed<u64, u64, u64>;

pub(crate) type Parts = Table<u64, u64, u64, u64>;

pub(crate) type Plain = [Option<Part>; IDS];

// Whether a row is at the id, and its first key, or its second, is this one.
fn has_key(plain: &Plain, by_first: bool, key: u64, id: u64) -> bool {
    if id >= IDS as u64 {
        return false;
    }
    match plain[id as usize] {
        Some(row) => key == if by_first { row.first } else { row.second },
        None => false,
    }
}

// How many rows have keys from one up to, and without, another.
fn count_within(plain: &Plain, by_first: bool, from: u64, to: u64) -> usize {
    let mut count = 0usize;
    for row in plain {
        if let Some(row) = row {
            let key = if by_first { row.first } else { row.second };
            if from <= key && key < to {
                count = count.wrapping_add(1);
            }
        }
    }
    count
}

// Whether the walk has just those rows whose keys lie from one up to, and without, another, in the order of keys and ids.
fn is_walked(
    walk: Range<'_, (u64, u64)>,
    plain: &Plain,
    by_first: bool,
    from: u64,
    to: u64,
) -> bool {
    let mut count = 0usize;
    let mut after = (0u64, 0u64);
    for (key, id) in walk {
        let is_there = has_key(plain, by_first, *key, *id);
        if !is_there || *key < from || to <= *key || (*key, *id) < after {
            return false;
        }
        after = (*key, id.wrapping_add(1));
        count = count.wrapping_add(1);
    }
    count == count_within(plain, by_first, from, to)
}

// Whether both walks over these keys have just the rows that they should.
fn has_keys(table: &Parts, plain: &Plain, from: u64, to: u64) -> bool {
    let bounds = (Bound::Included(from), Bound::Excluded(to));
    is_walked(table.by_first(bounds), plain, true, from, to)
        && is_walked(table.by_second(bounds), plain, false, from, to)
}

// Whether the table has the rows of the array, and nothing else, by their ids.
fn has_rows(table: &Parts, plain: &Plain) -> bool {
    let mut walk = table.iter();
    let mut count = 0usize;
    for at in 0..IDS {
        let id = at as u64;
        if table.get(id).copied() != plain[at] || table.contains(id) != plain[at].is_some() {
            return false;
        }
        if plain[at].is_some() {
            count = count.wrapping_add(1);
            if walk.next().map(|pair| *pair.0) != Some(id) {
                return false;
            }
        }
    }
    walk.next().is_none() && table.len() == count && table.is_empty() == (count == 0)
}

/// Whether the table has the rows of the array, and nothing else, by their ids and by both keys.
pub(crate) fn is_like(table: &Parts, plain: &Plain) -> bool {
    has_rows(table, plain)
        && has_keys(table, plain, 0, KEYS)
        && has_keys(table, plain, 1, 3)
        && has_keys(table, plain, 3, 4)
        && has_keys(table, plain, 4, 4)
}
