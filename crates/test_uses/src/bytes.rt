//! How many stretches and rows of numbers go into a budget that a collection has for itself: at least as many as the bounds on the bytes of their maps leave room
//! for; and what a cache of numbers takes.
use fc_budget::Budget;
use fc_cache::Cache;
use fc_index::Table;
use fc_intervals::IntervalMap;
use fc_laws::most_bytes;
use std::alloc::Global;

type Stretches<'a> = IntervalMap<u64, u64, &'a Budget<Global>>;

type Rows<'a> = Table<u64, u64, u64, u64, &'a Budget<Global>>;

type Entries<'a> = Cache<u64, u64, &'a Budget<Global>>;

// A leaf of a map from starts to stretches, one of a map from ids to rows, and one of a set of keys with ids: room for 15 pairs of 24, of 32 and of 16 bytes.
const LEAF_OF_STRETCHES: usize = 15 * 24;

const LEAF_OF_ROWS: usize = 15 * 32;

const LEAF_OF_INDEX: usize = 15 * 16;

// Room for the children of a node, of which each has two lists of three words and a word that tells whether there is the second one.
const CHILDREN: usize = 16 * 56;

// More than any of these budgets takes.
const MANY: u64 = 3000;

// The number of a place in an order that scatters so many numbers.
fn scattered(place: u64) -> u64 {
    place.wrapping_mul(1103) % MANY
}

// How many stretches that touch nowhere go in before one is refused.
fn stretches(budget: &Budget<Global>) -> usize {
    let mut map: Stretches<'_> = IntervalMap::new(budget);
    for place in 0..MANY {
        let start = scattered(place).wrapping_mul(4);
        if map.try_put(start..start.wrapping_add(2), place).is_err() {
            return map.len();
        }
    }
    map.len()
}

// How many rows of other ids and keys go in before one is refused.
fn rows(budget: &Budget<Global>) -> usize {
    let mut table: Rows<'_> = Table::new(budget);
    for place in 0..MANY {
        let id = scattered(place);
        if table.try_insert(id, place, MANY - place, place).is_err() {
            return table.len();
        }
    }
    table.len()
}

// The most bytes of a table of so many rows.
fn bytes_of_rows(rows: usize) -> Option<usize> {
    let of_rows = most_bytes(rows, LEAF_OF_ROWS, CHILDREN)?;
    let of_index = most_bytes(rows, LEAF_OF_INDEX, CHILDREN)?;
    of_index.checked_mul(2)?.checked_add(of_rows)
}

// Whether so many fit by this bound, and one more need not.
fn is_bound(bytes: usize, fit: Option<usize>, more: Option<usize>) -> bool {
    fit.is_some_and(|fit| fit <= bytes) && more.is_none_or(|more| more > bytes)
}

#[test]
fn stretches_in_a_budget(rt: HostRuntime) {
    let bounds = [
        (1000, 14),
        (2000, 21),
        (4096, 56),
        (10_000, 140),
        (65_536, 966),
    ];
    for (bytes, at_least) in bounds {
        let fit = most_bytes(at_least, LEAF_OF_STRETCHES, CHILDREN);
        let more = most_bytes(at_least + 1, LEAF_OF_STRETCHES, CHILDREN);
        let budget = Budget::new(rt.alloc(), bytes);
        assert!(rt; is_bound(bytes, fit, more) && stretches(&budget) >= at_least);
        assert!(rt; budget.used() == 0);
    }
}

#[test]
fn rows_in_a_budget(rt: HostRuntime) {
    let bounds = [
        (1000, 7),
        (2000, 14),
        (4096, 14),
        (10_000, 49),
        (65_536, 350),
    ];
    for (bytes, at_least) in bounds {
        let budget = Budget::new(rt.alloc(), bytes);
        assert!(rt; is_bound(bytes, bytes_of_rows(at_least), bytes_of_rows(at_least + 1)));
        assert!(rt; rows(&budget) >= at_least && budget.used() == 0);
    }
}

// An entry is a block of its key, its value, its cost and two links, as each end of the list of them is. The map of the keys has a group of 64 bytes for nine
// places, of 24 bytes each, and twice as many groups where all places are taken.
#[test]
fn entries_in_a_budget(rt: HostRuntime) {
    for (entries, groups) in [(1000u64, 128usize), (4000, 512)] {
        let budget = Budget::new(rt.alloc(), 1 << 20);
        let mut cache: Entries<'_> = Cache::new(&budget, usize::MAX);
        let mut is_in = true;
        for key in 0..entries {
            is_in = cache.try_put(key, key, 1).is_ok() && is_in;
        }
        let wanted = 40 * (entries as usize + 2) + groups * (64 + 9 * 24);
        assert!(rt; is_in && budget.used() == wanted);
    }
}
