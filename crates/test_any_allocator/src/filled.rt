//! How many pairs go into a budget that a map has for itself, whatever order they come in: at least as many as the bound on its bytes
//! leaves room for, since an insertion gives nothing back and takes nothing but nodes of the new tree.
use crate::numbers::{Numbers, number_at};
use crate::sizes::{INNER, LEAF};
use fc_budget::Budget;
use fc_laws::most_bytes;
use std::alloc::Global;

// A step that scatters keys over all numbers.
const SCATTERED: u64 = 0x9E37_79B9_7F4A_7C15;

// How many numbers that are as far apart go in before one is refused.
fn taken(budget: &Budget<Global>, step: u64) -> usize {
    let mut map: Numbers<'_> = Numbers::new(budget);
    for place in 0..10_000 {
        let number = number_at(1 << 63, step, place);
        if map.try_insert(number, number).is_err() {
            return map.len();
        }
    }
    map.len()
}

// The fewest of ascending, descending and scattered numbers.
fn fewest(alloc: Global, bytes: usize) -> usize {
    let mut least = usize::MAX;
    for step in [1, u64::MAX, SCATTERED] {
        let budget = Budget::new(alloc, bytes);
        least = least.min(taken(&budget, step));
    }
    least
}

// Whether a map of one pair more than went in may need more bytes than there are.
fn is_at_its_bound(bytes: usize, pairs: usize) -> bool {
    most_bytes(pairs.saturating_add(1), LEAF, INNER - LEAF).is_none_or(|most| most > bytes)
}

// Of so many nodes, each of which has seven pairs or more, an eighth and one more have children at the most: 10 nodes of which one has are 3,296
// bytes, 26 of which three have 8,928, and 186 of which 23 have 65,248; with another node there is another inner one, too.
#[test]
fn a_map_alone_in_a_budget_takes_as_many_pairs_as_its_bound_says(rt: HostRuntime) {
    let rows = [
        (0, 0),
        (240, 7),
        (1000, 14),
        (4096, 70),
        (10_000, 182),
        (65_536, 1302),
    ];
    for (bytes, at_least) in rows {
        let pairs = fewest(rt.alloc(), bytes);
        assert!(rt; pairs >= at_least && is_at_its_bound(bytes, pairs));
    }
}
