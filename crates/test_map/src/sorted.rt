//! What a map kept as one sorted vector would cost: more than the clauses on the counts of a map's calls allow.
use crate::sizes::{BEYOND, CAPACITY, LEAST_CHILDREN, LEVEL_COMPARISONS, LEVEL_MOVES};
use fc_base::TryReserveError;
use fc_map::map::BTreeMap;
use std::alloc::{AllocError, Global};
use std::cell::Cell;
use std::test::Fail;
use test_values::CountingKey;

// How many levels a tree of so many pairs has at most: one, and one more for each h from 1 on with
// `2 * LEAST_CHILDREN^h <= pairs + 1`.
pub(crate) fn greatest_levels(pairs: u64) -> u64 {
    let mut levels = 1u64;
    let mut least = 2 * LEAST_CHILDREN;
    for _ in 0..10 {
        if least <= pairs.wrapping_add(1) {
            levels = levels.wrapping_add(1);
        }
        least = least.wrapping_mul(LEAST_CHILDREN);
    }
    levels
}

// A vector of keys in order, which counts what its calls compare and move.
#[derive(Drop)]
struct Sorted {
    keys: Vec<u64>,
    comparisons: u64,
    moves: u64,
}

impl Sorted {
    // The numbers from 1 to the last.
    fn try_up_to(alloc: Global, last: u64) -> Result<Sorted, AllocError> {
        let mut keys = Vec::new(alloc);
        for below in 0..last {
            keys.push(below.wrapping_add(1))?;
        }
        Ok(Sorted {
            keys,
            comparisons: 0,
            moves: 0,
        })
    }

    // The place of the first key that is not smaller, by halving.
    fn place_by_halving(&mut self, key: u64) -> usize {
        let (mut low, mut high) = (0usize, self.keys.len());
        for _ in 0..64 {
            let middle = low.wrapping_add(high) / 2;
            if low < high && middle < self.keys.len() {
                self.comparisons = self.comparisons.wrapping_add(1);
                if self.keys[middle] < key {
                    low = middle.wrapping_add(1);
                } else {
                    high = middle;
                }
            }
        }
        low
    }

    // That place, from the left.
    fn place_from_left(&mut self, key: u64) -> usize {
        for i in 0..self.keys.len() {
            self.comparisons = self.comparisons.wrapping_add(1);
            if self.keys[i] >= key {
                return i;
            }
        }
        self.keys.len()
    }

    // Puts a key at its place: one move for it, and one for each key after.
    fn insert(&mut self, key: u64) -> Result<(), AllocError> {
        let place = self.place_by_halving(key);
        for _ in place..self.keys.len() {
            self.moves = self.moves.wrapping_add(1);
        }
        if place <= self.keys.len() {
            self.keys.insert(place, key)?;
            self.moves = self.moves.wrapping_add(1);
        }
        Ok(())
    }
}

// A search from the left for the last of 40 keys makes 40 comparisons, where fewer are allowed for two levels.
#[test]
fn a_search_from_the_left_compares_too_often(rt: HostRuntime) -> Result<(), Fail> {
    let mut sorted = Sorted::try_up_to(rt.alloc(), 40)?;
    assert!(rt; sorted.place_from_left(40) == 39 && sorted.comparisons == 40);
    assert!(rt; greatest_levels(40) == 2 && sorted.comparisons > 2 * LEVEL_COMPARISONS);
    Ok(())
}

// A search by halving makes few comparisons, but the 70th key, put before the others, takes 70 moves, where fewer are
// allowed for two levels.
#[test]
fn a_sorted_vector_moves_too_often(rt: HostRuntime) -> Result<(), Fail> {
    let mut sorted = Sorted::try_up_to(rt.alloc(), 69)?;
    sorted.insert(0)?;
    assert!(rt; sorted.keys.len() == 70 && sorted.comparisons <= 7 && sorted.moves == 70);
    assert!(rt; greatest_levels(70) == 2 && sorted.moves > 2 * LEVEL_MOVES);
    Ok(())
}

// Whether no look-up in a map of the numbers from 1 to the last compares more often than its levels allow.
fn compares_within_bounds(alloc: Global, last: u64) -> Result<bool, TryReserveError> {
    let made = Cell::new(0);
    let comparisons = &made;
    let mut map = BTreeMap::new(alloc);
    for below in 0..last {
        let number = below.wrapping_add(1);
        map.try_insert(
            CountingKey {
                number,
                comparisons,
            },
            number,
        )?;
    }
    for number in 0..last {
        made.set(0);
        let is_there = map.contains_key(&CountingKey {
            number,
            comparisons,
        });
        if is_there != (number > 0)
            || made.get() > greatest_levels(last).wrapping_mul(LEVEL_COMPARISONS)
        {
            return Ok(false);
        }
    }
    Ok(true)
}

// The last map of one, of two and of three levels at most is among them.
#[test]
fn a_map_compares_within_its_bounds(rt: HostRuntime) -> Result<(), Fail> {
    for last in [1, CAPACITY as u64, BEYOND, 40, 126, 151, 1022] {
        assert!(rt; compares_within_bounds(rt.alloc(), last)?);
    }
    Ok(())
}
