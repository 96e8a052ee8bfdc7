//! Insertions of one pair or item, and of a pair into each of two maps.
use crate::items::{Items, has_items, items};
use crate::least::{Call, Fate, done, least, refused};
use crate::numbers::{Numbers, fill, holds, numbers};
use crate::sizes::{AMPLE, CAPACITY, INNER, LEAF, SET_INNER, SET_LEAF, TWO_LEVELS};
use fc_base::TryReserveError;
use fc_budget::Budget;
use fc_map::map::insert_both;
use std::alloc::Global;
use std::test::Fail;

// How many pairs there are before: none, a few, as many as fill a leaf, a last leaf, and all nodes of the last path.
pub(crate) const LENGTHS: [u64; 5] = [0, 1, CAPACITY, 24, TWO_LEVELS];

// A first leaf; nothing; a leaf and a root; a leaf; and a node of each level, and a root.
pub(crate) const OF_PAIRS: [usize; 5] = [LEAF, 0, LEAF + INNER, LEAF, LEAF + 2 * INNER];

pub(crate) const OF_ITEMS: [usize; 5] = [
    SET_LEAF,
    0,
    SET_LEAF + SET_INNER,
    SET_LEAF,
    SET_LEAF + 2 * SET_INNER,
];

// Puts the number in after all others.
#[derive(Drop)]
struct Insertion<'a> {
    map: Numbers<'a>,
    number: u64,
}

impl Call for Insertion<'_> {
    fn fate(&mut self) -> Fate {
        let number = self.number;
        match self.map.try_insert(number, number) {
            Ok(old) => done(old.is_none() && holds(&self.map, 0, number.wrapping_add(1), 1)),
            Err((key, value, error)) => refused(
                error,
                key == number && value == number && holds(&self.map, 0, number, 1),
            ),
        }
    }
}

fn least_of_insertion(budget: &Budget<Global>, number: u64) -> Result<usize, TryReserveError> {
    let map = numbers(budget, 0, number, 1)?;
    least(budget, &mut Insertion { map, number })
}

#[test]
fn a_refused_insertion_leaves_the_map(rt: HostRuntime) -> Result<(), Fail> {
    let budget = Budget::new(rt.alloc(), AMPLE);
    let mut seen = [AMPLE; 5];
    for i in 0..5 {
        seen[i] = least_of_insertion(&budget, LENGTHS[i])?;
    }
    assert!(rt; seen == OF_PAIRS);
    assert!(rt; budget.used() == 0);
    Ok(())
}

#[derive(Drop)]
struct ItemInsertion<'a> {
    set: Items<'a>,
    number: u64,
}

impl Call for ItemInsertion<'_> {
    fn fate(&mut self) -> Fate {
        let number = self.number;
        match self.set.try_insert(number) {
            Ok(is_new) => done(is_new && has_items(&self.set, 0, number.wrapping_add(1), 1)),
            Err((item, error)) => refused(
                error,
                item == number && has_items(&self.set, 0, number, 1),
            ),
        }
    }
}

fn least_of_item(budget: &Budget<Global>, number: u64) -> Result<usize, TryReserveError> {
    let set = items(budget, 0, number, 1)?;
    least(budget, &mut ItemInsertion { set, number })
}

#[test]
fn a_refused_item_leaves_the_set(rt: HostRuntime) -> Result<(), Fail> {
    let budget = Budget::new(rt.alloc(), AMPLE);
    let mut seen = [AMPLE; 5];
    for i in 0..5 {
        seen[i] = least_of_item(&budget, LENGTHS[i])?;
    }
    assert!(rt; seen == OF_ITEMS);
    assert!(rt; budget.used() == 0);
    Ok(())
}

#[derive(Drop)]
struct Replacement<'a> {
    set: Items<'a>,
    number: u64,
}

impl Call for Replacement<'_> {
    fn fate(&mut self) -> Fate {
        let number = self.number;
        match self.set.replace(number) {
            Ok(old) => done(old.is_none() && has_items(&self.set, 0, number.wrapping_add(1), 1)),
            Err((item, error)) => refused(
                error,
                item == number && has_items(&self.set, 0, number, 1),
            ),
        }
    }
}

fn least_of_replacement(budget: &Budget<Global>, number: u64) -> Result<usize, TryReserveError> {
    let set = items(budget, 0, number, 1)?;
    least(budget, &mut Replacement { set, number })
}

#[test]
fn a_refused_replacement_leaves_the_set(rt: HostRuntime) -> Result<(), Fail> {
    let budget = Budget::new(rt.alloc(), AMPLE);
    let mut seen = [AMPLE; 5];
    for i in 0..5 {
        seen[i] = least_of_replacement(&budget, LENGTHS[i])?;
    }
    assert!(rt; seen == OF_ITEMS);
    assert!(rt; budget.used() == 0);
    Ok(())
}

// Puts a number in after all others of each map.
#[derive(Drop)]
struct Both<'a> {
    a: Numbers<'a>,
    b: Numbers<'a>,
    first: u64,
    second: u64,
}

impl Both<'_> {
    fn hold(&self, more: u64) -> bool {
        holds(&self.a, 0, self.first.wrapping_add(more), 1)
            && holds(&self.b, 0, self.second.wrapping_add(more), 1)
    }
}

impl Call for Both<'_> {
    fn fate(&mut self) -> Fate {
        let (first, second) = (self.first, self.second);
        match insert_both(&mut self.a, &mut self.b, first, first, second, second) {
            Ok((of_a, of_b)) => done(of_a.is_none() && of_b.is_none() && self.hold(1)),
            Err((key, value, other, its_value, error)) => {
                let is_back = key == first && value == first;
                let is_other_back = other == second && its_value == second;
                refused(error, is_back && is_other_back && self.hold(0))
            }
        }
    }
}

fn least_of_filled(budget: &Budget<Global>, both: &mut Both<'_>) -> Result<usize, TryReserveError> {
    let (first, second) = (both.first, both.second);
    fill(&mut both.a, 0, first, 1)?;
    fill(&mut both.b, 0, second, 1)?;
    least(budget, both)
}

fn least_of_both(
    budget: &Budget<Global>,
    first: u64,
    second: u64,
) -> Result<usize, TryReserveError> {
    let mut both = Both {
        a: Numbers::new(budget),
        b: Numbers::new(budget),
        first,
        second,
    };
    least_of_filled(budget, &mut both)
}

// Whether pairs go in after so many of one map and each length of the other with as many bytes as two insertions take.
fn agree_with_insertions(
    budget: &Budget<Global>,
    first: u64,
    of_first: usize,
) -> Result<bool, TryReserveError> {
    for j in 0..5 {
        let wanted = of_first.wrapping_add(OF_PAIRS[j]);
        if least_of_both(budget, first, LENGTHS[j])? != wanted {
            return Ok(false);
        }
    }
    Ok(true)
}

#[test]
fn a_pair_goes_into_each_map_or_into_neither(rt: HostRuntime) -> Result<(), Fail> {
    let budget = Budget::new(rt.alloc(), AMPLE);
    for i in 0..5 {
        assert!(rt; agree_with_insertions(&budget, LENGTHS[i], OF_PAIRS[i])?);
    }
    assert!(rt; budget.used() == 0);
    Ok(())
}
