//! Whole maps and sets: joined, cut in two, and copied.
use crate::items::{Items, fill_set, has_items, items};
use crate::least::{Call, Fate, done, least, refused};
use crate::numbers::{Numbers, fill, holds, numbers};
use crate::sizes::{AMPLE, CAPACITY, INNER, LEAF, NODE, SET_INNER, SET_LEAF};
use fc_base::{TryClone, TryReserveError};
use fc_budget::Budget;
use std::alloc::Global;
use std::test::Fail;

// Joins so many even numbers and as many odd ones.
#[derive(Drop)]
struct Joining<'a> {
    map: Numbers<'a>,
    other: Numbers<'a>,
    count: u64,
}

impl Call for Joining<'_> {
    fn fate(&mut self) -> Fate {
        let count = self.count;
        match self.map.append(&mut self.other) {
            Ok(()) => done(
                holds(&self.map, 0, count.wrapping_mul(2), 1) && holds(&self.other, 0, 0, 1),
            ),
            Err(error) => refused(
                error,
                holds(&self.map, 0, count, 2) && holds(&self.other, 1, count, 2),
            ),
        }
    }
}

fn least_of_filled(
    budget: &Budget<Global>,
    joining: &mut Joining<'_>,
) -> Result<usize, TryReserveError> {
    let count = joining.count;
    fill(&mut joining.map, 0, count, 2)?;
    fill(&mut joining.other, 1, count, 2)?;
    least(budget, joining)
}

fn least_of_joining(budget: &Budget<Global>, count: u64) -> Result<usize, TryReserveError> {
    let mut joining = Joining {
        map: Numbers::new(budget),
        other: Numbers::new(budget),
        count,
    };
    least_of_filled(budget, &mut joining)
}

// Of ten one leaf, and of 170 two and a root, each after the list that it waits in. The others are leaves of both maps.
#[test]
fn a_refused_append_leaves_both_maps(rt: HostRuntime) -> Result<(), Fail> {
    let budget = Budget::new(rt.alloc(), AMPLE);
    let seen = [
        least_of_joining(&budget, 0)?,
        least_of_joining(&budget, 5)?,
        least_of_joining(&budget, 85)?,
    ];
    assert!(rt; seen == [0, NODE + LEAF, 3 * NODE + 2 * LEAF + INNER]);
    assert!(rt; budget.used() == 0);
    Ok(())
}

#[derive(Drop)]
struct SetJoining<'a> {
    set: Items<'a>,
    other: Items<'a>,
    count: u64,
}

impl Call for SetJoining<'_> {
    fn fate(&mut self) -> Fate {
        let count = self.count;
        match self.set.append(&mut self.other) {
            Ok(()) => done(
                has_items(&self.set, 0, count.wrapping_mul(2), 1)
                    && has_items(&self.other, 0, 0, 1),
            ),
            Err(error) => refused(
                error,
                has_items(&self.set, 0, count, 2) && has_items(&self.other, 1, count, 2),
            ),
        }
    }
}

fn least_of_filled_sets(
    budget: &Budget<Global>,
    joining: &mut SetJoining<'_>,
) -> Result<usize, TryReserveError> {
    let count = joining.count;
    fill_set(&mut joining.set, 0, count, 2)?;
    fill_set(&mut joining.other, 1, count, 2)?;
    least(budget, joining)
}

fn least_of_set_joining(budget: &Budget<Global>, count: u64) -> Result<usize, TryReserveError> {
    let mut joining = SetJoining {
        set: Items::new(budget),
        other: Items::new(budget),
        count,
    };
    least_of_filled_sets(budget, &mut joining)
}

#[test]
fn a_refused_append_leaves_both_sets(rt: HostRuntime) -> Result<(), Fail> {
    let budget = Budget::new(rt.alloc(), AMPLE);
    let seen = [
        least_of_set_joining(&budget, 0)?,
        least_of_set_joining(&budget, 5)?,
        least_of_set_joining(&budget, 85)?,
    ];
    assert!(rt; seen == [0, NODE + SET_LEAF, 3 * NODE + 2 * SET_LEAF + SET_INNER]);
    assert!(rt; budget.used() == 0);
    Ok(())
}

// Cuts so many numbers in their middle.
#[derive(Drop)]
struct Cutting<'a> {
    map: Numbers<'a>,
    half: u64,
}

impl Call for Cutting<'_> {
    fn fate(&mut self) -> Fate {
        let half = self.half;
        match self.map.split_off(&half) {
            Ok(rest) => done(holds(&self.map, 0, half, 1) && holds(&rest, half, half, 1)),
            Err(error) => refused(error, holds(&self.map, 0, half.wrapping_mul(2), 1)),
        }
    }
}

fn least_of_cutting(budget: &Budget<Global>, half: u64) -> Result<usize, TryReserveError> {
    let map = numbers(budget, 0, half.wrapping_mul(2), 1)?;
    least(budget, &mut Cutting { map, half })
}

// A node of each level: none, one, two and three.
#[test]
fn a_refused_split_leaves_the_map(rt: HostRuntime) -> Result<(), Fail> {
    let budget = Budget::new(rt.alloc(), AMPLE);
    let mut seen = [AMPLE; 4];
    for i in 0..4 {
        seen[i] = least_of_cutting(&budget, [0, 5, 20, 80][i])?;
    }
    assert!(rt; seen == [0, LEAF, LEAF + INNER, LEAF + 2 * INNER]);
    assert!(rt; budget.used() == 0);
    Ok(())
}

#[derive(Drop)]
struct SetCutting<'a> {
    set: Items<'a>,
    half: u64,
}

impl Call for SetCutting<'_> {
    fn fate(&mut self) -> Fate {
        let half = self.half;
        match self.set.try_split_off(&half) {
            Ok(rest) => done(has_items(&self.set, 0, half, 1) && has_items(&rest, half, half, 1)),
            Err(error) => refused(error, has_items(&self.set, 0, half.wrapping_mul(2), 1)),
        }
    }
}

fn least_of_set_cutting(budget: &Budget<Global>, half: u64) -> Result<usize, TryReserveError> {
    let set = items(budget, 0, half.wrapping_mul(2), 1)?;
    least(budget, &mut SetCutting { set, half })
}

#[test]
fn a_refused_split_leaves_the_set(rt: HostRuntime) -> Result<(), Fail> {
    let budget = Budget::new(rt.alloc(), AMPLE);
    let mut seen = [AMPLE; 4];
    for i in 0..4 {
        seen[i] = least_of_set_cutting(&budget, [0, 5, 20, 80][i])?;
    }
    assert!(rt; seen == [0, SET_LEAF, SET_LEAF + SET_INNER, SET_LEAF + 2 * SET_INNER]);
    assert!(rt; budget.used() == 0);
    Ok(())
}

// Copies a map, and drops the copy.
#[derive(Drop)]
struct Copying<'a> {
    map: Numbers<'a>,
    count: u64,
}

impl Call for Copying<'_> {
    fn fate(&mut self) -> Fate {
        let is_whole = holds(&self.map, 0, self.count, 1);
        match self.map.try_clone() {
            Ok(copy) => done(is_whole && copy == self.map),
            Err(error) => refused(error, is_whole),
        }
    }
}

fn least_of_copying(budget: &Budget<Global>, count: u64) -> Result<usize, TryReserveError> {
    let map = numbers(budget, 0, count, 1)?;
    least(budget, &mut Copying { map, count })
}

// A copy has the nodes of its source: those of 100 numbers that came in order are eleven leaves and a root.
#[test]
fn a_refused_copy_of_a_map_is_given_back(rt: HostRuntime) -> Result<(), Fail> {
    let budget = Budget::new(rt.alloc(), AMPLE);
    let seen = [
        least_of_copying(&budget, 0)?,
        least_of_copying(&budget, CAPACITY)?,
        least_of_copying(&budget, 100)?,
    ];
    assert!(rt; seen == [0, LEAF, 11 * LEAF + INNER]);
    assert!(rt; budget.used() == 0);
    Ok(())
}

#[derive(Drop)]
struct SetCopying<'a> {
    set: Items<'a>,
    count: u64,
}

impl Call for SetCopying<'_> {
    fn fate(&mut self) -> Fate {
        let is_whole = has_items(&self.set, 0, self.count, 1);
        match self.set.try_clone() {
            Ok(copy) => done(is_whole && copy == self.set),
            Err(error) => refused(error, is_whole),
        }
    }
}

fn least_of_set_copying(budget: &Budget<Global>, count: u64) -> Result<usize, TryReserveError> {
    let set = items(budget, 0, count, 1)?;
    least(budget, &mut SetCopying { set, count })
}

#[test]
fn a_refused_copy_of_a_set_is_given_back(rt: HostRuntime) -> Result<(), Fail> {
    let budget = Budget::new(rt.alloc(), AMPLE);
    let seen = [
        least_of_set_copying(&budget, 0)?,
        least_of_set_copying(&budget, CAPACITY)?,
        least_of_set_copying(&budget, 100)?,
    ];
    assert!(rt; seen == [0, SET_LEAF, 11 * SET_LEAF + SET_INNER]);
    assert!(rt; budget.used() == 0);
    Ok(())
}
