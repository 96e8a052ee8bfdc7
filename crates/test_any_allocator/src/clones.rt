//! Clones of maps and sets by std's `Clone`, whole or refused.
use crate::items::{Items, has_items, items};
use crate::least::{Call, Fate, done, least, refused};
use crate::numbers::{Numbers, holds, numbers};
use crate::sizes::{AMPLE, INNER, LEAF, SET_INNER, SET_LEAF};
use fc_base::TryReserveError;
use fc_budget::Budget;
use std::alloc::Global;
use std::test::Fail;

#[derive(Drop)]
struct Cloning<'a> {
    map: Numbers<'a>,
    count: u64,
}

impl Call for Cloning<'_> {
    fn fate(&mut self) -> Fate {
        match self.map.clone() {
            Ok(copy) => done(holds(&copy, 0, self.count, 1) && holds(&self.map, 0, self.count, 1)),
            Err(error) => refused(error.into(), holds(&self.map, 0, self.count, 1)),
        }
    }
}

fn least_of_a_clone(budget: &Budget<Global>, count: u64) -> Result<usize, TryReserveError> {
    let map = numbers(budget, 0, count, 1)?;
    least(budget, &mut Cloning { map, count })
}

// Leaves are filled: of 35 pairs there are three, with two pairs above them.
#[test]
fn a_refused_clone_leaves_its_map(rt: HostRuntime) -> Result<(), Fail> {
    let budget = Budget::new(rt.alloc(), AMPLE);
    let seen = [
        least_of_a_clone(&budget, 0)?,
        least_of_a_clone(&budget, 5)?,
        least_of_a_clone(&budget, 35)?,
    ];
    assert!(rt; seen == [0, LEAF, 3 * LEAF + INNER]);
    assert!(rt; budget.used() == 0);
    Ok(())
}

#[derive(Drop)]
struct SetCloning<'a> {
    set: Items<'a>,
    count: u64,
}

impl Call for SetCloning<'_> {
    fn fate(&mut self) -> Fate {
        match self.set.clone() {
            Ok(copy) => {
                done(has_items(&copy, 0, self.count, 1) && has_items(&self.set, 0, self.count, 1))
            }
            Err(error) => refused(error.into(), has_items(&self.set, 0, self.count, 1)),
        }
    }
}

fn least_of_a_set_clone(budget: &Budget<Global>, count: u64) -> Result<usize, TryReserveError> {
    let set = items(budget, 0, count, 1)?;
    least(budget, &mut SetCloning { set, count })
}

#[test]
fn a_refused_clone_leaves_its_set(rt: HostRuntime) -> Result<(), Fail> {
    let budget = Budget::new(rt.alloc(), AMPLE);
    let seen = [
        least_of_a_set_clone(&budget, 0)?,
        least_of_a_set_clone(&budget, 5)?,
        least_of_a_set_clone(&budget, 35)?,
    ];
    assert!(rt; seen == [0, SET_LEAF, 3 * SET_LEAF + SET_INNER]);
    assert!(rt; budget.used() == 0);
    Ok(())
}
