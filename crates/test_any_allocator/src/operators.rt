//! Sets made of copies of two others' items.
use crate::items::{Items, fill_set, has_items, items};
use crate::least::{Call, Fate, done, least, refused};
use crate::sizes::{AMPLE, NODE, SET_INNER, SET_LEAF};
use fc_base::TryReserveError;
use fc_budget::Budget;
use std::alloc::Global;
use std::test::Fail;

#[derive(Clone, Copy)]
enum Operator {
    Sub,
    BitAnd,
    BitXor,
    BitOr,
}

impl Operator {
    // The first of the numbers that it answers, and how many they are.
    fn wanted(self) -> (u64, u64) {
        match self {
            Operator::Sub => (10, 10),
            Operator::BitAnd => (0, 10),
            Operator::BitXor => (10, 20),
            Operator::BitOr => (0, 30),
        }
    }
}

// The numbers below 20, and those below 30 but from 10 to 19.
#[derive(Drop)]
struct Operation<'a> {
    set: Items<'a>,
    other: Items<'a>,
    operator: Operator,
}

impl<'a> Operation<'a> {
    fn fill(&mut self, budget: &'a Budget<Global>) -> Result<(), TryReserveError> {
        fill_set(&mut self.set, 0, 20, 1)?;
        fill_set(&mut self.other, 0, 10, 1)?;
        let mut last = items(budget, 20, 10, 1)?;
        self.other.append(&mut last)
    }

    fn answer(&self) -> Result<Items<'a>, TryReserveError> {
        match self.operator {
            Operator::Sub => self.set.sub(&self.other),
            Operator::BitAnd => self.set.bitand(&self.other),
            Operator::BitXor => self.set.bitxor(&self.other),
            Operator::BitOr => self.set.bitor(&self.other),
        }
    }
}

impl Call for Operation<'_> {
    fn fate(&mut self) -> Fate {
        let (first, count) = self.operator.wanted();
        let answer = self.answer();
        let is_as_before = has_items(&self.set, 0, 20, 1) && self.other.len() == 20;
        match answer {
            Ok(made) => done(is_as_before && has_items(&made, first, count, 1)),
            Err(error) => refused(error, is_as_before),
        }
    }
}

fn least_of_filled<'a>(
    budget: &'a Budget<Global>,
    operation: &mut Operation<'a>,
) -> Result<usize, TryReserveError> {
    operation.fill(budget)?;
    least(budget, operation)
}

fn least_of(budget: &Budget<Global>, operator: Operator) -> Result<usize, TryReserveError> {
    let mut operation = Operation {
        set: Items::new(budget),
        other: Items::new(budget),
        operator,
    };
    least_of_filled(budget, &mut operation)
}

// Ten numbers fill no leaf; after one leaf of 15 come a second one, and a root after the list that it waits in.
#[test]
fn a_refused_operation_leaves_both_sets(rt: HostRuntime) -> Result<(), Fail> {
    let budget = Budget::new(rt.alloc(), AMPLE);
    let of_two_leaves = 2 * SET_LEAF + NODE + SET_INNER;
    let seen = [
        least_of(&budget, Operator::Sub)?,
        least_of(&budget, Operator::BitAnd)?,
        least_of(&budget, Operator::BitXor)?,
        least_of(&budget, Operator::BitOr)?,
    ];
    assert!(rt; seen == [SET_LEAF, SET_LEAF, of_two_leaves, of_two_leaves]);
    assert!(rt; budget.used() == 0);
    Ok(())
}
