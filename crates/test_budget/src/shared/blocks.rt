//! Boxes, of which each is one block, and lists with room for so many items.
use fc_budget::SharedBudget;
use std::alloc::{Allocator, Global};
use std::test::Fail;

// How many of three boxes of 8 bytes each are made, and how many bytes are out then.
fn boxed(budget: &SharedBudget<Global>) -> (usize, usize) {
    let mut made = 0usize;
    let first = Box::new(budget, 1u64);
    let second = Box::new(budget, 2u64);
    let third = Box::new(budget, 3u64);
    for is_made in [first.is_ok(), second.is_ok(), third.is_ok()] {
        if is_made {
            made = made.wrapping_add(1);
        }
    }
    (made, budget.used())
}

// Each budget that is no whole number of boxes leaves a rest that no box fits.
#[test]
fn a_request_is_refused_where_its_bytes_pass_the_cap(rt: HostRuntime) {
    let mut seen = [(0, 0, 0); 6];
    for i in 0..6 {
        let budget = SharedBudget::new(rt.alloc(), [0, 7, 8, 15, 16, 24][i]);
        let (made, used) = boxed(&budget);
        seen[i] = (made, used, budget.used());
    }
    assert_eq!(rt;
        seen,
        [
            (0, 0, 0),
            (0, 0, 0),
            (1, 8, 0),
            (1, 8, 0),
            (2, 16, 0),
            (3, 24, 0)
        ]
    );
}

// Whether a list with room for so many numbers of 8 bytes is made, and how many bytes are out while it is there.
fn listed<A: Allocator>(budget: &SharedBudget<A>, count: usize) -> (bool, usize) {
    let list = Vec::<u64, _>::with_capacity(budget, count);
    (list.is_ok(), budget.used())
}

#[test]
fn a_refused_request_is_not_counted(rt: HostRuntime) {
    let budget = SharedBudget::new(rt.alloc(), 80);
    let seen = [
        listed(&budget, 11),
        listed(&budget, 10),
        listed(&budget, usize::MAX / 16),
        listed(&budget, 10),
    ];
    assert_eq!(rt; seen, [(false, 0), (true, 80), (false, 0), (true, 80)]);
    assert_eq!(rt; (budget.used(), budget.left(), budget.cap()), (0, 80, 80));
}

// Alone each of them fits.
#[test]
fn a_request_is_refused_beside_what_is_out(rt: HostRuntime) {
    let budget = SharedBudget::new(rt.alloc(), 80);
    let mut seen = [(false, 0); 3];
    if let Ok(six) = Vec::<u64, _>::with_capacity(&budget, 6) {
        seen[0] = listed(&budget, 5);
        seen[1] = listed(&budget, 4);
        drop(six);
        seen[2] = listed(&budget, 5);
    }
    assert_eq!(rt; seen, [(false, 48), (true, 80), (true, 40)]);
    assert_eq!(rt; (budget.used(), budget.left()), (0, 80));
}

// The cap is no reason to refuse what is greater than the memory of a machine: the allocator below is.
#[test]
fn a_request_that_is_refused_below_is_not_counted(rt: HostRuntime) {
    let budget = SharedBudget::new(rt.alloc(), usize::MAX);
    let seen = [
        listed(&budget, usize::MAX / 32),
        listed(&budget, 1),
        listed(&budget, usize::MAX / 32),
    ];
    assert_eq!(rt; seen, [(false, 0), (true, 8), (false, 0)]);
    assert_eq!(rt; (budget.used(), budget.left()), (0, usize::MAX));
}

#[test]
fn a_budget_over_a_budget_takes_of_both(rt: HostRuntime) {
    let outer = SharedBudget::new(rt.alloc(), 80);
    let first = SharedBudget::new(&outer, 64);
    let second = SharedBudget::new(&outer, 64);
    let mut seen = [(false, 0, 0); 3];
    if let Ok(five) = Vec::<u64, _>::with_capacity(&first, 5) {
        let more = Vec::<u64, _>::with_capacity(&first, 4);
        seen[0] = (more.is_ok(), first.used(), outer.used());
        let six = Vec::<u64, _>::with_capacity(&second, 6);
        seen[1] = (six.is_ok(), second.used(), outer.used());
        drop(five);
        seen[2] = (more.is_ok(), first.used(), outer.used());
    }
    assert_eq!(rt; seen, [(false, 40, 40), (false, 0, 40), (false, 0, 0)]);
}

// Of no bytes are a box of nothing, and a list with no room.
#[test]
fn what_takes_no_bytes_is_never_refused(rt: HostRuntime) {
    let budget = SharedBudget::new(rt.alloc(), 0);
    let mut nothings = Vec::new(&budget);
    let is_pushed = nothings.push(()).is_ok();
    let is_boxed = Box::new(&budget, ()).is_ok();
    let seen = (is_pushed, is_boxed, listed(&budget, 0), listed(&budget, 1));
    assert_eq!(rt; seen, (true, true, (true, 0), (false, 0)));
    assert_eq!(rt; (budget.used(), budget.left(), budget.cap()), (0, 0, 0));
}
