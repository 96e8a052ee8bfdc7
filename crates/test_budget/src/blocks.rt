//! Boxes, of which each is one block, and lists with room for so many items.
use fc_budget::Budget;
use std::alloc::{Allocator, Global};
use std::test::Fail;

// How many of five boxes of 8 bytes each are made, and how many bytes are out then.
fn boxed(budget: &Budget<Global>) -> (usize, usize) {
    let mut made = 0usize;
    let first = Box::new(budget, 1u64);
    let second = Box::new(budget, 2u64);
    let third = Box::new(budget, 3u64);
    let fourth = Box::new(budget, 4u64);
    let fifth = Box::new(budget, 5u64);
    for is_made in [
        first.is_ok(),
        second.is_ok(),
        third.is_ok(),
        fourth.is_ok(),
        fifth.is_ok(),
    ] {
        if is_made {
            made = made.wrapping_add(1);
        }
    }
    (made, budget.used())
}

// Each budget that is no whole number of boxes leaves a rest that no box fits.
#[test]
fn a_request_is_refused_where_its_bytes_pass_the_cap(rt: HostRuntime) {
    let mut seen = [(0, 0, 0); 7];
    for i in 0..7 {
        let budget = Budget::new(rt.alloc(), [0, 7, 8, 15, 16, 39, 40][i]);
        let (made, used) = boxed(&budget);
        seen[i] = (made, used, budget.used());
    }
    assert_eq!(rt;
        seen,
        [
            (0, 0, 0),
            (0, 0, 0),
            (1, 8, 0),
            (1, 8, 0),
            (2, 16, 0),
            (4, 32, 0),
            (5, 40, 0)
        ]
    );
}

// Whether a list with room for so many numbers of 8 bytes is made, and how many bytes are out while it is there.
fn listed<A: Allocator>(budget: &Budget<A>, count: usize) -> (bool, usize) {
    let list = Vec::<u64, _>::with_capacity(budget, count);
    (list.is_ok(), budget.used())
}

#[test]
fn a_refused_request_is_not_counted(rt: HostRuntime) {
    let budget = Budget::new(rt.alloc(), 80);
    let seen = [
        listed(&budget, 11),
        listed(&budget, 10),
        listed(&budget, usize::MAX / 16),
        listed(&budget, 10),
    ];
    assert_eq!(rt; seen, [(false, 0), (true, 80), (false, 0), (true, 80)]);
    assert_eq!(rt; (budget.used(), budget.left(), budget.cap()), (0, 80, 80));
}

// The cap is no reason to refuse what is greater than the memory of a machine: the allocator below is.
#[test]
fn a_request_that_is_refused_below_is_not_counted(rt: HostRuntime) {
    let budget = Budget::new(rt.alloc(), usize::MAX);
    let seen = [
        listed(&budget, usize::MAX / 32),
        listed(&budget, 1),
        listed(&budget, usize::MAX / 32),
    ];
    assert_eq!(rt; seen, [(false, 0), (true, 8), (false, 0)]);
    assert_eq!(rt; (budget.used(), budget.left()), (0, usize::MAX));
}

#[test]
fn a_budget_over_a_budget_takes_of_both(rt: HostRuntime) {
    let outer = Budget::new(rt.alloc(), 80);
    let first = Budget::new(&outer, 64);
    let second = Budget::new(&outer, 64);
    let mut seen = [(false, 0, 0); 3];
    if let Ok(five) = Vec::<u64, _>::with_capacity(&first, 5) {
        let more = Vec::<u64, _>::with_capacity(&first, 4);
        seen[0] = (more.is_ok(), first.used(), outer.used());
        let six = Vec::<u64, _>::with_capacity(&second, 6);
        seen[1] = (six.is_ok(), second.used(), outer.used());
        drop(five);
        seen[2] = (more.is_ok(), first.used(), outer.used());
    }
    assert_eq!(rt; seen, [(false, 40, 40), (false, 0, 40), (false, 0, 0)]);
}

// Of no bytes are a box of nothing, and a list with no room.
#[test]
fn what_takes_no_bytes_is_never_refused(rt: HostRuntime) {
    let budget = Budget::new(rt.alloc(), 0);
    let mut nothings = Vec::new(&budget);
    let is_pushed = nothings.push(()).is_ok();
    let is_boxed = Box::new(&budget, ()).is_ok();
    let seen = (is_pushed, is_boxed, listed(&budget, 0), listed(&budget, 1));
    assert_eq!(rt; seen, (true, true, (true, 0), (false, 0)));
    assert_eq!(rt; (budget.used(), budget.left(), budget.cap()), (0, 0, 0));
}

// An account is as the budget stood when it was asked for, and counts for itself from there on.
#[test]
fn an_account_tells_what_is_out(rt: HostRuntime) -> Result<(), Fail> {
    let budget = Budget::new(rt.alloc(), 80);
    let six = Vec::<u64, _>::with_capacity(&budget, 6)?;
    let mut account = budget.account();
    drop(six);
    assert!(rt; account.used() == 48 && account.left() == 32 && account.cap() == 80);
    assert!(rt; account.take(32).is_ok() && account.left() == 0);
    assert!(rt; budget.used() == 0 && budget.account().used() == 0);
    Ok(())
}
