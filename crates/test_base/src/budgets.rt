//! Boxes and copies in a budget that refuses: what was there stays, and all bytes come back.
use fc_base::{TryBox, TryClone, TryReserveError};
use fc_budget::Budget;
use std::alloc::Global;

// A box of a number takes 8 bytes. Whether there was one, and a copy of it, and how many bytes were out then.
fn boxed(budget: &Budget<Global>) -> (bool, bool, usize) {
    match TryBox::try_new(budget, 5u64) {
        Ok(five) => {
            let copy = five.try_clone();
            (*five == 5, copy.is_ok(), budget.used())
        }
        Err(_refused) => (false, false, budget.used()),
    }
}

fn boxed_by_std(budget: &Budget<Global>) -> (bool, bool, usize) {
    match Box::new(budget, 5u64) {
        Ok(five) => {
            let copy = five.try_clone();
            (*five == 5, copy.is_ok(), budget.used())
        }
        Err(_refused) => (false, false, budget.used()),
    }
}

// The same with a list of five numbers, which takes 40 bytes.
fn listed(budget: &Budget<Global>) -> (bool, bool, usize) {
    match Vec::from_slice(budget, &[1u64, 4, 5, 8, 9]) {
        Ok(five) => {
            let copy = five.try_clone();
            let is_kept = five.as_slice() == [1, 4, 5, 8, 9].as_slice();
            (is_kept, copy.is_ok(), budget.used())
        }
        Err(_refused) => (false, false, budget.used()),
    }
}

#[test]
fn a_box_and_its_copy_take_of_one_budget(rt: HostRuntime) {
    let short = Budget::new(rt.alloc(), 7);
    let exact = Budget::new(rt.alloc(), 15);
    let wide = Budget::new(rt.alloc(), 16);
    let seen = [boxed(&short), boxed(&exact), boxed(&wide)];
    let by_std = [
        boxed_by_std(&short),
        boxed_by_std(&exact),
        boxed_by_std(&wide),
    ];
    assert_eq!(rt;
        seen,
        [(false, false, 0), (true, false, 8), (true, true, 16)]
    );
    assert_eq!(rt; by_std, seen);
    assert_eq!(rt; (short.used(), exact.used(), wide.used()), (0, 0, 0));
}

#[test]
fn a_list_and_its_copy_take_of_one_budget(rt: HostRuntime) {
    let short = Budget::new(rt.alloc(), 39);
    let exact = Budget::new(rt.alloc(), 79);
    let wide = Budget::new(rt.alloc(), 80);
    let seen = [listed(&short), listed(&exact), listed(&wide)];
    assert_eq!(rt;
        seen,
        [(false, false, 0), (true, false, 40), (true, true, 80)]
    );
    assert_eq!(rt; (short.used(), exact.used(), wide.used()), (0, 0, 0));
}

// The error says what was refused.
fn is_refused(budget: &Budget<Global>) -> bool {
    matches!(
        TryBox::try_new(budget, 5u64),
        Err(TryReserveError::AllocError)
    )
}

#[test]
fn a_box_without_room_is_an_alloc_error(rt: HostRuntime) {
    let budget = Budget::new(rt.alloc(), 7);
    assert!(rt; is_refused(&budget));
    assert!(rt; budget.used() == 0);
}
