//! A budget over an allocator that refuses by itself: the sweep refuses each request of these tests in turn.
use fc_budget::SharedBudget;
use std::alloc::Global;
use std::test::Fail;

// How many bytes are out while there is a list of as many as are given, and whether it is.
fn held(budget: &SharedBudget<Global>, bytes: usize) -> (bool, usize) {
    let list = Vec::<u8, _>::with_capacity(budget, bytes);
    (list.is_ok(), budget.used())
}

#[test]
fn what_is_refused_below_leaves_the_budget(rt: HostRuntime) {
    let budget = SharedBudget::new(rt.alloc(), 100);
    let (first, out) = held(&budget, 60);
    let (second, out_too) = held(&budget, 100);
    let counted = (if first { 60 } else { 0 }, if second { 100 } else { 0 });
    assert_eq!(rt; (out, out_too), counted);
    assert_eq!(rt; (budget.used(), budget.left()), (0, 100));
}
