//! What a budget does with the allocator below once it is dropped.
use bumpalo::Bump;
use fc_budget::SharedBudget;
use std::test::Fail;

// An arena owns its chunks: the sweep sees the one that a box took, where the arena is forgotten.
#[test]
fn a_budget_gives_up_the_allocator_below(rt: HostRuntime) {
    let budget = SharedBudget::new(Bump::new(rt.alloc()), 100);
    let is_boxed = Box::new(&budget, 1u64).is_ok();
    assert!(rt; is_boxed && budget.used() == 0);
}
