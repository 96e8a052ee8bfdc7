//! What threads may share, and what one may send to another: asked by bounds, since no test here starts a thread.
use fc_budget::SharedBudget;
use std::alloc::Global;
use std::test::Fail;

// Whether the type may be sent to another thread, and a `&` to it too.
fn crosses<T: Send + Sync>() -> bool {
    true
}

#[test]
fn threads_may_share_a_budget(rt: HostRuntime) {
    let owned = crosses::<SharedBudget<Global>>();
    let lent = crosses::<&SharedBudget<Global>>();
    let above_another = crosses::<SharedBudget<&SharedBudget<Global>>>();
    assert!(rt; owned && lent && above_another);
}

// So a list that was made in one thread may be dropped in another, which gives its block back to the one budget.
#[test]
fn what_is_made_over_a_budget_may_go_to_another_thread(rt: HostRuntime) {
    let list = crosses::<Vec<u64, &SharedBudget<Global>>>();
    let one = crosses::<Box<u64, &SharedBudget<Global>>>();
    assert!(rt; list && one);
}
