//! Collections of std under one budget.
use fc_budget::SharedBudget;
use std::alloc::Global;
use std::test::Fail;

// How many numbers go into a list before one is refused, and how many bytes are out then.
fn pushed(budget: &SharedBudget<Global>) -> (usize, usize) {
    let mut list = Vec::new(budget);
    for i in 0..1000u64 {
        if list.push(i).is_err() {
            break;
        }
    }
    (list.len(), budget.used())
}

// A list grows from 4 items on, twice as many each time, and holds its old room while it moves. So 1,024 bytes are enough for 64 items, which ask
// for 32 items' room and 64's at once, and not for 128; 1,536 bytes are the least for these.
#[test]
fn a_list_grows_while_both_rooms_fit(rt: HostRuntime) {
    let mut seen = [(0, 0, 0); 3];
    for i in 0..3 {
        let budget = SharedBudget::new(rt.alloc(), [1024, 1535, 1536][i]);
        let (count, used) = pushed(&budget);
        seen[i] = (count, used, budget.used());
    }
    assert_eq!(rt; seen, [(64, 512, 0), (64, 512, 0), (128, 1024, 0)]);
}

#[test]
fn collections_share_a_budget(rt: HostRuntime) {
    let budget = SharedBudget::new(rt.alloc(), 100);
    let mut seen = [(false, 0); 4];
    let first = Vec::<u64, _>::with_capacity(&budget, 5);
    seen[0] = (first.is_ok(), budget.left());
    let second = Vec::<u8, _>::with_capacity(&budget, 60);
    seen[1] = (second.is_ok(), budget.left());
    let third = Box::new(&budget, 0u8);
    seen[2] = (third.is_ok(), budget.left());
    drop(first);
    let fourth = Vec::<u8, _>::with_capacity(&budget, 40);
    seen[3] = (fourth.is_ok(), budget.left());
    drop(second);
    drop(fourth);
    assert_eq!(rt; seen, [(true, 60), (true, 0), (false, 0), (true, 0)]);
    assert_eq!(rt; budget.left(), 100);
}
