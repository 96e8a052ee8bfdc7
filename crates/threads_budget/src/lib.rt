//! A thread's part in a budget that several threads share: `tools/threads` starts the threads, as no crate here may.
#![tactic(auto)]

use fc_budget::SharedBudget;
use std::alloc::Global;

// Waits for the other threads: the driver's allocator refuses a request of so many bytes, and waits.
fn wait(alloc: Global) -> bool {
    Vec::<u8>::with_capacity(alloc, 1 << 62).is_err()
}

// Makes a block of so many bytes and drops it, in each of so many rounds; how many were refused.
fn refused(budget: &SharedBudget<Global>, bytes: usize, rounds: usize) -> usize {
    let mut count = 0usize;
    for _ in 0..rounds {
        if Vec::<u8, _>::with_capacity(budget, bytes).is_err() {
            count = count.wrapping_add(1);
        }
    }
    count
}

/// Takes `bytes` bytes of a budget of `cap` bytes and gives them back, in each of `rounds` rounds. To `count` goes how many rounds were refused, and to `left`
/// what is left once all threads are through. No type that holds a cell may be passed from C: so each thread makes a budget in a box, and the driver's allocator
/// gives all of them one block for it. False where a box was refused.
#[unsafe(no_mangle)]
pub extern "C" fn threads_budget_run(
    alloc: Global,
    cap: usize,
    bytes: usize,
    rounds: usize,
    count: &mut usize,
    left: &mut usize,
) -> bool {
    let Ok(budget) = Box::new(alloc, SharedBudget::new(alloc, cap)) else {
        return false;
    };
    let is_begun = wait(alloc);
    *count = refused(&budget, bytes, rounds);
    let is_through = wait(alloc);
    *left = budget.left();
    is_begun && is_through
}
