//! A job over a queue of timers in which as many come out as are put in.
use super::{mark, mixed};
use fc_timers::TimerQueue;
use std::alloc::Global;

type Queue = TimerQueue<u64, u64>;

// Puts a timer in at each time, which is its value too; false where memory was refused.
fn insert_all(queue: &mut Queue, times: &[u64]) -> bool {
    for at in times {
        if queue.try_insert(*at, *at).is_err() {
            return false;
        }
    }
    true
}

// Takes all timers out that are due.
fn pop_all(queue: &mut Queue, now: u64, checksum: u64) -> u64 {
    let mut seen = checksum;
    for _ in 0..queue.len() {
        let Some((_timer, at, value)) = queue.pop_due(&now) else {
            return seen;
        };
        seen = mixed(seen, Some(at ^ value));
    }
    seen
}

// In turn puts a timer in and takes out all that are due; `None` where memory was refused.
fn step_all(queue: &mut Queue, steps: &[u64], later: &[u64]) -> Option<u64> {
    let mut seen = 0;
    for (now, at) in steps.iter().zip(later) {
        if queue.try_insert(*at, *at).is_err() {
            return None;
        }
        seen = pop_all(queue, *now, seen);
    }
    Some(seen)
}

/// Puts a timer into a new queue at each of `times`. Then at each time of `steps`, which ascend, puts one in at that of `later`, and takes out all that are
/// due. Each of the two is a phase. The checksum of all answers goes to `checksum`. False where memory was refused.
#[unsafe(no_mangle)]
pub extern "C" fn bench_timers_steady(
    alloc: Global,
    times: &[u64],
    steps: &[u64],
    later: &[u64],
    checksum: &mut u64,
) -> bool {
    let mut queue = TimerQueue::new(alloc);
    let started = mark(alloc);
    let filled = insert_all(&mut queue, times) && mark(alloc);
    let Some(seen) = step_all(&mut queue, steps, later) else {
        return false;
    };
    *checksum = seen;
    started && filled && mark(alloc)
}
