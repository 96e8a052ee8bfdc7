//! A job over the queue of timers.
use super::{mark, mixed};
use fc_timers::{Timer, TimerQueue};
use std::alloc::Global;

type Queue = TimerQueue<u64, u64>;

// Puts a timer in at each time, which is its value too, and keeps what it is found by; false where memory was refused.
fn insert_all(queue: &mut Queue, timers: &mut Vec<Timer>, times: &[u64]) -> bool {
    for at in times {
        match queue.try_insert(*at, *at) {
            Ok(timer) => {
                if timers.push(timer).is_err() {
                    return false;
                }
            }
            Err(_) => return false,
        }
    }
    true
}

// Gives each of the timers that are named by their numbers another time, in turn.
fn reschedule_all(
    queue: &mut Queue,
    timers: &[Timer],
    moved: &[usize],
    times: &[u64],
    checksum: u64,
) -> u64 {
    let mut seen = checksum;
    for (number, at) in moved.iter().zip(times) {
        let was = match timers.get(*number) {
            Some(timer) => queue.reschedule(*timer, *at).ok(),
            None => None,
        };
        seen = mixed(seen, was);
    }
    seen
}

// Takes each of the timers out that are named by their numbers.
fn cancel_all(queue: &mut Queue, timers: &[Timer], cancelled: &[usize], checksum: u64) -> u64 {
    let mut seen = checksum;
    for number in cancelled {
        let taken = match timers.get(*number) {
            Some(timer) => queue.cancel(*timer),
            None => None,
        };
        seen = mixed(seen, taken.map(|(at, value)| at ^ value));
    }
    seen
}

// Takes all timers out that are due.
fn pop_all(queue: &mut Queue, now: u64, checksum: u64) -> u64 {
    let mut seen = checksum;
    for _ in 0..queue.len() {
        let Some((_timer, at, value)) = queue.pop_due(&now) else {
            return seen;
        };
        seen = mixed(seen, Some(at ^ value));
    }
    seen
}

/// Puts a timer into a new queue at each of `times`, gives those that `moved` numbers other times, in turn those of `later`, takes those out that
/// `cancelled` numbers, and then all that are due at `now`. Each of the four is a phase. The checksum of all answers goes to `checksum`. False
/// where memory was refused.
#[unsafe(no_mangle)]
pub extern "C" fn bench_timers_run(
    alloc: Global,
    times: &[u64],
    moved: &[usize],
    later: &[u64],
    cancelled: &[usize],
    now: u64,
    checksum: &mut u64,
) -> bool {
    let Ok(mut timers) = Vec::with_capacity(alloc, times.len()) else {
        return false;
    };
    let mut queue = TimerQueue::new(alloc);
    let started = mark(alloc);
    let filled = insert_all(&mut queue, &mut timers, times) && mark(alloc);
    let renewed = reschedule_all(&mut queue, timers.as_slice(), moved, later, 0);
    let rescheduled = mark(alloc);
    let taken = cancel_all(&mut queue, timers.as_slice(), cancelled, renewed);
    let cut = mark(alloc);
    *checksum = pop_all(&mut queue, now, taken);
    let emptied = mark(alloc);
    started && filled && rescheduled && cut && emptied
}
