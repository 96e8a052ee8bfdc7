//! A plain row of sixteen timers, and changes of a queue and of the row beside it.
use fc_timers::{Timer, TimerQueue, TryReserveError};

pub type Numbers = TimerQueue<u64, u64>;

/// A timer of the row: what the queue finds it by, its time, and the step at which it was put there. Its value is its place.
#[derive(Clone, Copy)]
pub struct Place {
    timer: Timer,
    at: u64,
    step: u64,
}

/// The timers at their places, and how many steps there were.
#[derive(Drop)]
pub struct Row {
    places: [Option<Place>; 16],
    steps: u64,
}

impl Row {
    pub fn new() -> Row {
        Row {
            places: [None; 16],
            steps: 0,
        }
    }

    // The place of the first timer, and its time.
    fn first(&self) -> Option<(u64, u64)> {
        let mut found = None;
        let mut least = (u64::MAX, u64::MAX);
        for i in 0..16usize {
            if let Some(place) = self.places[i] {
                if (place.at, place.step) < least {
                    least = (place.at, place.step);
                    found = Some((i as u64, place.at));
                }
            }
        }
        found
    }

    // Takes the first timer out, where it is due, and answers it with its time and its place.
    fn take_first(&mut self, now: u64) -> Option<(Timer, u64, u64)> {
        let (place, at) = self.first()?;
        if now < at {
            return None;
        }
        let timer = self.places[(place % 16) as usize]?.timer;
        self.places[(place % 16) as usize] = None;
        Some((timer, at, place))
    }

    fn count(&self) -> usize {
        let mut count = 0usize;
        for place in &self.places {
            if place.is_some() {
                count = count.wrapping_add(1);
            }
        }
        count
    }

    // Whether the queue has as many timers, and the first of them is due at the same time.
    fn agrees(&self, queue: &Numbers) -> bool {
        let first = match self.first() {
            Some((_place, at)) => Some(at),
            None => None,
        };
        queue.next_deadline().copied() == first && queue.len() == self.count()
    }
}

/// The next of a row of numbers that look as if drawn at random.
pub fn next(state: u64) -> u64 {
    state
        .wrapping_mul(6364136223846793005)
        .wrapping_add(1442695040888963407)
}

/// Whether the queue gives the timer that the row has first, where it is due, and both agree then.
pub fn takes_first(queue: &mut Numbers, row: &mut Row, now: u64) -> bool {
    queue.pop_due(&now) == row.take_first(now) && row.agrees(queue)
}

/// Whether the queue gives all timers that are due as the row has them, one after another, and both agree then.
pub fn drains(queue: &mut Numbers, row: &mut Row, now: u64) -> bool {
    let mut is_right = true;
    queue.drain_due(&now, |timer, at, value| {
        if row.take_first(now) != Some((timer, at, value)) {
            is_right = false;
        }
    });
    is_right && row.take_first(now).is_none() && row.agrees(queue)
}

// Puts a timer at an empty place.
fn put(queue: &mut Numbers, row: &mut Row, i: usize, at: u64) -> Result<(), TryReserveError> {
    match queue.try_insert(at, i as u64) {
        Ok(timer) => {
            row.places[i % 16] = Some(Place {
                timer,
                at,
                step: row.steps,
            });
            Ok(())
        }
        Err((_at, _value, error)) => Err(error),
    }
}

// Gives a timer another time, or takes it out.
fn alter(queue: &mut Numbers, row: &mut Row, i: usize, place: Place, drawn: u64) -> bool {
    if drawn & 1 == 0 {
        row.places[i % 16] = None;
        return queue.cancel(place.timer) == Some((place.at, i as u64));
    }
    let at = drawn >> 40 & 15;
    row.places[i % 16] = Some(Place {
        timer: place.timer,
        at,
        step: row.steps,
    });
    queue.reschedule(place.timer, at) == Ok(place.at)
}

/// Makes a change that a number tells, and answers whether queue and row agree then.
pub fn change(queue: &mut Numbers, row: &mut Row, drawn: u64) -> Result<bool, TryReserveError> {
    row.steps = row.steps.wrapping_add(1);
    let drawn = drawn >> 8;
    let kind = drawn >> 50 & 7;
    if kind == 0 {
        return Ok(takes_first(queue, row, drawn >> 40 & 15));
    }
    if kind == 1 {
        return Ok(drains(queue, row, drawn >> 40 & 7));
    }
    let i = (drawn >> 30 & 15) as usize;
    let is_right = match row.places[i % 16] {
        Some(place) => alter(queue, row, i, place, drawn),
        None => {
            put(queue, row, i, drawn >> 40 & 15)?;
            true
        }
    };
    Ok(is_right && row.agrees(queue))
}
