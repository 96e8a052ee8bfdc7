//! What a caller holds of a timer, and what the queue holds of it.

/// A timer of a queue, by the slot that it was given and a number that no other timer of the queue has or had. So a timer that came
/// out or was cancelled is found no more, also once its slot is given out again. Timers of a queue are ordered by their insertions: the
/// one that was inserted first is the least.
#[derive(Clone, Copy, PartialEq, Eq, PartialOrd, Ord, Hash, Debug)]
pub struct Timer {
    pub(crate) number: u64,
    pub(crate) slot: usize,
}

/// What a timer that is in the queue has: its time, and its value. Among timers of equal times that with the least turn is first. Each
/// insertion and each rescheduling gives the next turn.
#[derive(Drop)]
pub(crate) struct Armed<T, V> {
    pub(crate) at: T,
    pub(crate) turn: u64,
    pub(crate) number: u64,
    pub(crate) value: V,
}
