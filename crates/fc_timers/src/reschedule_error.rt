//! Why a timer has the time that it had.

/// Why a timer was not given another time. The queue is as it was.
#[derive(Debug, PartialEq, Eq, Clone, Copy, Drop)]
pub enum RescheduleError {
    /// The timer is not in the queue: it came out, or was cancelled.
    Gone,
    /// The timer is in the queue, which gave out 2^64 - 1 turns.
    UsedUp,
}
