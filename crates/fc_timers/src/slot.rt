//! The slots that timers stand in.
use crate::timer::Armed;

/// When a timer is due, and which slot it stands in.
#[derive(Clone, Copy)]
pub(crate) struct Due<T> {
    pub(crate) at: T,
    pub(crate) turn: u64,
    pub(crate) slot: usize,
}

/// A slot for a timer.
#[derive(Drop)]
pub(crate) struct Slot<T, V> {
    // The timer that stands in this slot, if one does.
    pub(crate) held: Option<Armed<T, V>>,
    // Where a timer stands in this slot: its place in the heap. Else the next slot of the list of those where none stands.
    pub(crate) link: usize,
}
