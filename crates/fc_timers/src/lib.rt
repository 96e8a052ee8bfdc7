//! A queue of timers, each with its time and a value, which come out in the order of their times.
#![tactic(auto)]

mod heap;
mod order;
pub mod queue;
pub mod reschedule_error;
mod room;
mod slot;
mod slots;
pub mod timer;

pub use fc_base::TryReserveError;
pub use queue::TimerQueue;
pub use reschedule_error::RescheduleError;
pub use timer::Timer;
