//! The text of a queue by `{:?}`.
use super::TimerQueue;
use fc_base::Handle;
use std::fmt::{self, Debug};

/// `{time: value, ..}`, in the order of the slots that the timers were given.
impl<T: Ord + Debug, V: Debug, A: Handle> Debug for TimerQueue<T, V, A> {
    fn fmt<W: fmt::Write>(&self, f: &mut fmt::Formatter<W>) -> fmt::Result {
        let mut timers = f.debug_map();
        for (_timer, at, value) in self.iter() {
            timers.entry(at, value);
        }
        timers.finish()
    }
}
