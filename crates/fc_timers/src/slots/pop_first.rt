//! The first timer, taken out whenever it is due.
ghost use Rattle.std.specs.Prelude.{◌≡◌, ◌+◌, IfSome, IfNone, OnSome};
ghost use Rattle.fc_timers.specs.Slotted.{IsPopped, timer_count};

use super::Slots;
use crate::timer::{Armed, Timer};
use fc_base::Handle;

impl<T: Ord + Copy + Drop, V: Drop, A: Handle> Slots<T, V, A> {
    /// Takes the first timer out, whether or not it is due, and answers it with its time and value. `None` where there is no timer.
    pub(crate) fn pop_first(&mut self) -> Option<(Timer, Armed<T, V>)>
        ensures popped { IfSome result (λ p. IsPopped T.cmp self.old self.new p.1.at p.0 p.1) }
        ensures none { IfNone result (timer_count self.old ≡ 0) }
        ensures unchanged { IfNone result (self.new ≡ self.old) }
        ensures count { OnSome result (timer_count self.new + 1 ≡ timer_count self.old) }
        ensures number { self.new.next_number ≡ self.old.next_number }
        ensures room { self.new.room ≡ self.old.room }
    {
        let first = *self.first()?;
        let armed = self.take(first.slot)?;
        let timer = Timer {
            slot: first.slot,
            number: armed.number,
        };
        Some((timer, armed))
    }
}
