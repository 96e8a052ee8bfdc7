//! Values that are written at timers, which stay where they are.
ghost use Rattle.std.specs.Prelude.{◌≡◌, IfOk, IfErr, OnOk, OnErr, Some, None};
ghost use Rattle.std.specs.Option.{option_map};
ghost use Rattle.fc_timers.specs.Timers.{IsInOrder, found, value_of};
ghost use Rattle.fc_timers.specs.Values.{with_value};

use super::TimerQueue;
use crate::timer::Timer;
use fc_base::Handle;

impl<T: Ord, V, A: Handle> TimerQueue<T, V, A> {
    /// Gives a timer another value, and answers the one that it had. The timer keeps its time, and its place among those of that time. It takes no memory.
    ///
    /// # Errors
    /// The value itself, exactly where the timer is not in the queue, which is then as it was.
    pub fn set_value(&mut self, timer: Timer, value: V) -> Result<V, V>
        ensures answer { IfOk result (λ was. option_map value_of (found self.old.timers timer) ≡ Some was) }
        ensures timers { OnOk result (self.new.timers ≡ with_value self.old.timers timer value) }
        ensures turn { self.new.next_turn ≡ self.old.next_turn }
        ensures room { self.new.room ≡ self.old.room }
        ensures back { IfErr result (λ v. v ≡ value) }
        ensures refused { OnErr result (found self.old.timers timer ≡ None) }
        ensures unchanged { OnErr result (self.new ≡ self.old) }
        ensures in_order { IsInOrder T.cmp self.old }
    {
        self.slots.set_value(timer, value)
    }
}
