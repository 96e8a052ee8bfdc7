//! The first timer, taken out whenever it is due.
ghost use Rattle.std.specs.Prelude.{◌≡◌, ℕ, ◌∷◌, [], IfSome, IfNone};
ghost use Rattle.fc_timers.specs.Timers.{IsInOrder};

use super::TimerQueue;
use crate::timer::Timer;
use fc_base::Handle;

impl<T: Ord + Copy + Drop, V: Drop, A: Handle> TimerQueue<T, V, A> {
    /// Takes the first timer out, whether or not it is due, and answers it with its time and its value. `None` where there is no timer. Called in a
    /// loop until then, it takes all of them, in order. It takes no memory.
    pub fn pop_first(&mut self) -> Option<(Timer, T, V)>
        ensures popped { IfSome result (λ p. (turn : ℕ) × (self.old.timers ≡ ((p.1, turn), (p.0, p.2)) ∷ self.new.timers)) }
        ensures none { IfNone result (self.old.timers ≡ []) }
        ensures turn { self.new.next_turn ≡ self.old.next_turn }
        ensures room { self.new.room ≡ self.old.room }
        ensures unchanged { IfNone result (self.new ≡ self.old) }
        ensures in_order { IsInOrder T.cmp self.old }
    {
        let (timer, armed) = self.slots.pop_first()?;
        Some((timer, armed.at, armed.value))
    }
}
