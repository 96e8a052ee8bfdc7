//! Which of two timers is due first.
ghost use Rattle.std.specs.Prelude.{◌≡◌};
ghost use Rattle.fc_timers.specs.Slotted.{due_first};

use crate::slot::Due;

/// Whether the one is due before the other, or at one time with it and by its turn.
pub(crate) fn precedes<T: Ord>(one: &Due<T>, other: &Due<T>) -> bool
    ensures { result ≡ due_first T.cmp one.now.at one.now.turn other.now.at other.now.turn }
{
    let order = one.at.cmp(&other.at);
    if order.is_eq() {
        one.turn <= other.turn
    } else {
        order.is_lt()
    }
}
