//! Values that are written at timers.
ghost use Rattle.std.specs.Prelude.{◌≡◌, ◌<◌, ⊤, IfOk, IfErr, OnOk, OnErr, IsSome, Some, None, length, slice_index_or, slice_set};
ghost use Rattle.std.specs.List.{AllZip};
ghost use Rattle.std.specs.Option.{option_map};
ghost use Rattle.fc_timers.specs.Slotted.{AreGivenOut, armed};
ghost use Rattle.fc_timers.specs.CopiedSlots.{SameSlot};
ghost use Rattle.fc_timers.specs.Heap.{held_at, helds};
ghost use Rattle.fc_timers.specs.Values.{valued};

use super::Slots;
use crate::slot::Slot;
use crate::timer::Timer;
use fc_base::Handle;
use std::mem;

impl<T: Ord, V, A: Handle> Slots<T, V, A> {
    /// Gives a timer another value, and answers the one that it had; the value itself where the timer is not in the queue, which then stays as it is.
    pub(crate) fn set_value(&mut self, timer: Timer, value: V) -> Result<V, V>
        ensures answer { IfOk result (λ was. option_map (λ a. a.value) (armed self.old timer) ≡ Some was) }
        ensures slots { OnOk result (self.new.slots ≡ slice_set self.old.slots timer.slot (valued value (armed self.old timer))) }
        ensures number { self.new.next_number ≡ self.old.next_number }
        ensures room { self.new.room ≡ self.old.room }
        ensures given_out { AreGivenOut self.new }
        ensures back { IfErr result (λ v. v ≡ value) }
        ensures refused { OnErr result (armed self.old timer ≡ None) }
        ensures unchanged { OnErr result (self.new ≡ self.old) }
    {
        match self.get(timer) {
            Some(_armed) => Ok(write_value(self.slots.as_mut_slice(), timer.slot, value)),
            None => Err(value),
        }
    }
}

// Writes the value of the timer of a slot, and answers the one that it had.
fn write_value<T, V>(slots: &mut [Slot<T, V>], slot: usize, value: V) -> V
    requires within { slot < length slots.old }
    requires held { IsSome (held_at slots.old slot) }
    ensures answer { option_map (λ a. a.value) (held_at slots.old slot) ≡ Some result }
    ensures held { helds slots.new ≡ slice_set (helds slots.old) slot (valued value (held_at slots.old slot)) }
    ensures kept { AllZip (SameSlot (λ _ _. ⊤)) slots.old slots.new }
{
    match &mut slots[slot].held {
        Some(armed) => mem::replace(&mut armed.value, value),
        None => value,
    }
}
