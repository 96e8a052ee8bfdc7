//! Copies of slots, and of the timers in them.
ghost use Rattle.std.specs.Prelude.{◌≡◌, ◌<◌, ◌≤◌, IfOk, IfErr, IsErr, vec_capacity, vec_len};
ghost use Rattle.fc_base.specs.declared.try_reserve_error.TryReserveError.{TryReserveError as Error};
ghost use Rattle.fc_timers.specs.Slotted.{AreGivenOut};
ghost use Rattle.fc_timers.specs.CopiedSlots.{AreSlotsCopied, MayRefuseHeld, MayRefuseSlots, SameArmed, SameSlot};

use super::Slots;
use crate::slot::Slot;
use crate::timer::Armed;
use fc_base::{Handle, TryClone, TryReserveError};

impl<T: Copy + Drop, V: TryClone> TryClone for Armed<T, V> {
    ghost same = { SameArmed V.same };

    ghost can_clone = { V.can_clone };

    ghost may_refuse = { λ source. V.may_refuse source.value };

    fn try_clone(&self) -> Result<Armed<T, V>, TryReserveError> {
        let value = self.value.try_clone()?;
        Ok(Armed {
            at: self.at,
            turn: self.turn,
            number: self.number,
            value,
        })
    }
}

impl<T: Copy + Drop, V: TryClone> TryClone for Slot<T, V> {
    ghost same = { SameSlot V.same };

    ghost can_clone = { V.can_clone };

    ghost may_refuse = { λ source. MayRefuseHeld V.may_refuse source.held };

    fn try_clone(&self) -> Result<Slot<T, V>, TryReserveError> {
        let held = self.held.try_clone()?;
        Ok(Slot {
            held,
            link: self.link,
        })
    }
}

impl<T: Ord + Copy + Drop, V: TryClone, A: Handle> Slots<T, V, A> {
    /// The same slots with copies of their timers, which take their memory where these do.
    ///
    /// # Errors
    /// `AllocError` where room for the slots was refused, or the error of a value whose copy was.
    pub(crate) fn try_copy(&self) -> Result<Slots<T, V, A>, TryReserveError>
        requires { V.can_clone }
        ensures copied { IfOk result (AreSlotsCopied V.same self.now) }
        ensures given_out { IfOk result AreGivenOut }
        ensures error { IfErr result (MayRefuseSlots V.may_refuse self.now) }
    {
        let slots = self.slots.try_clone()?;
        let heap = copy_with_room(&self.heap, slots.len())?;
        Ok(Slots {
            slots,
            heap,
            next_number: self.next_number,
            vacant: self.vacant,
        })
    }
}

// A copy of a list, with room for so many items in all.
fn copy_with_room<X: Copy, A: Handle>(
    list: &Vec<X, A>,
    room: usize,
) -> Result<Vec<X, A>, TryReserveError>
    requires { vec_len list.now ≤ room }
    ensures items { IfOk result (λ copy. copy.items ≡ list.now.items) }
    ensures room { IfOk result (λ copy. room ≤ vec_capacity copy) }
    ensures some { IsErr result → 0 < room }
    ensures error { IfErr result (λ e. e ≡ Error.AllocError) }
{
    let mut copy = Vec::with_capacity(*list.allocator(), room)?;
    copy.extend_from_slice(list.as_slice())?;
    Ok(copy)
}
