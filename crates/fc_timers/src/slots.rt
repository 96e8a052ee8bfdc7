//! The slots of a queue: each timer stands in one, where its handle finds it.
ghost use Rattle.std.specs.Prelude.{◌≡◌, ℕ, ◌==◌, ◌∷◌, ◌++◌, [], if◌then◌else◌, ◌+◌, ◌<◌, ◌≤◌, ◌⊎◌, ◌↔◌, IsTrue, IfSome, IfNone, OnSome, IfOk, IfErr, OnOk, OnErr, IsErr, IsOk, IsSome, Some, None, is_some, length, slice_index_or, slice_set, option_copied, true};
ghost use Rattle.std.specs.Option.{option_map};
ghost use Rattle.std.specs.Ordering.{is_le};
ghost use Rattle.fc_base.specs.declared.try_reserve_error.TryReserveError.{TryReserveError as Error};
ghost use Rattle.fc_base.specs.Growth.{append_error};
ghost use Rattle.fc_timers.specs.Slotted.{AreGivenOut, HasNone, IsChanged, IsEarliest, IsPopped, NoneDue, armed, newly, renewed, timer_count};
ghost use Rattle.fc_timers.specs.Heap.{IsFirst};
ghost use Rattle.fc_timers.specs.declared.reschedule_error.RescheduleError.{RescheduleError as Refusal};
ghost use Rattle.fc_timers.specs.declared.timer.Armed.{Armed as Held};
ghost use Rattle.fc_timers.specs.declared.timer.Timer.{Timer as Key};

mod copy;
mod pop_first;
mod row;
mod value;

use crate::heap::{put, retime, take};
use crate::reschedule_error::RescheduleError;
use crate::room::{reserve_both, shrink_both};
use crate::slot::{Due, Slot};
use crate::timer::{Armed, Timer};
use fc_base::{Handle, TryReserveError};
use std::marker::Model;

/// Slots for timers, and a heap that tells the one that is due first.
#[derive(Drop)]
pub(crate) struct Slots<T: Ord, V, A: Handle> {
    slots: Vec<Slot<T, V>, A>,
    // What stands at each place of the heap, of which there are as many as timers. There is room for as many as slots.
    heap: Vec<Due<T>, A>,
    // The number and the turn that are given out next.
    next_number: u64,
    // The first slot of the list of those where no timer stands, or a number that is no slot's.
    vacant: usize,
}

impl<T: Ord, V, A: Handle> Model for Slots<T, V, A> {
    ghost use Rattle.fc_timers.specs.Slotted.{Slotted};
    ghost use Rattle.fc_timers.specs.Heap.{helds, IsSound};
    ghost use Rattle.std.specs.Prelude.{◌≤◌, length, min, vec_capacity};

    ghost Value = { Slotted T V };

    ghost view = { λ q. record { slots = helds q.slots.items; next_number = q.next_number; room = min (vec_capacity q.slots) (vec_capacity q.heap) } };

    ghost invariant = { λ q. IsSound T.cmp q.slots.items q.heap.items q.next_number q.vacant × (length q.slots.items ≤ vec_capacity q.heap) };
}

impl<T: Ord, V, A: Handle> Slots<T, V, A> {
    /// No slots, which take no memory.
    pub(crate) fn new(alloc: A) -> Slots<T, V, A>
        ensures slots { result.slots ≡ [] }
        ensures number { result.next_number ≡ 0 }
        ensures room { result.room ≡ 0 }
    {
        Slots {
            slots: Vec::new(alloc),
            heap: Vec::new(alloc),
            next_number: 0,
            vacant: usize::MAX,
        }
    }

    /// The number of timers.
    pub(crate) fn len(&self) -> usize
        ensures value { result ≡ timer_count self.now }
        ensures given_out { AreGivenOut self.now }
    {
        self.heap.len()
    }

    /// How many timers fit before the next request for memory.
    pub(crate) fn capacity(&self) -> usize
        ensures value { result ≡ self.now.room }
        ensures holds_all { timer_count self.now ≤ self.now.room }
    {
        let slots = self.slots.capacity();
        let places = self.heap.capacity();
        if slots < places { slots } else { places }
    }

    /// Makes room for so many more timers: as many insertions then take no memory, and are not refused for want of it. Where they fit as it is, it takes
    /// no memory.
    ///
    /// # Errors
    /// `CapacityOverflow` exactly where the length plus `additional` passes `usize::MAX`, else `AllocError`. The queue is then as it was.
    pub(crate) fn try_reserve(&mut self, additional: usize) -> Result<(), TryReserveError>
        ensures room { OnOk result (timer_count self.old + additional ≤ self.new.room) }
        ensures timers { self.new ≡ record self.old { room = self.new.room } }
        ensures kept { self.old.room ≤ self.new.room }
        ensures fits { timer_count self.old + additional ≤ self.old.room → IsOk result }
        ensures full { usize.MAX < timer_count self.old + additional → IsErr result }
        ensures unchanged { OnErr result (self.new ≡ self.old) }
        ensures error { IfErr result (λ e. e ≡ append_error (timer_count self.old) additional) }
    {
        let vacant = self.slots.len() - self.heap.len();
        if additional <= vacant {
            return Ok(());
        }
        if usize::MAX - self.heap.len() < additional {
            return Err(TryReserveError::CapacityOverflow);
        }
        reserve_both(
            &mut self.slots,
            additional - vacant,
            &mut self.heap,
            additional,
        )
    }

    /// Whether there is no timer.
    pub(crate) fn is_empty(&self) -> bool
        ensures { IsTrue result ↔ (timer_count self.now ≡ 0) }
    {
        self.heap.is_empty()
    }

    /// The timer's time, turn and value. `None` where it is not in the queue: it came out, or was cancelled.
    pub(crate) fn get(&self, timer: Timer) -> Option<&Armed<T, V>>
        ensures { option_copied result ≡ armed self.now timer }
    {
        match self.standing(timer.slot) {
            Some(armed) => {
                if armed.number == timer.number {
                    Some(armed)
                } else {
                    None
                }
            }
            None => None,
        }
    }

    /// Whether the timer is in the queue: it did not come out, and was not cancelled.
    pub(crate) fn contains(&self, timer: Timer) -> bool
        ensures { result ≡ is_some (armed self.now timer) }
    {
        self.get(timer).is_some()
    }

    /// Gives back the room that no slot takes.
    pub(crate) fn shrink_to_fit(&mut self)
        ensures slots { self.new ≡ record self.old { room = self.new.room } }
        ensures room { self.new.room ≤ self.old.room }
        ensures frees { length self.old.slots ≡ 0 → self.new.room ≡ 0 }
    {
        shrink_both(&mut self.slots, &mut self.heap);
    }

    // The timer that stands in a slot.
    fn standing(&self, slot: usize) -> Option<&Armed<T, V>>
        ensures { option_copied result ≡ slice_index_or self.now.slots slot None }
    {
        match self.slots.get(slot) {
            Some(slot) => slot.held.as_ref(),
            None => None,
        }
    }

    /// The time of the timer that comes out next: none is due before it. `None` where there is no timer.
    pub(crate) fn next_deadline(&self) -> Option<&T>
        ensures none { IfNone result (HasNone self.now × (timer_count self.now ≡ 0)) }
        ensures earliest { IfSome result (λ at. (timer : Key) × (a : Held T V) × (at.now ≡ a.at) × IsEarliest T.cmp self.now timer a) }
    {
        Some(&self.first()?.at)
    }

    /// The timer that comes out next, with its time and its value, where it is due at this time. It stays in the queue. `None` where no timer is due.
    pub(crate) fn first_due(&self, now: &T) -> Option<(Timer, &T, &V)>
        ensures first { IfSome result (λ f. (a : Held T V) × (f.1.now ≡ a.at) × (f.2.now ≡ a.value) × IsEarliest T.cmp self.now f.0 a) }
        ensures due { IfSome result (λ f. is_le (T.cmp f.1.now now.now) ≡ true) }
        ensures none { IfNone result (NoneDue T.cmp self.now now.now) }
    {
        let first = self.first()?;
        if first.at.cmp(now).is_gt() {
            return None;
        }
        let armed = self.standing(first.slot)?;
        let timer = Timer {
            slot: first.slot,
            number: armed.number,
        };
        Some((timer, &armed.at, &armed.value))
    }

    // The timer that comes out next, which stands at the first place of the heap.
    fn first(&self) -> Option<&Due<T>>
        ensures none { IfNone result (HasNone self.now × (timer_count self.now ≡ 0)) }
        ensures earliest { IfSome result (λ first. IsFirst T.cmp self.now first.now) }
    {
        self.heap.get(0)
    }
}

impl<T: Ord + Copy + Drop, V: Drop, A: Handle> Slots<T, V, A> {
    /// Puts a timer in, after those of its time, and answers what it is found by. It takes memory only where the queue holds as many timers as
    /// it ever held.
    ///
    /// # Errors
    /// `AllocError` where a request for memory was refused; `CapacityOverflow` where the queue gave out 2^64 - 1 turns. The queue is then
    /// as it was, and time and value come back.
    pub(crate) fn try_insert(&mut self, at: T, value: V) -> Result<Timer, (T, V, TryReserveError)>
        ensures inserted { IfOk result (λ timer. IsChanged self.old self.new timer (Some (newly self.old at value))) }
        ensures fresh { IfOk result (λ timer. armed self.old timer ≡ None) }
        ensures timer { IfOk result (λ timer. timer.number ≡ self.old.next_number) }
        ensures count { OnOk result (timer_count self.new ≡ timer_count self.old + 1) }
        ensures number { OnOk result (self.new.next_number ≡ self.old.next_number + 1) }
        ensures room { self.old.room ≤ self.new.room }
        ensures fits { timer_count self.old < self.old.room → self.old.next_number < u64.MAX → IsOk result }
        ensures unchanged { OnErr result (self.new ≡ self.old) }
        ensures back { IfErr result (λ e. (e.0 ≡ at) × (e.1 ≡ value)) }
        ensures error { IfErr result (λ e. e.2 ≡ (if self.old.next_number == u64.MAX then Error.CapacityOverflow else Error.AllocError)) }
        ensures used_up { self.old.next_number ≡ u64.MAX → IsErr result }
    {
        if self.next_number == u64::MAX {
            return Err((at, value, TryReserveError::CapacityOverflow));
        }
        match self.make_vacancy() {
            Ok(()) => Ok(self.fill(at, value)),
            Err(error) => Err((at, value, error)),
        }
    }

    // Has a slot where no timer stands. It asks for memory only where one stands in each.
    fn make_vacancy(&mut self) -> Result<(), TryReserveError>
        ensures vacancy { OnOk result (timer_count self.new < length self.new.slots) }
        ensures slots { (k : ℕ) → slice_index_or self.new.slots k None ≡ slice_index_or self.old.slots k None }
        ensures count { timer_count self.new ≡ timer_count self.old }
        ensures number { self.new.next_number ≡ self.old.next_number }
        ensures room { self.old.room ≤ self.new.room }
        ensures fits { timer_count self.old < self.old.room → IsOk result }
        ensures unchanged { OnErr result (self.new ≡ self.old) }
        ensures error { IfErr result (λ e. e ≡ Error.AllocError) }
    {
        if self.heap.len() < self.slots.len() {
            Ok(())
        } else {
            self.add_slot()
        }
    }

    // Adds a slot, where no timer stands.
    fn add_slot(&mut self) -> Result<(), TryReserveError>
        requires full { length self.old.slots ≡ timer_count self.old }
        ensures slots { OnOk result (self.new.slots ≡ self.old.slots ++ None ∷ []) }
        ensures number { self.new.next_number ≡ self.old.next_number }
        ensures room { self.old.room ≤ self.new.room }
        ensures fits { length self.old.slots < self.old.room → IsOk result }
        ensures unchanged { OnErr result (self.new ≡ self.old) }
        ensures error { IfErr result (λ e. e ≡ Error.AllocError) }
    {
        let slot = self.slots.len();
        reserve_both(&mut self.slots, 1, &mut self.heap, 1)?;
        self.slots.push_reserved(Slot {
            held: None,
            link: self.vacant,
        });
        self.vacant = slot;
        Ok(())
    }

    // Puts a timer into the first slot of the list of those where none stands.
    fn fill(&mut self, at: T, value: V) -> Timer
        requires number { self.old.next_number < u64.MAX }
        requires vacancy { timer_count self.old < length self.old.slots }
        ensures within { result.slot < length self.old.slots }
        ensures vacant { slice_index_or self.old.slots result.slot None ≡ None }
        ensures slots { self.new.slots ≡ slice_set self.old.slots result.slot (Some (newly self.old at value)) }
        ensures number { self.new.next_number ≡ self.old.next_number + 1 }
        ensures timer { result.number ≡ self.old.next_number }
        ensures room { self.new.room ≡ self.old.room }
    {
        let slot = self.vacant;
        let number = self.next_number;
        self.vacant = self.slots[slot].link;
        let armed = Armed {
            at,
            turn: number,
            number,
            value,
        };
        self.heap.push_reserved(Due {
            at,
            turn: number,
            slot,
        });
        put(
            self.slots.as_mut_slice(),
            self.heap.as_mut_slice(),
            slot,
            armed,
        );
        self.next_number += 1;
        Timer { slot, number }
    }

    /// Takes a timer out, and answers its time and value. `None` where it is not in the queue, which then stays as it is.
    pub(crate) fn cancel(&mut self, timer: Timer) -> Option<Armed<T, V>>
        ensures answer { result ≡ armed self.old timer }
        ensures changed { IsChanged self.old self.new timer None }
        ensures unchanged { IfNone result (self.new ≡ self.old) }
        ensures count { OnSome result (timer_count self.new + 1 ≡ timer_count self.old) }
        ensures number { self.new.next_number ≡ self.old.next_number }
        ensures room { self.new.room ≡ self.old.room }
    {
        match self.get(timer) {
            Some(_armed) => self.take(timer.slot),
            None => None,
        }
    }

    // Takes the timer of a slot out.
    fn take(&mut self, slot: usize) -> Option<Armed<T, V>>
        requires { IsSome (slice_index_or self.old.slots slot None) }
        ensures answer { result ≡ slice_index_or self.old.slots slot None }
        ensures slots { self.new.slots ≡ slice_set self.old.slots slot None }
        ensures number { self.new.next_number ≡ self.old.next_number }
        ensures room { self.new.room ≡ self.old.room }
    {
        let last = self.heap.take_last();
        let armed = take(
            self.slots.as_mut_slice(),
            self.heap.as_mut_slice(),
            last,
            slot,
            self.vacant,
        )?;
        self.vacant = slot;
        Some(armed)
    }

    /// Takes out all timers, and drops them. The room stays, and none of them is found again. It takes no memory.
    pub(crate) fn clear(&mut self)
        ensures slots { self.new.slots ≡ [] }
        ensures number { self.new.next_number ≡ self.old.next_number }
        ensures room { self.new.room ≡ self.old.room }
    {
        self.slots.clear();
        self.heap.clear();
        self.vacant = usize::MAX;
    }

    /// Gives a timer another time, after those of that time, as if it were inserted anew, and answers the time that it had. It takes no memory.
    /// `None` where the timer is not in the queue, or 2^64 - 1 turns were given out; the queue then stays as it is.
    pub(crate) fn reschedule(&mut self, timer: Timer, at: T) -> Result<T, RescheduleError>
        ensures answer { IfOk result (λ was. option_map (λ a. a.at) (armed self.old timer) ≡ Some was) }
        ensures moved { OnOk result (IsChanged self.old self.new timer (renewed at self.old.next_number (armed self.old timer))) }
        ensures number { OnOk result (self.new.next_number ≡ self.old.next_number + 1) }
        ensures refused { OnErr result ((armed self.old timer ≡ None) ⊎ (self.old.next_number ≡ u64.MAX)) }
        ensures error { IfErr result (λ e. e ≡ (if is_some (armed self.old timer) then Refusal.UsedUp else Refusal.Gone)) }
        ensures used_up { self.old.next_number ≡ u64.MAX → IsErr result }
        ensures unchanged { OnErr result (self.new ≡ self.old) }
        ensures count { timer_count self.new ≡ timer_count self.old }
        ensures room { self.new.room ≡ self.old.room }
    {
        let Some(armed) = self.get(timer) else {
            return Err(RescheduleError::Gone);
        };
        if self.next_number == u64::MAX {
            return Err(RescheduleError::UsedUp);
        }
        let was = armed.at;
        self.renew(timer.slot, at);
        Ok(was)
    }

    // Gives the timer of a slot another time, and the next turn.
    fn renew(&mut self, slot: usize, at: T)
        requires number { self.old.next_number < u64.MAX }
        requires held { IsSome (slice_index_or self.old.slots slot None) }
        ensures slots { self.new.slots ≡ slice_set self.old.slots slot (renewed at self.old.next_number (slice_index_or self.old.slots slot None)) }
        ensures number { self.new.next_number ≡ self.old.next_number + 1 }
        ensures room { self.new.room ≡ self.old.room }
    {
        retime(
            self.slots.as_mut_slice(),
            self.heap.as_mut_slice(),
            slot,
            at,
            self.next_number,
        );
        self.next_number += 1;
    }

    /// Takes the first timer out, where it is due at this time, and answers its time and value. `None` where no timer is due, and the queue stays as
    /// it is. Called in a loop until then, it takes all that are due, in order.
    pub(crate) fn pop_due(&mut self, now: &T) -> Option<(Timer, Armed<T, V>)>
        ensures popped { IfSome result (λ p. IsPopped T.cmp self.old self.new now.now p.0 p.1) }
        ensures none { IfNone result (NoneDue T.cmp self.old now.now) }
        ensures unchanged { IfNone result (self.new ≡ self.old) }
        ensures count { OnSome result (timer_count self.new + 1 ≡ timer_count self.old) }
        ensures number { self.new.next_number ≡ self.old.next_number }
        ensures room { self.new.room ≡ self.old.room }
    {
        let first = *self.first()?;
        if first.at.cmp(now).is_gt() {
            return None;
        }
        let armed = self.take(first.slot)?;
        let timer = Timer {
            slot: first.slot,
            number: armed.number,
        };
        Some((timer, armed))
    }
}
