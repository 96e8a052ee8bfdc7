//! The heap of the timers, in a list of its own: what stands at a place is due before what stands below it, so the first of all stands at place 0. The slot
//! of each timer leads to its place, from where it can be taken out, or moved once its time is another.
ghost use Rattle.std.specs.Prelude.{◌≡◌, ◌+◌, ℕ, ◌<◌, ◌≤◌, ◌∷◌, ◌++◌, ◌⊎◌, [], IsSome, List, Some, None, IfSome, IfNone, length, slice_get, slice_index_or, slice_set};
ghost use Rattle.fc_timers.specs.Heap.{AreVacantKept, IsAbove, IsAtMost, IsFirstBelow, IsFirstOf, IsHeap, IsOpen, IsOver, IsUnder, held_at, helds, link_at as link_in, links};
ghost use Rattle.fc_timers.specs.Slotted.{renewed};
ghost use Rattle.fc_timers.specs.declared.slot.Due.{Due as Standing};

use crate::order::precedes;
use crate::slot::{Due, Slot};
use crate::timer::Armed;
use std::mem;

// Of two places that where the one stands that is due first.
fn earlier_of<T: Ord>(heap: &[Due<T>], one: usize, other: usize) -> usize
    requires one { one < length heap.now }
    requires other { other < length heap.now }
    ensures found { (result ≡ one) ⊎ (result ≡ other) }
    ensures before_one { IsAtMost T.cmp (slice_get heap.now result) (slice_get heap.now one) }
    ensures before_other { IsAtMost T.cmp (slice_get heap.now result) (slice_get heap.now other) }
{
    if precedes(&heap[one], &heap[other]) {
        one
    } else {
        other
    }
}

// Where the first stands of what stands from a place on, of which there are fewer than four.
fn first_of_few<T: Ord>(heap: &[Due<T>], from: usize) -> Option<usize>
    requires { length heap.now < from + 4 }
    ensures first { IfSome result (λ place. IsFirstOf T.cmp (slice_get heap.now) from (length heap.now) place) }
    ensures none { IfNone result (length heap.now ≤ from) }
{
    if heap.len() <= from {
        return None;
    }
    if heap.len() == from + 1 {
        return Some(from);
    }
    let one = earlier_of(heap, from, from + 1);
    if heap.len() == from + 2 {
        return Some(one);
    }
    Some(earlier_of(heap, one, from + 2))
}

// Where the first stands of what stands right below a place.
fn first_below<T: Ord>(heap: &[Due<T>], place: usize) -> Option<usize>
    requires { place < length heap.now }
    ensures first { IfSome result (λ below. (d : Standing T) × IsFirstBelow T.cmp (slice_get heap.now) place below d) }
    ensures none { IfNone result ((k : ℕ) → IsAbove place k → slice_get heap.now k ≡ None) }
{
    let first = 4 * place + 1;
    if heap.len() < first + 4 {
        return first_of_few(heap, first);
    }
    let one = earlier_of(heap, first, first + 1);
    let other = earlier_of(heap, first + 2, first + 3);
    Some(earlier_of(heap, one, other))
}

// The same, where that is due before this one.
fn earlier_below<T: Ord>(heap: &[Due<T>], place: usize, due: &Due<T>) -> Option<usize>
    requires { place < length heap.now }
    ensures first { IfSome result (λ below. (d : Standing T) × IsFirstBelow T.cmp (slice_get heap.now) place below d × IsAtMost T.cmp (Some d) (Some due.now)) }
    ensures none { IfNone result (IsOver T.cmp (slice_get heap.now) place due.now) }
{
    let below = first_below(heap, place)?;
    if precedes(due, &heap[below]) {
        None
    } else {
        Some(below)
    }
}

// The place above this one, where what stands there is due after this.
fn later_above<T: Ord>(heap: &[Due<T>], place: usize, due: &Due<T>) -> Option<usize>
    requires { place < length heap.now }
    ensures above { IfSome result (λ above. IsAbove above place) }
    ensures later { IfSome result (λ above. IsAtMost T.cmp (Some due.now) (slice_get heap.now above)) }
    ensures none { IfNone result (IsUnder T.cmp (slice_get heap.now) place due.now) }
{
    if place == 0 {
        return None;
    }
    let above = (place - 1) / 4;
    if precedes(&heap[above], due) {
        None
    } else {
        Some(above)
    }
}

// Has a slot lead to a place, or to another slot.
fn lead<T, V>(slots: &mut [Slot<T, V>], slot: usize, next: usize)
    requires { slot < length slots.old }
    ensures held { helds slots.new ≡ helds slots.old }
    ensures link { links slots.new ≡ slice_set (links slots.old) slot next }
{
    slots[slot].link = next;
}

// Puts what stands at one place at another one, to which its slot leads then.
fn shift<T: Copy, V>(slots: &mut [Slot<T, V>], heap: &mut [Due<T>], from: usize, to: usize)
    requires from { from < length heap.old }
    requires slot { (d : Standing T) → slice_get heap.old from ≡ Some d → d.slot < length slots.old }
    requires to { to < length heap.old }
    ensures held { helds slots.new ≡ helds slots.old }
    ensures due { (d : Standing T) → slice_get heap.old from ≡ Some d → heap.new ≡ slice_set heap.old to d }
    ensures link { (d : Standing T) → slice_get heap.old from ≡ Some d → links slots.new ≡ slice_set (links slots.old) d.slot to }
{
    lead(slots, heap[from].slot, to);
    heap[to] = heap[from];
}

// Puts what is due at a place, to which its slot leads then.
fn set_place<T: Copy, V>(slots: &mut [Slot<T, V>], heap: &mut [Due<T>], place: usize, due: Due<T>)
    requires place { place < length heap.old }
    requires slot { due.slot < length slots.old }
    ensures held { helds slots.new ≡ helds slots.old }
    ensures due { heap.new ≡ slice_set heap.old place due }
    ensures link { links slots.new ≡ slice_set (links slots.old) due.slot place }
{
    lead(slots, due.slot, place);
    heap[place] = due;
}

// Has what stands above a place and is due after this one come down, one after another, and answers the place that the last one left.
fn rise<T: Ord + Copy, V>(
    slots: &mut [Slot<T, V>],
    heap: &mut [Due<T>],
    place: usize,
    due: &Due<T>,
) -> usize
    requires { IsOpen T.cmp slots.old heap.old place due.now }
    ensures held { helds slots.new ≡ helds slots.old }
    ensures vacant { AreVacantKept slots.new (links slots.old) }
    ensures len { length heap.new ≡ length heap.old }
    ensures gap { IsOpen T.cmp slots.new heap.new result due.now }
    ensures under { IsUnder T.cmp (slice_get heap.new) result due.now }
    ensures over { (result < place) ⊎ IsOver T.cmp (slice_get heap.old) place due.now → IsOver T.cmp (slice_get heap.new) result due.now }
{
    let mut place = place;
    'up: while let Some(above) = later_above(heap, place, due) {
        shift(slots, heap, above, place);
        place = above;
    }
    place
}

// Has what stands below a place and is due before this one go up, one after another, and answers the place that the last one left.
fn sink<T: Ord + Copy, V>(
    slots: &mut [Slot<T, V>],
    heap: &mut [Due<T>],
    place: usize,
    due: &Due<T>,
) -> usize
    requires gap { IsOpen T.cmp slots.old heap.old place due.now }
    requires under { IsUnder T.cmp (slice_get heap.old) place due.now }
    ensures held { helds slots.new ≡ helds slots.old }
    ensures vacant { AreVacantKept slots.new (links slots.old) }
    ensures len { length heap.new ≡ length heap.old }
    ensures gap { IsOpen T.cmp slots.new heap.new result due.now }
    ensures under { IsUnder T.cmp (slice_get heap.new) result due.now }
    ensures over { IsOver T.cmp (slice_get heap.new) result due.now }
{
    let mut place = place;
    'down: while let Some(below) = earlier_below(heap, place, due) {
        shift(slots, heap, below, place);
        place = below;
    }
    place
}

// Has the first of what stands below a place go up, one after another, and answers the place that the last one left, below which nothing stands. What
// is put there mostly stays there or near: so it is compared on its way up, and not at each step down.
fn lift<T: Ord + Copy, V>(slots: &mut [Slot<T, V>], heap: &mut [Due<T>], place: usize) -> usize
    requires { (d : Standing T) × IsOpen T.cmp slots.old heap.old place d }
    ensures held { helds slots.new ≡ helds slots.old }
    ensures vacant { AreVacantKept slots.new (links slots.old) }
    ensures len { length heap.new ≡ length heap.old }
    ensures gap { (d : Standing T) → IsOpen T.cmp slots.old heap.old place d → IsOpen T.cmp slots.new heap.new result d }
    ensures last { (k : ℕ) → IsAbove result k → slice_get heap.new k ≡ None }
{
    let mut place = place;
    'down: while let Some(below) = first_below(heap, place) {
        shift(slots, heap, below, place);
        place = below;
    }
    place
}

// Puts what is due at a place below which nothing is due before it, or further up, where it belongs.
fn settle_up<T: Ord + Copy, V>(
    slots: &mut [Slot<T, V>],
    heap: &mut [Due<T>],
    place: usize,
    due: Due<T>,
)
    requires gap { IsOpen T.cmp slots.old heap.old place due }
    requires over { IsOver T.cmp (slice_get heap.old) place due }
    ensures held { helds slots.new ≡ helds slots.old }
    ensures vacant { AreVacantKept slots.new (links slots.old) }
    ensures len { length heap.new ≡ length heap.old }
    ensures heap { IsHeap T.cmp slots.new heap.new }
{
    let risen = rise(slots, heap, place, &due);
    set_place(slots, heap, risen, due);
}

// Puts what is due at a place, or further up or down, where it belongs.
fn settle<T: Ord + Copy, V>(
    slots: &mut [Slot<T, V>],
    heap: &mut [Due<T>],
    place: usize,
    due: Due<T>,
)
    requires { IsOpen T.cmp slots.old heap.old place due }
    ensures held { helds slots.new ≡ helds slots.old }
    ensures vacant { AreVacantKept slots.new (links slots.old) }
    ensures len { length heap.new ≡ length heap.old }
    ensures heap { IsHeap T.cmp slots.new heap.new }
{
    let risen = rise(slots, heap, place, &due);
    if risen < place {
        set_place(slots, heap, risen, due);
    } else {
        let sunk = sink(slots, heap, risen, &due);
        set_place(slots, heap, sunk, due);
    }
}

// Has a slot hold a timer or none, and answers what it held.
fn hold<T, V>(
    slots: &mut [Slot<T, V>],
    slot: usize,
    held: Option<Armed<T, V>>,
) -> Option<Armed<T, V>>
    requires { slot < length slots.old }
    ensures was { result ≡ held_at slots.old slot }
    ensures held { helds slots.new ≡ slice_set (helds slots.old) slot held }
    ensures link { links slots.new ≡ links slots.old }
{
    mem::replace(&mut slots[slot].held, held)
}

/// Puts a timer into a slot where none stands, and into the heap, at the end of which a place is made for it.
pub(crate) fn put<T: Ord + Copy, V: Drop>(
    slots: &mut [Slot<T, V>],
    heap: &mut [Due<T>],
    slot: usize,
    armed: Armed<T, V>,
)
    requires within { slot < length slots.old }
    requires vacant { held_at slots.old slot ≡ None }
    requires heap { (others : List (Standing T)) × (last : Standing T) × (heap.old ≡ others ++ last ∷ []) × IsHeap T.cmp slots.old others }
    ensures held { helds slots.new ≡ slice_set (helds slots.old) slot (Some armed) }
    ensures vacant { AreVacantKept slots.new (links slots.old) }
    ensures len { length heap.new ≡ length heap.old }
    ensures heap { IsHeap T.cmp slots.new heap.new }
{
    let due = Due {
        at: armed.at,
        turn: armed.turn,
        slot,
    };
    let last = heap.len() - 1;
    hold(slots, slot, Some(armed));
    settle_up(slots, heap, last, due);
}

// Where a slot leads.
fn link_at<T, V>(slots: &[Slot<T, V>], slot: usize) -> usize
    requires { slot < length slots.now }
    ensures { result ≡ link_in slots.now slot }
{
    slots[slot].link
}

// Takes the timer out of a slot, which leads to another slot then.
fn vacate<T, V>(slots: &mut [Slot<T, V>], slot: usize, next_vacant: usize) -> Option<Armed<T, V>>
    requires { slot < length slots.old }
    ensures armed { result ≡ held_at slots.old slot }
    ensures held { helds slots.new ≡ slice_set (helds slots.old) slot None }
    ensures link { links slots.new ≡ slice_set (links slots.old) slot next_vacant }
{
    let armed = hold(slots, slot, None);
    lead(slots, slot, next_vacant);
    armed
}

/// Takes the timer out of a slot, which leads to another slot then. What stood at the last place of the heap has been taken out of it, and is put where
/// it belongs.
pub(crate) fn take<T: Ord + Copy, V>(
    slots: &mut [Slot<T, V>],
    heap: &mut [Due<T>],
    last: Due<T>,
    slot: usize,
    next_vacant: usize,
) -> Option<Armed<T, V>>
    requires held { IsSome (held_at slots.old slot) }
    requires heap { IsHeap T.cmp slots.old (heap.old ++ last ∷ []) }
    ensures was { result ≡ held_at slots.old slot }
    ensures held { helds slots.new ≡ slice_set (helds slots.old) slot None }
    ensures vacant { AreVacantKept slots.new (slice_set (links slots.old) slot next_vacant) }
    ensures len { length heap.new ≡ length heap.old }
    ensures heap { IsHeap T.cmp slots.new heap.new }
{
    let place = link_at(slots, slot);
    let armed = vacate(slots, slot, next_vacant);
    if place < heap.len() {
        let end = lift(slots, heap, place);
        settle_up(slots, heap, end, last);
    }
    armed
}

// Writes the time and the turn of the timer of a slot, where one stands there.
fn write_time<T: Copy, V>(slots: &mut [Slot<T, V>], slot: usize, at: T, turn: u64)
    requires { slot < length slots.old }
    ensures held { helds slots.new ≡ slice_set (helds slots.old) slot (renewed at turn (slice_index_or (helds slots.old) slot None)) }
    ensures link { links slots.new ≡ links slots.old }
{
    if let Some(armed) = &mut slots[slot].held {
        armed.at = at;
        armed.turn = turn;
    }
}

/// Gives the timer of a slot another time and turn.
pub(crate) fn retime<T: Ord + Copy, V>(
    slots: &mut [Slot<T, V>],
    heap: &mut [Due<T>],
    slot: usize,
    at: T,
    turn: u64,
)
    requires held { IsSome (held_at slots.old slot) }
    requires heap { IsHeap T.cmp slots.old heap.old }
    ensures held { helds slots.new ≡ slice_set (helds slots.old) slot (renewed at turn (slice_index_or (helds slots.old) slot None)) }
    ensures vacant { AreVacantKept slots.new (links slots.old) }
    ensures len { length heap.new ≡ length heap.old }
    ensures heap { IsHeap T.cmp slots.new heap.new }
{
    let place = link_at(slots, slot);
    write_time(slots, slot, at, turn);
    settle(slots, heap, place, Due { at, turn, slot });
}
