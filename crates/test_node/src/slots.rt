// Each item is dropped once, by a type that counts its drops. Room is taken by one request, and for items of no size by none.
ghost use Rattle.std.specs.Prelude.{◌≡◌, length};

use fc_base::{Asked, Count};
use fc_tree_node::node::{CAPACITY, Node};
use fc_tree_slots::rest::Rest;
use fc_tree_slots::slots::Slots;
use std::alloc::{AllocError, Global};
use std::mem::size_of;
use std::process::Abort;
use std::test::Fail;
use test_values::{Tally, Token};

// Puts the item after the others.
fn push<T: Drop>(rt: &impl Abort, slots: &mut Slots<T, 4>, item: T) {
    assert!(rt; slots.len() < 4);
    slots.push(item, &mut Count::new());
}

// A list of `n` items that are numbered from `first` on.
fn list<'a>(
    rt: &impl Abort,
    alloc: Global,
    first: u64,
    n: u64,
    tally: &'a Tally,
) -> Result<Slots<Token<'a>, 4>, Fail> {
    let mut slots = Slots::try_new(alloc, &mut Asked::new())?;
    for i in 0..n {
        let number = first.wrapping_add(i);
        push(rt, &mut slots, Token::new(number, tally));
    }
    Ok(slots)
}

// Whether the list holds the items of these numbers.
fn has_numbers(slots: &Slots<Token<'_>, 4>, numbers: &[u64]) -> bool {
    if slots.len() != numbers.len() {
        return false;
    }
    for i in 0..numbers.len() {
        if slots.get(i).number != numbers[i] {
            return false;
        }
    }
    true
}

#[test]
fn a_dropped_list_drops_each_item_once(rt: HostRuntime) -> Result<(), Fail> {
    for n in [0, 1, 4] {
        let tally = Tally::new();
        let slots = list(&rt, rt.alloc(), 0, n, &tally)?;
        assert!(&rt; tally.dropped.get() == 0);
        drop(slots);
        assert!(&rt; tally.dropped.get() == n);
    }
    Ok(())
}

// Drops what was handed out: whether it has this number, and so many were dropped before it. What is asserted afterwards has nothing to give up.
fn was_kept(gone: Token<'_>, number: u64, tally: &Tally, dropped: u64) -> bool {
    gone.number == number && tally.dropped.get() == dropped
}

fn remove_one<'a>(rt: &impl Abort, slots: &mut Slots<Token<'a>, 4>, tally: &'a Tally)
    ensures { length slots.new ≡ 3 }
{
    assert!(rt; slots.len() == 4);
    let is_kept = was_kept(slots.remove(1, &mut Count::new()), 1, tally, 0);
    assert!(rt; is_kept);
    assert!(rt; tally.dropped.get() == 1 && has_numbers(slots, &[0, 2, 3]));
}

fn replace_one<'a>(rt: &impl Abort, slots: &mut Slots<Token<'a>, 4>, tally: &'a Tally)
    requires { length slots.old ≡ 3 }
{
    let gone = slots.replace(2, Token::new(9, tally), &mut Count::new());
    let is_kept = was_kept(gone, 3, tally, 1);
    assert!(rt; is_kept);
    assert!(rt; has_numbers(slots, &[0, 2, 9]));
}

#[test]
fn a_removed_or_replaced_item_is_handed_out(rt: HostRuntime) -> Result<(), Fail> {
    let tally = Tally::new();
    let mut slots = list(&rt, rt.alloc(), 0, 4, &tally)?;
    remove_one(&rt, &mut slots, &tally);
    replace_one(&rt, &mut slots, &tally);
    drop(slots);
    assert!(&rt; tally.dropped.get() == 5);
    Ok(())
}

// Moves three of four items into a list of one.
fn move_three<T: Drop>(
    rt: &impl Abort,
    slots: &mut Slots<T, 4>,
    other: &mut Slots<T, 4>,
    call: usize,
) {
    let mut count = Count::new();
    assert!(rt; slots.len() == 4 && other.len() == 1);
    match call {
        0 => slots.move_tail(1, other, &mut count),
        1 => slots.move_front(3, other, &mut count),
        _ => slots.move_back(3, other, &mut count),
    }
}

// The numbers of the items that a move leaves, and of those in the other list.
fn moved(call: usize) -> (&'static [u64], &'static [u64]) {
    match call {
        0 => (&[0], &[7, 1, 2, 3]),
        1 => (&[3], &[7, 0, 1, 2]),
        _ => (&[0], &[1, 2, 3, 7]),
    }
}

// Moves three items into a list that is made for it.
fn other_of_three<'a>(
    rt: &impl Abort,
    alloc: Global,
    slots: &mut Slots<Token<'a>, 4>,
    call: usize,
    tally: &'a Tally,
) -> Result<Slots<Token<'a>, 4>, Fail> {
    let mut other = list(rt, alloc, 7, 1, tally)?;
    move_three(rt, slots, &mut other, call);
    let (kept, gone) = moved(call);
    assert!(rt; tally.dropped.get() == 0 && has_numbers(slots, kept) && has_numbers(&other, gone));
    Ok(other)
}

fn drop_moved(rt: &impl Abort, alloc: Global, call: usize) -> Result<(), Fail> {
    let tally = Tally::new();
    let mut slots = list(rt, alloc, 0, 4, &tally)?;
    let other = other_of_three(rt, alloc, &mut slots, call, &tally)?;
    drop(slots);
    let of_one = tally.dropped.get();
    drop(other);
    assert!(rt; of_one == 1);
    assert!(rt; tally.dropped.get() == 5);
    Ok(())
}

#[test]
fn moved_items_are_dropped_by_the_list_that_has_them(rt: HostRuntime) -> Result<(), Fail> {
    for call in 0..3usize {
        drop_moved(&rt, rt.alloc(), call)?;
    }
    Ok(())
}

// Takes the first item out and then the last, while there is one.
fn take_ends<T>(rest: &mut Rest<T, 4>) -> (Option<T>, Option<T>) {
    let first = if rest.len() > 0 {
        Some(rest.take_first())
    } else {
        None
    };
    let last = if rest.len() > 0 {
        Some(rest.take_last())
    } else {
        None
    };
    (first, last)
}

// Whether there is the item of this number.
fn has_number(item: &Option<Token<'_>>, number: u64) -> bool {
    match item {
        Some(token) => token.number == number,
        None => false,
    }
}

// Drops what is left of so many items, and then the ends.
fn drop_rest(rt: &impl Abort, rest: Rest<Token<'_>, 4>, n: u64, tally: &Tally) {
    let mut rest = rest;
    let (first, last) = take_ends(&mut rest);
    let are_ends = has_number(&first, 0) == (n > 0) && has_number(&last, 3) == (n == 4);
    let of_none = tally.dropped.get();
    drop(rest);
    let of_rest = tally.dropped.get();
    drop(first);
    drop(last);
    assert!(rt; are_ends);
    assert!(rt; of_none == 0);
    assert!(rt; of_rest == n.saturating_sub(2));
    assert!(rt; tally.dropped.get() == n);
}

#[test]
fn what_is_left_between_the_ends_is_dropped_once(rt: HostRuntime) -> Result<(), Fail> {
    for n in [0u64, 1, 4] {
        let tally = Tally::new();
        drop_rest(
            &rt,
            list(&rt, rt.alloc(), 0, n, &tally)?.into_rest(),
            n,
            &tally,
        );
    }
    Ok(())
}

#[test]
fn what_is_written_to_a_lent_item_stays(rt: HostRuntime) -> Result<(), Fail> {
    let mut slots: Slots<u64, 4> = Slots::try_new(rt.alloc(), &mut Asked::new())?;
    slots.insert(0, 5, &mut Count::new());
    *slots.get_mut(0) = 3;
    assert!(&rt; *slots.get(0) == 3);
    Ok(())
}

// Its one request is refused by the sweep, which also sees that there is no other.
#[test]
fn room_is_taken_in_one_request(rt: HostRuntime) -> Result<(), Fail> {
    let mut slots = match Slots::try_new(rt.alloc(), &mut Asked::new()) {
        Ok(slots) => slots,
        Err(AllocError) => return Ok(()),
    };
    for i in 0..4u64 {
        push(&rt, &mut slots, i);
    }
    assert!(&rt; slots.len() == 4);
    Ok(())
}

#[test]
fn room_for_too_many_bytes_is_refused(rt: HostRuntime) -> Result<(), Fail> {
    let refused: Result<Slots<u64, 0x1000_0000_0000_0000>, AllocError> = Slots::try_new(
        rt.alloc(),
        &mut Asked::new(),
    );
    assert!(&rt; refused.is_err());
    Ok(())
}

fn of_no_size(rt: &impl Abort, alloc: Global, count: u64) -> Result<Slots<(), 4>, Fail> {
    let mut slots = Slots::try_new(alloc, &mut Asked::new())?;
    for _ in 0..count {
        push(rt, &mut slots, ());
    }
    Ok(slots)
}

// Calls on lists that their caller owns, which have nothing to give up here.
fn move_of_no_size(
    rt: &impl Abort,
    slots: &mut Slots<(), 4>,
    other: &mut Slots<(), 4>,
    call: usize,
) {
    assert!(rt; slots.len() == 4 && slots.as_slice().len() == 4);
    move_three(rt, slots, other, call);
    assert!(rt; slots.len() == 1 && other.len() == 4);
    slots.replace(0, (), &mut Count::new());
    *slots.get_mut(0) = ();
    assert!(rt; *slots.get(0) == ());
    other.remove(3, &mut Count::new());
    assert!(rt; other.len() == 3);
}

fn other_of_no_size(rt: &impl Abort, alloc: Global, call: usize) -> Result<Slots<(), 4>, Fail> {
    let mut slots = of_no_size(rt, alloc, 4)?;
    let mut other = of_no_size(rt, alloc, 1)?;
    move_of_no_size(rt, &mut slots, &mut other, call);
    Ok(other)
}

// The sweep sees that no request is made.
#[test]
fn items_of_no_size_take_no_room(rt: HostRuntime) -> Result<(), Fail> {
    for call in 0..3usize {
        let mut rest = other_of_no_size(&rt, rt.alloc(), call)?.into_rest();
        let (first, last) = take_ends(&mut rest);
        assert!(&rt; first.is_some() && last.is_some() && rest.len() == 1);
    }
    Ok(())
}

fn lend(rt: &impl Abort, slots: &mut Slots<u64, 4>) {
    assert!(rt; slots.as_slice().is_empty());
    for i in 5..9u64 {
        push(rt, slots, i);
    }
    assert!(rt; slots.as_slice() == [5, 6, 7, 8].as_slice());
    slots.remove(1, &mut Count::new());
    assert!(rt; slots.as_slice() == [5, 7, 8].as_slice());
}

#[test]
fn the_items_are_lent_as_a_slice(rt: HostRuntime) -> Result<(), Fail> {
    let mut slots = Slots::try_new(rt.alloc(), &mut Asked::new())?;
    lend(&rt, &mut slots);
    Ok(())
}

#[test]
fn a_list_is_a_pointer_and_a_length(rt: HostRuntime) -> Result<(), Fail> {
    assert!(&rt; size_of::<Slots<u64, CAPACITY>>() == 16);
    assert!(&rt; size_of::<Node<u64, u64>>() == 40);
    Ok(())
}
