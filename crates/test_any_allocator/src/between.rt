//! Calls on two collections, each in a budget of its own.
use crate::items::{Items, fill_set, has_items, items};
use crate::numbers::{Numbers, fill, holds, numbers};
use crate::sizes::{AMPLE, CAPACITY, INNER, LEAF, SET_INNER, SET_LEAF};
use fc_base::TryReserveError;
use fc_budget::Budget;
use fc_map::map::insert_both;
use std::alloc::Global;
use std::test::Fail;

// How many bytes are out of each of two budgets.
type Out = (usize, usize);

fn out(a: &Budget<Global>, b: &Budget<Global>) -> Out {
    (a.used(), b.used())
}

// How many numbers a map has, and the first of those that it takes over, as far apart.
#[derive(Clone, Copy)]
struct Run {
    count: u64,
    first: u64,
    step: u64,
}

// Whether a map is whole that takes over a full leaf of numbers from another one.
fn takes_over<'a>(
    map: &mut Numbers<'a>,
    other: &mut Numbers<'a>,
    run: Run,
) -> Result<bool, TryReserveError> {
    fill(map, 0, run.count, run.step)?;
    fill(other, run.first, CAPACITY, run.step)?;
    map.append(other)?;
    Ok(holds(map, 0, run.count.wrapping_add(CAPACITY), 1) && other.is_empty())
}

// What is out then, of a map in `a` and one in `b`.
fn out_of_append(
    a: &Budget<Global>,
    b: &Budget<Global>,
    count: u64,
    first: u64,
    step: u64,
) -> Result<(bool, Out), TryReserveError> {
    let mut map = Numbers::new(a);
    let mut other = Numbers::new(b);
    match takes_over(&mut map, &mut other, Run { count, first, step }) {
        Ok(is_whole) => Ok((is_whole, out(a, b))),
        Err(error) => Err(error),
    }
}

// The other's budget has no byte left. To an empty map the other's leaf goes as it is, and is still out of its budget; where all keys lie
// after, it is hung below a root; and where they take turns, all pairs go into nodes of the map's own budget.
#[test]
fn an_append_asks_the_maps_own_budget(rt: HostRuntime) -> Result<(), Fail> {
    let a = Budget::new(rt.alloc(), AMPLE);
    let b = Budget::new(rt.alloc(), LEAF);
    let seen = [
        out_of_append(&a, &b, 0, 0, 1)?,
        out_of_append(&a, &b, CAPACITY, CAPACITY, 1)?,
        out_of_append(&a, &b, CAPACITY, 1, 2)?,
    ];
    assert!(rt;
        seen == [
            (true, (0, LEAF)),
            (true, (LEAF + INNER, LEAF)),
            (true, (2 * LEAF + INNER, 0))
        ]
    );
    assert!(rt; out(&a, &b) == (0, 0));
    Ok(())
}

// What is out where an empty map in `a` took over a full leaf from a map in `b`, and one more number went in.
fn out_after_append(a: &Budget<Global>, b: &Budget<Global>) -> Result<Out, TryReserveError> {
    let mut map = Numbers::new(a);
    map.append(&mut numbers(b, 0, CAPACITY, 1)?)?;
    map.try_insert(CAPACITY, CAPACITY)?;
    Ok(out(a, b))
}

fn out_after_append_of_sets(
    a: &Budget<Global>,
    b: &Budget<Global>,
) -> Result<Out, TryReserveError> {
    let mut set = Items::new(a);
    set.append(&mut items(b, 0, CAPACITY, 1)?)?;
    set.try_insert(CAPACITY)?;
    Ok(out(a, b))
}

#[test]
fn what_came_from_another_budget_grows_in_its_own(rt: HostRuntime) -> Result<(), Fail> {
    let a = Budget::new(rt.alloc(), AMPLE);
    let b = Budget::new(rt.alloc(), LEAF);
    let seen = (out_after_append(&a, &b)?, out_after_append_of_sets(&a, &b)?);
    assert!(rt; seen == ((LEAF + INNER, LEAF), (SET_LEAF + SET_INNER, SET_LEAF)));
    assert!(rt; out(&a, &b) == (0, 0));
    Ok(())
}

// Takes all items of another set over, by turns.
fn takes_over_items<'a>(
    set: &mut Items<'a>,
    other: &mut Items<'a>,
) -> Result<bool, TryReserveError> {
    fill_set(set, 0, CAPACITY, 2)?;
    fill_set(other, 1, CAPACITY, 2)?;
    set.append(other)?;
    Ok(has_items(set, 0, CAPACITY.wrapping_mul(2), 1) && other.is_empty())
}

// What is out then, of a set in `a` and one in `b`.
fn out_of_set_append(
    a: &Budget<Global>,
    b: &Budget<Global>,
) -> Result<(bool, Out), TryReserveError> {
    let mut set = Items::new(a);
    let mut other = Items::new(b);
    match takes_over_items(&mut set, &mut other) {
        Ok(is_whole) => Ok((is_whole, out(a, b))),
        Err(error) => Err(error),
    }
}

// What is out of both budgets beside the set that an operation made.
fn out_of_sub<'a>(
    a: &Budget<Global>,
    b: &Budget<Global>,
    set: &Items<'a>,
    other: &Items<'a>,
) -> Result<Out, TryReserveError> {
    let _made = set.sub(other)?;
    Ok(out(a, b))
}

fn out_of_and<'a>(
    a: &Budget<Global>,
    b: &Budget<Global>,
    set: &Items<'a>,
    other: &Items<'a>,
) -> Result<Out, TryReserveError> {
    let _made = set.bitand(other)?;
    Ok(out(a, b))
}

fn out_of_xor<'a>(
    a: &Budget<Global>,
    b: &Budget<Global>,
    set: &Items<'a>,
    other: &Items<'a>,
) -> Result<Out, TryReserveError> {
    let _made = set.bitxor(other)?;
    Ok(out(a, b))
}

fn out_of_or<'a>(
    a: &Budget<Global>,
    b: &Budget<Global>,
    set: &Items<'a>,
    other: &Items<'a>,
) -> Result<Out, TryReserveError> {
    let _made = set.bitor(other)?;
    Ok(out(a, b))
}

// Of a set of one leaf in `a` and one of a leaf in `b`.
fn out_of_each<'a>(
    a: &Budget<Global>,
    b: &Budget<Global>,
    set: &mut Items<'a>,
    other: &mut Items<'a>,
) -> Result<[Out; 4], TryReserveError> {
    fill_set(set, 0, 10, 1)?;
    fill_set(other, 5, 10, 1)?;
    Ok([
        out_of_sub(a, b, set, other)?,
        out_of_and(a, b, set, other)?,
        out_of_xor(a, b, set, other)?,
        out_of_or(a, b, set, other)?,
    ])
}

fn out_of_operators(a: &Budget<Global>, b: &Budget<Global>) -> Result<[Out; 4], TryReserveError> {
    let mut set = Items::new(a);
    let mut other = Items::new(b);
    out_of_each(a, b, &mut set, &mut other)
}

// The right side's budget has no byte left, and needs none.
#[test]
fn operations_ask_the_budget_of_their_left_side(rt: HostRuntime) -> Result<(), Fail> {
    let a = Budget::new(rt.alloc(), AMPLE);
    let b = Budget::new(rt.alloc(), SET_LEAF);
    let (is_whole, joined) = out_of_set_append(&a, &b)?;
    let seen = out_of_operators(&a, &b)?;
    assert!(rt; is_whole && joined == (2 * SET_LEAF + SET_INNER, 0));
    assert!(rt; seen == [(2 * SET_LEAF, SET_LEAF); 4]);
    assert!(rt; out(&a, &b) == (0, 0));
    Ok(())
}

// What is out where a number went into an empty map of each, if it did.
fn out_of_both(a: &Budget<Global>, b: &Budget<Global>) -> (bool, Out) {
    let mut map = Numbers::new(a);
    let mut other = Numbers::new(b);
    let is_done = insert_both(&mut map, &mut other, 1, 2, 3, 4).is_ok();
    (is_done, out(a, b))
}

#[test]
fn each_of_two_insertions_asks_its_maps_own_budget(rt: HostRuntime) {
    let a = Budget::new(rt.alloc(), LEAF);
    let b = Budget::new(rt.alloc(), LEAF);
    let none = Budget::new(rt.alloc(), 0);
    let seen = [
        out_of_both(&a, &b),
        out_of_both(&a, &none),
        out_of_both(&none, &b),
    ];
    assert!(rt; seen == [(true, (LEAF, LEAF)), (false, (0, 0)), (false, (0, 0))]);
}
