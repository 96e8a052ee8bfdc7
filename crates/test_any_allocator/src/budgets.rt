//! What fits into one budget, and into a budget over another.
use crate::heaps::filled;
use crate::items::{Items, fill_set};
use crate::numbers::{Numbers, fill, numbers};
use crate::sizes::{AMPLE, CAPACITY, INNER, LEAF, SET_LEAF};
use fc_base::TryReserveError;
use fc_budget::Budget;
use std::alloc::Global;
use std::test::Fail;

// Of numbers in order the first takes a leaf, the 16th a second one and a root, and each ninth after it, the 25th, 34th and so on, one
// more. So 4,096 bytes have room for the twelve leaves and the root of up to 114, of 4,016 bytes, and the 115th is refused.
#[test]
fn a_budget_of_4096_bytes_has_room_for_114_pairs(rt: HostRuntime) {
    let budget = Budget::new(rt.alloc(), 4096);
    let seen = filled(&budget);
    assert!(rt; (seen, budget.used()) == ((114, 114), 0));
}

#[test]
fn a_budget_is_used_up_to_the_byte(rt: HostRuntime) {
    let mut seen = [0; 8];
    for i in 0..8 {
        let two = 2 * LEAF + INNER;
        let caps = [
            0,
            LEAF - 1,
            LEAF,
            two - 1,
            two,
            two + LEAF - 1,
            two + LEAF,
            0,
        ];
        let budget = Budget::new(rt.alloc(), caps[i]);
        seen[i] = filled(&budget).0;
    }
    assert!(rt; seen == [0, 0, 15, 15, 24, 24, 33, 0]);
}

fn goes_in(map: &mut Numbers<'_>, number: u64) -> bool {
    map.try_insert(number, number).is_ok()
}

fn goes_into_set(set: &mut Items<'_>, number: u64) -> bool {
    set.try_insert(number).is_ok()
}

// Which of them take one more number.
fn which_take(a: &mut Numbers<'_>, b: &mut Numbers<'_>, s: &mut Items<'_>) -> (bool, bool, bool) {
    (goes_in(a, 100), goes_in(b, 100), goes_into_set(s, 100))
}

// Whether full leaves leave nothing, none takes one more, and where one gave a number up it alone does.
fn are_full(
    budget: &Budget<Global>,
    a: &mut Numbers<'_>,
    b: &mut Numbers<'_>,
    s: &mut Items<'_>,
) -> Result<bool, TryReserveError> {
    fill(a, 0, CAPACITY, 1)?;
    fill(b, 0, CAPACITY, 2)?;
    fill_set(s, 0, CAPACITY, 3)?;
    let is_full = budget.left() == 0;
    let first = which_take(a, b, s);
    a.remove(&0);
    let second = which_take(a, b, s);
    Ok(is_full && (first, second) == ((false, false, false), (true, false, false)))
}

fn has_room_at_last<'a>(
    budget: &'a Budget<Global>,
    a: &mut Numbers<'a>,
    mut b: Numbers<'a>,
    s: &mut Items<'a>,
) -> Result<bool, TryReserveError> {
    let are_all = are_full(budget, a, &mut b, s)?;
    drop(b);
    let left = budget.left();
    Ok(are_all && left == LEAF && numbers(budget, 0, CAPACITY, 1).is_ok())
}

// A leaf for each of two maps and a set is all that the budget has. Once one of them is dropped, another map has the bytes of its leaf.
fn is_shared(budget: &Budget<Global>) -> Result<bool, TryReserveError> {
    let mut a = Numbers::new(budget);
    let mut s = Items::new(budget);
    has_room_at_last(budget, &mut a, Numbers::new(budget), &mut s)
}

#[test]
fn two_maps_and_a_set_share_a_budget(rt: HostRuntime) -> Result<(), Fail> {
    let budget = Budget::new(rt.alloc(), 2 * LEAF + SET_LEAF);
    assert!(rt; is_shared(&budget)?);
    assert!(rt; budget.used() == 0);
    Ok(())
}

// How many pairs go into a budget of 4,096 bytes over another, which holds two of them, and how many bytes of that one are then out.
fn filled_below(outer: &Budget<Global>) -> (usize, usize) {
    let inner = Budget::new(outer, 4096);
    let (count, _back) = filled(&inner);
    (count, outer.used())
}

// How many bytes are out of a budget where a map of a leaf stands in one over it.
fn out_of_a_map(outer: &Budget<Global>) -> Result<usize, TryReserveError> {
    let inner = Budget::new(outer, LEAF);
    let _map = numbers(&inner, 0, CAPACITY, 1)?;
    Ok(outer.used())
}

#[test]
fn a_map_over_a_budget_over_a_budget_takes_of_both(rt: HostRuntime) -> Result<(), Fail> {
    let outer = Budget::new(rt.alloc(), AMPLE);
    let wide = filled_below(&outer);
    let narrow_outer = Budget::new(rt.alloc(), LEAF);
    let narrow = filled_below(&narrow_outer);
    assert!(rt; (wide, narrow) == ((114, 0), (15, 0)));
    let out = out_of_a_map(&outer)?;
    assert!(rt; (out, outer.used()) == (LEAF, 0));
    Ok(())
}
