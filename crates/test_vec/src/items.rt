//! Calls of `TryVec` on its items, which take no memory, and what it is made of.
use crate::calls::{holds, of};
use fc_vec::{TryCollect, TryVec};
use std::test::Fail;

fn at(v: &TryVec<u64>, index: usize) -> Option<u64> {
    v.get(index).copied()
}

fn ends(v: &TryVec<u64>) -> (Option<u64>, Option<u64>) {
    (v.first().copied(), v.last().copied())
}

fn at_or_zero(v: &TryVec<u64>, index: usize) -> u64 {
    if index < v.len() { v[index] } else { 0 }
}

fn contains(v: &TryVec<u64>, item: u64) -> bool {
    v.contains(&item)
}

#[test]
fn items_at_places(rt: HostRuntime) -> Result<(), Fail> {
    let none = of(rt.alloc(), &[])?;
    assert!(rt; ends(&none) == (None, None) && at(&none, 0).is_none());
    let v = of(rt.alloc(), &[3, 4, 5])?;
    assert!(rt; ends(&v) == (Some(3), Some(5)));
    assert!(rt; at(&v, 1) == Some(4) && at(&v, 3).is_none() && at_or_zero(&v, 2) == 5);
    assert!(rt; contains(&v, 4) && !contains(&v, 6));
    Ok(())
}

// Whether there was such an item.
fn write(v: &mut TryVec<u64>, index: usize, item: u64) -> bool {
    match v.get_mut(index) {
        Some(place) => {
            *place = item;
            true
        }
        None => false,
    }
}

fn write_ends(v: &mut TryVec<u64>, first: u64, last: u64) {
    if let Some(place) = v.first_mut() {
        *place = first;
    }
    if let Some(place) = v.last_mut() {
        *place = last;
    }
}

fn write_at(v: &mut TryVec<u64>, index: usize, item: u64) {
    if index < v.len() {
        v[index] = item;
    }
}

#[test]
fn items_written_at_places(rt: HostRuntime) -> Result<(), Fail> {
    let mut v = of(rt.alloc(), &[3, 4, 5])?;
    let written = write(&mut v, 1, 7) && !write(&mut v, 3, 8);
    assert!(rt; written && holds(v.as_slice(), &[3, 7, 5]));
    write_ends(&mut v, 1, 9);
    write_at(&mut v, 1, 2);
    assert!(rt; holds(v.as_slice(), &[1, 2, 9]));
    Ok(())
}

// The item at the place, and what is left; the last item moves there, or all after it do.
fn removed(v: &mut TryVec<u64>, index: usize, by_last: bool) -> u64 {
    if index >= v.len() {
        return 0;
    }
    if by_last {
        v.swap_remove(index)
    } else {
        v.remove(index)
    }
}

fn keep_odd(v: &mut TryVec<u64>) {
    v.retain(|item| item % 2 == 1);
}

#[test]
fn items_taken_out(rt: HostRuntime) -> Result<(), Fail> {
    let mut v = of(rt.alloc(), &[3, 4, 5, 6, 7])?;
    assert!(rt; removed(&mut v, 1, false) == 4 && holds(v.as_slice(), &[3, 5, 6, 7]));
    assert!(rt; removed(&mut v, 0, true) == 3 && holds(v.as_slice(), &[7, 5, 6]));
    keep_odd(&mut v);
    assert!(rt; holds(v.as_slice(), &[7, 5]));
    v.truncate(1);
    assert!(rt; holds(v.as_slice(), &[7]));
    Ok(())
}

// The digits of the items from `start` up to `end`, which are taken out; 0 where that is no stretch of the items.
fn drained(v: &mut TryVec<u64>, start: usize, end: usize) -> u64 {
    if start > end || end > v.len() {
        return 0;
    }
    let mut number: u64 = 0;
    for item in v.drain(start..end) {
        number = number.wrapping_mul(10).wrapping_add(item);
    }
    number
}

#[test]
fn a_stretch_is_drained(rt: HostRuntime) -> Result<(), Fail> {
    let mut v = of(rt.alloc(), &[3, 4, 5, 6])?;
    assert!(rt; drained(&mut v, 1, 3) == 45 && holds(v.as_slice(), &[3, 6]));
    assert!(rt; drained(&mut v, 0, 1) == 3 && holds(v.as_slice(), &[6]));
    Ok(())
}

fn sort_down(v: &mut TryVec<u64>) {
    v.sort_unstable_by(|a, b| b.cmp(a));
}

#[test]
fn items_in_order(rt: HostRuntime) -> Result<(), Fail> {
    let mut v = of(rt.alloc(), &[5, 3, 5, 4])?;
    v.sort_unstable();
    assert!(rt; holds(v.as_slice(), &[3, 4, 5, 5]));
    v.dedup();
    assert!(rt; holds(v.as_slice(), &[3, 4, 5]));
    sort_down(&mut v);
    assert!(rt; holds(v.as_slice(), &[5, 4, 3]));
    Ok(())
}

// The digits from the last one on, and how many the walk says are left before each, after the number.
fn digits_from_the_back(v: &TryVec<u64>) -> u64 {
    let mut walk = v.iter();
    let mut number: u64 = 0;
    let mut left = walk.len() as u64;
    for _ in 0..v.len() {
        let Some(item) = walk.next_back() else {
            return 0;
        };
        number = number.wrapping_mul(10).wrapping_add(*item);
        left = left.wrapping_mul(10).wrapping_add(walk.len() as u64);
    }
    number.wrapping_mul(10000).wrapping_add(left)
}

#[test]
fn a_walk_from_the_back(rt: HostRuntime) -> Result<(), Fail> {
    let v = of(rt.alloc(), &[3, 4, 5])?;
    assert!(rt; digits_from_the_back(&v) == 5433210);
    Ok(())
}

fn inserted(v: &mut TryVec<u64>, index: usize, item: u64) -> bool {
    index <= v.len() && v.insert(index, item).is_ok()
}

#[test]
fn an_item_is_inserted(rt: HostRuntime) -> Result<(), Fail> {
    let mut v: TryVec<u64> = TryCollect::try_collect(3..5u64, rt.alloc())?;
    assert!(rt; inserted(&mut v, 1, 7) && inserted(&mut v, 3, 8) && !inserted(&mut v, 5, 9));
    assert!(rt; holds(&v.into_vec(), &[3, 7, 4, 8]));
    Ok(())
}
