//! Maps and sets in heaps of the toolchain's crates.
use crate::items::{fill_set, has_items};
use crate::numbers::{fill, holds};
use crate::sizes::AMPLE;
use bumpalo::Bump;
use fc_base::{Handle, TryReserveError};
use fc_budget::Budget;
use fc_map::map::BTreeMap;
use fc_set::set::BTreeSet;
use linked_list_allocator::LocalHeap;
use std::alloc::Global;
use std::test::Fail;

// More pairs than the tests' heaps have room for.
const MANY: u64 = 1000;

/// How many numbers in order go into a map, and the one that came back with its value, or none of them.
pub(crate) fn filled<A: Handle>(alloc: A) -> (usize, u64) {
    let mut map = BTreeMap::new(alloc);
    for number in 0..MANY {
        if let Err((key, value, _refused)) = map.try_insert(number, number) {
            let is_right = key == value && holds(&map, 0, number, 1);
            return (map.len(), if is_right { key } else { MANY });
        }
    }
    (map.len(), MANY)
}

// Its blocks are those that are asked for: each of them is a multiple of 16 bytes.
#[test]
fn a_heap_of_4096_bytes_has_room_for_114_pairs(rt: HostRuntime) -> Result<(), Fail> {
    let heap = LocalHeap::new(rt.alloc(), 4096)?;
    let seen = [filled(&heap), filled(&heap)];
    assert!(rt; (seen, heap.used()) == ([(114, 114), (114, 114)], 0));
    Ok(())
}

// Whether two maps and a set are filled, and the maps are joined.
fn are_joined<A: Handle>(
    map: &mut BTreeMap<u64, u64, A>,
    other: &mut BTreeMap<u64, u64, A>,
    set: &mut BTreeSet<u64, A>,
) -> Result<bool, TryReserveError> {
    fill(map, 0, 300, 2)?;
    fill(other, 1, 300, 2)?;
    fill_set(set, 0, 300, 1)?;
    map.append(other)?;
    Ok(holds(map, 0, 600, 1) && is_cut_and_made_again(set)?)
}

// Whether a cut leaves a set what is below, and a union with the rest has all.
fn is_cut_and_made_again<A: Handle>(set: &mut BTreeSet<u64, A>) -> Result<bool, TryReserveError> {
    let rest = set.try_split_off(&100)?;
    Ok(has_items(set, 0, 100, 1) && is_union_whole(set, &rest)?)
}

fn is_union_whole<A: Handle>(
    set: &BTreeSet<u64, A>,
    rest: &BTreeSet<u64, A>,
) -> Result<bool, TryReserveError> {
    let both = set.bitor(rest)?;
    Ok(has_items(&both, 0, 300, 1))
}

// Whether a map, a set, what is left of it and a union are right in that memory.
fn are_right<A: Handle>(alloc: A) -> Result<bool, TryReserveError> {
    let mut map = BTreeMap::new(alloc);
    let mut other = BTreeMap::new(alloc);
    let mut set = BTreeSet::new(alloc);
    are_joined(&mut map, &mut other, &mut set)
}

#[test]
fn maps_and_sets_stand_in_a_heap(rt: HostRuntime) -> Result<(), Fail> {
    let heap = LocalHeap::new(rt.alloc(), AMPLE)?;
    assert!(rt; are_right(&heap)?);
    assert!(rt; heap.used() == 0);
    Ok(())
}

// What an arena has taken goes back with the arena, however often maps in it are dropped.
fn stand_in_an_arena(budget: &Budget<Global>) -> Result<(bool, bool), TryReserveError> {
    let arena = Bump::new(budget);
    let are_all = are_right(&arena)? && are_right(&arena)?;
    Ok((are_all, budget.used() > 0))
}

#[test]
fn maps_and_sets_stand_in_an_arena(rt: HostRuntime) -> Result<(), Fail> {
    let budget = Budget::new(rt.alloc(), AMPLE);
    assert!(rt; stand_in_an_arena(&budget)? == (true, true));
    assert!(rt; budget.used() == 0);
    Ok(())
}

// How many pairs go into an arena over a budget, and what came back.
fn filled_in_an_arena(budget: &Budget<Global>) -> (usize, u64) {
    let arena = Bump::new(budget);
    filled(&arena)
}

#[test]
fn an_arena_over_a_budget_is_refused_as_the_budget_is(rt: HostRuntime) {
    let budget = Budget::new(rt.alloc(), 4096);
    let (count, back) = filled_in_an_arena(&budget);
    assert!(rt; 15 <= count && count <= 114 && back == count as u64);
    assert!(rt; budget.used() == 0);
}
