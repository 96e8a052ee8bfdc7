//! Vectors, hashed maps, boxes, budgets and the error.
use super::traits::{compares, copies, crosses, is_equal_to_itself, is_error, prints, sends};
use fc_base::{TryBox, TryReserveError};
use fc_budget::{Budget, SharedBudget};
use fc_hash::TryHashMap;
use fc_vec::vec::{Iter, TryVec};
use std::alloc::Global;
use std::collections::hash_map;
use std::test::Fail;
use std::{slice, vec};

#[test]
fn vectors_cross_threads(rt: HostRuntime) {
    let whole = crosses::<TryVec<u64>>() && crosses::<Iter<'static, u64>>();
    let walks = crosses::<slice::Iter<'static, u64>>() && crosses::<vec::IntoIter<u64, Global>>();
    assert!(rt; whole && walks);
}

#[test]
fn vectors_print_compare_and_copy(rt: HostRuntime) {
    assert!(rt; prints::<TryVec<u64>>() && compares::<TryVec<u64>>());
    assert!(rt; prints::<Iter<'static, u64>>() && copies::<Iter<'static, u64>>());
}

#[test]
fn hashed_maps_cross_threads_and_print(rt: HostRuntime) {
    let whole = crosses::<TryHashMap<u64, u64>>()
        && prints::<TryHashMap<u64, u64>>()
        && is_equal_to_itself::<TryHashMap<u64, u64>>();
    let read = crosses::<hash_map::Iter<'static, u64, u64>>();
    let owned = crosses::<hash_map::IntoIter<u64, u64, Global>>();
    assert!(rt; whole && read && owned);
}

#[test]
fn boxes_cross_threads(rt: HostRuntime) {
    assert!(rt; crosses::<TryBox<u64>>());
}

#[test]
fn a_budget_goes_to_one_thread_and_a_shared_one_to_many(rt: HostRuntime) {
    assert!(rt; sends::<Budget<Global>>() && crosses::<SharedBudget<Global>>());
}

#[test]
fn the_error_crosses_threads_prints_and_is_an_error(rt: HostRuntime) {
    assert!(rt; crosses::<TryReserveError>() && is_error::<TryReserveError>());
}
