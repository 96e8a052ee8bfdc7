//! Sets and their walks.
use super::traits::{compares, copies, crosses, prints};
use fc_set::set::{
    BTreeSet, Difference, Intersection, IntoIter, Iter, Range, SymmetricDifference, Union,
};
use std::test::Fail;

type Set = BTreeSet<u64>;

#[test]
fn sets_cross_threads(rt: HostRuntime) {
    assert!(rt; crosses::<Set>() && crosses::<&Set>() && crosses::<&mut Set>());
}

// One walk a function, since the search for a proof of several in one gives up.
fn items_cross() -> bool {
    crosses::<Iter<'static, u64>>()
}

fn ranges_cross() -> bool {
    crosses::<Range<'static, u64>>()
}

fn owned_items_cross() -> bool {
    crosses::<IntoIter<u64>>()
}

#[test]
fn walks_of_sets_cross_threads(rt: HostRuntime) {
    assert!(rt; items_cross() && ranges_cross() && owned_items_cross());
}

#[test]
fn sets_print_and_compare(rt: HostRuntime) {
    assert!(rt; prints::<Set>() && compares::<Set>());
}

#[test]
fn walks_of_sets_print(rt: HostRuntime) {
    let one = prints::<Iter<'static, u64>>()
        && prints::<Range<'static, u64>>()
        && prints::<IntoIter<u64>>();
    let all = prints::<Union<'static, u64>>() && prints::<SymmetricDifference<'static, u64>>();
    let some = prints::<Intersection<'static, u64>>() && prints::<Difference<'static, u64>>();
    assert!(rt; one && all && some);
}

#[test]
fn reading_walks_of_sets_copy(rt: HostRuntime) {
    let one = copies::<Iter<'static, u64>>() && copies::<Range<'static, u64>>();
    let all = copies::<Union<'static, u64>>() && copies::<SymmetricDifference<'static, u64>>();
    let some = copies::<Intersection<'static, u64>>() && copies::<Difference<'static, u64>>();
    assert!(rt; one && all && some);
}
