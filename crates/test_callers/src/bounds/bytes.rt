//! The bytes of each type by itself, of which the pages have a table.
use fc_base::TryBox;
use fc_budget::{Budget, SharedBudget};
use fc_hash::{TryHashMap, TryHashSet};
use fc_map::map::BTreeMap;
use fc_set::set::BTreeSet;
use fc_vec::TryVec;
use std::alloc::Global;
use std::mem::size_of;
use std::test::Fail;

#[test]
fn with_global(rt: HostRuntime) {
    assert!(rt; size_of::<BTreeMap<u64, u64>>() == 56);
    assert!(rt; size_of::<BTreeSet<u64>>() == 56);
    assert!(rt; size_of::<TryVec<u64>>() == 24);
    assert!(rt; size_of::<TryHashMap<u64, u64>>() == 144);
    assert!(rt; size_of::<TryHashSet<u64>>() == 144);
    assert!(rt; size_of::<TryBox<u64>>() == 8);
    assert!(rt; size_of::<Budget<Global>>() == 16);
    assert!(rt; size_of::<SharedBudget<Global>>() == 16);
}

#[test]
fn within_a_budget(rt: HostRuntime) {
    assert!(rt; size_of::<BTreeMap<u64, u64, &Budget<Global>>>() == 80);
    assert!(rt; size_of::<BTreeSet<u64, &Budget<Global>>>() == 80);
    assert!(rt; size_of::<TryVec<u64, &Budget<Global>>>() == 32);
    assert!(rt; size_of::<TryHashMap<u64, u64, &Budget<Global>>>() == 192);
    assert!(rt; size_of::<TryHashSet<u64, &Budget<Global>>>() == 192);
    assert!(rt; size_of::<TryBox<u64, &Budget<Global>>>() == 16);
}
