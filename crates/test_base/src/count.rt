//! Counts and the comparisons that are counted.
use fc_base::{Count, compare};
use std::cmp::Ordering;
use std::mem::size_of;

#[test]
fn takes_no_bytes(rt: HostRuntime) {
    assert!(rt; size_of::<Count>() == 0);
}

#[test]
fn compares_by_the_keys_order(rt: HostRuntime) {
    let mut count = Count::new();
    assert!(rt; matches!(compare(&1u64, &2u64, &mut count), Ordering::Less));
    assert!(rt; matches!(compare(&2u64, &2u64, &mut count), Ordering::Equal));
    assert!(rt; matches!(compare(&3u64, &2u64, &mut count), Ordering::Greater));
}
