//! Order and hashes of vectors, and walks that are copied.
use crate::calls::of;
use fc_base::TryReserveError;
use fc_vec::TryVec;
use std::alloc::Global;
use std::cmp::Ordering;
use std::hash::{DefaultHasher, Hash, Hasher};
use std::test::Fail;

fn is_less(one: &TryVec<u64>, other: &TryVec<u64>) -> bool {
    one.cmp(other) == Ordering::Less && other.cmp(one) == Ordering::Greater && *one < *other
}

fn are_less(alloc: Global, one: &[u64], other: &[u64]) -> Result<bool, TryReserveError> {
    let one = of(alloc, one)?;
    Ok(is_less(&one, &of(alloc, other)?))
}

fn are_equal(alloc: Global, one: &[u64], other: &[u64]) -> Result<bool, TryReserveError> {
    let one = of(alloc, one)?;
    Ok(one.cmp(&of(alloc, other)?) == Ordering::Equal)
}

// Each comes before the next.
const ASCENDING: [&[u64]; 4] = [&[], &[2], &[2, 0], &[3]];

// The first items that differ decide, and where there are none the shorter vector is less.
#[test]
fn vectors_are_ordered_by_their_items(rt: HostRuntime) -> Result<(), Fail> {
    for place in 0..3usize {
        assert!(rt; are_less(rt.alloc(), ASCENDING[place], ASCENDING[place + 1])?);
    }
    assert!(rt; are_equal(rt.alloc(), &[2, 0], &[2, 0])?);
    Ok(())
}

fn floats(alloc: Global, last: f64) -> Result<TryVec<f64>, TryReserveError> {
    let mut v = TryVec::new(alloc);
    v.push(0.5)?;
    v.push(last)?;
    Ok(v)
}

#[test]
fn an_item_that_equals_nothing_makes_vectors_unordered(rt: HostRuntime) -> Result<(), Fail> {
    let odd = floats(rt.alloc(), f64::NAN)?;
    let even = floats(rt.alloc(), 1.0)?;
    assert!(rt;
        odd.partial_cmp(&even).is_none() && even.partial_cmp(&even) == Some(Ordering::Equal)
    );
    Ok(())
}

fn hash_of<T: Hash>(value: &T) -> u64 {
    let mut hasher = DefaultHasher::new();
    value.hash(&mut hasher);
    hasher.finish()
}

// As of a slice, whose length is fed too: so a vector of vectors tells where one ends.
#[test]
fn a_vector_is_fed_as_its_slice(rt: HostRuntime) -> Result<(), Fail> {
    let three = of(rt.alloc(), &[1, 2, 3])?;
    assert!(rt; hash_of(&three) == hash_of(&three.as_slice()));
    assert!(rt; hash_of(&of(rt.alloc(), &[])?) != hash_of(&()));
    Ok(())
}

#[test]
fn a_copied_walk_goes_on_from_where_the_other_stands(rt: HostRuntime) -> Result<(), Fail> {
    let three = of(rt.alloc(), &[1, 2, 3])?;
    let mut walk = three.iter();
    let first = walk.next().copied();
    let mut other = walk.clone()?;
    let second = (other.next().copied(), walk.next_back().copied());
    assert!(rt; first == Some(1) && second == (Some(2), Some(3)));
    assert!(rt; walk.len() == 1 && other.len() == 1);
    Ok(())
}
