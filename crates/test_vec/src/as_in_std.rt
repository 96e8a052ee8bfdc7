//! Calls that a `TryVec` has as std's vector and slice have them.
use crate::calls::{holds, is_overflow, of};
use fc_base::TryReserveError;
use fc_vec::TryVec;
use std::alloc::Global;
use std::cmp::Ordering;
use std::hash::{DefaultHasher, Hash, Hasher};
use std::mem::try_take;
use std::test::Fail;

fn place(v: &TryVec<u64>, item: u64) -> Result<usize, usize> {
    v.binary_search(&item)
}

fn place_by(v: &TryVec<u64>, item: u64) -> Result<usize, usize> {
    v.binary_search_by(|other| other.cmp(&item))
}

// Sought by the tens.
fn place_by_key(v: &TryVec<u64>, tens: u64) -> Result<usize, usize> {
    v.binary_search_by_key(&tens, |item| *item / 10)
}

fn first_not_below(v: &TryVec<u64>, limit: u64) -> usize {
    v.partition_point(|item| *item < limit)
}

#[test]
fn items_are_found_in_order(rt: HostRuntime) -> Result<(), Fail> {
    let v = of(rt.alloc(), &[12, 25, 31, 48])?;
    assert!(rt; place(&v, 25) == Ok(1) && place(&v, 30) == Err(2) && place(&v, 49) == Err(4));
    assert!(rt; place_by(&v, 48) == Ok(3) && place_by(&v, 2) == Err(0));
    assert!(rt; place_by_key(&v, 3) == Ok(2) && place_by_key(&v, 5) == Err(4));
    assert!(rt;
        first_not_below(&v, 31) == 2 && first_not_below(&v, 1) == 0 && first_not_below(&v, 99) == 4
    );
    Ok(())
}

// The first number of a pair is its key, and the second one its place before.
fn pairs(alloc: Global) -> Result<TryVec<(u64, u64)>, TryReserveError> {
    let mut v = TryVec::new(alloc);
    for place in 0..24u64 {
        v.push((place % 3, place))?;
    }
    Ok(v)
}

// Whether the pairs ascend by key, and those of one key by their places before.
fn are_in_order(v: &TryVec<(u64, u64)>, descending: bool) -> bool {
    for pair in v.windows(2) {
        let (first, second) = (pair[0], pair[1]);
        let is_before = if descending {
            second.0 < first.0
        } else {
            first.0 < second.0
        };
        if !is_before && !(first.0 == second.0 && first.1 < second.1) {
            return false;
        }
    }
    v.len() == 24
}

fn sort_by_key(v: &mut TryVec<(u64, u64)>) -> Result<(), TryReserveError> {
    v.sort_by_key(|pair| pair.0)
}

fn sort_by_falling_key(v: &mut TryVec<(u64, u64)>) -> Result<(), TryReserveError> {
    v.sort_by(|first, second| second.0.cmp(&first.0))
}

fn sort(v: &mut TryVec<u64>) -> Result<(), TryReserveError> {
    v.sort()
}

fn sort_by_tens(v: &mut TryVec<u64>) {
    v.sort_unstable_by_key(|item| *item / 10);
}

fn are_sorted(alloc: Global) -> Result<bool, TryReserveError> {
    let mut few = of(alloc, &[5, 3, 5, 4])?;
    sort(&mut few)?;
    Ok(holds(&few, &[3, 4, 5, 5]))
}

fn are_sorted_by_tens(alloc: Global) -> Result<bool, TryReserveError> {
    let mut tens = of(alloc, &[39, 11, 27])?;
    sort_by_tens(&mut tens);
    Ok(holds(&tens, &[11, 27, 39]))
}

#[test]
fn equal_items_keep_their_order(rt: HostRuntime) -> Result<(), Fail> {
    let mut v = pairs(rt.alloc())?;
    sort_by_key(&mut v)?;
    assert!(rt; are_in_order(&v, false));
    sort_by_falling_key(&mut v)?;
    assert!(rt; are_in_order(&v, true));
    assert!(rt; are_sorted(rt.alloc())?);
    assert!(rt; are_sorted_by_tens(rt.alloc())?);
    Ok(())
}

fn swap(v: &mut TryVec<u64>, first: usize, second: usize) {
    if first < v.len() && second < v.len() {
        v.swap(first, second);
    }
}

fn rotate(v: &mut TryVec<u64>, left: usize, right: usize) {
    if left <= v.len() && right <= v.len() {
        v.rotate_left(left);
        v.rotate_right(right);
    }
}

#[test]
fn items_change_places(rt: HostRuntime) -> Result<(), Fail> {
    let mut v = of(rt.alloc(), &[1, 2, 3, 4, 5])?;
    swap(&mut v, 0, 3);
    assert!(rt; holds(&v, &[4, 2, 3, 1, 5]));
    v.reverse();
    assert!(rt; holds(&v, &[5, 1, 3, 2, 4]));
    rotate(&mut v, 2, 0);
    assert!(rt; holds(&v, &[3, 2, 4, 5, 1]));
    rotate(&mut v, 0, 1);
    assert!(rt; holds(&v, &[1, 3, 2, 4, 5]));
    v.fill(7);
    assert!(rt; holds(&v, &[7, 7, 7, 7, 7]));
    Ok(())
}

// The sum of the items from `start` up to `end`; 0 where that is no stretch of the items.
fn sum_between(v: &TryVec<u64>, start: usize, end: usize) -> u64 {
    if start > end || end > v.len() {
        return 0;
    }
    sum(&v[start..end])
}

fn sum(items: &[u64]) -> u64 {
    let mut sum: u64 = 0;
    for item in items {
        sum = sum.wrapping_add(*item);
    }
    sum
}

fn double(items: &mut [u64]) {
    for item in items.iter_mut() {
        *item = item.wrapping_mul(2);
    }
}

fn double_from(v: &mut TryVec<u64>, start: usize) {
    if start <= v.len() {
        double(&mut v[start..]);
    }
}

fn digits_from_the_back(v: &TryVec<u64>) -> u64 {
    let mut number: u64 = 0;
    for item in v.iter().rev() {
        number = number.wrapping_mul(10).wrapping_add(*item);
    }
    number
}

fn sums_of_pairs(v: &TryVec<u64>) -> u64 {
    let mut number: u64 = 0;
    for pair in v.chunks(2) {
        number = number.wrapping_mul(10).wrapping_add(sum(pair));
    }
    number
}

#[test]
fn a_vector_is_a_slice(rt: HostRuntime) -> Result<(), Fail> {
    let mut v = of(rt.alloc(), &[1, 2, 3, 4, 5])?;
    assert!(rt; sum_between(&v, 1, 3) == 5 && sum_between(&v, 0, 5) == 15 && sum(&v) == 15);
    assert!(rt; digits_from_the_back(&v) == 54321 && sums_of_pairs(&v) == 375);
    double_from(&mut v, 3);
    assert!(rt; holds(&v, &[1, 2, 3, 8, 10]));
    double(&mut v);
    assert!(rt; holds(&v, &[2, 4, 6, 16, 20]));
    Ok(())
}

fn double_or_drop(v: &mut TryVec<u64>) {
    v.retain_mut(|item| {
        *item = item.wrapping_mul(2);
        *item != 4
    });
}

fn one_of_each_ten(v: &mut TryVec<u64>) {
    v.dedup_by_key(|item| *item / 10);
}

fn one_of_each_half(v: &mut TryVec<u64>) {
    v.dedup_by(|later, kept| *later / 20 == *kept / 20);
}

fn popped_if_below(v: &mut TryVec<u64>, limit: u64) -> Option<u64> {
    v.pop_if(|item| *item < limit)
}

fn only_one_is_kept(alloc: Global) -> Result<(bool, bool), TryReserveError> {
    let mut many = of(alloc, &[11, 12, 25, 13, 14, 31])?;
    one_of_each_ten(&mut many);
    let by_tens = holds(&many, &[11, 25, 13, 31]);
    one_of_each_half(&mut many);
    Ok((by_tens, holds(&many, &[11, 25, 13, 31])))
}

#[test]
fn closures_write_and_drop(rt: HostRuntime) -> Result<(), Fail> {
    let mut v = of(rt.alloc(), &[1, 2, 3])?;
    double_or_drop(&mut v);
    assert!(rt; holds(&v, &[2, 6]));
    assert!(rt; popped_if_below(&mut v, 6).is_none() && popped_if_below(&mut v, 7) == Some(6));
    assert!(rt; holds(&v, &[2]));
    let (by_tens, by_halves) = only_one_is_kept(rt.alloc())?;
    assert!(rt; by_tens);
    assert!(rt; by_halves);
    Ok(())
}

// The items from the place on, and those that stay.
fn split(v: &mut TryVec<u64>, at: usize) -> Result<TryVec<u64>, TryReserveError> {
    v.split_off(at.min(v.len()))
}

// Whether these go, and how much room is with them.
fn given_by_split(
    v: &mut TryVec<u64>,
    at: usize,
    wanted: &[u64],
) -> Result<(bool, usize), TryReserveError> {
    let rest = split(v, at)?;
    Ok((holds(&rest, wanted), rest.capacity()))
}

#[test]
fn a_vector_is_parted(rt: HostRuntime) -> Result<(), Fail> {
    let mut v = of(rt.alloc(), &[1, 2, 3, 4, 5])?;
    let (is_rest, _room) = given_by_split(&mut v, 3, &[4, 5])?;
    assert!(rt; holds(&v, &[1, 2, 3]) && is_rest && v.capacity() == 5);
    let (is_nothing, room) = given_by_split(&mut v, 9, &[])?;
    assert!(rt; holds(&v, &[1, 2, 3]) && is_nothing && room == 0);
    v.shrink_to_fit();
    assert!(rt; holds(&v, &[1, 2, 3]) && v.capacity() == 3);
    let (is_all, _room) = given_by_split(&mut v, 0, &[1, 2, 3])?;
    assert!(rt; v.is_empty() && v.capacity() == 3 && is_all);
    v.shrink_to_fit();
    assert!(rt; v.capacity() == 0);
    Ok(())
}

#[derive(Clone, Drop)]
struct Named {
    name: u64,
    items: TryVec<u64>,
}

fn cloned(source: &Named) -> Result<Named, TryReserveError> {
    Ok(source.clone()?)
}

fn handed_over(v: TryVec<u64>) -> TryVec<u64> {
    let inner: Vec<u64> = v.into();
    TryVec::from(inner)
}

#[test]
fn a_vector_is_cloned_and_handed_over(rt: HostRuntime) -> Result<(), Fail> {
    let source = Named {
        name: 7,
        items: of(rt.alloc(), &[3, 4])?,
    };
    let clone = cloned(&source)?;
    assert!(rt; clone.name == 7 && holds(&clone.items, &[3, 4]) && holds(&source.items, &[3, 4]));
    let again = handed_over(clone.items);
    assert!(rt; holds(&again, &[3, 4]) && again.capacity() == 2);
    Ok(())
}

fn extended(v: &mut TryVec<u64>, start: u64, end: u64) -> Result<(), TryReserveError> {
    v.extend(start..end)
}

fn resized(v: &mut TryVec<u64>, length: usize, item: u64) -> Result<(), TryReserveError> {
    v.resize(length, item)
}

fn exactly(v: &mut TryVec<u64>, more: usize) -> Result<(), TryReserveError> {
    v.reserve_exact(more)
}

fn add_one_to_each(v: &mut TryVec<u64>) {
    for item in &mut *v {
        *item = item.wrapping_add(1);
    }
}

fn taken(v: &mut TryVec<u64>) -> Result<TryVec<u64>, TryReserveError> {
    Ok(try_take(v)?)
}

#[test]
fn a_vector_grows_as_in_std(rt: HostRuntime) -> Result<(), Fail> {
    let mut v = of(rt.alloc(), &[7])?;
    exactly(&mut v, 3)?;
    assert!(rt; v.capacity() == 4 && holds(&v, &[7]));
    extended(&mut v, 1, 4)?;
    assert!(rt; v.capacity() == 4 && holds(&v, &[7, 1, 2, 3]));
    resized(&mut v, 6, 9)?;
    assert!(rt; holds(&v, &[7, 1, 2, 3, 9, 9]));
    resized(&mut v, 2, 9)?;
    add_one_to_each(&mut v);
    assert!(rt; holds(&v, &[8, 2]));
    assert!(rt; is_overflow(&exactly(&mut v, usize::MAX)) && holds(&v, &[8, 2]));
    let all = taken(&mut v)?;
    assert!(rt; holds(&all, &[8, 2]) && v.is_empty() && v.capacity() == 0);
    Ok(())
}

#[derive(PartialEq, Eq, PartialOrd, Ord, Drop)]
struct Route {
    steps: TryVec<u64>,
}

fn route_of(alloc: Global, steps: &[u64]) -> Result<Route, TryReserveError> {
    Ok(Route {
        steps: TryVec::try_from_slice(alloc, steps)?,
    })
}

fn ordered(first: &Route, second: &Route) -> Ordering {
    first.cmp(second)
}

fn hash_of<T: Hash>(value: &T) -> u64 {
    let mut hasher = DefaultHasher::new();
    value.hash(&mut hasher);
    hasher.finish()
}

fn is_less_than_longer(alloc: Global, short: &Route) -> Result<bool, TryReserveError> {
    let long = route_of(alloc, &[3, 4, 0])?;
    Ok(ordered(short, &long).is_lt() && *short < long)
}

fn is_greater_than_longer(alloc: Global, later: &Route) -> Result<bool, TryReserveError> {
    let long = route_of(alloc, &[3, 4, 0])?;
    Ok(ordered(later, &long).is_gt())
}

fn is_apart_from_later(alloc: Global, short: &Route) -> Result<bool, TryReserveError> {
    let later = route_of(alloc, &[3, 5])?;
    let is_other = *short != later && hash_of(&short.steps) != hash_of(&later.steps);
    Ok(is_greater_than_longer(alloc, &later)? && is_other)
}

fn is_hashed_as_in_std(alloc: Global, short: &Route) -> Result<bool, TryReserveError> {
    let same: Vec<u64> = Vec::from_slice(alloc, &[3, 4])?;
    Ok(hash_of(&short.steps) == hash_of(&same))
}

#[test]
fn vectors_are_in_order(rt: HostRuntime) -> Result<(), Fail> {
    let short = route_of(rt.alloc(), &[3, 4])?;
    assert!(rt; ordered(&short, &short).is_eq());
    assert!(rt; is_less_than_longer(rt.alloc(), &short)?);
    assert!(rt; is_apart_from_later(rt.alloc(), &short)?);
    assert!(rt; is_hashed_as_in_std(rt.alloc(), &short)?);
    Ok(())
}
