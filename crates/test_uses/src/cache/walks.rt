//! Walks in the order of use, values written in place, and copies.
use fc_base::{TryClone, TryReserveError};
use fc_cache::Cache;
use std::alloc::{AllocError, Global};
use std::test::Fail;
use test_values::Owned;

type Numbers = Cache<u64, u64>;

// A cache of a budget of 10, in which 1, 2 and 3 were put at these costs, each with ten times itself.
fn of_three(alloc: Global) -> Result<Numbers, AllocError> {
    let mut cache = Cache::new(alloc, 10);
    for key in 1..4u64 {
        if cache
            .try_put(key, key.wrapping_mul(10), key as usize)
            .is_err()
        {
            return Err(AllocError);
        }
    }
    Ok(cache)
}

// Whether the cache has these keys and values, from the least to the most lately used, and nothing else.
fn has(cache: &Numbers, all: &[(u64, u64)]) -> bool {
    let mut walk = cache.iter();
    if walk.len() != all.len() || walk.size_hint() != (all.len(), Some(all.len())) {
        return false;
    }
    for entry in all {
        match walk.next() {
            Some((key, value)) if *key == entry.0 && *value == entry.1 => (),
            _ => return false,
        }
    }
    walk.next().is_none() && walk.next().is_none() && walk.len() == 0
}

#[test]
fn a_walk_goes_from_the_least_lately_used(rt: HostRuntime) -> Result<(), Fail> {
    let mut cache = of_three(rt.alloc())?;
    assert!(rt; has(&cache, &[(1, 10), (2, 20), (3, 30)]));
    assert!(rt; cache.get(&1).copied() == Some(10) && cache.peek(&2).is_some());
    assert!(rt; has(&cache, &[(2, 20), (3, 30), (1, 10)]));
    let mut sum = 0u64;
    for (key, value) in &cache {
        sum = sum
            .wrapping_mul(100)
            .wrapping_add(*key)
            .wrapping_add(*value);
    }
    assert!(rt; sum == 223_311);
    cache.clear();
    assert!(rt; has(&cache, &[]) && cache.is_empty());
    Ok(())
}

#[test]
fn a_walk_goes_from_both_ends(rt: HostRuntime) -> Result<(), Fail> {
    let cache = of_three(rt.alloc())?;
    let mut walk = cache.iter();
    assert!(rt; walk.next_back() == Some((&3, &30)) && walk.len() == 2);
    let mut second = walk.clone()?;
    assert!(rt; walk.next() == Some((&1, &10)) && walk.next_back() == Some((&2, &20)));
    assert!(rt; walk.next().is_none() && walk.next_back().is_none() && walk.len() == 0);
    assert!(rt; second.next() == Some((&1, &10)) && second.len() == 1);
    Ok(())
}

#[test]
fn a_cache_without_entries_has_an_empty_walk(rt: HostRuntime) -> Result<(), Fail> {
    let cache: Numbers = Cache::new(rt.alloc(), 3);
    let mut walk = cache.iter();
    let mut second = walk.clone()?;
    assert!(rt; walk.next().is_none() && walk.next_back().is_none() && walk.len() == 0);
    assert!(rt; second.next_back().is_none() && has(&cache, &[]));
    let text = format!(in rt.alloc(); "{cache:?}")?;
    assert!(rt; text.as_str() == "{}");
    Ok(())
}

#[test]
fn shows_its_entries_in_the_order_of_use(rt: HostRuntime) -> Result<(), Fail> {
    let mut cache = of_three(rt.alloc())?;
    assert!(rt; cache.get(&2).is_some());
    let text = format!(in rt.alloc(); "{cache:?}")?;
    assert!(rt; text.as_str() == "{1: 10, 3: 30, 2: 20}");
    Ok(())
}

// Writes a value at a key, by a use or by none.
fn write(cache: &mut Numbers, key: u64, value: u64, is_use: bool) -> bool {
    let lent = if is_use {
        cache.get_mut(&key)
    } else {
        cache.peek_mut(&key)
    };
    match lent {
        Some(place) => {
            *place = value;
            true
        }
        None => false,
    }
}

#[test]
fn values_are_written_in_place(rt: HostRuntime) -> Result<(), Fail> {
    let mut cache = of_three(rt.alloc())?;
    assert!(rt; write(&mut cache, 1, 11, true) && !write(&mut cache, 7, 70, true));
    assert!(rt; has(&cache, &[(2, 20), (3, 30), (1, 11)]));
    assert!(rt; write(&mut cache, 2, 21, false) && !write(&mut cache, 7, 70, false));
    assert!(rt; has(&cache, &[(2, 21), (3, 30), (1, 11)]));
    assert!(rt; cache.cost_of(&1) == Some(1) && cache.cost_of(&2) == Some(2) && cache.used() == 6);
    assert!(rt; cache.pop_oldest() == Some((2, 21)) && cache.used() == 4);
    let mut none: Numbers = Cache::new(rt.alloc(), 3);
    assert!(rt; !write(&mut none, 1, 10, true) && !write(&mut none, 1, 10, false));
    Ok(())
}

#[test]
fn a_copy_is_used_and_changed_alone(rt: HostRuntime) -> Result<(), Fail> {
    let mut cache = of_three(rt.alloc())?;
    assert!(rt; cache.get(&1).is_some());
    let Ok(mut copy) = cache.try_clone() else {
        return Ok(());
    };
    assert!(rt; has(&copy, &[(2, 20), (3, 30), (1, 10)]) && copy.budget() == 10);
    assert!(rt; copy.used() == 6 && copy.cost_of(&3) == Some(3));
    assert!(rt; copy.remove(&3) == Some(30) && write(&mut copy, 2, 21, true));
    assert!(rt; has(&copy, &[(1, 10), (2, 21)]) && has(&cache, &[(2, 20), (3, 30), (1, 10)]));
    let none: Numbers = Cache::new(rt.alloc(), 3);
    let Ok(empty) = none.try_clone() else {
        assert!(rt; false);
        return Ok(());
    };
    assert!(rt; has(&empty, &[]) && empty.budget() == 3 && empty.used() == 0);
    Ok(())
}

fn of_owned(alloc: Global) -> Result<Cache<u64, Owned>, TryReserveError> {
    let mut cache = Cache::new(alloc, 3);
    for key in 0..3u64 {
        let value = Owned::try_new(alloc, key)?;
        if cache.try_put(key, value, 1).is_err() {
            return Err(TryReserveError::AllocError);
        }
    }
    Ok(cache)
}

// The sweep refuses each request in turn: what was copied by then is given up, and the cache stays.
#[test]
fn a_refused_copy_leaves_the_cache(rt: HostRuntime) {
    let Ok(mut cache) = of_owned(rt.alloc()) else {
        return;
    };
    match cache.try_clone() {
        Ok(mut copy) => {
            if let Some(value) = copy.get_mut(&0) {
                value.number = 9;
            }
            let is_written = copy.peek(&0).map(|value| value.number) == Some(9);
            let is_as_before = cache.peek(&0).map(|value| value.number) == Some(0);
            assert!(rt; is_written && is_as_before && copy.len() == 3);
        }
        Err(error) => assert!(rt; error == TryReserveError::AllocError),
    }
    let oldest = cache.pop_oldest().map(|entry| entry.1.number);
    assert!(rt; oldest == Some(0) && cache.len() == 2);
}
