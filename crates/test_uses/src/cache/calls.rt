//! Each call, at entries that are counted, and at some that cost their bytes.
use fc_cache::{Cache, PutError};
use std::alloc::{AllocError, Global};
use std::test::Fail;

// A cache of at most three entries, in which 1, 2 and 3 were put, each with ten times itself.
fn of_three(alloc: Global) -> Result<Cache<u64, u64>, AllocError> {
    let mut cache = Cache::new(alloc, 3);
    for key in 1..4u64 {
        if cache.try_put(key, key.wrapping_mul(10), 1).is_err() {
            return Err(AllocError);
        }
    }
    Ok(cache)
}

#[test]
fn the_least_lately_used_is_evicted(rt: HostRuntime) -> Result<(), Fail> {
    let mut cache = of_three(rt.alloc())?;
    assert!(rt; cache.len() == 3 && cache.used() == 3 && cache.budget() == 3 && !cache.is_empty());
    assert!(rt; cache.get(&1).copied() == Some(10) && cache.get(&7).is_none());
    assert!(rt; cache.try_put(4, 40, 1).is_ok());
    assert!(rt; cache.peek(&2).is_none() && cache.peek(&1).is_some() && cache.len() == 3);
    Ok(())
}

#[test]
fn a_peek_is_no_use(rt: HostRuntime) -> Result<(), Fail> {
    let mut cache = of_three(rt.alloc())?;
    assert!(rt; cache.peek(&1).copied() == Some(10));
    assert!(rt; cache.pop_oldest() == Some((1, 10)));
    assert!(rt; cache.pop_oldest() == Some((2, 20)));
    assert!(rt; cache.pop_oldest() == Some((3, 30)));
    assert!(rt; cache.pop_oldest().is_none() && cache.is_empty() && cache.used() == 0);
    Ok(())
}

#[test]
fn a_put_at_a_key_that_is_there_counts_it_once(rt: HostRuntime) -> Result<(), Fail> {
    let mut cache = of_three(rt.alloc())?;
    assert!(rt; cache.try_put(1, 11, 1).is_ok() && cache.len() == 3 && cache.used() == 3);
    assert!(rt; cache.pop_oldest() == Some((2, 20)));
    assert!(rt; cache.remove(&1) == Some(11) && cache.remove(&1).is_none());
    assert!(rt; cache.used() == 1 && cache.pop_oldest() == Some((3, 30)));
    Ok(())
}

#[test]
fn owned_texts_are_looked_up_by_texts(rt: HostRuntime) -> Result<(), Fail> {
    let mut cache = Cache::new(rt.alloc(), 3);
    assert!(rt;
        cache
            .try_put(String::from_str(rt.alloc(), "one")?, 1u64, 1)
            .is_ok()
    );
    let text = String::from_str(rt.alloc(), "one")?;
    let mut is_handed_over = false;
    let put = cache.try_put_with(text, 11, 2, |key, old| {
        is_handed_over = key.as_str() == "one" && old == 1;
    });
    assert!(rt; put.is_ok() && is_handed_over);
    assert!(rt; cache.get("one").copied() == Some(11) && cache.cost_of("one") == Some(2));
    assert!(rt; cache.contains_key("one") && !cache.contains_key("two"));
    assert!(rt; cache.remove("one") == Some(11) && cache.remove("one").is_none());
    Ok(())
}

#[test]
fn what_a_put_takes_out_is_handed_over_in_turn(rt: HostRuntime) -> Result<(), Fail> {
    let mut cache = of_three(rt.alloc())?;
    let mut handed = 0u64;
    let put = cache.try_put_with(2, 21, 3, |key, value| {
        handed = handed
            .wrapping_mul(1000)
            .wrapping_add(key.wrapping_mul(100))
            .wrapping_add(value);
    });
    assert!(rt; put.is_ok() && handed == 220_110_330);
    assert!(rt; cache.len() == 1 && cache.used() == 3 && cache.peek(&2).copied() == Some(21));
    let mut is_called = false;
    let refused = cache.try_put_with(5, 50, 4, |_key, _value| is_called = true);
    assert!(rt; refused == Err((5, 50, PutError::OverBudget)) && !is_called && cache.len() == 1);
    Ok(())
}

#[test]
fn the_oldest_is_shown(rt: HostRuntime) -> Result<(), Fail> {
    let mut cache = of_three(rt.alloc())?;
    assert!(rt; cache.peek_oldest() == Some((&1, &10)) && cache.get(&1).is_some());
    assert!(rt; cache.peek_oldest() == Some((&2, &20)) && cache.len() == 3);
    cache.clear();
    assert!(rt; cache.peek_oldest().is_none() && cache.is_empty() && cache.used() == 0);
    assert!(rt; cache.try_put(4, 40, 3).is_ok() && cache.peek_oldest() == Some((&4, &40)));
    Ok(())
}

#[test]
fn another_budget_evicts_as_many_as_it_takes(rt: HostRuntime) -> Result<(), Fail> {
    let mut cache = of_three(rt.alloc())?;
    cache.set_budget(5);
    assert!(rt; cache.budget() == 5 && cache.len() == 3);
    cache.set_budget(2);
    assert!(rt; cache.len() == 2 && cache.used() == 2 && !cache.contains_key(&1));
    cache.set_budget(0);
    assert!(rt; cache.is_empty() && cache.budget() == 0 && cache.cost_of(&3).is_none());
    Ok(())
}

#[test]
fn costs_are_bytes(rt: HostRuntime) -> Result<(), Fail> {
    let mut cache = Cache::new(rt.alloc(), 100);
    assert!(rt; cache.try_put('a', 1u8, 60).is_ok() && cache.try_put('b', 2, 30).is_ok());
    assert!(rt; cache.try_put('c', 3, 10).is_ok() && cache.used() == 100 && cache.len() == 3);
    // Ten more fit once the first is gone, and all of the budget once all are.
    assert!(rt;
        cache.try_put('d', 4, 10).is_ok() && cache.used() == 50 && cache.peek(&'a').is_none()
    );
    assert!(rt; cache.try_put('e', 5, 0).is_ok() && cache.len() == 4);
    assert!(rt; cache.try_put('f', 6, 100).is_ok() && cache.used() == 100);
    // What costs nothing stays as long as what stands after it.
    assert!(rt; cache.peek(&'e').is_some() && cache.len() == 2);
    Ok(())
}

#[test]
fn a_cost_above_the_budget_is_refused(rt: HostRuntime) -> Result<(), Fail> {
    let mut cache = of_three(rt.alloc())?;
    assert!(rt; cache.try_put(1, 70, 4) == Err((1, 70, PutError::OverBudget)));
    assert!(rt; cache.len() == 3 && cache.used() == 3 && cache.peek(&1).copied() == Some(10));
    assert!(rt; cache.pop_oldest() == Some((1, 10)));
    Ok(())
}
