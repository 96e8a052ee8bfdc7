//! Values that own memory: no clause says that one which is let go is given back, and the sweep sees each that is not.
use fc_base::TryReserveError;
use fc_cache::Cache;
use std::alloc::Global;
use std::test::Fail;
use test_values::Owned;

type Boxes = Cache<u64, Owned>;

// Puts a value in at a key, and answers how many entries there are then.
fn put(cache: &mut Boxes, alloc: Global, key: u64, cost: usize) -> Result<usize, TryReserveError> {
    let value = Owned::try_new(alloc, key)?;
    let _refused = cache.try_put(key, value, cost);
    Ok(cache.len())
}

// Three entries at most; then one is replaced, one costs too much, one costs all, and two are taken out of three.
fn seen(cache: &mut Boxes, alloc: Global) -> Result<[usize; 5], TryReserveError> {
    let mut seen = [0usize; 5];
    for key in 0..8u64 {
        seen[0] = put(cache, alloc, key, 1)?;
    }
    seen[1] = put(cache, alloc, 6, 1)?;
    seen[2] = put(cache, alloc, 9, 4)?;
    seen[3] = put(cache, alloc, 9, 3)?;
    for key in 0..3u64 {
        seen[4] = put(cache, alloc, key, 1)?;
    }
    let _first = cache.pop_oldest();
    let _last = cache.remove(&2);
    Ok(seen)
}

#[test]
fn what_is_evicted_replaced_or_taken_out_is_given_up(rt: HostRuntime) {
    let mut cache: Boxes = Cache::new(rt.alloc(), 3);
    let Ok(seen) = seen(&mut cache, rt.alloc()) else {
        return;
    };
    assert!(rt; seen == [3, 3, 3, 1, 3] && cache.len() == 1);
}

// What is handed over is the closure's to drop; a smaller budget and a clear drop the others.
#[test]
fn what_is_handed_over_or_cleared_is_given_up(rt: HostRuntime) {
    let alloc = rt.alloc();
    let mut cache: Boxes = Cache::new(alloc, 3);
    for key in 0..3u64 {
        if put(&mut cache, alloc, key, 1).is_err() {
            return;
        }
    }
    let Ok(value) = Owned::try_new(alloc, 1) else {
        return;
    };
    let mut handed = 0u64;
    match cache.try_put_with(1, value, 2, |_key, _value| handed = handed.wrapping_add(1)) {
        Ok(()) => assert!(rt; handed == 2 && cache.len() == 2 && cache.used() == 3),
        Err(_) => assert!(rt; handed == 0),
    }
    cache.set_budget(2);
    assert!(rt;
        cache.len() <= 2 && cache.used() <= 2 && cache.peek_oldest().is_some() != cache.is_empty()
    );
    cache.clear();
    assert!(rt; cache.is_empty() && cache.used() == 0 && !cache.contains_key(&1));
}

// Numbers, each put in with the cost 1 beside all before it.
#[test]
fn a_cache_holds_thousands_of_entries(rt: HostRuntime) {
    let mut cache = Cache::new(rt.alloc(), usize::MAX);
    for key in 0..5000u64 {
        if cache.try_put(key, key, 1).is_err() {
            assert!(rt; false);
            return;
        }
    }
    assert!(rt; cache.len() == 5000 && cache.used() == 5000);
}
