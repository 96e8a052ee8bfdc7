//! Examples of the cache, as the pages show them.
use fc_budget::Budget;
use fc_cache::{Cache, PutError};
use std::alloc::Global;
use std::mem::size_of;
use std::test::Fail;

#[test]
fn entries(rt: HostRuntime) -> Result<(), Fail> {
    let alloc = rt.alloc();
    // example: Cache::new, Cache::try_put, Cache::get, Cache::peek, Cache::len, Cache::is_empty
    let mut cache = Cache::new(alloc, 2); // at most two entries that cost 1 each
    cache.try_put(1u64, 'a', 1)?;
    cache.try_put(2, 'b', 1)?;
    assert_eq!(rt; cache.get(&1), Some(&'a')); // is used last now
    cache.try_put(3, 'c', 1)?;
    assert_eq!(rt; (cache.peek(&2), cache.peek(&1).is_some()), (None, true));
    assert_eq!(rt; (cache.len(), cache.is_empty()), (2, false));
    // end
    Ok(())
}

#[test]
fn costs(rt: HostRuntime) -> Result<(), Fail> {
    let alloc = rt.alloc();
    // example: Cache::used, Cache::budget, Cache::remove, Cache::pop_oldest
    let mut cache = Cache::new(alloc, 100); // bytes, say
    cache.try_put('a', 1u64, 60)?;
    cache.try_put('b', 2, 30)?;
    assert_eq!(rt; (cache.used(), cache.budget()), (90, 100));
    let refused = cache.try_put('c', 3, 101);
    assert_eq!(rt; refused, Err(('c', 3, PutError::OverBudget)));
    assert_eq!(rt; cache.remove(&'b'), Some(2));
    assert_eq!(rt; cache.pop_oldest(), Some(('a', 1)));
    // end
    Ok(())
}

#[test]
fn texts(rt: HostRuntime) -> Result<(), Fail> {
    let alloc = rt.alloc();
    // example: Cache::contains_key, Cache::cost_of, Cache::peek_oldest, Cache::set_budget, Cache::clear
    let mut cache = Cache::new(alloc, 10);
    cache.try_put(String::from_str(alloc, "a")?, 1u64, 6)?;
    cache.try_put(String::from_str(alloc, "b")?, 2, 4)?;
    assert_eq!(rt; cache.cost_of("b"), Some(4));
    cache.set_budget(5); // drops the entry of "a"
    assert!(rt; !cache.contains_key("a") && cache.peek_oldest().is_some());
    cache.clear();
    // end
    Ok(())
}

#[test]
fn handed_over(rt: HostRuntime) -> Result<(), Fail> {
    let alloc = rt.alloc();
    // example: Cache::try_put_with
    let mut cache = Cache::new(alloc, 2);
    cache.try_put('a', 1u64, 1)?;
    cache.try_put('b', 2, 1)?;
    let mut evicted = None;
    cache.try_put_with('c', 3, 1, |key, value| evicted = Some((key, value)))?;
    assert_eq!(rt; evicted, Some(('a', 1)));
    // end
    Ok(())
}

#[test]
fn in_the_order_of_use(rt: HostRuntime) -> Result<(), Fail> {
    let alloc = rt.alloc();
    // example: Cache::iter
    let mut cache = Cache::new(alloc, 2);
    cache.try_put('a', 1u64, 1)?;
    cache.try_put('b', 2, 1)?;
    assert_eq!(rt; cache.get(&'a'), Some(&1)); // is used last now
    let mut walk = cache.iter(); // from the least to the most lately used
    assert_eq!(rt; walk.next(), Some((&'b', &2)));
    assert_eq!(rt; walk.next_back(), Some((&'a', &1)));
    // end
    Ok(())
}

#[test]
fn written_in_place(rt: HostRuntime) -> Result<(), Fail> {
    let alloc = rt.alloc();
    // example: Cache::get_mut, Cache::peek_mut
    let mut cache = Cache::new(alloc, 2);
    cache.try_put('a', 1u64, 1)?;
    if let Some(value) = cache.get_mut(&'a') {
        *value = 10; // is used last now, as by `get`; `peek_mut` is no use
    }
    assert!(rt; cache.peek_mut(&'b').is_none());
    assert_eq!(rt; cache.peek(&'a'), Some(&10));
    // end
    Ok(())
}

#[test]
fn bytes(rt: HostRuntime) {
    assert_eq!(rt; size_of::<Cache<u64, u64>>(), 192);
    assert_eq!(rt; size_of::<Cache<u64, u64, &Budget<Global>>>(), 248);
}
