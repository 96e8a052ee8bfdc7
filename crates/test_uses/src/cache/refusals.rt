//! A refused request leaves the cache as it was, and key and value come back.
use fc_budget::Budget;
use fc_cache::{Cache, PutError, TryReserveError};
use std::alloc::Global;
use std::test::Fail;

type Numbers<'b> = Cache<u64, u64, &'b Budget<Global>>;

// Puts numbers in until one is refused, which comes back, and answers how many there are.
fn fill(cache: &mut Numbers<'_>) -> Option<u64> {
    for key in 0..1000u64 {
        match cache.try_put(key, key.wrapping_mul(10), 1) {
            Ok(()) => (),
            Err((back, value, error)) => {
                let is_refused = error == PutError::Refused(TryReserveError::AllocError);
                if is_refused && back == key && value == key.wrapping_mul(10) {
                    return Some(key);
                }
                return None;
            }
        }
    }
    None
}

#[test]
fn a_refused_put_evicts_nothing(rt: HostRuntime) -> Result<(), Fail> {
    let memory = Budget::new(rt.alloc(), 2000);
    let mut cache: Numbers = Cache::new(&memory, usize::MAX);
    let Some(count) = fill(&mut cache) else {
        assert!(rt; false);
        return Ok(());
    };
    assert!(rt; 0 < count && cache.len() as u64 == count && cache.used() as u64 == count);
    // Uses and removals take no memory.
    assert!(rt; cache.get(&0).copied() == Some(0));
    assert!(rt; cache.pop_oldest() == Some((1, 10)));
    assert!(rt; cache.remove(&0) == Some(0) && cache.len() as u64 == count.wrapping_sub(2));
    drop(cache);
    assert!(rt; memory.used() == 0);
    Ok(())
}

// The sweep refuses each request in turn.
#[test]
fn a_refused_request_leaves_the_cache(rt: HostRuntime) -> Result<(), Fail> {
    let mut cache = Cache::new(rt.alloc(), 2);
    for key in 0..40u64 {
        match cache.try_put(key, key, 1) {
            Ok(()) => assert!(rt; cache.peek(&key).copied() == Some(key)),
            Err((back, _value, _error)) => {
                assert!(rt; back == key && cache.peek(&key).is_none());
                if 0 < key {
                    assert!(rt; cache.peek(&key.wrapping_sub(1)).is_some());
                }
                return Ok(());
            }
        }
    }
    assert!(rt; cache.len() == 2);
    Ok(())
}
