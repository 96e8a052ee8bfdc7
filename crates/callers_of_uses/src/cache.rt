//! Callers of a cache.
ghost use Rattle.std.specs.Prelude.{◌≡◌, OnErr, IfOk, Some};

use fc_base::{TryClone, TryReserveError};
use fc_cache::{Cache, PutError};

/// Puts a value in and looks its key up: it is there, whatever was evicted for it. Where it was not put in, the cache is as it was.
pub fn put_then_peek(
    cache: &mut Cache<u64, u64>,
    key: u64,
    value: u64,
    cost: usize,
) -> Result<Option<u64>, PutError>
    ensures there { IfOk result (λ found. found ≡ Some value) }
    ensures unchanged { OnErr result (cache.new ≡ cache.old) }
{
    match cache.try_put(key, value, cost) {
        Ok(()) => Ok(cache.peek(&key).copied()),
        Err((_key, _value, error)) => Err(error),
    }
}

/// Looks a key up, which is a use, and once more: what is there is the same.
pub fn get_then_peek(cache: &mut Cache<u64, u64>, key: u64) -> (Option<u64>, Option<u64>)
    ensures { result.1 ≡ result.0 }
{
    let first = cache.get(&key).copied();
    (first, cache.peek(&key).copied())
}

/// Copies a cache of numbers: the copy is the cache.
pub fn copied(cache: &Cache<u64, u64>) -> Result<Cache<u64, u64>, TryReserveError>
    ensures { IfOk result (λ copy. copy ≡ cache.now) }
{
    cache.try_clone()
}
