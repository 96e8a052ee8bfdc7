//! Callers whose contracts follow from those of the cache.
ghost use Rattle.std.specs.Prelude.{◌≡◌, ◌<◌, [], length, IsOk, OnOk, None, Some, option_map};
ghost use Rattle.std.specs.Map.{lookup};
ghost use Rattle.fc_cache.specs.Entries.{used_last};

use fc_cache::{Cache, PutError};

/// The value at a key, which is then the most lately used.
pub fn look_up(cache: &mut Cache<u64, u64>, key: u64) -> Option<u64>
    ensures value { result ≡ option_map (λ h. h.value) (lookup (⟦<u64 as PartialEq>⟧.eq key) cache.old.entries) }
    ensures used { cache.new ≡ record { entries = used_last (⟦<u64 as PartialEq>⟧.eq key) cache.old.entries; budget = cache.old.budget } }
{
    cache.get(&key).copied()
}

/// Puts a value in at the cost of the whole budget, beside which nothing else stays that costs something.
pub fn put_alone(
    cache: &mut Cache<u64, u64>,
    key: u64,
    value: u64,
) -> Result<(), (u64, u64, PutError)>
    ensures budget { OnOk result (cache.new.budget ≡ cache.old.budget) }
{
    let budget = cache.budget();
    cache.try_put(key, value, budget)
}
