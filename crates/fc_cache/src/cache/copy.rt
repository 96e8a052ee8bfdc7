//! Copies of caches.
ghost use Rattle.std.specs.Prelude.{◌≡◌, true};

use super::Cache;
use fc_base::{Handle, TryClone, TryReserveError};
use std::hash::Hash;

/// A copy of a cache has a copy of each entry, in the same order of use and at the same cost, made by the `try_clone` of key and value,
/// and the same budget; it takes its memory where the cache does. Copies of keys have to be equal to them.
///
/// # Errors
/// `AllocError` where room for an entry was refused, or the error of a key or a value whose copy was, as it is; never where the cache is
/// empty. What was made by then is dropped.
impl<K: Eq + Hash + TryClone, V: TryClone, A: Handle> TryClone for Cache<K, V, A> {
    ghost use Rattle.fc_cache.specs.Copied.{AreCopies, MayRefuseEntries};

    ghost same = { λ source copy. AreCopies K.same V.same source.entries copy.entries × (copy.budget ≡ source.budget) };

    ghost can_clone = { K.can_clone × V.can_clone × ((a b : K) → K.same a b → K.eq a b ≡ true) };

    ghost may_refuse = { λ source. MayRefuseEntries K.may_refuse V.may_refuse source.entries };

    fn try_clone(&self) -> Result<Cache<K, V, A>, TryReserveError> {
        let recency = self.recency.try_copy()?;
        Ok(Cache {
            recency,
            used: self.used,
            budget: self.budget,
        })
    }
}
