//! Copies of hashed maps by the `clone` of keys and values.
ghost use Rattle.std.specs.List.{AllZip};

use super::TryHashMap;
use fc_base::Handle;
use std::alloc::AllocError;
use std::hash::Hash;

/// A copy of each pair, made by the `clone` of key and value, in the same order: std's, and what `#[derive(Clone)]` on a struct with a map calls.
/// Not in upstream: there copies are `try_clone`'s alone.
///
/// # Errors
/// `AllocError` where a request was refused, or the `clone` of a key or value was, or where a key's clone is not equal to it.
impl<K: Eq + Hash + Clone, V: Clone, A: Handle> Clone for TryHashMap<K, V, A> {
    ghost is_clone = { λ source copy. AllZip (λ p q. K.is_clone p.0 q.0 × V.is_clone p.1 q.1) source.pairs copy.pairs };

    fn clone(&self) -> Result<TryHashMap<K, V, A>, AllocError> {
        let inner = self.inner.clone()?;
        Ok(TryHashMap {
            inner,
            alloc: self.alloc,
        })
    }
}
