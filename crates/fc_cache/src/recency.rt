//! Entries in the order of their last use, in the toolchain's `LruCache`, which is made for the first of them.
ghost use Rattle.std.specs.Prelude.{◌≡◌, ◌^◌, ◌<◌, [], ◌∷◌, ◌++◌, length, None, IsSome, IsOk, IfOk, OnErr, OnOk, IfErr, MatchOption, reverse, slice_get, option_map};
ghost use Rattle.std.specs.Borrow.{sem};
ghost use Rattle.std.specs.List.{IsDistinct};
ghost use Rattle.std.specs.Map.{keys_of, lookup, lookup_entry, remove_entry};
ghost use Rattle.std.specs.Map.Iter.{deref_pair};
ghost use Rattle.std.specs.Option.{option_copied, option_copied_mut, option_map_or};

mod copy;

use crate::held::Held;
use fc_base::Handle;
use lru::{DefaultHasher, LruCache};
use std::collections::hash_map::Equivalent;
use std::hash::Hash;
use std::marker::Model;

/// Entries with different keys, from the least to the most lately used.
#[derive(Drop)]
pub(crate) struct Recency<K: Eq + Hash, V, A: Handle> {
    // None until the first entry is put in: its two ends take memory.
    ring: Option<LruCache<K, Held<V>, DefaultHasher, A>>,
    alloc: A,
}

impl<K: Eq + Hash, V, A: Handle> Model for Recency<K, V, A> {
    ghost use Rattle.fc_cache.specs.Recent.{Recent, entries_of, IsUnbounded};

    ghost Value = { Recent K V };

    ghost view = { λ r. record { entries = entries_of r.ring } };

    ghost invariant = { λ r. IsUnbounded r.ring };
}

impl<K: Eq + Hash, V, A: Handle> Recency<K, V, A> {
    ghost use Rattle.fc_cache.specs.Entries.{used_last};
    ghost use Rattle.fc_cache.specs.RecentLends.{ends_recent_in};
    ghost use Rattle.fc_cache.specs.Written.{lends_recent_in};

    /// No entries, which take no memory.
    pub(crate) fn new(alloc: A) -> Recency<K, V, A>
        ensures { result.entries ≡ [] }
    {
        Recency { ring: None, alloc }
    }

    /// The number of entries.
    pub(crate) fn len(&self) -> usize
        ensures len { result ≡ length self.now.entries }
        ensures fits { result < 2 ^ 63 }
        ensures distinct { IsDistinct K.eq (keys_of self.now.entries) }
    {
        match &self.ring {
            Some(ring) => ring.len(),
            None => 0,
        }
    }

    /// What is held at a key, which is then the most lately used.
    pub(crate) fn get<Q: Equivalent<K>>(&mut self, key: Q) -> Option<&Held<V>>
        ensures* used { sem 𝓛 (ends_recent_in K.row V.row A.row K.Hash A.Allocator self.entry (used_last (Q.equivalent key) self.old.entries)) }
        ensures value { option_copied result ≡ lookup (Q.equivalent key) self.old.entries }
        ensures distinct { IsDistinct K.eq (keys_of self.old.entries) }
    {
        let ring = self.ring.as_mut()?;
        // No two keys are equal: the ring tells that by its length.
        let _known = ring.len();
        ring.get(key)
    }

    /// What is held at a key.
    pub(crate) fn peek<Q: Equivalent<K>>(&self, key: Q) -> Option<&Held<V>>
        ensures value { option_copied result ≡ lookup (Q.equivalent key) self.now.entries }
        ensures distinct { IsDistinct K.eq (keys_of self.now.entries) }
    {
        let ring = self.ring.as_ref()?;
        let _known = ring.len();
        ring.peek(key)
    }

    /// The entry that was used least lately.
    pub(crate) fn peek_first(&self) -> Option<(&K, &Held<V>)>
        ensures { option_map deref_pair result ≡ slice_get self.now.entries 0 }
    {
        let ring = self.ring.as_ref()?;
        ring.peek_lru()
    }

    /// The value at a key, for writing, which is then the most lately used; it costs what it did.
    pub(crate) fn get_mut<Q: Equivalent<K>>(&mut self, key: Q) -> Option<&mut V>
        ensures* writes_back { sem 𝓛 (lends_recent_in K.row V.row A.row K.Hash A.Allocator self.entry (Q.equivalent key) (used_last (Q.equivalent key) self.old.entries) result) }
        ensures value { option_copied_mut result ≡ option_map (λ h. h.value) (lookup (Q.equivalent key) self.old.entries) }
    {
        let ring = self.ring.as_mut()?;
        let _known = ring.len();
        let held = ring.get_mut(key)?;
        Some(&mut held.value)
    }

    /// The value at a key, for writing; it costs what it did.
    pub(crate) fn peek_mut<Q: Equivalent<K>>(&mut self, key: Q) -> Option<&mut V>
        ensures* writes_back { sem 𝓛 (lends_recent_in K.row V.row A.row K.Hash A.Allocator self.entry (Q.equivalent key) self.old.entries result) }
        ensures value { option_copied_mut result ≡ option_map (λ h. h.value) (lookup (Q.equivalent key) self.old.entries) }
    {
        let ring = self.ring.as_mut()?;
        let _known = ring.len();
        let held = ring.peek_mut(key)?;
        Some(&mut held.value)
    }

    /// A walk over the entries, from the most to the least lately used. `None` where there is no ring.
    pub(crate) fn iter(&self) -> Option<lru::Iter<'_, K, Held<V>>>
        ensures { option_map_or reverse result [] ≡ self.now.entries }
    {
        let ring = self.ring.as_ref()?;
        Some(ring.iter())
    }

    /// Takes the entry at a key out.
    pub(crate) fn take<Q: Equivalent<K>>(&mut self, key: Q) -> Option<(K, Held<V>)>
        ensures taken { result ≡ lookup_entry (Q.equivalent key) self.old.entries }
        ensures entries { self.new.entries ≡ remove_entry (Q.equivalent key) self.old.entries }
    {
        match &mut self.ring {
            Some(ring) => {
                let _known = ring.len();
                ring.pop_entry(key)
            }
            None => None,
        }
    }

    /// Takes the entry out that was used least lately.
    pub(crate) fn take_first(&mut self) -> Option<(K, Held<V>)>
        ensures taken { MatchOption result ((self.old.entries ≡ []) × (self.new.entries ≡ [])) (λ e. self.old.entries ≡ e ∷ self.new.entries) }
    {
        match &mut self.ring {
            Some(ring) => ring.pop_lru(),
            None => None,
        }
    }
}

impl<K: Eq + Hash + Drop, V: Drop, A: Handle> Recency<K, V, A> {
    ghost use Rattle.fc_cache.specs.Entries.{key_at};

    /// Takes all entries out, and drops them.
    pub(crate) fn clear(&mut self)
        ensures { self.new.entries ≡ [] }
    {
        match &mut self.ring {
            Some(ring) => ring.clear(),
            None => (),
        }
    }

    /// Puts an entry in as the most lately used. Where there is one at an equal key, its key stays, and what was held at it is handed back
    /// with the key that came in.
    pub(crate) fn push(
        &mut self,
        key: K,
        held: Held<V>,
    ) -> Result<Option<(K, Held<V>)>, (K, Held<V>)>
        ensures old { IfOk result (λ old. old ≡ option_map (λ h. (key, h)) (lookup (K.eq key) self.old.entries)) }
        ensures entries { OnOk result (self.new.entries ≡ remove_entry (K.eq key) self.old.entries ++ (key_at (K.eq key) self.old.entries key, held) ∷ []) }
        ensures back { IfErr result (λ e. e ≡ (key, held)) }
        ensures unchanged { OnErr result (self.new.entries ≡ self.old.entries) }
        ensures succeeds { IsSome (lookup (K.eq key) self.old.entries) → IsOk result }
        ensures distinct { IsDistinct K.eq (keys_of self.old.entries) }
    {
        match &mut self.ring {
            Some(ring) => push_to(ring, key, held),
            None => {
                let Ok(mut ring) = LruCache::unbounded(self.alloc) else {
                    return Err((key, held));
                };
                let old = push_to(&mut ring, key, held)?;
                self.ring = Some(ring);
                Ok(old)
            }
        }
    }
}

ghost use Rattle.lru.specs.LruCache.{lru_cache, put_entries};
ghost use Rattle.std.specs.Prelude.{◌-◌};

// `push` into the ring, which is never full.
fn push_to<K: Eq + Hash, V, A: Handle>(
    ring: &mut LruCache<K, Held<V>, DefaultHasher, A>,
    key: K,
    held: Held<V>,
) -> Result<Option<(K, Held<V>)>, (K, Held<V>)>
    requires { ring.old.cap ≡ 2 ^ 64 - 1 }
    ensures old { IfOk result (λ old. old ≡ option_map (λ h. (key, h)) (lookup (K.eq key) ring.old.entries)) }
    ensures entries { OnOk result (ring.new ≡ lru_cache (put_entries K.eq ring.old key held) ring.old.cap) }
    ensures back { IfErr result (λ e. e ≡ (key, held)) }
    ensures unchanged { OnErr result (ring.new ≡ ring.old) }
    ensures succeeds { IsSome (lookup (K.eq key) ring.old.entries) → IsOk result }
    ensures few { length ring.old.entries < 2 ^ 63 }
    ensures distinct { IsDistinct K.eq (keys_of ring.old.entries) }
{
    // So many entries never fill it, and no two keys are equal.
    let _len = ring.len();
    match ring.push(key, held) {
        Ok(old) => Ok(old),
        Err(failed) => Err(failed.value),
    }
}
