//! The cache: entries in the order of their last use, whose costs keep within a budget.
ghost use Rattle.std.specs.Prelude.{◌≡◌, ◌↔◌, ◌≤◌, [], ◌∷◌, ◌++◌, List, length, IfSome, IsSome, IsNone, IsTrue, IsOk, OnOk, OnErr, IfErr, is_some, slice_get, option_map};
ghost use Rattle.std.specs.Borrow.{sem};
ghost use Rattle.std.specs.Map.{lookup, remove_entry};
ghost use Rattle.std.specs.Map.Iter.{deref_pair};
ghost use Rattle.std.specs.Option.{option_copied, option_map_or};
ghost use Rattle.fc_cache.specs.Handed.{GivenEntry, HandsInTurn};

mod copy;
mod debug;
mod iter;
mod lend;

use crate::held::Held;
use crate::put_error::PutError;
use crate::recency::Recency;
use fc_base::{Handle, TryReserveError};
pub use iter::Iter;
use std::alloc::Global;
use std::collections::hash_map::Equivalent;
use std::hash::Hash;
use std::marker::Model;

/// A map from keys to values within a budget, each of whose entries costs what its caller says: 1 where entries are counted, or their
/// bytes. An entry that is put in evicts those that were used least lately, as many as its cost needs. Only `try_put`,
/// `try_put_with` and `try_clone` take memory.
///
/// Keys are found by their hashes, by std's fixed hasher: whoever chooses the keys can choose many of one hash, and each call then looks
/// at all of them.
#[derive(Drop)]
pub struct Cache<K: Eq + Hash, V, A: Handle = Global> {
    recency: Recency<K, V, A>,
    used: usize,
    budget: usize,
}

impl<K: Eq + Hash, V, A: Handle> Model for Cache<K, V, A> {
    ghost use Rattle.std.specs.Prelude.{◌≡◌, ◌≤◌};
    ghost use Rattle.fc_cache.specs.Entries.{Cached, total_cost};

    ghost Value = { Cached K V };

    ghost view = { λ c. record { entries = c.recency.entries; budget = c.budget } };

    ghost invariant = { λ c. (c.used ≡ total_cost c.recency.entries) × (c.used ≤ c.budget) };
}

impl<K: Eq + Hash, V, A: Handle> Cache<K, V, A> {
    ghost use Rattle.fc_cache.specs.Entries.{IsCached, total_cost};
    ghost use Rattle.fc_cache.specs.Lends.{ends_used_in};

    /// A cache of no entry, which takes no memory. Later requests go to `alloc`.
    pub fn new(alloc: A, budget: usize) -> Cache<K, V, A>
        ensures { result ≡ record { entries = []; budget = budget } }
    {
        Cache {
            recency: Recency::new(alloc),
            used: 0,
            budget,
        }
    }

    /// The number of entries.
    pub fn len(&self) -> usize
        ensures len { result ≡ length self.now.entries }
        ensures cached { IsCached K.eq self.now }
    {
        let _used = self.used;
        self.recency.len()
    }

    /// Whether there is no entry.
    pub fn is_empty(&self) -> bool
        ensures { IsTrue result ↔ (self.now.entries ≡ []) }
    {
        self.recency.len() == 0
    }

    /// The sum of the costs of all entries, which is at most the budget.
    pub fn used(&self) -> usize
        ensures used { result ≡ total_cost self.now.entries }
        ensures within { result ≤ self.now.budget }
    {
        self.used
    }

    /// The greatest sum of costs.
    pub fn budget(&self) -> usize
        ensures { result ≡ self.now.budget }
    {
        self.budget
    }

    /// Whether there is a key that is equal to this one. It does not count as a use.
    pub fn contains_key<Q: Equivalent<K>>(&self, key: Q) -> bool
        ensures { result ≡ is_some (lookup (Q.equivalent key) self.now.entries) }
    {
        self.recency.peek(key).is_some()
    }

    /// What the entry at the key that is equal to this one costs. `None` where there is none. It does not count as a use.
    pub fn cost_of<Q: Equivalent<K>>(&self, key: Q) -> Option<usize>
        ensures { result ≡ option_map (λ h. h.cost) (lookup (Q.equivalent key) self.now.entries) }
    {
        let held = self.recency.peek(key)?;
        Some(held.cost)
    }

    /// The value at the key that is equal to this one, which is then the most lately used. `None` where there is none. It takes no memory.
    pub fn get<Q: Equivalent<K>>(&mut self, key: Q) -> Option<&V>
        ensures* used { sem 𝓛 (ends_used_in K.row V.row A.row K.Hash A.Allocator self.entry (Q.equivalent key)) }
        ensures value { option_copied result ≡ option_map (λ h. h.value) (lookup (Q.equivalent key) self.old.entries) }
        ensures cached { IsCached K.eq self.old }
    {
        let held = self.recency.get(key)?;
        Some(&held.value)
    }

    /// The value at the key that is equal to this one, which does not count as a use. `None` where there is none.
    pub fn peek<Q: Equivalent<K>>(&self, key: Q) -> Option<&V>
        ensures value { option_copied result ≡ option_map (λ h. h.value) (lookup (Q.equivalent key) self.now.entries) }
        ensures cached { IsCached K.eq self.now }
    {
        let held = self.recency.peek(key)?;
        Some(&held.value)
    }

    /// The key and the value of the entry that was used least lately, which does not count as a use. `None` where there is none.
    pub fn peek_oldest(&self) -> Option<(&K, &V)>
        ensures { option_map deref_pair result ≡ option_map (λ e. (e.0, e.1.value)) (slice_get self.now.entries 0) }
    {
        let (key, held) = self.recency.peek_first()?;
        Some((key, &held.value))
    }
}

impl<K: Eq + Hash + Drop, V: Drop, A: Handle> Cache<K, V, A> {
    ghost use Rattle.fc_cache.specs.Entries.{IsCached, IsRefusal, IsOldest, handed_out, rest_within, with_entry};

    /// Puts an entry in as the most lately used. Where there is one at an equal key, that key stays, and the old value is dropped with the
    /// key that came in; and of the others, from the least lately used on, as many as it takes for the costs of all to be within the budget.
    ///
    /// # Errors
    /// `OverBudget` exactly where the cost is above the whole budget, and `Refused` where the key is new and room for the entry was refused:
    /// a block for itself, what the map of the keys grows by, and for the first entry two blocks more. The cache is then as it was, and key
    /// and value come back.
    pub fn try_put(&mut self, key: K, value: V, cost: usize) -> Result<(), (K, V, PutError)>
        ensures put { OnOk result (self.new ≡ with_entry K.eq self.old key (record { value = value; cost = cost })) }
        ensures fits { OnOk result (cost ≤ self.old.budget) }
        ensures succeeds { cost ≤ self.old.budget → IsSome (lookup (K.eq key) self.old.entries) → IsOk result }
        ensures error { IfErr result (λ e. IsRefusal self.old.budget cost (length self.old.entries) e.2) }
        ensures back { IfErr result (λ e. (e.0 ≡ key) × (e.1 ≡ value)) }
        ensures unchanged { OnErr result (self.new ≡ self.old) }
        ensures cached { OnOk result (IsCached K.eq self.old) }
    {
        self.try_put_with(key, value, cost, |_key, _value| ())
    }

    /// `try_put` that hands the closure what it takes out, one after another: the old value, with the key that came in, and then the keys and
    /// values of what it evicts, from the least lately used on.
    ///
    /// # Errors
    /// Those of `try_put`. The cache is then as it was, key and value come back, and the closure was not called.
    pub fn try_put_with<F: FnMut(K, V)>(
        &mut self,
        key: K,
        value: V,
        cost: usize,
        mut f: F,
    ) -> Result<(), (K, V, PutError)>
        requires callable { F.IsAlwaysCallable f }
        ensures put { OnOk result (self.new ≡ with_entry K.eq self.old key (record { value = value; cost = cost })) }
        ensures handed { OnOk result ((last : F) × HandsInTurn (GivenEntry F.FnMut) f (handed_out K.eq self.old key cost) last) }
        ensures fits { OnOk result (cost ≤ self.old.budget) }
        ensures succeeds { cost ≤ self.old.budget → IsSome (lookup (K.eq key) self.old.entries) → IsOk result }
        ensures error { IfErr result (λ e. IsRefusal self.old.budget cost (length self.old.entries) e.2) }
        ensures back { IfErr result (λ e. (e.0 ≡ key) × (e.1 ≡ value)) }
        ensures unchanged { OnErr result (self.new ≡ self.old) }
        ensures cached { OnOk result (IsCached K.eq self.old) }
    {
        if self.budget < cost {
            return Err((key, value, PutError::OverBudget));
        }
        match self.recency.push(key, Held { value, cost }) {
            Ok(replaced) => {
                let others = self.used - hand_over(replaced, &mut f);
                let limit = self.budget - cost;
                self.used = evict(&mut self.recency, others, limit, &mut f) + cost;
                Ok(())
            }
            Err((key, held)) => {
                // One entry more never passes the greatest length, so only the room was refused.
                let _len = self.recency.len();
                let refused = PutError::Refused(TryReserveError::AllocError);
                Err((key, held.value, refused))
            }
        }
    }

    /// Takes out the entry at the key that is equal to this one, and answers its value. `None` where there is none. It takes no memory.
    pub fn remove<Q: Equivalent<K>>(&mut self, key: Q) -> Option<V>
        ensures value { result ≡ option_map (λ h. h.value) (lookup (Q.equivalent key) self.old.entries) }
        ensures entries { self.new ≡ record { entries = remove_entry (Q.equivalent key) self.old.entries; budget = self.old.budget } }
    {
        let (_key, held) = self.recency.take(key)?;
        self.used -= held.cost;
        Some(held.value)
    }

    /// Takes out all entries, and drops them. It takes no memory.
    pub fn clear(&mut self)
        ensures { self.new ≡ record { entries = []; budget = self.old.budget } }
    {
        self.recency.clear();
        self.used = 0;
    }

    /// Sets the greatest sum of costs, and drops entries, from the least lately used on, as many as it takes for the costs of all to be within
    /// it. It takes no memory.
    pub fn set_budget(&mut self, budget: usize)
        ensures { self.new ≡ record { entries = rest_within budget self.old.entries; budget = budget } }
    {
        self.used = evict(&mut self.recency, self.used, budget, &mut |_key, _value| ());
        self.budget = budget;
    }

    /// Takes out the entry that was used least lately. `None` where there is none. It takes no memory.
    pub fn pop_oldest(&mut self) -> Option<(K, V)>
        ensures oldest { IfSome result (λ p. IsOldest p self.old.entries self.new.entries) }
        ensures none { IsNone result → (self.old.entries ≡ []) × (self.new ≡ self.old) }
        ensures budget { self.new.budget ≡ self.old.budget }
    {
        let (key, held) = self.recency.take_first()?;
        self.used -= held.cost;
        Some((key, held.value))
    }
}

ghost use Rattle.fc_cache.specs.Entries.{evicted_within, pairs_of, rest_within, total_cost};
ghost use Rattle.std.specs.Option.{option_to_list};

// Hands over what was replaced, and answers what it cost.
fn hand_over<K, V, F: FnMut(K, V)>(replaced: Option<(K, Held<V>)>, f: &mut F) -> usize
    requires callable { F.IsAlwaysCallable f.old }
    ensures cost { result ≡ option_map_or (λ e. e.1.cost) replaced 0 }
    ensures handed { HandsInTurn (GivenEntry F.FnMut) f.old (pairs_of (option_to_list replaced)) f.new }
    ensures callable { F.IsAlwaysCallable f.new }
{
    match replaced {
        Some((key, held)) => {
            let cost = held.cost;
            f(key, held.value);
            cost
        }
        None => 0,
    }
}

// Hands entries over, from the least lately used on, until the costs of those before some that stay are within a limit, and answers these.
fn evict<K: Eq + Hash, V, A: Handle, F: FnMut(K, V)>(
    recency: &mut Recency<K, V, A>,
    used: usize,
    limit: usize,
    f: &mut F,
) -> usize
    requires sum { (others stay : List (K × Held V)) × (recency.old.entries ≡ others ++ stay) × (used ≡ total_cost others) }
    requires callable { F.IsAlwaysCallable f.old }
    ensures entries { (others stay : List (K × Held V)) → recency.old.entries ≡ others ++ stay → used ≡ total_cost others → (recency.new.entries ≡ rest_within limit others ++ stay) × (result ≡ total_cost (rest_within limit others)) }
    ensures handed { (others stay : List (K × Held V)) → recency.old.entries ≡ others ++ stay → used ≡ total_cost others → HandsInTurn (GivenEntry F.FnMut) f.old (pairs_of (evicted_within limit others)) f.new }
    ensures callable { F.IsAlwaysCallable f.new }
    ensures within { result ≤ limit }
{
    let mut used = used;
    'entries: while limit < used {
        let Some((key, held)) = recency.take_first() else {
            return used;
        };
        used -= held.cost;
        f(key, held.value);
    }
    used
}
