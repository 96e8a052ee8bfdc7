//! Methods of `Entry` itself, for both variants.
ghost use Rattle.std.specs.Prelude.{◌≡◌, ◌<◌, length, unwrap_or, IsErr, IfOk, IfErr, IfSome, MatchOption, OnErr, None, Some};
ghost use Rattle.std.specs.Borrow.{sem, Bor, MutBor};
ghost use Rattle.std.specs.Fn.{FnOnceReturnsAt};
ghost use Rattle.std.specs.Map.Calls.{ModifiesValue};
ghost use Rattle.std.specs.Option.{UnwrapsOrElse};
ghost use Rattle.fc_base.specs.Growth.{MayGrowRefuse};
ghost use Rattle.fc_map.specs.Entries.{entries};
ghost use Rattle.fc_map.specs.Full.{IsFullAt};
ghost use Rattle.fc_map.specs.Entry.{entry_key, entry_lends_ok_in, entry_map, entry_map_ref, entry_path, entry_pair, entry_value, list_with, list_without};

use super::Entry;
use fc_base::{Handle, TryReserveError};
use std::default::MadeWith;

impl<'a, K: Ord, V, A: Handle> Entry<'a, K, V, A> {
    /// The key that is there, or else the one that was searched for. Upstream: `Entry::key`.
    pub fn key(&self) -> &K
        ensures { entry_key self.now ≡ Some result.now }
    {
        match self {
            Entry::Occupied(entry) => entry.key(),
            Entry::Vacant(entry) => entry.key(),
        }
    }

    /// Calls `modify` once on the value that is there, and not where there is none; then hands the entry on. It takes no memory.
    /// Upstream: `Entry::and_modify`.
    pub fn and_modify<F: FnOnce(&mut V)>(self, modify: F) -> Entry<'a, K, V, A>
        requires { (p : MutBor V) → entry_value self ≡ Some p.now → F.pre modify p }
        ensures same_map { (entry_map_ref result).ghost_name ≡ (entry_map_ref self.entry).ghost_name }
        ensures update { ModifiesValue F.FnOnce modify (entry_value self.entry) (entry_value result) }
        ensures key { entry_key result ≡ entry_key self.entry }
        ensures writes { (w : V) → list_with result w ≡ list_with self.entry w }
        ensures removes { list_without result ≡ list_without self.entry }
        ensures map { IfSome (entry_value result) (λ w. entries (entry_map result) ≡ list_with self.entry w) }
        ensures absent { entry_pair self.entry ≡ None → entry_map result ≡ entry_map self.entry }
    {
        match self {
            Entry::Occupied(mut entry) => {
                modify(entry.get_mut());
                Entry::Occupied(entry)
            }
            Entry::Vacant(entry) => Entry::Vacant(entry),
        }
    }
}

impl<'a, K: Ord + Drop, V: Drop, A: Handle> Entry<'a, K, V, A> {
    /// The value that is there, or else `value` put there, lent for writing for as long as the map was. Where there is a value, no
    /// memory is asked for, and the given one is dropped. Upstream: `Entry::or_try_insert`.
    ///
    /// # Errors
    /// As `VacantEntry::try_insert`, where no value is there.
    pub fn or_try_insert(self, value: V) -> Result<&'a mut V, (K, V, TryReserveError)>
        ensures* writes_back { sem 𝓛 (entry_lends_ok_in K.row V.row A.row A.Allocator self.entry result) }
        ensures value { IfOk result (λ v. v.now ≡ unwrap_or (entry_value self.entry) value) }
        ensures back { IfErr result (λ e. (entry_key self.entry ≡ Some e.0) × (e.1 ≡ value)) }
        ensures absent { OnErr result (entry_value self.entry ≡ None) }
        ensures error { IfErr result (λ e. MayGrowRefuse (length (entries (entry_map self.entry))) e.2) }
        ensures only_full { OnErr result (length (entries (entry_map self.entry)) < usize.MAX → IsFullAt (entry_map self.entry) (entry_path self.entry)) }
        ensures full { entry_value self.entry ≡ None → length (entries (entry_map self.entry)) ≡ usize.MAX → IsErr result }
    {
        match self {
            Entry::Occupied(there) => Ok(there.into_mut()),
            Entry::Vacant(entry) => entry.try_insert(value),
        }
    }

    /// The value that is there, or else what `make` answers put there, lent for writing for as long as the map was. `make` is called
    /// once where no value is there, before any memory is asked for, and else not at all. Upstream: `Entry::or_try_insert_with`.
    ///
    /// # Errors
    /// As `VacantEntry::try_insert`, where no value is there; what `make` answered then comes back with the key.
    pub fn or_try_insert_with<F: FnOnce() -> V>(
        self,
        make: F,
    ) -> Result<&'a mut V, (K, V, TryReserveError)>
        requires { entry_value self ≡ None → F.pre make }
        ensures* writes_back { sem 𝓛 (entry_lends_ok_in K.row V.row A.row A.Allocator self.entry result) }
        ensures value { IfOk result (λ v. UnwrapsOrElse (entry_value self.entry) (F.post make) v.now) }
        ensures absent { OnErr result (entry_value self.entry ≡ None) }
        ensures back { IfErr result (λ e. (entry_key self.entry ≡ Some e.0) × F.post make e.1) }
        ensures error { IfErr result (λ e. MayGrowRefuse (length (entries (entry_map self.entry))) e.2) }
        ensures only_full { OnErr result (length (entries (entry_map self.entry)) < usize.MAX → IsFullAt (entry_map self.entry) (entry_path self.entry)) }
        ensures full { entry_value self.entry ≡ None → length (entries (entry_map self.entry)) ≡ usize.MAX → IsErr result }
    {
        match self {
            Entry::Occupied(entry) => Ok(entry.into_mut()),
            Entry::Vacant(entry) => entry.try_insert(make()),
        }
    }

    /// The value that is there, or else what `make` answers of the key put there, lent for writing for as long as the map was. `make`
    /// is called once where no value is there, before any memory is asked for, and else not at all. Not in upstream: it is that of
    /// std's map.
    ///
    /// # Errors
    /// As `VacantEntry::try_insert`, where no value is there; what `make` answered then comes back with the key.
    pub fn or_try_insert_with_key<F: FnOnce(&K) -> V>(
        self,
        make: F,
    ) -> Result<&'a mut V, (K, V, TryReserveError)>
        requires { entry_value self ≡ None → (k : Bor K) → entry_key self ≡ Some k.now → F.pre make k }
        ensures* writes_back { sem 𝓛 (entry_lends_ok_in K.row V.row A.row A.Allocator self.entry result) }
        ensures value { IfOk result (λ v. UnwrapsOrElse (entry_value self.entry) (λ w. MatchOption (entry_key self.entry) ⊥ (λ k. FnOnceReturnsAt F.FnOnce make k w)) v.now) }
        ensures absent { OnErr result (entry_value self.entry ≡ None) }
        ensures back { IfErr result (λ e. (entry_key self.entry ≡ Some e.0) × FnOnceReturnsAt F.FnOnce make e.0 e.1) }
        ensures error { IfErr result (λ e. MayGrowRefuse (length (entries (entry_map self.entry))) e.2) }
        ensures only_full { OnErr result (length (entries (entry_map self.entry)) < usize.MAX → IsFullAt (entry_map self.entry) (entry_path self.entry)) }
        ensures full { entry_value self.entry ≡ None → length (entries (entry_map self.entry)) ≡ usize.MAX → IsErr result }
    {
        match self {
            Entry::Occupied(present) => Ok(present.into_mut()),
            Entry::Vacant(entry) => {
                let value = make(entry.key());
                entry.try_insert(value)
            }
        }
    }

    /// The value that is there, or else the default put there, lent for writing for as long as the map was: of a vector, a text or a
    /// collection an empty one, which takes its memory where the map does, so that `map.try_entry(key)?.or_default()?.push(item)?` groups
    /// items by a key. Upstream: `Entry::or_default`.
    ///
    /// # Errors
    /// As `VacantEntry::try_insert`, where no value is there.
    pub fn or_default(self) -> Result<&'a mut V, (K, V, TryReserveError)>
    where
        V: MadeWith<A>,
        ensures* writes_back { sem 𝓛 (entry_lends_ok_in K.row V.row A.row A.Allocator self.entry result) }
        ensures value { IfOk result (λ v. UnwrapsOrElse (entry_value self.entry) V.is_made_with v.now) }
        ensures back { IfErr result (λ e. (entry_key self.entry ≡ Some e.0) × V.is_made_with e.1) }
        ensures absent { OnErr result (entry_value self.entry ≡ None) }
        ensures error { IfErr result (λ e. MayGrowRefuse (length (entries (entry_map self.entry))) e.2) }
        ensures only_full { OnErr result (length (entries (entry_map self.entry)) < usize.MAX → IsFullAt (entry_map self.entry) (entry_path self.entry)) }
        ensures full { entry_value self.entry ≡ None → length (entries (entry_map self.entry)) ≡ usize.MAX → IsErr result }
    {
        match self {
            Entry::Occupied(held) => Ok(held.into_mut()),
            Entry::Vacant(entry) => {
                let value = V::made_with(entry.allocator());
                entry.try_insert(value)
            }
        }
    }
}
