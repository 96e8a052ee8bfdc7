//! A hashed set read and written as std's.
ghost use Rattle.std.specs.Prelude.{◌≡◌, ◌<◌, ◌^◌, length};
ghost use Rattle.std.specs.Borrow.{sem};
ghost use Rattle.std.specs.Map.Iter.{GivesInOrder};
ghost use Rattle.fc_hash.specs.Items.{IsSet};
ghost use Rattle.fc_hash.specs.StdSet.{seen_set, lends_std_set};

use super::TryHashSet;
use fc_base::Handle;
use std::collections::{HashSet, hash_set};
use std::hash::{BuildHasher, BuildHasherDefault, FoldHasher, Hash, Hasher};
use std::ops::{Deref, DerefMut};

/// The calls of std's set that only read: `contains`, `get`, by an item or, where the items are `String`s, by a text; `iter`, `capacity`, ...
impl<T: Eq + Hash, A: Handle> Deref for TryHashSet<T, A> {
    type Target = HashSet<T, BuildHasherDefault<FoldHasher>, A>;

    ghost deref_gives = { λ s shown. seen_set shown ≡ s };

    fn deref(&self) -> &HashSet<T, BuildHasherDefault<FoldHasher>, A> {
        &self.inner
    }
}

/// The calls of std's set that write: `take`, `remove`, `clear`, `retain`, `drain`, `extract_if`, `shrink_to_fit`, ... Where a call of this set has
/// the same name, that one is taken.
impl<T: Eq + Hash, A: Handle> DerefMut for TryHashSet<T, A> {
    ghost deref_mut_gives = { λ s shown. seen_set shown ≡ s };

    fn deref_mut(&mut self) -> &mut HashSet<T, BuildHasherDefault<FoldHasher>, A>
        ensures* writes_back { sem 𝓛 (lends_std_set T.row A.row T.Hash ⟦<BuildHasherDefault<FoldHasher> as BuildHasher>⟧ ⟦<FoldHasher as Hasher>⟧ A.Allocator self.entry result) }
        ensures shows { seen_set result.now ≡ self.old }
    {
        &mut self.inner
    }
}

/// The items by value: std's walk, which drops what it did not give.
impl<T: Eq + Hash + Drop, A: Handle> IntoIterator for TryHashSet<T, A> {
    type Item = T;

    type IntoIter = hash_set::IntoIter<T, A>;

    ghost into_iter_gives = { λ s r. (r ≡ s.items) × (length s.items < 2 ^ 63) × GivesInOrder T × IsSet T.eq s.items };

    fn into_iter(self) -> hash_set::IntoIter<T, A> {
        let TryHashSet { inner, alloc: _ } = self;
        inner.into_iter()
    }
}
