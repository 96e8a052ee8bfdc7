//! Insertion of a pair.
ghost use Rattle.std.specs.Prelude.{◌≡◌, ◌+◌, ◌<◌, ◌≤◌, ◌⊎◌, [], ◌∷◌, length, true, IsSome, IsErr, IfOk, IfErr, OnOk, OnErr, None, Some};
ghost use Rattle.fc_base.specs.Ascending.{IsAscending};
ghost use Rattle.fc_base.specs.Growth.{MayGrowRefuse};
ghost use Rattle.fc_base.specs.OneKey.{put};
ghost use Rattle.fc_base.specs.Parts.{at, value_at};
ghost use Rattle.fc_map.specs.Counts.{IsBounded};
ghost use Rattle.fc_map.specs.Entries.{entries, IsSoundMap, passed_in};
ghost use Rattle.fc_map.specs.Full.{IsFullAt, TakesNode};
ghost use Rattle.fc_map.specs.Kept.{blocks_in, AreAllKept};
ghost use Rattle.fc_map.specs.Requests.{requests_at, insertion_requests, HasFewRequests};
ghost use Rattle.fc_map.specs.Place.{IsHeldAt, IsOpenAt, IsPutIn, TellsRoom};
ghost use Rattle.fc_tree_node.specs.Depth.{HasFewMoves};
ghost use Rattle.fc_tree_node.specs.TreePlace.{before_gap_in, after_gap_in};

use super::BTreeMap;
use fc_base::{Asked, Count, Handle, TryReserveError};
use fc_tree_insertion::insertion::first_leaf;
use fc_tree_insertion::leaf::insert_in_leaf;
use fc_tree_insertion::ready::try_insert;
use fc_tree_node::path::Path;
use std::mem;

impl<K: Ord + Drop, V: Drop, A: Handle> BTreeMap<K, V, A> {
    /// Puts the value at the key. Where an equal key is there, that key stays, its value is replaced and answered, and no memory
    /// is asked for; else the pair is new, and the answer is `Ok(None)`. Upstream: `BTreeMap::try_insert`.
    ///
    /// # Errors
    /// Only at a new key: `CapacityOverflow` where the map holds `usize::MAX` pairs, and then always; else `AllocError`, where a
    /// request for memory was refused, which takes an empty map or a full leaf. The map is then as it was, tree and all, and key
    /// and value come back.
    #[inline(always)]
    pub fn try_insert(&mut self, key: K, value: V) -> Result<Option<V>, (K, V, TryReserveError)>
        ensures old { IfOk result (λ old. old ≡ value_at K.cmp (entries self.old) key) }
        ensures put { IfOk result (λ _. entries self.new ≡ put K.cmp (entries self.old) key value) }
        ensures unchanged { IfErr result (λ _. self.new ≡ self.old) }
        ensures new_key { IfErr result (λ _. at K.cmp (entries self.old) key ≡ None) }
        ensures back { IfErr result (λ e. (e.0 ≡ key) × (e.1 ≡ value)) }
        ensures error { IfErr result (λ e. MayGrowRefuse (length (entries self.old)) e.2) }
        ensures only_full { OnErr result (length (entries self.old) < usize.MAX → TakesNode K.cmp key self.old) }
        ensures full { at K.cmp (entries self.old) key ≡ None → length (entries self.old) ≡ usize.MAX → IsErr result }
        ensures ascending { IsAscending K.cmp (entries self.new) }
        ensures sound { IsSoundMap self.new }
    {
        self.try_insert_counted(key, value, &mut Count::new())
    }

    /// `try_insert`, with its comparisons and moves added to the count: exactly the comparisons of the keys that a search from the
    /// left passes, and for a new pair the moves of its insertion; a value replaced and a refused insertion move no pair.
    ///
    /// # Errors
    /// As `try_insert`.
    #[inline(always)]
    pub fn try_insert_counted(
        &mut self,
        key: K,
        value: V,
        count: &mut Count,
    ) -> Result<Option<V>, (K, V, TryReserveError)>
        ensures old { IfOk result (λ old. old ≡ value_at K.cmp (entries self.old) key) }
        ensures put { IfOk result (λ _. entries self.new ≡ put K.cmp (entries self.old) key value) }
        ensures unchanged { IfErr result (λ _. self.new ≡ self.old) }
        ensures new_key { IfErr result (λ _. at K.cmp (entries self.old) key ≡ None) }
        ensures back { IfErr result (λ e. (e.0 ≡ key) × (e.1 ≡ value)) }
        ensures error { IfErr result (λ e. MayGrowRefuse (length (entries self.old)) e.2) }
        ensures only_full { OnErr result (length (entries self.old) < usize.MAX → TakesNode K.cmp key self.old) }
        ensures full { at K.cmp (entries self.old) key ≡ None → length (entries self.old) ≡ usize.MAX → IsErr result }
        ensures ascending { IsAscending K.cmp (entries self.new) }
        ensures sound { IsSoundMap self.new }
        ensures comparisons { count.new.comparisons ≡ count.old.comparisons + passed_in K.cmp key self.old }
        ensures no_move { IsErr result ⊎ IsSome (at K.cmp (entries self.old) key) → count.new.moves ≡ count.old.moves }
        ensures moved { OnOk result (at K.cmp (entries self.old) key ≡ None → count.old.moves < count.new.moves) }
        ensures bounded { IsBounded (length (entries self.new)) count.old count.new }
    {
        self.try_insert_asked(key, value, count, &mut Asked::new())
    }

    /// `try_insert_counted`, with its requests for memory added to `asked`: none where an equal key is there or the leaf has room, one for a first leaf, and
    /// else one for a leaf and two for each inner node that the insertion takes; where it is refused, no more.
    ///
    /// # Errors
    /// As `try_insert`.
    #[inline(always)]
    pub fn try_insert_asked(
        &mut self,
        key: K,
        value: V,
        count: &mut Count,
        asked: &mut Asked,
    ) -> Result<Option<V>, (K, V, TryReserveError)>
        ensures old { IfOk result (λ old. old ≡ value_at K.cmp (entries self.old) key) }
        ensures put { IfOk result (λ _. entries self.new ≡ put K.cmp (entries self.old) key value) }
        ensures unchanged { IfErr result (λ _. self.new ≡ self.old) }
        ensures new_key { IfErr result (λ _. at K.cmp (entries self.old) key ≡ None) }
        ensures back { IfErr result (λ e. (e.0 ≡ key) × (e.1 ≡ value)) }
        ensures error { IfErr result (λ e. MayGrowRefuse (length (entries self.old)) e.2) }
        ensures only_full { OnErr result (length (entries self.old) < usize.MAX → TakesNode K.cmp key self.old) }
        ensures full { at K.cmp (entries self.old) key ≡ None → length (entries self.old) ≡ usize.MAX → IsErr result }
        ensures ascending { IsAscending K.cmp (entries self.new) }
        ensures sound { IsSoundMap self.new }
        ensures comparisons { count.new.comparisons ≡ count.old.comparisons + passed_in K.cmp key self.old }
        ensures no_move { IsErr result ⊎ IsSome (at K.cmp (entries self.old) key) → count.new.moves ≡ count.old.moves }
        ensures moved { OnOk result (at K.cmp (entries self.old) key ≡ None → count.old.moves < count.new.moves) }
        ensures bounded { IsBounded (length (entries self.new)) count.old count.new }
        ensures requests { OnOk result (at K.cmp (entries self.old) key ≡ None → asked.new.requests ≡ asked.old.requests + insertion_requests K.cmp key self.old) }
        ensures at_most { asked.new.requests ≤ asked.old.requests + insertion_requests K.cmp key self.old }
        ensures none { IsSome (at K.cmp (entries self.old) key) → asked.new.requests ≡ asked.old.requests }
        ensures room { ¬ TakesNode K.cmp key self.old → asked.new.requests ≤ asked.old.requests }
        ensures kept { OnOk result (AreAllKept self.old self.new asked.old asked.new) }
        ensures few { HasFewRequests (length (entries self.old) + 1) asked.old asked.new }
    {
        let mut path = Path::new();
        let Err(gap) = self.locate(&key, &mut path, count) else {
            return Ok(Some(self.replace_at(&path, &key, value)));
        };
        self.insert_at(&mut path, gap.has_room, key, value, count, asked)?;
        Ok(None)
    }

    /// `try_insert_counted` for who needs nothing back: a value that is replaced, and key and value that are refused, are dropped.
    ///
    /// # Errors
    /// As `try_insert`.
    pub(crate) fn put(&mut self, key: K, value: V, count: &mut Count) -> Result<(), TryReserveError>
        ensures put { IfOk result (λ _. entries self.new ≡ put K.cmp (entries self.old) key value) }
        ensures unchanged { IfErr result (λ _. self.new ≡ self.old) }
        ensures new_key { IfErr result (λ _. at K.cmp (entries self.old) key ≡ None) }
        ensures error { IfErr result (λ e. MayGrowRefuse (length (entries self.old)) e) }
        ensures only_full { OnErr result (length (entries self.old) < usize.MAX → TakesNode K.cmp key self.old) }
    {
        self.put_asked(key, value, count, &mut Asked::new())
    }

    /// `put`, with its requests for memory added to `asked`.
    ///
    /// # Errors
    /// As `put`.
    pub(crate) fn put_asked(
        &mut self,
        key: K,
        value: V,
        count: &mut Count,
        asked: &mut Asked,
    ) -> Result<(), TryReserveError>
        ensures put { IfOk result (λ _. entries self.new ≡ put K.cmp (entries self.old) key value) }
        ensures unchanged { IfErr result (λ _. self.new ≡ self.old) }
        ensures new_key { IfErr result (λ _. at K.cmp (entries self.old) key ≡ None) }
        ensures error { IfErr result (λ e. MayGrowRefuse (length (entries self.old)) e) }
        ensures only_full { OnErr result (length (entries self.old) < usize.MAX → TakesNode K.cmp key self.old) }
    {
        let mut path = Path::new();
        let Err(gap) = self.locate(&key, &mut path, count) else {
            let _old = self.replace_at(&path, &key, value);
            return Ok(());
        };
        if gap.has_room && self.len < usize::MAX {
            let pair = (key, value);
            self.insert_in_room(&path, pair, count);
            return Ok(());
        }
        self.put_growing(&mut path, key, value, count, asked)
    }

    // As `insert_growing`, for who needs nothing back. It is not inlined either.
    #[inline(never)]
    pub(crate) fn put_growing(
        &mut self,
        path: &mut Path,
        key: K,
        value: V,
        count: &mut Count,
        asked: &mut Asked,
    ) -> Result<(), TryReserveError>
        requires gap { IsOpenAt K.cmp key self.old path.old }
        ensures put { OnOk result (entries self.new ≡ put K.cmp (entries self.old) key value) }
        ensures unchanged { OnErr result (self.new ≡ self.old) }
        ensures error { IfErr result (λ e. MayGrowRefuse (length (entries self.old)) e) }
        ensures only_full { OnErr result (length (entries self.old) < usize.MAX → IsFullAt self.old path.old) }
    {
        match self.insert_growing(path, key, value, count, asked) {
            Ok(()) => Ok(()),
            Err((_key, _value, error)) => Err(error),
        }
    }

    // Puts another value at the key, to which the path leads, and answers the old one.
    pub(crate) fn replace_at(&mut self, path: &Path, key: &K, value: V) -> V
        requires held { IsHeldAt K.cmp key.now self.old path.now }
        requires sound { IsSoundMap self.old }
        ensures old { value_at K.cmp (entries self.old) key.now ≡ Some result }
        ensures put { entries self.new ≡ put K.cmp (entries self.old) key.now value }
        ensures length { length (entries self.new) ≡ length (entries self.old) }
        ensures ascending { IsAscending K.cmp (entries self.new) }
        ensures blocks { blocks_in self.new ≡ blocks_in self.old }
        ensures sound { IsSoundMap self.new }
    {
        mem::replace(self.value_mut(path), value)
    }

    // Puts a pair with a new key into the gap that the path leads to, by what is known of its leaf. The path then leads to the pair.
    #[inline(always)]
    pub(crate) fn insert_at(
        &mut self,
        path: &mut Path,
        has_room: bool,
        key: K,
        value: V,
        count: &mut Count,
        asked: &mut Asked,
    ) -> Result<(), (K, V, TryReserveError)>
        requires gap { IsOpenAt K.cmp key self.old path.old }
        requires room { TellsRoom has_room path.old self.old }
        ensures put { OnOk result (entries self.new ≡ put K.cmp (entries self.old) key value) }
        ensures place { OnOk result (IsPutIn path.new self.new (key, value) (before_gap_in self.old path.old) (after_gap_in self.old path.old)) }
        ensures unchanged { OnErr result (self.new ≡ self.old) }
        ensures back { IfErr result (λ e. (e.0 ≡ key) × (e.1 ≡ value)) }
        ensures error { IfErr result (λ e. MayGrowRefuse (length (entries self.old)) e.2) }
        ensures only_full { OnErr result (length (entries self.old) < usize.MAX → IsFullAt self.old path.old) }
        ensures full { length (entries self.old) ≡ usize.MAX → IsErr result }
        ensures ascending { IsAscending K.cmp (entries self.new) }
        ensures sound { IsSoundMap self.new }
        ensures comparisons { count.new.comparisons ≡ count.old.comparisons }
        ensures no_move { OnErr result (count.new.moves ≡ count.old.moves) }
        ensures length { OnOk result (length (entries self.new) ≡ length (entries self.old) + 1) }
        ensures moves { OnOk result (HasFewMoves (length (entries self.new)) count.old count.new) }
        ensures moved { OnOk result (count.old.moves < count.new.moves) }
        ensures requests { OnOk result (asked.new.requests ≡ asked.old.requests + requests_at self.old path.old) }
        ensures at_most { asked.new.requests ≤ asked.old.requests + requests_at self.old path.old }
        ensures room { ¬ IsFullAt self.old path.old → asked.new.requests ≤ asked.old.requests }
        ensures blocks { OnOk result (blocks_in self.new ≡ blocks_in self.old + requests_at self.old path.old) }
        ensures few { HasFewRequests (length (entries self.old) + 1) asked.old asked.new }
    {
        if has_room && self.len < usize::MAX {
            self.insert_in_room(path, (key, value), count);
            return Ok(());
        }
        self.insert_growing(path, key, value, count, asked)
    }

    // Puts a pair with a new key into the gap that the path leads to, whose leaf has room. The path then leads to the pair.
    #[inline(always)]
    pub(crate) fn insert_in_room(&mut self, path: &Path, pair: (K, V), count: &mut Count)
        requires gap { IsOpenAt K.cmp pair.0 self.old path.now }
        requires room { TellsRoom true path.now self.old }
        requires fits { length (entries self.old) < usize.MAX }
        ensures put { entries self.new ≡ put K.cmp (entries self.old) pair.0 pair.1 }
        ensures place { IsPutIn path.now self.new pair (before_gap_in self.old path.now) (after_gap_in self.old path.now) }
        ensures ascending { IsAscending K.cmp (entries self.new) }
        ensures sound { IsSoundMap self.new }
        ensures blocks { blocks_in self.new ≡ blocks_in self.old }
        ensures comparisons { count.new.comparisons ≡ count.old.comparisons }
        ensures length { length (entries self.new) ≡ length (entries self.old) + 1 }
        ensures moves { HasFewMoves (length (entries self.new)) count.old count.new }
        ensures moved { count.old.moves < count.new.moves }
    {
        let Some(root) = &mut self.root else {
            unreachable!()
        };
        insert_in_leaf(root, path.as_slice(), pair, count);
        self.len += 1;
    }

    // As `insert_at`, by what takes memory: a first leaf, or what a full leaf is split with. It is not inlined, since the insertions that
    // take none would then pay for its locals.
    #[inline(never)]
    fn insert_growing(
        &mut self,
        path: &mut Path,
        key: K,
        value: V,
        count: &mut Count,
        asked: &mut Asked,
    ) -> Result<(), (K, V, TryReserveError)>
        requires gap { IsOpenAt K.cmp key self.old path.old }
        ensures put { OnOk result (entries self.new ≡ put K.cmp (entries self.old) key value) }
        ensures place { OnOk result (IsPutIn path.new self.new (key, value) (before_gap_in self.old path.old) (after_gap_in self.old path.old)) }
        ensures unchanged { OnErr result (self.new ≡ self.old) }
        ensures back { IfErr result (λ e. (e.0 ≡ key) × (e.1 ≡ value)) }
        ensures error { IfErr result (λ e. MayGrowRefuse (length (entries self.old)) e.2) }
        ensures only_full { OnErr result (length (entries self.old) < usize.MAX → IsFullAt self.old path.old) }
        ensures full { length (entries self.old) ≡ usize.MAX → IsErr result }
        ensures ascending { IsAscending K.cmp (entries self.new) }
        ensures sound { IsSoundMap self.new }
        ensures comparisons { count.new.comparisons ≡ count.old.comparisons }
        ensures no_move { OnErr result (count.new.moves ≡ count.old.moves) }
        ensures length { OnOk result (length (entries self.new) ≡ length (entries self.old) + 1) }
        ensures moves { OnOk result (HasFewMoves (length (entries self.new)) count.old count.new) }
        ensures moved { OnOk result (count.old.moves < count.new.moves) }
        ensures requests { OnOk result (asked.new.requests ≡ asked.old.requests + requests_at self.old path.old) }
        ensures at_most { asked.new.requests ≤ asked.old.requests + requests_at self.old path.old }
        ensures room { ¬ IsFullAt self.old path.old → asked.new.requests ≤ asked.old.requests }
        ensures blocks { OnOk result (blocks_in self.new ≡ blocks_in self.old + requests_at self.old path.old) }
        ensures few { HasFewRequests (length (entries self.old) + 1) asked.old asked.new }
    {
        if self.len == usize::MAX {
            return Err((key, value, TryReserveError::CapacityOverflow));
        }
        let Some(root) = &mut self.root else {
            return self.insert_first(path, key, value, count, asked);
        };
        try_insert(self.alloc, root, path, (key, value), count, asked)?;
        self.len += 1;
        Ok(())
    }

    // Puts the first pair into an empty map. The path, which has no step, then leads to it.
    #[inline(never)]
    fn insert_first(
        &mut self,
        path: &mut Path,
        key: K,
        value: V,
        count: &mut Count,
        asked: &mut Asked,
    ) -> Result<(), (K, V, TryReserveError)>
        requires empty { self.old ≡ None }
        requires start { path.old ≡ [] }
        ensures put { OnOk result (entries self.new ≡ (key, value) ∷ []) }
        ensures place { OnOk result (IsPutIn path.new self.new (key, value) [] []) }
        ensures unchanged { OnErr result (self.new ≡ self.old) }
        ensures back { IfErr result (λ e. (e.0 ≡ key) × (e.1 ≡ value)) }
        ensures error { IfErr result (λ e. e.2 ≡ TryReserveError.AllocError) }
        ensures ascending { IsAscending K.cmp (entries self.new) }
        ensures sound { IsSoundMap self.new }
        ensures comparisons { count.new.comparisons ≡ count.old.comparisons }
        ensures no_move { OnErr result (count.new.moves ≡ count.old.moves) }
        ensures moves { OnOk result (HasFewMoves 1 count.old count.new) }
        ensures moved { OnOk result (count.old.moves < count.new.moves) }
        ensures blocks { OnOk result (blocks_in self.new ≡ 1) }
        ensures requests { asked.new.requests ≡ asked.old.requests + 1 }
    {
        let root = first_leaf(self.alloc, (key, value), count, asked)?;
        self.root = Some(root);
        self.len = 1;
        path.push(0);
        Ok(())
    }
}
