//! A pair put into each of two maps, or into neither.
ghost use Rattle.std.specs.Prelude.{◌≡◌, ◌<◌, ◌⊎◌, [], length, IsErr, IfOk, IfErr, OnOk, OnErr, None};
ghost use Rattle.fc_base.specs.Ascending.{IsAscending};
ghost use Rattle.fc_base.specs.Growth.{MayGrowRefuse};
ghost use Rattle.fc_base.specs.OneKey.{put};
ghost use Rattle.fc_base.specs.Parts.{at, value_at};
ghost use Rattle.fc_map.specs.Entries.{entries, IsSoundMap};
ghost use Rattle.fc_map.specs.Full.{TakesNode};
ghost use Rattle.fc_map.specs.Ready.{IsPrepared};

use super::BTreeMap;
use fc_base::{Asked, Count, Handle, TryReserveError};
use fc_tree_insertion::new_nodes::NewNodes;
use fc_tree_node::path::Path;

/// Puts `v` at `k` in `a` and `w` at `l` in `b`, as two insertions do, and answers both old values, or changes neither map: all nodes
/// that both insertions take are made before a pair moves. Where an equal key is there, that key stays and its map takes no memory.
///
/// # Errors
/// Where one of the two insertions may be refused, which takes a new key, and by its error: `CapacityOverflow` where its map holds
/// `usize::MAX` pairs, and then always; else `AllocError`, where a request for memory was refused, which takes an empty map or a full
/// leaf. Both maps are then as they were, trees and all, and all four values come back.
pub fn insert_both<K: Ord + Drop, V: Drop, L: Ord + Drop, W: Drop, A: Handle>(
    a: &mut BTreeMap<K, V, A>,
    b: &mut BTreeMap<L, W, A>,
    k: K,
    v: V,
    l: L,
    w: W,
) -> Result<(Option<V>, Option<W>), (K, V, L, W, TryReserveError)>
    ensures old { IfOk result (λ old. (old.0 ≡ value_at K.cmp (entries a.old) k) × (old.1 ≡ value_at L.cmp (entries b.old) l)) }
    ensures first { OnOk result (entries a.new ≡ put K.cmp (entries a.old) k v) }
    ensures second { OnOk result (entries b.new ≡ put L.cmp (entries b.old) l w) }
    ensures unchanged { OnErr result ((a.new ≡ a.old) × (b.new ≡ b.old)) }
    ensures back { IfErr result (λ e. (e.0 ≡ k) × (e.1 ≡ v) × (e.2 ≡ l) × (e.3 ≡ w)) }
    ensures error { IfErr result (λ e. ((at K.cmp (entries a.old) k ≡ None) × MayGrowRefuse (length (entries a.old)) e.4) ⊎ ((at L.cmp (entries b.old) l ≡ None) × MayGrowRefuse (length (entries b.old)) e.4)) }
    ensures only_full { OnErr result (((at K.cmp (entries a.old) k ≡ None) × (length (entries a.old) < usize.MAX → TakesNode K.cmp k a.old)) ⊎ ((at L.cmp (entries b.old) l ≡ None) × (length (entries b.old) < usize.MAX → TakesNode L.cmp l b.old))) }
    ensures first_full { at K.cmp (entries a.old) k ≡ None → length (entries a.old) ≡ usize.MAX → IsErr result }
    ensures second_full { at L.cmp (entries b.old) l ≡ None → length (entries b.old) ≡ usize.MAX → IsErr result }
    ensures first_ascending { IsAscending K.cmp (entries a.new) }
    ensures second_ascending { IsAscending L.cmp (entries b.new) }
    ensures first_sound { IsSoundMap a.new }
    ensures second_sound { IsSoundMap b.new }
{
    // Shows that both maps are ascending and sound where one is refused.
    let _lens = (a.len(), b.len());
    let mut first = Path::new();
    let mut second = Path::new();
    let mut count = Count::new();
    let for_first = match a.prepare(&k, &mut first, &mut count) {
        Ok(prepared) => prepared,
        Err(first_refused) => return Err((k, v, l, w, first_refused)),
    };
    let for_second = match b.prepare(&l, &mut second, &mut count) {
        Ok(prepared) => prepared,
        Err(second_refused) => return Err((k, v, l, w, second_refused)),
    };
    let old_first = a.finish(&mut first, k, v, for_first, &mut count);
    let old_second = b.finish(&mut second, l, w, for_second, &mut count);
    Ok((old_first, old_second))
}

impl<K: Ord + Drop, V: Drop, A: Handle> BTreeMap<K, V, A> {
    // Fills `path` with the way to the key or to its gap, and makes the nodes that an insertion into the gap takes; `None` where an equal
    // key is there, which takes none.
    fn prepare(
        &self,
        key: &K,
        path: &mut Path,
        count: &mut Count,
    ) -> Result<Option<NewNodes<K, V, A>>, TryReserveError>
        requires start { path.old ≡ [] }
        ensures ok { IfOk result (λ made. IsPrepared K.cmp key.now self.now path.new made) }
        ensures absent { OnErr result (at K.cmp (entries self.now) key.now ≡ None) }
        ensures error { IfErr result (MayGrowRefuse (length (entries self.now))) }
        ensures only_full { OnErr result (length (entries self.now) < usize.MAX → TakesNode K.cmp key.now self.now) }
        ensures full { at K.cmp (entries self.now) key.now ≡ None → length (entries self.now) ≡ usize.MAX → IsErr result }
        ensures ascending { IsAscending K.cmp (entries self.now) }
        ensures sound { IsSoundMap self.now }
    {
        match self.locate(key, path, count) {
            Ok(()) => Ok(None),
            Err(_gap) => match self.try_nodes_at(path, &mut Asked::new()) {
                Ok(made) => Ok(Some(made)),
                Err(refused) => Err(refused),
            },
        }
    }

    // Puts the value at the key, for which `prepare` made the nodes.
    fn finish(
        &mut self,
        path: &mut Path,
        key: K,
        value: V,
        prepared: Option<NewNodes<K, V, A>>,
        count: &mut Count,
    ) -> Option<V>
        requires prepared { IsPrepared K.cmp key self.old path.old prepared }
        requires sound { IsSoundMap self.old }
        ensures old { result ≡ value_at K.cmp (entries self.old) key }
        ensures put { entries self.new ≡ put K.cmp (entries self.old) key value }
        ensures ascending { IsAscending K.cmp (entries self.new) }
        ensures sound { IsSoundMap self.new }
    {
        match prepared {
            None => Some(self.replace_at(path, &key, value)),
            Some(new_nodes) => {
                self.insert_ready(path, (key, value), new_nodes, count);
                None
            }
        }
    }
}
