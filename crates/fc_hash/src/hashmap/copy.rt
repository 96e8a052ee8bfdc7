//! Copies of hashed maps.
ghost use Rattle.std.specs.Prelude.{◌≡◌, [], true, OnOk, IfErr};
ghost use Rattle.fc_base.specs.Copies.{MayRefuseCopies, MayRefusePair};
ghost use Rattle.fc_hash.specs.Pairs.{IsMap, AreCopies};

use super::TryHashMap;
use fc_base::{Handle, TryClone, TryReserveError};
use std::collections::hash_map;
use std::hash::Hash;

/// A copy of a map has a copy of each pair, made by the `try_clone` of key and value, and takes its memory where the map does. Its
/// room is taken before the first copy. Copies of keys have to be equal to them. Upstream: `TryHashMap::try_clone`.
///
/// # Errors
/// `AllocError` where the room was refused, or the error of a key or a value whose copy was; never where the map is empty. What was
/// made by then is dropped.
impl<K: Eq + Hash + TryClone, V: TryClone, A: Handle> TryClone for TryHashMap<K, V, A> {
    ghost same = { λ source copy. AreCopies K.same V.same source.pairs copy.pairs };

    ghost can_clone = { K.can_clone × V.can_clone × ((a b : K) → K.same a b → K.eq a b ≡ true) };

    ghost may_refuse = { λ source. MayRefuseCopies (MayRefusePair K.may_refuse V.may_refuse) source.pairs };

    fn try_clone(&self) -> Result<TryHashMap<K, V, A>, TryReserveError> {
        let mut made = TryHashMap::with_capacity(self.alloc, self.inner.len())?;
        insert_copies(&mut made, self.inner.iter())?;
        Ok(made)
    }
}

// Puts a copy of each pair that the walk gives into the map, which has none yet.
fn insert_copies<K: Eq + Hash + TryClone, V: TryClone, A: Handle>(
    made: &mut TryHashMap<K, V, A>,
    walk: hash_map::Iter<'_, K, V>,
) -> Result<(), TryReserveError>
    requires keys { K.can_clone }
    requires values { V.can_clone }
    requires equal { (a b : K) → K.same a b → K.eq a b ≡ true }
    requires distinct { IsMap K.eq walk }
    requires empty { made.old.pairs ≡ [] }
    ensures copied { OnOk result (AreCopies K.same V.same walk.entry made.new.pairs) }
    ensures error { IfErr result (MayRefuseCopies (MayRefusePair K.may_refuse V.may_refuse) walk.entry) }
{
    let mut walk = walk;
    'pairs: while let Some((key, value)) = walk.next() {
        let key_copy = key.try_clone()?;
        let value_copy = value.try_clone()?;
        let _len = made.inner.len();
        made.insert(key_copy, value_copy)?;
    }
    Ok(())
}
