//! Copies of entries, in the order of their last use.
ghost use Rattle.std.specs.Prelude.{◌≡◌, [], true, reverse, OnOk, IfOk, IfErr};
ghost use Rattle.std.specs.List.{IsDistinct};
ghost use Rattle.std.specs.Map.{keys_of};
ghost use Rattle.fc_cache.specs.Copied.{AreCopies, MayRefuseEntries};

use super::Recency;
use crate::held::Held;
use fc_base::{Handle, TryClone, TryReserveError};
use std::hash::Hash;

impl<K: Eq + Hash + TryClone, V: TryClone, A: Handle> Recency<K, V, A> {
    /// A copy of all entries, in the same order and at the same costs.
    ///
    /// # Errors
    /// Those of `push_copies`.
    pub(crate) fn try_copy(&self) -> Result<Recency<K, V, A>, TryReserveError>
        requires keys { K.can_clone }
        requires values { V.can_clone }
        requires equal { (a b : K) → K.same a b → K.eq a b ≡ true }
        ensures copied { IfOk result (λ copy. AreCopies K.same V.same self.now.entries copy.entries) }
        ensures error { IfErr result (MayRefuseEntries K.may_refuse V.may_refuse self.now.entries) }
    {
        let mut made = Recency::new(self.alloc);
        match &self.ring {
            Some(ring) => {
                let _known = ring.len();
                push_copies(&mut made, ring.iter())?;
                Ok(made)
            }
            None => Ok(made),
        }
    }
}

// Puts a copy of each entry in that the walk gives from its end on, which is that of the least lately used.
//
// Errors: `AllocError` where room was refused, or the error of a key or a value whose copy was. The copies made by then stay.
fn push_copies<K: Eq + Hash + TryClone, V: TryClone, A: Handle>(
    made: &mut Recency<K, V, A>,
    walk: lru::Iter<'_, K, Held<V>>,
) -> Result<(), TryReserveError>
    requires keys { K.can_clone }
    requires values { V.can_clone }
    requires equal { (a b : K) → K.same a b → K.eq a b ≡ true }
    requires distinct { IsDistinct K.eq (keys_of (reverse walk)) }
    requires empty { made.old.entries ≡ [] }
    ensures copied { OnOk result (AreCopies K.same V.same (reverse walk.entry) made.new.entries) }
    ensures error { IfErr result (MayRefuseEntries K.may_refuse V.may_refuse (reverse walk.entry)) }
{
    let mut walk = walk;
    'entries: while let Some((key, held)) = walk.next_back() {
        let key_copy = key.try_clone()?;
        let value = held.value.try_clone()?;
        let held_copy = Held {
            value,
            cost: held.cost,
        };
        match made.push(key_copy, held_copy) {
            Ok(_replaced) => (),
            Err(_back) => return Err(TryReserveError::AllocError),
        }
    }
    Ok(())
}
