//! Vectors whose growth may be refused.
ghost use Rattle.std.specs.Prelude.{◌≡◌, ◌++◌, ◌∷◌, [], length, OnOk, IfErr};
ghost use Rattle.fallible_collections.specs.Words.{MayRefuse};

use fallible_collections::{TryReserveError, TryVec};

/// Puts two items after the vector's own. Once there is room for both no push is refused, so that each is unwrapped.
///
/// # Errors
/// Those of `TryVec::reserve` for two items. The vector is then as before.
pub fn push_both<T: Drop>(v: &mut TryVec<T>, first: T, second: T) -> Result<(), TryReserveError>
    ensures pushed { OnOk result (v.new.items ≡ v.old.items ++ first ∷ second ∷ []) }
    ensures error { IfErr result (λ e. MayRefuse v.old.room (length v.old.items) 2 e × (v.new ≡ v.old)) }
{
    v.reserve(2)?;
    v.push(first).unwrap(); // there is room
    v.push(second).unwrap();
    Ok(())
}
