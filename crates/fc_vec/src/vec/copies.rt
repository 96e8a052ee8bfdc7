//! Copies of items, put after those of a vector.
ghost use Rattle.std.specs.Prelude.{◌≡◌, ◌+◌, ◌-◌, ◌<◌, ◌≤◌, ◌⊎◌, [], length, replicate, IfOk, IfErr, OnOk, IsOk, vec_len, vec_capacity};
ghost use Rattle.fc_vec.specs.Vectors.{IsExtended, IsFilled, IsCopiedUpTo};

use super::fallible_vec::FallibleVec;
use fc_base::{Handle, TryClone, TryReserveError};

// Puts so many copies of the source after the items, for which there is room.
pub(crate) fn push_repeated<T: TryClone, A: Handle>(
    v: &mut Vec<T, A>,
    source: &T,
    count: usize,
) -> Result<(), TryReserveError>
    requires copied { T.can_clone }
    requires room { vec_len v.old + count ≤ vec_capacity v.old }
    ensures extended { OnOk result (IsExtended T.same v.old.items (replicate count source.now) v.new.items) }
    ensures error { IfErr result (λ e. IsCopiedUpTo T.same T.may_refuse e v.old.items (replicate count source.now) v.new.items) }
    ensures room { vec_capacity v.new ≡ vec_capacity v.old }
{
    for i in 0..count {
        let copy = source.try_clone()?;
        v.push_reserved(copy);
    }
    Ok(())
}

/// A vector of `n` items: copies of `elem`, and at the last place `elem` itself; of none where `n` is 0. Upstream:
/// `try_from_elem`.
///
/// # Errors
/// `AllocError` where the room was refused, or the error of a refused copy. What was made by then is dropped.
pub fn try_from_elem<T: TryClone, A: Handle>(
    alloc: A,
    elem: T,
    n: usize,
) -> Result<Vec<T, A>, TryReserveError>
    requires { T.can_clone }
    ensures none { n ≡ 0 → IsOk result × IfOk result (λ v. v.items ≡ []) }
    ensures filled { 0 < n → IfOk result (λ v. IsFilled T.same [] n elem v.items) }
    ensures error { IfErr result (λ e. (e ≡ TryReserveError.AllocError) ⊎ ((1 < n) × T.may_refuse elem e)) }
{
    let mut made = Vec::new(alloc);
    made.try_resize_no_copy(n, elem)?;
    Ok(made)
}
