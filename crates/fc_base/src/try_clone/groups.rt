// Copies of values that stand together, and of what is shared or lent.
ghost use Rattle.std.specs.Prelude.{◌≡◌, ◌⊎◌, Ok};
ghost use Rattle.std.specs.String.{string_bytes};
ghost use Rattle.fc_base.specs.declared.try_reserve_error.TryReserveError.{TryReserveError};
ghost use Rattle.fc_base.specs.Copies.{SameBound, MayRefuseBound};

use super::TryClone;
use super::at_once::copy_all;
use crate::handle::Handle;
use crate::try_reserve_error::TryReserveError;
use std::alloc::Allocator;
use std::ops::Bound;
use std::rc::Rc;

/// A copy of the text, in room of its own that it takes where this one does. Not in upstream.
///
/// # Errors
/// `AllocError` if the room is refused.
impl<A: Handle> TryClone for String<A> {
    ghost same = { λ source copy. string_bytes copy ≡ string_bytes source };

    ghost may_refuse = { λ _ e. e ≡ TryReserveError.AllocError };

    fn try_clone(&self) -> Result<String<A>, TryReserveError> {
        Ok(self.clone()?)
    }
}

/// Copies of both. Not in upstream.
///
/// # Errors
/// The error of either's copy: of the first, where that is refused. What was made by then is dropped.
impl<S: TryClone, T: TryClone> TryClone for (S, T) {
    ghost same = { λ source copy. S.same source.0 copy.0 × T.same source.1 copy.1 };

    ghost can_clone = { S.can_clone × T.can_clone };

    ghost may_refuse = { λ source e. S.may_refuse source.0 e ⊎ T.may_refuse source.1 e };

    fn try_clone(&self) -> Result<(S, T), TryReserveError> {
        let first = self.0.try_clone()?;
        let second = self.1.try_clone()?;
        Ok((first, second))
    }
}

/// Copies of all three. Not in upstream.
///
/// # Errors
/// The error of the first of the three copies that is refused. What was made by then is dropped.
impl<S: TryClone, T: TryClone, U: TryClone> TryClone for (S, T, U) {
    ghost same = { λ source copy. S.same source.0 copy.0 × T.same source.1 copy.1 × U.same source.2 copy.2 };

    ghost can_clone = { S.can_clone × T.can_clone × U.can_clone };

    ghost may_refuse = { λ source e. S.may_refuse source.0 e ⊎ T.may_refuse source.1 e ⊎ U.may_refuse source.2 e };

    fn try_clone(&self) -> Result<(S, T, U), TryReserveError> {
        let first = self.0.try_clone()?;
        let second = self.1.try_clone()?;
        let third = self.2.try_clone()?;
        Ok((first, second, third))
    }
}

/// The same items once more. Not in upstream.
impl<T: Copy, const N: usize> TryClone for [T; N] {
    ghost same = { λ source copy. copy ≡ source };

    ghost may_refuse = { λ _ _. ⊥ };

    fn try_clone(&self) -> Result<[T; N], TryReserveError> {
        taken(*self)
    }

    fn try_clone_all<A: Handle>(
        sources: &[[T; N]],
        copies: &mut Vec<[T; N], A>,
    ) -> Result<(), TryReserveError> {
        copy_all(sources, copies)
    }
}

/// One more owner of the same value, which takes no memory. Not in upstream.
///
/// # Errors
/// `AllocError` where there are as many owners as can be counted.
impl<T: Drop, A: Allocator> TryClone for Rc<T, A> {
    ghost same = { λ source copy. copy.value ≡ source.value };

    ghost may_refuse = { λ _ e. e ≡ TryReserveError.AllocError };

    fn try_clone(&self) -> Result<Rc<T, A>, TryReserveError> {
        Ok(self.clone()?)
    }
}

/// The same reference once more. Not in upstream.
impl<'a, T> TryClone for &'a T {
    ghost same = { λ source copy. copy.now ≡ source.now };

    ghost may_refuse = { λ _ _. ⊥ };

    fn try_clone(&self) -> Result<&'a T, TryReserveError> {
        Ok(*self)
    }
}

/// The same text, lent once more. Not in upstream.
impl<'a> TryClone for &'a str {
    ghost same = { λ source copy. copy.now ≡ source.now };

    ghost may_refuse = { λ _ _. ⊥ };

    fn try_clone(&self) -> Result<&'a str, TryReserveError> {
        Ok(*self)
    }
}

/// The bound with a copy of its key; an end without a bound is one. Not in upstream.
///
/// # Errors
/// The error of the key's own copy.
impl<T: TryClone> TryClone for Bound<T> {
    ghost same = { SameBound T.same };

    ghost can_clone = { T.can_clone };

    ghost may_refuse = { MayRefuseBound T.may_refuse };

    fn try_clone(&self) -> Result<Bound<T>, TryReserveError> {
        match self {
            Bound::Included(key) => {
                let copy = key.try_clone()?;
                Ok(Bound::Included(copy))
            }
            Bound::Excluded(edge) => {
                let copied = edge.try_clone()?;
                Ok(Bound::Excluded(copied))
            }
            Bound::Unbounded => Ok(Bound::Unbounded),
        }
    }
}

// `Ok` of a value, which the borrow checker makes of a parameter where it makes none of an array whose length is one.
fn taken<T>(value: T) -> Result<T, TryReserveError>
    ensures { result ≡ Ok value }
{
    Ok(value)
}
