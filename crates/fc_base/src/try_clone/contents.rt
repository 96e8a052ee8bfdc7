// Copies of what holds values: each value is copied by its own `try_clone`.
ghost use Rattle.std.specs.Prelude.{◌≡◌, ◌⊎◌, MatchOption};
ghost use Rattle.std.specs.List.{AllZip};
ghost use Rattle.fc_base.specs.declared.try_reserve_error.TryReserveError.{TryReserveError};
ghost use Rattle.fc_base.specs.Copies.{SameContents, MayRefuseCopies};

use super::TryClone;
use crate::handle::Handle;
use crate::try_reserve_error::TryReserveError;

/// `None`, or a copy of the value. Upstream: `Option::try_clone`.
///
/// # Errors
/// The error of the value's own copy; never for `None`.
impl<T: TryClone> TryClone for Option<T> {
    ghost same = { SameContents T.same };

    ghost can_clone = { T.can_clone };

    ghost may_refuse = { λ source e. MatchOption source ⊥ (λ value. T.may_refuse value e) };

    fn try_clone(&self) -> Result<Option<T>, TryReserveError> {
        match self {
            Some(value) => {
                let copy = value.try_clone()?;
                Ok(Some(copy))
            }
            None => Ok(None),
        }
    }
}

/// A copy of the value, in a box of its own that takes its memory where this one does. Upstream: `Box::try_clone`.
///
/// # Errors
/// The error of the value's own copy, or `AllocError` if the memory for the box is refused. What was made by then is dropped.
impl<T: TryClone, A: Handle> TryClone for Box<T, A> {
    ghost same = { λ source copy. T.same source.value copy.value };

    ghost can_clone = { T.can_clone };

    ghost may_refuse = { λ source e. (e ≡ TryReserveError.AllocError) ⊎ T.may_refuse source.value e };

    fn try_clone(&self) -> Result<Box<T, A>, TryReserveError> {
        let copy = self.as_ref().try_clone()?;
        Ok(Box::new(*Box::allocator(self), copy)?)
    }
}

/// A copy of each item, in order; room for all of them is taken first, where the vector takes its own. Upstream: `Vec::try_clone`.
///
/// # Errors
/// `AllocError` if the room is refused, or the error of an item's own copy; never for an empty vector. What was made by then is dropped.
impl<T: TryClone, A: Handle> TryClone for Vec<T, A> {
    ghost same = { λ source copy. AllZip T.same source.items copy.items };

    ghost can_clone = { T.can_clone };

    ghost may_refuse = { λ source. MayRefuseCopies T.may_refuse source.items };

    fn try_clone(&self) -> Result<Vec<T, A>, TryReserveError> {
        let mut copies = Vec::with_capacity(*self.allocator(), self.len())?;
        T::try_clone_all(self.as_slice(), &mut copies)?;
        Ok(copies)
    }
}
