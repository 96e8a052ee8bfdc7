//! A bridge from std's `Clone`, whose refusals are `AllocError`, to copies that may be refused.
ghost use Rattle.std.specs.Prelude.{◌≡◌};
ghost use Rattle.fc_base.specs.declared.try_reserve_error.TryReserveError.{TryReserveError};

use super::TryClone;
use crate::try_reserve_error::TryReserveError;

/// A value that is copied by its type's `Clone`, for types that have that and no `TryClone`: as a map's value, or as a key, since it is
/// ordered, equal, hashed and printed as the value in it is. Not in upstream.
#[derive(Clone, Copy, Drop, PartialEq, Eq, PartialOrd, Ord, Hash, Debug)]
pub struct ByClone<T>(pub T);

/// What `clone` of the value answers.
///
/// # Errors
/// `AllocError` where `clone` is refused.
impl<T: Clone> TryClone for ByClone<T> {
    ghost same = { λ source copy. T.is_clone source.0 copy.0 };

    ghost may_refuse = { λ _ e. e ≡ TryReserveError.AllocError };

    fn try_clone(&self) -> Result<ByClone<T>, TryReserveError> {
        let copy = self.0.clone()?;
        Ok(ByClone(copy))
    }
}
