//! Why a growth was refused.
ghost use Rattle.std.specs.Prelude.{◌≡◌};
ghost use Rattle.fc_base.specs.declared.try_reserve_error.TryReserveError.{TryReserveError};

use std::alloc::{AllocError, AllocFailed};
use std::error::Error;
use std::fmt;

/// Why a call that takes memory was refused. What the refused call leaves stands at each call.
#[derive(Clone, Copy, PartialEq, Eq, Debug)]
pub enum TryReserveError {
    /// The length and the items to be added pass `usize::MAX` together.
    CapacityOverflow,
    /// A request for memory was refused, or asked for more bytes than an allocation may have.
    AllocError,
}

impl fmt::Display for TryReserveError {
    fn fmt<W: fmt::Write>(&self, f: &mut fmt::Formatter<W>) -> fmt::Result {
        match self {
            TryReserveError::CapacityOverflow => {
                f.write_str("the collection would pass usize::MAX items")
            }
            TryReserveError::AllocError => f.write_str("the allocator refused the memory"),
        }
    }
}

impl Error for TryReserveError {}

/// A refused request is `AllocError`, so `?` converts std's refusals.
impl From<AllocError> for TryReserveError {
    ghost from_gives = { λ _ e. e ≡ TryReserveError.AllocError };

    fn from(_e: AllocError) -> TryReserveError {
        TryReserveError::AllocError
    }
}

/// A refused request is `AllocError`; the value that found no room is dropped.
impl<T: Drop> From<AllocFailed<T>> for TryReserveError {
    ghost from_gives = { λ _ e. e ≡ TryReserveError.AllocError };

    fn from(_e: AllocFailed<T>) -> TryReserveError {
        TryReserveError::AllocError
    }
}
