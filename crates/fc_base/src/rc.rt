//! Shared values that are made or refused.
ghost use Rattle.std.specs.Prelude.{◌≡◌, IfOk, IfErr};

use crate::TryReserveError;
use std::alloc::Global;
use std::rc::Rc;

/// A shared value that is made in one request for memory, or not at all. Upstream: `FallibleRc`.
pub trait FallibleRc<T> {
    // Holds of an owner and the value that it shares.
    ghost holds: { Self → T → Type 0 };

    /// Puts the value where several owners can share it, and answers the first of them. Upstream: `FallibleRc::try_new`.
    ///
    /// # Errors
    /// `AllocError` if the memory for it is refused. The value is then dropped.
    fn try_new(alloc: Global, t: T) -> Result<Self, TryReserveError>
        ensures ok { IfOk result (λ rc. holds rc t) }
        ensures error { IfErr result (λ e. e ≡ TryReserveError.AllocError) };
}

impl<T: Drop> FallibleRc<T> for Rc<T> {
    ghost holds = { λ rc t. rc.value ≡ t };

    fn try_new(alloc: Global, t: T) -> Result<Rc<T>, TryReserveError> {
        Ok(Rc::new(alloc, t)?)
    }
}
