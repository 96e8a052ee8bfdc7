//! Boxes that are made or refused.
ghost use Rattle.std.specs.Prelude.{◌≡◌, ◌⊎◌, IfOk, IfErr};
ghost use Rattle.fc_base.specs.declared.try_reserve_error.TryReserveError.{TryReserveError};
ghost use Rattle.fc_base.specs.Boxed.{boxed_value};

use crate::handle::Handle;
use crate::{TryClone, TryReserveError};
use std::alloc::Global;
use std::ops::Deref;

/// A box that is made in one request for memory, or not at all.
pub trait FallibleBox<T> {
    // Holds of a box and the value in it.
    ghost holds: { Self → T → Type 0 };

    /// Puts the value into a box.
    ///
    /// # Errors
    /// `AllocError` if the memory for it is refused. The value is then dropped. A value of no size takes no memory.
    fn try_new(alloc: Global, t: T) -> Result<Self, TryReserveError>
        ensures ok { IfOk result (λ b. holds b t) }
        ensures error { IfErr result (λ e. e ≡ TryReserveError.AllocError) };
}

impl<T: Drop> FallibleBox<T> for Box<T> {
    ghost holds = { λ b t. b.value ≡ t };

    fn try_new(alloc: Global, t: T) -> Result<Box<T>, TryReserveError> {
        Ok(Box::new(alloc, t)?)
    }
}

/// A value on the heap, in a box that is made in one request for memory or not at all, and that is copied the same way. It is read through
/// `Deref`. Upstream: `TryBox`.
#[derive(Drop)]
pub struct TryBox<T, A: Handle = Global> {
    inner: Box<T, A>,
}

impl<T, A: Handle> TryBox<T, A> {
    /// Puts the value into a box. Upstream: `TryBox::try_new`.
    ///
    /// # Errors
    /// `AllocError` if the memory for it is refused. The value is then dropped. A value of no size takes no memory.
    pub fn try_new(alloc: A, t: T) -> Result<TryBox<T, A>, TryReserveError>
    where
        T: Drop,
        ensures ok { IfOk result (λ b. boxed_value b ≡ t) }
        ensures error { IfErr result (λ e. e ≡ TryReserveError.AllocError) }
    {
        let inner = Box::new(alloc, t)?;
        Ok(TryBox { inner })
    }
}

impl<T, A: Handle> Deref for TryBox<T, A> {
    type Target = T;

    ghost deref_gives = { λ b x. x ≡ boxed_value b };

    fn deref(&self) -> &T
        ensures { result.now ≡ boxed_value self.now }
    {
        self.inner.as_ref()
    }
}

/// A copy of the value, in a box of its own that takes its memory where this one does. Upstream: `TryBox::try_clone`.
///
/// # Errors
/// The error of the value's own copy, or `AllocError` if the memory for the box is refused. What was made by then is dropped.
impl<T: TryClone, A: Handle> TryClone for TryBox<T, A> {
    ghost same = { λ source copy. T.same (boxed_value source) (boxed_value copy) };

    ghost can_clone = { T.can_clone };

    ghost may_refuse = { λ source e. (e ≡ TryReserveError.AllocError) ⊎ T.may_refuse (boxed_value source) e };

    fn try_clone(&self) -> Result<TryBox<T, A>, TryReserveError> {
        let inner = self.inner.try_clone()?;
        Ok(TryBox { inner })
    }
}
