//! Vectors made of copies.
ghost use Rattle.std.specs.Prelude.{◌≡◌, ◌+◌, ◌-◌, ◌^◌, ◌<◌, ◌≤◌, ◌⊎◌, [], length, take, replicate, IfOk, IfErr, OnOk, IsOk, MatchOption, vec_len, vec_capacity};
ghost use Rattle.std.specs.List.{AllZip, Any};
ghost use Rattle.fc_base.specs.Copies.{MayRefuseCopies};
ghost use Rattle.fc_vec.specs.Joined.{joined};
ghost use Rattle.fc_vec.specs.Vectors.{MayRefuse, IsExtended, IsFilled, IsCopiedUpTo};

use super::super::fallible_vec::FallibleVec;
use super::TryVec;
use fc_base::{Handle, TryClone, TryReserveError};

impl<T: TryClone, A: Handle> TryVec<T, A> {
    /// A vector of copies of the items, by `try_clone`, in order. Upstream: `TryVec::try_from` of a slice.
    ///
    /// # Errors
    /// `AllocError` where the room was refused, or the error of a refused copy. What was made by then is dropped.
    pub fn try_from_slice(alloc: A, items: &[T]) -> Result<TryVec<T, A>, TryReserveError>
        requires { T.can_clone }
        ensures copied { IfOk result (λ v. AllZip T.same items.now v.items) }
        ensures error { IfErr result (MayRefuseCopies T.may_refuse items.now) }
    {
        let mut made = TryVec::new(alloc);
        made.extend_from_slice(items)?;
        Ok(made)
    }

    /// Cuts the vector to `new_len` items, or fills it up with copies of `value`, by `try_clone`, of which the last is `value` itself. Not in upstream: it is
    /// that of std's vector, and `FallibleVec::try_resize_no_copy` for `Vec`.
    ///
    /// # Errors
    /// Only where `new_len` is greater than the length: `AllocError` where the room was refused, and the vector is as before; or the error of a refused
    /// copy, and the vector keeps the copies made before it. `value` is dropped.
    pub fn resize(&mut self, new_len: usize, value: T) -> Result<(), TryReserveError>
        requires { T.can_clone }
        ensures cut { new_len ≤ length self.old.items → IsOk result × (self.new.items ≡ take new_len self.old.items) × (self.new.room ≡ self.old.room) }
        ensures filled { length self.old.items < new_len → OnOk result (IsFilled T.same self.old.items new_len value self.new.items) }
        ensures kept { self.old.room ≤ self.new.room }
        ensures room { new_len ≤ self.old.room → self.new.room ≡ self.old.room }
        ensures error { IfErr result (λ e. ((self.old.room < new_len) × (e ≡ TryReserveError.AllocError) × (self.new ≡ self.old)) ⊎ IsCopiedUpTo T.same T.may_refuse e self.old.items (replicate (new_len - length self.old.items - 1) value) self.new.items) }
    {
        self.inner.try_resize_no_copy(new_len, value)
    }
}

impl<A: Handle> TryVec<u8, A> {
    /// A vector of the text's bytes. Upstream: `TryVec::try_from` of a text.
    ///
    /// # Errors
    /// `AllocError` where the room was refused.
    pub fn try_from_str(alloc: A, text: &str) -> Result<TryVec<u8, A>, TryReserveError>
        ensures bytes { IfOk result (λ v. v.items ≡ text.now) }
        ensures error { IfErr result (λ e. (0 < length text.now) × (e ≡ TryReserveError.AllocError)) }
    {
        TryVec::try_from_slice(alloc, text.as_bytes())
    }
}

/// A copy of a vector has a copy of each item, by `try_clone`, in order; it takes its memory where the vector does. Upstream:
/// `TryVec::try_clone`.
///
/// # Errors
/// `AllocError` where the room was refused, or the error of a refused copy; never where the vector is empty. What was made by
/// then is dropped.
impl<T: TryClone, A: Handle> TryClone for TryVec<T, A> {
    ghost same = { λ source copy. AllZip T.same source.items copy.items };

    ghost can_clone = { T.can_clone };

    ghost may_refuse = { λ source. MayRefuseCopies T.may_refuse source.items };

    fn try_clone(&self) -> Result<TryVec<T, A>, TryReserveError> {
        TryVec::try_from_slice(*self.inner.allocator(), self.inner.as_slice())
    }
}

impl<T: TryClone, A: Handle, B: Handle> TryVec<TryVec<T, B>, A> {
    /// The items of all parts in one vector, copied by `try_clone`, in order. It takes its memory where this vector does, and
    /// all of it before the first copy. Upstream: `TryVec::concat`, which adds up lengths unchecked.
    ///
    /// # Errors
    /// `CapacityOverflow` exactly where the lengths pass `usize::MAX` together, else `AllocError` where the room was refused;
    /// or the error of a refused copy. What was made by then is dropped.
    pub fn concat(&self) -> Result<TryVec<T, A>, TryReserveError>
        requires { T.can_clone }
        ensures joined { IfOk result (λ v. AllZip T.same (joined self.now.items) v.items) }
        ensures length { IfOk result (λ _. length (joined self.now.items) < 2 ^ 64) }
        ensures error { IfErr result (λ e. MayRefuse 0 0 (length (joined self.now.items)) e ⊎ Any (λ x. T.may_refuse x e) (joined self.now.items)) }
    {
        let Some(len) = total_len(self.as_slice()) else {
            return Err(TryReserveError::CapacityOverflow);
        };
        let mut made = Vec::try_with_capacity(*self.inner.allocator(), len)?;
        push_parts(&mut made, self.as_slice())?;
        Ok(TryVec { inner: made })
    }
}

// How many items all parts have, or `None` where that passes `usize::MAX`.
fn total_len<T, B: Handle>(parts: &[TryVec<T, B>]) -> Option<usize>
    ensures { MatchOption result (2 ^ 64 ≤ length (joined parts.now)) (λ n. n ≡ length (joined parts.now)) }
{
    let mut total: usize = 0;
    for i in 0..parts.len() {
        let part = &parts[i];
        total = total.checked_add(part.len())?;
    }
    Some(total)
}

// Puts a copy of each item of each part after the items, for which there is room.
fn push_parts<T: TryClone, A: Handle, B: Handle>(
    made: &mut Vec<T, A>,
    parts: &[TryVec<T, B>],
) -> Result<(), TryReserveError>
    requires copied { T.can_clone }
    requires room { vec_len made.old + length (joined parts.now) ≤ vec_capacity made.old }
    ensures extended { OnOk result (IsExtended T.same made.old.items (joined parts.now) made.new.items) }
    ensures error { IfErr result (λ e. IsCopiedUpTo T.same T.may_refuse e made.old.items (joined parts.now) made.new.items) }
{
    for i in 0..parts.len() {
        let part = &parts[i];
        T::try_clone_all(part.as_slice(), made)?;
    }
    Ok(())
}
