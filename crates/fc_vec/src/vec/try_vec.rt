//! A vector each of whose calls that take memory answers an error where it is refused.
ghost use Rattle.std.specs.Prelude.{◌≡◌, ◌+◌, ◌-◌, ◌^◌, ◌<◌, ◌≤◌, ◌⊎◌, ◌↔◌, [], ◌∷◌, ◌++◌, length, take, OnOk, IfOk, IfErr, IsOk, IsTrue, IsSome, vec_capacity};
ghost use Rattle.std.specs.List.{AppendsResults, insert};
ghost use Rattle.std.specs.Option.{option_to_list};
ghost use Rattle.fc_vec.specs.Vectors.{MayRefuse, IsExtended, IsCopiedUpTo};

mod clone;
mod compare;
mod copy;
mod debug;
mod deref;
mod drain;
mod extend;
mod iter;
mod lend;
mod moves;
mod order;
mod places;
mod removal;
mod room;
mod search;
mod std_io;
mod visits;

use super::fallible_vec::FallibleVec;
use fc_base::{Handle, TryClone, TryReserveError};
pub use iter::Iter;
use std::alloc::Global;
use std::marker::Model;

/// A vector that grows by calls that may be refused, and by no other. Upstream: `TryVec`.
#[derive(Drop)]
pub struct TryVec<T, A: Handle = Global> {
    inner: Vec<T, A>,
}

impl<T, A: Handle> Model for TryVec<T, A> {
    ghost use Rattle.std.specs.Prelude.{vec_capacity};
    ghost use Rattle.fc_vec.specs.Vectors.{Vector};

    ghost Value = { Vector T };

    ghost view = { λ v. record { items = v.inner.items; room = vec_capacity v.inner } };
}

impl<T, A: Handle> TryVec<T, A> {
    /// An empty vector, which takes no memory. Later requests go to `alloc`. Upstream: `TryVec::new`.
    pub fn new(alloc: A) -> TryVec<T, A>
        ensures items { result.items ≡ [] }
        ensures room { result.room ≡ 0 }
    {
        TryVec {
            inner: Vec::new(alloc),
        }
    }

    /// An empty vector, as `new` makes it. Upstream: `TryVec::default`.
    pub fn default(alloc: A) -> TryVec<T, A>
        ensures items { result.items ≡ [] }
        ensures room { result.room ≡ 0 }
    {
        TryVec::new(alloc)
    }

    /// An empty vector with room for `capacity` items; none takes no memory. Upstream: `TryVec::with_capacity`.
    ///
    /// # Errors
    /// `AllocError` where the room was refused.
    pub fn with_capacity(alloc: A, capacity: usize) -> Result<TryVec<T, A>, TryReserveError>
        ensures items { IfOk result (λ v. v.items ≡ []) }
        ensures room { IfOk result (λ v. capacity ≤ v.room) }
        ensures exact { IfOk result (λ v. v.room ≡ capacity) }
        ensures none { capacity ≡ 0 → IsOk result }
        ensures error { IfErr result (λ e. e ≡ TryReserveError.AllocError) }
    {
        let inner = Vec::try_with_capacity(alloc, capacity)?;
        Ok(TryVec { inner })
    }

    /// The number of items. Upstream: `len` of the slice.
    pub fn len(&self) -> usize
        ensures { result ≡ length self.now.items }
    {
        self.inner.len()
    }

    /// Whether there is no item. Upstream: `TryVec::is_empty`.
    pub fn is_empty(&self) -> bool
        ensures { IsTrue result ↔ (self.now.items ≡ []) }
    {
        self.inner.len() == 0
    }

    /// The items, for reading. Upstream: `TryVec::as_slice`.
    pub fn as_slice(&self) -> &[T]
        ensures { result.now ≡ self.now.items }
    {
        self.inner.as_slice()
    }

    /// Makes room for `additional` more items: where that is `Ok`, so are the next `additional` pushes, with no other call
    /// between. A reservation that fits, as that of no item, takes no memory and is `Ok`. Upstream: `TryVec::reserve`.
    ///
    /// # Errors
    /// `CapacityOverflow` exactly where the length plus `additional` passes `usize::MAX`, else `AllocError`. The vector is
    /// then as before.
    pub fn reserve(&mut self, additional: usize) -> Result<(), TryReserveError>
        ensures items { self.new.items ≡ self.old.items }
        ensures room { OnOk result (length self.old.items + additional ≤ self.new.room) }
        ensures length { OnOk result (length self.old.items + additional < 2 ^ 64) }
        ensures kept { self.old.room ≤ self.new.room }
        ensures none { additional ≡ 0 → IsOk result }
        ensures fits { length self.old.items + additional ≤ self.old.room → IsOk result × (self.new ≡ self.old) }
        ensures error { IfErr result (λ e. MayRefuse self.old.room (length self.old.items) additional e × (self.new ≡ self.old)) }
    {
        FallibleVec::try_reserve(&mut self.inner, additional)
    }

    /// Puts the item after the others; where there is room for it, that is `Ok` and takes no memory. Upstream:
    /// `TryVec::push`.
    ///
    /// # Errors
    /// As `reserve` for one item. The vector is then as before, and the item is dropped.
    pub fn push(&mut self, value: T) -> Result<(), TryReserveError>
    where
        T: Drop,
        ensures pushed { OnOk result (self.new.items ≡ self.old.items ++ value ∷ []) }
        ensures kept { self.old.room ≤ self.new.room }
        ensures fits { length self.old.items < self.old.room → IsOk result × (self.new.room ≡ self.old.room) }
        ensures error { IfErr result (λ e. MayRefuse self.old.room (length self.old.items) 1 e × (self.new ≡ self.old)) }
    {
        self.inner.try_push(value)
    }

    /// Puts the item at `index`, which is at most the length; those from there on move up by one place. Not in upstream: it is that of
    /// std's vector, which panics past the end, and `FallibleVec::try_insert` for `Vec`.
    ///
    /// # Errors
    /// As `reserve` for one item. The vector is then as before, and the item comes back.
    pub fn insert(&mut self, index: usize, element: T) -> Result<(), (T, TryReserveError)>
        requires { index ≤ length self.old.items }
        ensures inserted { OnOk result (self.new.items ≡ insert self.old.items index element) }
        ensures kept { self.old.room ≤ self.new.room }
        ensures fits { length self.old.items < self.old.room → IsOk result × (self.new.room ≡ self.old.room) }
        ensures given_back { IfErr result (λ e. e.0 ≡ element) }
        ensures error { IfErr result (λ e. MayRefuse self.old.room (length self.old.items) 1 e.1 × (self.new ≡ self.old)) }
    {
        self.inner.try_insert(index, element)
    }

    /// Takes out the last item; `None` where there is none. Upstream: `TryVec::pop`.
    pub fn pop(&mut self) -> Option<T>
        ensures popped { self.old.items ≡ self.new.items ++ option_to_list result }
        ensures some { IsSome result ↔ (0 < length self.old.items) }
        ensures room { self.new.room ≡ self.old.room }
    {
        self.inner.pop()
    }

    /// Drops all items, and keeps the room. Upstream: `TryVec::clear`.
    pub fn clear(&mut self)
    where
        T: Drop,
        ensures items { self.new.items ≡ [] }
        ensures room { self.new.room ≡ self.old.room }
    {
        self.inner.clear();
    }

    /// Moves all items of `other` after the own ones; `other` is then empty and keeps its room. Upstream: `TryVec::append`.
    ///
    /// # Errors
    /// As `reserve` for the length of `other`. Both vectors are then as before.
    pub fn append(&mut self, other: &mut TryVec<T, A>) -> Result<(), TryReserveError>
        ensures appended { OnOk result ((self.new.items ≡ self.old.items ++ other.old.items) × (other.new.items ≡ [])) }
        ensures kept { (self.old.room ≤ self.new.room) × (other.new.room ≡ other.old.room) }
        ensures none { other.old.items ≡ [] → IsOk result }
        ensures fits { length self.old.items + length other.old.items ≤ self.old.room → IsOk result }
        ensures error { IfErr result (λ e. MayRefuse self.old.room (length self.old.items) (length other.old.items) e × (self.new ≡ self.old) × (other.new ≡ other.old)) }
    {
        self.inner.try_append(&mut other.inner)
    }

    /// Cuts the vector to `new_len` items, or fills it up with what calls of `f` answer, one after another. Where the vector
    /// does not grow, `f` is not called; where it does, all room is taken before the first call. Upstream:
    /// `TryVec::resize_with`.
    ///
    /// # Errors
    /// `AllocError`, only where `new_len` is greater than the length. The vector is then as before, and `f` was not called.
    pub fn resize_with<F: FnMut() -> T>(
        &mut self,
        new_len: usize,
        f: F,
    ) -> Result<(), TryReserveError>
    where
        T: Drop,
        requires { length self.old.items < new_len → F.IsAlwaysCallable f }
        ensures filled { OnOk result (AppendsResults F.step (take new_len self.old.items) self.new.items f) }
        ensures length { OnOk result (length self.new.items ≡ new_len) }
        ensures kept { self.old.room ≤ self.new.room }
        ensures shorter { new_len ≤ length self.old.items → IsOk result × (self.new.room ≡ self.old.room) }
        ensures room { new_len ≤ self.old.room → self.new.room ≡ self.old.room }
        ensures error { IfErr result (λ e. (self.old.room < new_len) × (e ≡ TryReserveError.AllocError) × (self.new ≡ self.old)) }
    {
        FallibleVec::try_resize_with(&mut self.inner, new_len, f)
    }

    /// Puts a copy of each item of `other`, by `try_clone`, after the own ones. Upstream: `TryVec::extend_from_slice`.
    ///
    /// # Errors
    /// As `reserve` for the length of `other`, before the first copy, and the vector is as before; or the error of a refused
    /// copy, and the vector keeps the copies made before it.
    pub fn extend_from_slice(&mut self, other: &[T]) -> Result<(), TryReserveError>
    where
        T: TryClone,
        requires { T.can_clone }
        ensures extended { OnOk result (IsExtended T.same self.old.items other.now self.new.items) }
        ensures kept { self.old.room ≤ self.new.room }
        ensures error { IfErr result (λ e. (MayRefuse self.old.room (length self.old.items) (length other.now) e × (self.new ≡ self.old)) ⊎ IsCopiedUpTo T.same T.may_refuse e self.old.items other.now self.new.items) }
    {
        self.inner.try_extend_from_slice_no_copy(other)
    }

    /// The vector of std's, with its items and room, handed out. Not in upstream, where it stays inside.
    pub fn into_vec(self) -> Vec<T, A>
        ensures items { result.items ≡ self.items }
        ensures room { vec_capacity result ≡ self.room }
    {
        let TryVec { inner } = self;
        inner
    }
}

/// The vector's items and room, taken over as they are.
impl<T, A: Handle> From<Vec<T, A>> for TryVec<T, A> {
    ghost from_gives = { λ v made. (made.items ≡ v.items) × (made.room ≡ vec_capacity v) };

    fn from(value: Vec<T, A>) -> TryVec<T, A> {
        TryVec { inner: value }
    }
}

/// The vector's items and room, handed out as they are. Not in upstream, where they stay inside.
impl<T, A: Handle> From<TryVec<T, A>> for Vec<T, A> {
    ghost from_gives = { λ v made. (made.items ≡ v.items) × (vec_capacity made ≡ v.room) };

    fn from(value: TryVec<T, A>) -> Vec<T, A> {
        value.into_vec()
    }
}
