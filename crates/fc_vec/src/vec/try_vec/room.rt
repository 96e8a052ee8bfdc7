//! A vector's room, and vectors that share their items or start from none.
ghost use Rattle.std.specs.Prelude.{◌≡◌, ◌+◌, ◌^◌, ◌<◌, ◌≤◌, [], length, max, take, drop, IfOk, IfErr, OnOk, IsOk};
ghost use Rattle.fc_vec.specs.Vectors.{MayRefuse};

use super::TryVec;
use fc_base::{Handle, TryReserveError};
use std::alloc::AllocError;
use std::default::{Emptied, MadeWith};

impl<T, A: Handle> TryVec<T, A> {
    /// How many items fit before the next request for memory. Not in upstream: it is that of std's vector.
    pub fn capacity(&self) -> usize
        ensures { result ≡ self.now.room }
    {
        self.inner.capacity()
    }

    /// Makes room for `additional` more items, and for no more than these where there was too little. Not in upstream: it is that of std's vector.
    ///
    /// # Errors
    /// As `reserve`.
    pub fn reserve_exact(&mut self, additional: usize) -> Result<(), TryReserveError>
        ensures items { self.new.items ≡ self.old.items }
        ensures room { OnOk result (self.new.room ≡ max self.old.room (length self.old.items + additional)) }
        ensures length { OnOk result (length self.old.items + additional < 2 ^ 64) }
        ensures fits { length self.old.items + additional ≤ self.old.room → IsOk result × (self.new ≡ self.old) }
        ensures error { IfErr result (λ e. MayRefuse self.old.room (length self.old.items) additional e × (self.new ≡ self.old)) }
    {
        if usize::MAX - self.inner.len() < additional {
            return Err(TryReserveError::CapacityOverflow);
        }
        self.inner.reserve_exact(additional)?;
        Ok(())
    }

    /// Gives room back that no item takes; an empty vector has none then. Where the smaller room is refused, it keeps what it has. Not in upstream: it
    /// is that of std's vector.
    pub fn shrink_to_fit(&mut self)
        ensures items { self.new.items ≡ self.old.items }
        ensures fewer { self.new.room ≤ self.old.room }
        ensures enough { length self.new.items ≤ self.new.room }
        ensures none { self.old.items ≡ [] → self.new.room ≡ 0 }
    {
        self.inner.shrink_to_fit();
    }

    /// Takes out the items from `at` on, which is at most the length, as a vector that takes its memory where this one does; this one keeps its room.
    /// None is taken where `at` is the length. Not in upstream: it is that of std's vector, which panics past the end.
    ///
    /// # Errors
    /// `AllocError` where the room for these items was refused. The vector is then as before.
    pub fn split_off(&mut self, at: usize) -> Result<TryVec<T, A>, TryReserveError>
        requires { at ≤ length self.old.items }
        ensures kept { OnOk result (self.new.items ≡ take at self.old.items) }
        ensures taken { IfOk result (λ rest. rest.items ≡ drop at self.old.items) }
        ensures room { self.new.room ≡ self.old.room }
        ensures none { at ≡ length self.old.items → IsOk result }
        ensures error { IfErr result (λ e. (at < length self.old.items) × (e ≡ TryReserveError.AllocError) × (self.new ≡ self.old)) }
    {
        if at == self.inner.len() {
            return Ok(TryVec::new(*self.inner.allocator()));
        }
        let inner = self.inner.split_off(at)?;
        Ok(TryVec { inner })
    }
}

/// An empty vector, which takes no memory: `or_default` of a map makes it.
impl<T, A: Handle> MadeWith<A> for TryVec<T, A> {
    ghost is_made_with = { λ v. (v.items ≡ []) × (v.room ≡ 0) };

    fn made_with(alloc: A) -> TryVec<T, A> {
        TryVec::new(alloc)
    }
}

/// An empty vector, which `std::mem::try_take` leaves in the place of the one that it answers. It takes no memory.
impl<T, A: Handle> Emptied for TryVec<T, A> {
    ghost is_emptied = { λ v. (v.items ≡ []) × (v.room ≡ 0) };

    fn emptied(like: &TryVec<T, A>) -> Result<TryVec<T, A>, AllocError>
        ensures empty { IfOk result (λ v. (v.items ≡ []) × (v.room ≡ 0)) }
        ensures ok { IsOk result }
    {
        Ok(TryVec::new(*like.inner.allocator()))
    }
}
