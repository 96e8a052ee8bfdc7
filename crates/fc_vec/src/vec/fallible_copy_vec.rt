//! Calls on vectors of items that are copied byte by byte.
ghost use Rattle.std.specs.Prelude.{◌≡◌, ℕ, ◌+◌, ◌<◌, ◌≤◌, List, ◌++◌, length, OnOk, IfErr, IsOk, vec_capacity};
ghost use Rattle.fc_vec.specs.Vectors.{MayRefuse, resized};

use super::fallible_vec::reserve;
use fc_base::{Handle, TryReserveError};

/// The calls of `FallibleVec` that ask `T: Copy`: a trait's method cannot ask that of the trait's own parameter, so the impl
/// does. Upstream they are methods of `FallibleVec`.
pub trait FallibleCopyVec<T> {
    // The items, in order.
    ghost contents: { Self → List T };
    // How many items fit before the next request for memory.
    ghost room: { Self → ℕ };

    /// Cuts the vector to `new_len` items, or fills it up with `value`. Upstream: `FallibleVec::try_resize`.
    ///
    /// # Errors
    /// `AllocError`, only where `new_len` is greater than the length. The vector is then as before.
    fn try_resize(&mut self, new_len: usize, value: T) -> Result<(), TryReserveError>
        ensures resized { OnOk result (contents self.new ≡ resized (contents self.old) new_len value) }
        ensures kept { room self.old ≤ room self.new }
        ensures shorter { new_len ≤ length (contents self.old) → IsOk result × (room self.new ≡ room self.old) }
        ensures error { IfErr result (λ e. (room self.old < new_len) × (e ≡ TryReserveError.AllocError) × (contents self.new ≡ contents self.old) × (room self.new ≡ room self.old)) };

    /// Puts all items of `other` after the own ones. Upstream: `FallibleVec::try_extend_from_slice`.
    ///
    /// # Errors
    /// As `try_reserve` for the length of `other`. The vector is then as before.
    fn try_extend_from_slice(&mut self, other: &[T]) -> Result<(), TryReserveError>
        ensures extended { OnOk result (contents self.new ≡ contents self.old ++ other.now) }
        ensures kept { room self.old ≤ room self.new }
        ensures fits { length (contents self.old) + length other.now ≤ room self.old → IsOk result }
        ensures error { IfErr result (λ e. MayRefuse (room self.old) (length (contents self.old)) (length other.now) e × (contents self.new ≡ contents self.old) × (room self.new ≡ room self.old)) };
}

impl<T: Copy, A: Handle> FallibleCopyVec<T> for Vec<T, A> {
    ghost contents = { λ v. v.items };

    ghost room = { λ v. vec_capacity v };

    fn try_resize(&mut self, new_len: usize, value: T) -> Result<(), TryReserveError> {
        let len = self.len();
        if new_len <= len {
            self.truncate(new_len);
            return Ok(());
        }
        reserve(self, new_len - len)?;
        self.resize(new_len, value)?;
        Ok(())
    }

    fn try_extend_from_slice(&mut self, other: &[T]) -> Result<(), TryReserveError> {
        reserve(self, other.len())?;
        self.extend_from_slice(other)?;
        Ok(())
    }
}
