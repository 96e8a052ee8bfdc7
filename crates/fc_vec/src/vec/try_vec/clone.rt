//! Clones of a vector by std's trait, for structs that derive it.
ghost use Rattle.std.specs.List.{AllZip};

use super::TryVec;
use fc_base::Handle;
use std::alloc::AllocError;

/// A clone of a vector has a clone of each item, in order; it takes its memory where the vector does. Not in upstream: it is that of std's vector.
///
/// # Errors
/// Where the room or the clone of an item was refused. What was made by then is dropped.
impl<T: Clone, A: Handle> Clone for TryVec<T, A> {
    ghost is_clone = { λ v w. AllZip T.is_clone v.items w.items };

    fn clone(&self) -> Result<TryVec<T, A>, AllocError> {
        let inner = Vec::from_clones(*self.inner.allocator(), self.inner.as_slice())?;
        Ok(TryVec { inner })
    }
}
