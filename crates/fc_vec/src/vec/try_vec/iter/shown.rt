//! Copies and texts of walks over a vector: of the items that are still to come, and the walk stays where it is.
ghost use Rattle.std.specs.Prelude.{◌≡◌, ⊤};
ghost use Rattle.std.specs.Fmt.{debug_list};

use super::Iter;
use std::alloc::AllocError;
use std::fmt::{self, Debug};

impl<'a, T> Clone for Iter<'a, T> {
    ghost is_clone = { λ s r. r ≡ s };

    ghost is_infallible = { λ _. ⊤ };

    /// A second walk over the items still to come, which takes no memory.
    fn clone(&self) -> Result<Iter<'a, T>, AllocError> {
        Ok(Iter { rest: self.rest })
    }
}

/// `Iter([item, ..])`, the items still to come. Not in upstream: it is that of std's walk.
impl<'a, T: Debug> Debug for Iter<'a, T> {
    fn fmt<W: fmt::Write>(&self, f: &mut fmt::Formatter<W>) -> fmt::Result {
        f.debug_tuple("Iter").field(&self.rest).finish()
    }
}
