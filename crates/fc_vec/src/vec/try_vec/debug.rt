//! The text of a vector by `{:?}`.
ghost use Rattle.std.specs.Fmt.{debug_list};

use super::TryVec;
use fc_base::Handle;
use std::fmt::{self, Debug};

/// `[item, ..]`, by `{:?}` of each item, in order. Upstream: `Debug` for `TryVec`.
impl<T: Debug, A: Handle> Debug for TryVec<T, A> {
    ghost debug_output = { λ v. debug_list T.debug_output v.items };

    fn fmt<W: fmt::Write>(&self, f: &mut fmt::Formatter<W>) -> fmt::Result {
        Debug::fmt(&self.inner, f)
    }
}
