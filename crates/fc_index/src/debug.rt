//! The text of a table by `{:?}`.
use crate::table::Table;
use fc_base::Handle;
use std::fmt::{self, Debug};

/// `{id: Keyed { first: .., second: .., value: .. }, ..}`, in the order of the ids.
impl<I: Ord + Debug, A: Ord + Debug, B: Ord + Debug, V: Debug, H: Handle> Debug
    for Table<I, A, B, V, H> {
    fn fmt<W: fmt::Write>(&self, f: &mut fmt::Formatter<W>) -> fmt::Result {
        f.debug_map().entries(self.iter()).finish()
    }
}
