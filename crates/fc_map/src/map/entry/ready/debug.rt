//! The text of a gap with its nodes made by `{:?}`.
use super::{Nodes, ReadyEntry};
use fc_base::Handle;
use std::fmt::{self, Debug};

/// `ReadyEntry(key)`, with the key that is to be put in, as the text of a `VacantEntry`.
impl<'a, K: Ord + Debug, V, A: Handle, N: Nodes> Debug for ReadyEntry<'a, K, V, A, N> {
    fn fmt<W: fmt::Write>(&self, f: &mut fmt::Formatter<W>) -> fmt::Result {
        f.debug_tuple("ReadyEntry").field(self.key()).finish()
    }
}
