//! The text of the owned walk over values by `{:?}`.
use super::IntoValues;
use fc_base::Handle;
use std::fmt::{self, Debug};

/// `IntoValues { pairs: [(key, value), ..] }`, with the values that are left and their keys, which are still there. Not in upstream: std's map shows the
/// values alone.
impl<K: Debug, V: Debug, A: Handle> Debug for IntoValues<K, V, A> {
    fn fmt<W: fmt::Write>(&self, f: &mut fmt::Formatter<W>) -> fmt::Result {
        f.debug_struct("IntoValues")
            .field("pairs", &self.pairs)
            .finish()
    }
}
