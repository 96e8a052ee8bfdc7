//! The texts of sets and of their walks by `{:?}`: a walk shows what is still to come, and stays where it is.
use super::super::BTreeSet;
use super::{IntoIter, Iter, Range};
use fc_base::Handle;
use std::fmt::{self, Debug};

/// `{item, ..}`, in ascending order. Upstream: `Debug` for `BTreeSet`.
impl<T: Ord + Debug, A: Handle> Debug for BTreeSet<T, A> {
    fn fmt<W: fmt::Write>(&self, f: &mut fmt::Formatter<W>) -> fmt::Result {
        f.debug_set().entries(self.iter()).finish()
    }
}

/// `Iter([item, ..])`. Upstream: `Debug` for `btree_set::Iter`.
impl<'a, T: Debug, A: Handle> Debug for Iter<'a, T, A> {
    fn fmt<W: fmt::Write>(&self, f: &mut fmt::Formatter<W>) -> fmt::Result {
        f.debug_tuple("Iter").field(&self.keys).finish()
    }
}

/// `IntoIter { iter: [(item, ()), ..] }`. Upstream: `Debug` for `btree_set::IntoIter`.
impl<T: Debug, A: Handle> Debug for IntoIter<T, A> {
    fn fmt<W: fmt::Write>(&self, f: &mut fmt::Formatter<W>) -> fmt::Result {
        f.debug_struct("IntoIter")
            .field("iter", &self.pairs)
            .finish()
    }
}

/// `Range { iter: [(item, ()), ..] }`. Upstream: `Debug` for `btree_set::Range`.
impl<'a, T: Debug, A: Handle> Debug for Range<'a, T, A> {
    fn fmt<W: fmt::Write>(&self, f: &mut fmt::Formatter<W>) -> fmt::Result {
        f.debug_struct("Range").field("iter", &self.pairs).finish()
    }
}
