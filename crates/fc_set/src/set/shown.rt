//! The texts of lazy set operations by `{:?}`: the items still to come, and the operation stays where it is.
use super::{Difference, Intersection, SymmetricDifference, Union};
use fc_base::Handle;
use std::fmt::{self, Debug};

/// `[item, ..]`, those of either set. Upstream: `Debug` for `btree_set::Union`, which prints both sides instead.
impl<'a, T: Ord + Debug, A: Handle> Debug for Union<'a, T, A> {
    fn fmt<W: fmt::Write>(&self, f: &mut fmt::Formatter<W>) -> fmt::Result {
        f.debug_list().entries(self.clone().unwrap()).finish()
    }
}

/// `[item, ..]`, those of one set alone. Upstream: `Debug` for `btree_set::SymmetricDifference`, which prints both sides instead.
impl<'a, T: Ord + Debug, A: Handle> Debug for SymmetricDifference<'a, T, A> {
    fn fmt<W: fmt::Write>(&self, f: &mut fmt::Formatter<W>) -> fmt::Result {
        f.debug_list().entries(self.clone().unwrap()).finish()
    }
}

/// `[item, ..]`, those of both sets. Upstream: `Debug` for `btree_set::Intersection`, which prints both sides instead.
impl<'a, T: Ord + Debug, A: Handle> Debug for Intersection<'a, T, A> {
    fn fmt<W: fmt::Write>(&self, f: &mut fmt::Formatter<W>) -> fmt::Result {
        f.debug_list().entries(self.clone().unwrap()).finish()
    }
}

/// `[item, ..]`, those of the first set that the other has not. Upstream: `Debug` for `btree_set::Difference`, which prints both sides instead.
impl<'a, T: Ord + Debug, A: Handle> Debug for Difference<'a, T, A> {
    fn fmt<W: fmt::Write>(&self, f: &mut fmt::Formatter<W>) -> fmt::Result {
        f.debug_list().entries(self.clone().unwrap()).finish()
    }
}
