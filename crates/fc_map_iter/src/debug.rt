//! The texts of reading walks by `{:?}`: what is still to come, and the walk stays where it is.
use crate::iter::{Iter, Keys, Values};
use crate::range::Range;
use fc_base::Handle;
use std::fmt::{self, Debug};

/// `[(key, value), ..]`, the pairs still to come. Upstream: `Debug` for `btree_map::Iter`.
impl<'a, K: Debug, V: Debug, A: Handle> Debug for Iter<'a, K, V, A> {
    fn fmt<W: fmt::Write>(&self, f: &mut fmt::Formatter<W>) -> fmt::Result {
        f.debug_list().entries(self.clone().unwrap()).finish()
    }
}

/// `[(key, value), ..]`, the pairs still to come. Upstream: `Debug` for `btree_map::Range`.
impl<'a, K: Debug, V: Debug, A: Handle> Debug for Range<'a, K, V, A> {
    fn fmt<W: fmt::Write>(&self, f: &mut fmt::Formatter<W>) -> fmt::Result {
        f.debug_list().entries(self.clone().unwrap()).finish()
    }
}

/// `[key, ..]`, the keys still to come. Upstream: `Debug` for `btree_map::Keys`.
impl<'a, K: Debug, V, A: Handle> Debug for Keys<'a, K, V, A> {
    fn fmt<W: fmt::Write>(&self, f: &mut fmt::Formatter<W>) -> fmt::Result {
        f.debug_list().entries(self.clone().unwrap()).finish()
    }
}

/// `[value, ..]`, the values still to come. Upstream: `Debug` for `btree_map::Values`.
impl<'a, K, V: Debug, A: Handle> Debug for Values<'a, K, V, A> {
    fn fmt<W: fmt::Write>(&self, f: &mut fmt::Formatter<W>) -> fmt::Result {
        f.debug_list().entries(self.clone().unwrap()).finish()
    }
}
