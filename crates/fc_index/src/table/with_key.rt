//! Rows with just one second key.
ghost use Rattle.std.specs.Prelude.{◌↔◌, IsTrue};
ghost use Rattle.std.specs.Ordering.{is_eq};
ghost use Rattle.fc_index.specs.ByKey.{HasRowOf};
ghost use Rattle.fc_index.specs.Rows.{AreByKey};

use super::Table;
use fc_base::Handle;
use fc_set::set::Range;
use std::ops::Bound;

impl<I: Ord + Copy, A: Ord + Copy, B: Ord + Copy, V, H: Handle> Table<I, A, B, V, H> {
    /// A walk from both ends over the rows whose first keys are equal to this one, each as its first key and its id, in the order of the
    /// ids.
    pub fn with_first(&self, key: A) -> Range<'_, (A, I), H>
        ensures rows { AreByKey A.cmp I.cmp (λ r. r.first) (λ k. is_eq (A.cmp k key)) self.now result }
    {
        self.by_first((Bound::Included(key), Bound::Included(key)))
    }

    /// A walk from both ends over the rows whose second keys are equal to this one, each as its second key and its id, in the order of the
    /// ids.
    pub fn with_second(&self, key: B) -> Range<'_, (B, I), H>
        ensures rows { AreByKey B.cmp I.cmp (λ r. r.second) (λ k. is_eq (B.cmp k key)) self.now result }
    {
        self.by_second((Bound::Included(key), Bound::Included(key)))
    }

    /// Whether the first key of some row is equal to this one.
    pub fn contains_first(&self, key: A) -> bool
        ensures { IsTrue result ↔ HasRowOf A.cmp I.cmp (λ r. r.first) self.now key }
    {
        self.with_first(key).next().is_some()
    }

    /// Whether the second key of some row is equal to this one.
    pub fn contains_second(&self, key: B) -> bool
        ensures { IsTrue result ↔ HasRowOf B.cmp I.cmp (λ r. r.second) self.now key }
    {
        self.with_second(key).next().is_some()
    }
}
