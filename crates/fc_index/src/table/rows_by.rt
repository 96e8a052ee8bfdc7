//! Walks by a second key that lend the rows.
ghost use Rattle.std.specs.Prelude.{◌≡◌, ⊤};
ghost use Rattle.std.specs.Iterator.{YieldsFirstBy, YieldsLastBy, item_count};
ghost use Rattle.fc_map.specs.Walks.{deref_pair};
ghost use Rattle.fc_index.specs.ByKey.{AreRowsByKey};
ghost use Rattle.fc_index.specs.Rows.{lies};

use super::Table;
use crate::keyed::Keyed;
use fc_base::Handle;
use fc_map::map::BTreeMap;
use fc_set::set::Range;
use std::alloc::{AllocError, Global};
use std::iter::FusedIterator;
use std::marker::Model;
use std::ops::Bound;

/// The rows that are still to come, each with its id, in the order of a second key. `next` gives the first of them and `next_back` the
/// last; once there is none, both answer `None` ever after. Each call looks one row up by its id; none takes memory.
#[derive(Drop)]
pub struct RowsBy<'a, K, I: Ord, R, H: Handle = Global> {
    walk: Range<'a, (K, I), H>,
    rows: &'a BTreeMap<I, R, H>,
}

impl<'a, K, I: Ord, R, H: Handle> Model for RowsBy<'a, K, I, R, H> {
    ghost use Rattle.std.specs.Prelude.{List};
    ghost use Rattle.fc_map.specs.Entries.{entries};
    ghost use Rattle.fc_index.specs.ByKey.{rows_of, AreThere};

    ghost Value = { List (I × R) };

    ghost view = { λ w. rows_of I.cmp w.walk (entries w.rows.now) };

    ghost invariant = { λ w. AreThere I.cmp w.walk (entries w.rows.now) };
}

impl<I: Ord + Copy, A: Ord + Copy, B: Ord + Copy, V, H: Handle> Table<I, A, B, V, H> {
    /// A walk from both ends over the rows whose first keys lie within the bounds, each with its id, in the order of the keys, and of the
    /// ids where keys are equal. Bounds that are no range make a walk that is empty.
    pub fn rows_by_first(&self, bounds: (Bound<A>, Bound<A>)) -> RowsBy<'_, A, I, Keyed<A, B, V>, H>
        ensures rows { AreRowsByKey A.cmp I.cmp (λ r. r.first) (lies A.cmp bounds.0 bounds.1) self.now result }
    {
        RowsBy {
            walk: self.by_first(bounds),
            rows: &self.rows,
        }
    }

    /// A walk from both ends over the rows whose second keys lie within the bounds, each with its id, in the order of the keys, and of the
    /// ids where keys are equal. Bounds that are no range make a walk that is empty.
    pub fn rows_by_second(
        &self,
        bounds: (Bound<B>, Bound<B>),
    ) -> RowsBy<'_, B, I, Keyed<A, B, V>, H>
        ensures rows { AreRowsByKey B.cmp I.cmp (λ r. r.second) (lies B.cmp bounds.0 bounds.1) self.now result }
    {
        RowsBy {
            walk: self.by_second(bounds),
            rows: &self.rows,
        }
    }
}

impl<'a, K, I: Ord, R, H: Handle> Iterator for RowsBy<'a, K, I, R, H> {
    type Item = (&'a I, &'a R);

    ghost next_gives = { YieldsFirstBy deref_pair (λ s. s) };

    ghost remaining = { item_count (λ s. s) };

    fn next(&mut self) -> Option<(&'a I, &'a R)> {
        let item = self.walk.next()?;
        let rows = self.rows;
        rows.get_key_value(&item.1)
    }
}

impl<'a, K, I: Ord, R, H: Handle> DoubleEndedIterator for RowsBy<'a, K, I, R, H> {
    ghost next_back_gives = { YieldsLastBy deref_pair (λ s. s) };

    fn next_back(&mut self) -> Option<(&'a I, &'a R)> {
        let item = self.walk.next_back()?;
        let rows = self.rows;
        rows.get_key_value(&item.1)
    }
}

impl<'a, K, I: Ord, R, H: Handle> FusedIterator for RowsBy<'a, K, I, R, H> {}

impl<'a, K, I: Ord, R, H: Handle> Clone for RowsBy<'a, K, I, R, H> {
    ghost is_clone = { λ s r. r ≡ s };

    ghost is_infallible = { λ _. ⊤ };

    /// A second walk over the rows still to come, which takes no memory.
    fn clone(&self) -> Result<RowsBy<'a, K, I, R, H>, AllocError> {
        Ok(RowsBy {
            walk: self.walk.clone()?,
            rows: self.rows,
        })
    }
}
