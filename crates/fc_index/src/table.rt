//! The table: rows by their ids, and an index for each second key.
ghost use Rattle.std.specs.Prelude.{◌≡◌, [], length, IfOk, IfErr, OnOk, OnErr, IsErr, IsTrue, IsSome, None, false, ◌↔◌};
ghost use Rattle.fc_base.specs.Ascending.{IsAscending};
ghost use Rattle.fc_base.specs.Growth.{MayGrowRefuse};
ghost use Rattle.fc_base.specs.OneKey.{put, cut};
ghost use Rattle.fc_base.specs.Parts.{at, value_at};
ghost use Rattle.fc_map.specs.Entries.{now_value};
ghost use Rattle.fc_index.specs.Rows.{AreByKey, IsValueSet, has_both, lies};

mod removals;
mod rows_by;
mod whole;
mod with_key;

use crate::edge::items_between;
use crate::keyed::Keyed;
use crate::steps::{first_of, put_keys, second_of, take_back, take_out_old};
use fc_base::{Handle, TryReserveError};
use fc_map::map::{BTreeMap, Iter};
use fc_set::set::{BTreeSet, Range};
pub use rows_by::RowsBy;
use std::alloc::Global;
use std::marker::Model;
use std::mem;
use std::ops::Bound;

/// Rows by an id, each with two second keys, by which they are found in order too. Several rows may have one second key. Only
/// `try_insert` takes memory.
#[derive(Drop)]
pub struct Table<I: Ord, A: Ord, B: Ord, V, H: Handle = Global> {
    rows: BTreeMap<I, Keyed<A, B, V>, H>,
    firsts: BTreeSet<(A, I), H>,
    seconds: BTreeSet<(B, I), H>,
}

impl<I: Ord, A: Ord, B: Ord, V, H: Handle> Model for Table<I, A, B, V, H> {
    ghost use Rattle.std.specs.Prelude.{List};
    ghost use Rattle.fc_base.specs.Ascending.{IsAscending};
    ghost use Rattle.fc_map.specs.Entries.{entries};
    ghost use Rattle.fc_set.specs.Items.{items};
    ghost use Rattle.fc_index.specs.Rows.{Lists};
    ghost use Rattle.fc_index.specs.declared.keyed.Keyed.{Keyed};

    ghost Value = { List (I × Keyed A B V) };

    ghost view = { λ t. entries t.rows };

    ghost invariant = { λ t. Lists A.cmp I.cmp (λ r. r.first) (entries t.rows) (items t.firsts)
        × Lists B.cmp I.cmp (λ r. r.second) (entries t.rows) (items t.seconds) × IsAscending I.cmp (entries t.rows) };
}

impl<I: Ord, A: Ord, B: Ord, V, H: Handle> Table<I, A, B, V, H> {
    /// A table without rows, which takes no memory. Later requests go to `alloc`.
    pub fn new(alloc: H) -> Table<I, A, B, V, H>
        ensures { result ≡ [] }
    {
        Table {
            rows: BTreeMap::new(alloc),
            firsts: BTreeSet::new(alloc),
            seconds: BTreeSet::new(alloc),
        }
    }

    /// The number of rows.
    pub fn len(&self) -> usize
        ensures { result ≡ length self.now }
    {
        self.rows.len()
    }

    /// Whether there is no row.
    pub fn is_empty(&self) -> bool
        ensures { IsTrue result ↔ (self.now ≡ []) }
    {
        self.rows.is_empty()
    }

    /// A walk over all rows from both ends, in the order of their ids.
    pub fn iter(&self) -> Iter<'_, I, Keyed<A, B, V>, H>
        ensures rows { result ≡ self.now }
        ensures ascending { IsAscending I.cmp result }
    {
        self.rows.iter()
    }
}

impl<I: Ord + Copy, A: Ord, B: Ord, V, H: Handle> Table<I, A, B, V, H> {
    /// The row at an equal id. `None` where there is none. No call lends a row for writing, since its keys could then become others than
    /// those that the indexes list: `set_value` puts another value into it, and `try_insert` another row in its place.
    pub fn get(&self, id: I) -> Option<&Keyed<A, B, V>>
        ensures row { now_value result ≡ value_at I.cmp self.now id }
        ensures ascending { IsAscending I.cmp self.now }
    {
        self.rows.get(&id)
    }

    /// Whether a row is at an equal id.
    pub fn contains(&self, id: I) -> bool
        ensures there { IsTrue result ↔ IsSome (at I.cmp self.now id) }
        ensures ascending { IsAscending I.cmp self.now }
    {
        self.rows.contains_key(&id)
    }
}

impl<I: Ord + Copy, A: Ord + Copy, B: Ord + Copy, V, H: Handle> Table<I, A, B, V, H> {
    /// Puts another value into the row at an equal id, which keeps its keys, and answers the value that was there. It takes no memory.
    ///
    /// # Errors
    /// Where no row is there. The table is then as it was, and the value comes back.
    pub fn set_value(&mut self, id: I, value: V) -> Result<V, V>
        ensures set { IfOk result (λ old. IsValueSet I.cmp id old value self.old self.new) }
        ensures unchanged { OnErr result ((at I.cmp self.old id ≡ None) × (self.new ≡ self.old)) }
        ensures back { IfErr result (λ back. back ≡ value) }
    {
        let Some(row) = self.rows.get_mut(&id) else {
            return Err(value);
        };
        Ok(mem::replace(&mut row.value, value))
    }

    /// A walk from both ends over the rows whose first keys lie within the bounds, each as its first key and its id, in the order of the
    /// keys, and of the ids where keys are equal. Bounds that are no range make a walk that is empty.
    pub fn by_first(&self, bounds: (Bound<A>, Bound<A>)) -> Range<'_, (A, I), H>
        ensures rows { AreByKey A.cmp I.cmp (λ r. r.first) (lies A.cmp bounds.0 bounds.1) self.now result }
    {
        items_between(&self.firsts, bounds.0, bounds.1)
    }

    /// A walk from both ends over the rows whose second keys lie within the bounds, each as its second key and its id, in the order of
    /// the keys, and of the ids where keys are equal. Bounds that are no range make a walk that is empty.
    pub fn by_second(&self, bounds: (Bound<B>, Bound<B>)) -> Range<'_, (B, I), H>
        ensures rows { AreByKey B.cmp I.cmp (λ r. r.second) (lies B.cmp bounds.0 bounds.1) self.now result }
    {
        items_between(&self.seconds, bounds.0, bounds.1)
    }
}

impl<I: Ord + Copy, A: Ord + Copy, B: Ord + Copy, V: Drop, H: Handle> Table<I, A, B, V, H> {
    /// Puts a row with these second keys and this value at the id. A row that is at an equal id is replaced and answered, and is found by
    /// its second keys no more; else the answer is `Ok(None)`.
    ///
    /// # Errors
    /// Only where no row with both keys is at the id: `CapacityOverflow` where the table holds `usize::MAX` rows, and then always; else `AllocError`, where
    /// a request for memory was refused, which takes a table that is empty, or has rows enough to fill a leaf. The table is then as it was, and the value
    /// comes back.
    pub fn try_insert(
        &mut self,
        id: I,
        first: A,
        second: B,
        value: V,
    ) -> Result<Option<Keyed<A, B, V>>, (V, TryReserveError)>
        ensures old { IfOk result (λ old. old ≡ value_at I.cmp self.old id) }
        ensures put { OnOk result (self.new ≡ put I.cmp self.old id (record { first = first; second = second; value = value })) }
        ensures unchanged { OnErr result (self.new ≡ self.old) }
        ensures back { IfErr result (λ e. e.0 ≡ value) }
        ensures new_key { OnErr result (has_both A.cmp B.cmp (value_at I.cmp self.old id) first second ≡ false) }
        ensures error { IfErr result (λ e. MayGrowRefuse (length self.old) e.1) }
        ensures full { has_both A.cmp B.cmp (value_at I.cmp self.old id) first second ≡ false → length self.old ≡ usize.MAX → IsErr result }
        ensures ascending { OnOk result (IsAscending I.cmp self.new) }
    {
        let new = match put_keys(&mut self.firsts, &mut self.seconds, first, second, id) {
            Ok(new) => new,
            Err(error) => return Err((value, error)),
        };
        let row = Keyed {
            first,
            second,
            value,
        };
        match self.rows.try_insert(id, row) {
            Ok(old) => {
                take_out_old(&mut self.firsts, first_of(&old), first, id);
                take_out_old(&mut self.seconds, second_of(&old), second, id);
                Ok(old)
            }
            Err((_id, row, error)) => {
                take_back(&mut self.firsts, first, id, new.0);
                take_back(&mut self.seconds, second, id, new.1);
                Err((row.value, error))
            }
        }
    }

    /// Takes the row at an equal id out and answers it: it is found by its second keys no more. `None` where there is none, and the table
    /// is as it was. It takes no memory.
    pub fn remove(&mut self, id: I) -> Option<Keyed<A, B, V>>
        ensures row { result ≡ value_at I.cmp self.old id }
        ensures rest { self.new ≡ cut I.cmp self.old id }
        ensures ascending { IsAscending I.cmp self.new }
    {
        let row = self.rows.remove(&id)?;
        self.firsts.remove(&(row.first, id));
        self.seconds.remove(&(row.second, id));
        Some(row)
    }

    /// Takes all rows out, and drops them. It takes no memory.
    pub fn clear(&mut self)
        ensures { self.new ≡ [] }
    {
        self.rows.clear();
        self.firsts.clear();
        self.seconds.clear();
    }
}

impl<'a, I: Ord, A: Ord, B: Ord, V, H: Handle> IntoIterator for &'a Table<I, A, B, V, H> {
    type Item = (&'a I, &'a Keyed<A, B, V>);

    type IntoIter = Iter<'a, I, Keyed<A, B, V>, H>;

    ghost into_iter_gives = { λ table walk. walk ≡ table.now };

    fn into_iter(self) -> Iter<'a, I, Keyed<A, B, V>, H> {
        self.iter()
    }
}
