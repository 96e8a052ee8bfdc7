//! Whole tables: made without rows, taken apart, compared.
ghost use Rattle.std.specs.Prelude.{◌≡◌, [], ◌^◌, ◌<◌, length};
ghost use Rattle.std.specs.Cmp.Lexicographic.{pointwise};
ghost use Rattle.std.specs.Iterator.{YieldsFirst, YieldsLast};
ghost use Rattle.std.specs.Iterator.Runs.{YieldsInOrder, YieldsInReverse};
ghost use Rattle.fc_base.specs.Ascending.{IsAscending};
ghost use Rattle.fc_map.specs.Compare.{pair_eq};
ghost use Rattle.fc_map.specs.CompareLaws.{pairs_per, pairs_equiv};
ghost use Rattle.fc_index.specs.Equal.{keyed_eq, keyed_per, keyed_equiv};

use super::Table;
use crate::keyed::Keyed;
use fc_base::Handle;
use fc_map::map::IntoIter;

impl<I: Ord, A: Ord, B: Ord, V, H: Handle> Table<I, A, B, V, H> {
    /// A table without rows, as `new` makes it.
    pub fn default(alloc: H) -> Table<I, A, B, V, H>
        ensures { result ≡ [] }
    {
        Table::new(alloc)
    }
}

/// The rows with their ids, in the order of these. The walk takes no memory.
impl<I: Ord + Drop, A: Ord + Drop, B: Ord + Drop, V: Drop, H: Handle> IntoIterator
    for Table<I, A, B, V, H> {
    ghost use Rattle.fc_index.specs.declared.keyed.Keyed.{Keyed};

    type Item = (I, Keyed<A, B, V>);

    type IntoIter = IntoIter<I, Keyed<A, B, V>, H>;

    ghost into_iter_gives = { λ table walk. (walk ≡ table) × (length walk < 2 ^ 64) × IsAscending I.cmp walk
        × YieldsInOrder (YieldsFirst {A = I × Keyed A B V} (λ s. s)) (λ s. s)
        × YieldsInReverse (YieldsLast {A = I × Keyed A B V} (λ s. s)) (λ s. s) };

    fn into_iter(self) -> IntoIter<I, Keyed<A, B, V>, H> {
        let Table {
            rows,
            firsts,
            seconds,
        } = self;
        drop(firsts);
        drop(seconds);
        rows.into_iter()
    }
}

/// Equal are tables of as many rows, with equal ids, keys and values in order.
impl<I: Ord, A: Ord, B: Ord, V: PartialEq, H: Handle> PartialEq for Table<I, A, B, V, H> {
    ghost eq = { pointwise (pair_eq I.eq (keyed_eq A.eq B.eq V.eq)) };

    ghost laws = { pairs_per I.PartialEq.laws (keyed_per A.PartialEq.laws B.PartialEq.laws V.laws) };

    fn eq(&self, other: &Table<I, A, B, V, H>) -> bool {
        self.rows == other.rows
    }
}

impl<I: Ord, A: Ord, B: Ord, V: Eq, H: Handle> Eq for Table<I, A, B, V, H> {
    ghost laws = { pairs_equiv I.Eq.laws (keyed_equiv A.Eq.laws B.Eq.laws V.Eq.laws) };
}
