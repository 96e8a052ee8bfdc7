//! A map made of the pairs that an iterator gives, with its requests for memory counted.
ghost use Rattle.std.specs.Prelude.{◌≡◌, ◌+◌, ◌≤◌, ◌++◌, List, [], length, IfOk, IfErr};
ghost use Rattle.std.specs.Iterator.{IsFiniteIterable};
ghost use Rattle.fc_base.specs.Ascending.{IsAscending};
ghost use Rattle.fc_base.specs.Extended.{extended, IsExtendedUpTo};
ghost use Rattle.fc_vec.specs.Items.{GivesAll, GivesFirst};
ghost use Rattle.fc_map.specs.Entries.{entries, IsSoundMap};
ghost use Rattle.fc_map.specs.Loads.{load_requests};

use super::BTreeMap;
use super::bulk_load::BulkLoad;
use fc_base::{Asked, TryReserveError};
use std::alloc::Global;

impl<K: Ord + Drop, V: Drop> BTreeMap<K, V> {
    /// `try_from_iterator`, with its requests for memory added to `asked`: where the keys ascend, at most one for each leaf and three for each inner node of
    /// a tree of so many pairs whose leaves are full, and where it is refused, no more than those for the pairs that were taken. Of items out of
    /// order, what gathers, sorts and merges them is not added.
    ///
    /// # Errors
    /// As `try_from_iterator`.
    pub fn try_from_iterator_asked<T: IntoIterator<Item = (K, V)>>(
        alloc: Global,
        iter: T,
        asked: &mut Asked,
    ) -> Result<BTreeMap<K, V>, TryReserveError>
        requires ends { IsFiniteIterable T.into_iter_gives T.IntoIter.can_next T.IntoIter.remaining iter }
        ensures made { IfOk result (λ made. (all : List (K × V)) × GivesAll T.into_iter_gives T.IntoIter.next_gives iter all × (entries made ≡ extended K.cmp [] all) × (IsAscending K.cmp all → asked.new.requests ≤ asked.old.requests + load_requests (length all))) }
        ensures error { IfErr result (λ e. (taken : List (K × V)) × GivesFirst T.into_iter_gives T.IntoIter.next_gives iter taken × ((new : List (K × V)) × ((rest : List (K × V)) → IsExtendedUpTo K.cmp [] (taken ++ rest) new e)) × (IsAscending K.cmp taken → asked.new.requests ≤ asked.old.requests + load_requests (length taken))) }
        ensures ascending { IfOk result (λ made. IsAscending K.cmp (entries made)) }
        ensures sound { IfOk result (λ made. IsSoundMap made) }
    {
        let mut load = BulkLoad::new(alloc);
        for (key, value) in iter {
            match load.try_put(key, value, asked) {
                Ok(()) => (),
                Err(error) => return Err(error),
            }
        }
        match load.flush(asked) {
            Ok(()) => Ok(load.finish()),
            Err(error) => Err(error),
        }
    }
}
