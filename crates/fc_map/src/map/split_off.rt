//! A map cut in two.
ghost use Rattle.std.specs.Prelude.{◌≡◌, ◌+◌, ◌<◌, ◌≤◌, length, IfOk, IfErr, OnOk};
ghost use Rattle.fc_base.specs.Ascending.{IsAscending};
ghost use Rattle.fc_base.specs.Halves.{not_below};
ghost use Rattle.fc_base.specs.Parts.{below};
ghost use Rattle.fc_tree_split.specs.Cut.{IsCutPathIn, IsCutInTwo};
ghost use Rattle.fc_map.specs.Requests.{border_requests, HasFewRequests};
ghost use Rattle.fc_map.specs.Entries.{entries, IsSoundMap};
ghost use Rattle.fc_map.specs.Kept.{blocks_in};

use super::BTreeMap;
use fc_base::{Asked, Count, Handle, Query, TryReserveError};
use fc_tree_node::path::Path;
use fc_tree_split::cutting::try_split_counted;

impl<K: Ord + Drop, V: Drop, A: Handle> BTreeMap<K, V, A> {
    /// Takes the pairs whose keys are not smaller than the key, which is a `Query`, out into a map of their own. The pairs with
    /// smaller keys stay. An empty map asks for nothing. Upstream: `BTreeMap::split_off`, which answers the map alone.
    ///
    /// # Errors
    /// `AllocError` where a request for memory was refused, which takes a map that is not empty. The map is then as it was, tree
    /// and all.
    pub fn split_off<Q: Query<K>>(&mut self, key: Q) -> Result<Self, TryReserveError>
        ensures below { IfOk result (λ _. entries self.new ≡ below Q.order (entries self.old) (Q.sought key)) }
        ensures from { IfOk result (λ rest. entries rest ≡ not_below Q.order (entries self.old) (Q.sought key)) }
        ensures unchanged { IfErr result (λ _. self.new ≡ self.old) }
        ensures error { IfErr result (λ e. (e ≡ TryReserveError.AllocError) × (0 < length (entries self.old))) }
        ensures ascending { IsAscending K.cmp (entries self.new) × IfOk result (λ rest. IsAscending K.cmp (entries rest)) }
        ensures ascended { IsAscending K.cmp (entries self.old) }
        ensures sound { IsSoundMap self.new × IfOk result (λ rest. IsSoundMap rest) }
    {
        self.split_off_asked(key, &mut Asked::new())
    }

    /// `split_off`, with its requests for memory added to `asked`: none in an empty map, and else one for a leaf and two for a node at each level above; where it
    /// is refused, no more. Both maps then have no block of memory that was not there or asked for.
    ///
    /// # Errors
    /// As `split_off`.
    pub fn split_off_asked<Q: Query<K>>(
        &mut self,
        key: Q,
        asked: &mut Asked,
    ) -> Result<Self, TryReserveError>
        ensures below { IfOk result (λ _. entries self.new ≡ below Q.order (entries self.old) (Q.sought key)) }
        ensures from { IfOk result (λ rest. entries rest ≡ not_below Q.order (entries self.old) (Q.sought key)) }
        ensures unchanged { IfErr result (λ _. self.new ≡ self.old) }
        ensures error { IfErr result (λ e. (e ≡ TryReserveError.AllocError) × (0 < length (entries self.old))) }
        ensures ascending { IsAscending K.cmp (entries self.new) × IfOk result (λ rest. IsAscending K.cmp (entries rest)) }
        ensures ascended { IsAscending K.cmp (entries self.old) }
        ensures sound { IsSoundMap self.new × IfOk result (λ rest. IsSoundMap rest) }
        ensures requests { OnOk result (asked.new.requests ≡ asked.old.requests + border_requests self.old) }
        ensures at_most { asked.new.requests ≤ asked.old.requests + border_requests self.old }
        ensures few { HasFewRequests (length (entries self.old) + 1) asked.old asked.new }
        ensures blocks { IfOk result (λ rest. asked.old.requests + (blocks_in self.new + blocks_in rest) ≤ asked.new.requests + blocks_in self.old) }
    {
        if self.len == 0 {
            return Ok(BTreeMap::new(self.alloc));
        }
        let mut path = Path::new();
        // Whether the key is there or not, the path leads to where the map is cut.
        let _found = self.locate(key, &mut path, &mut Count::new());
        self.split_at(&path, asked)
    }

    // Cuts the map where the path leads to: the pairs before that place stay, and the answer takes the others.
    fn split_at(&mut self, path: &Path, asked: &mut Asked) -> Result<Self, TryReserveError>
        requires path { IsCutPathIn path.now self.old }
        ensures cut { IfOk result (IsCutInTwo path.now self.old self.new) }
        ensures error { IfErr result (λ e. e ≡ TryReserveError.AllocError) }
        ensures unchanged { IfErr result (λ _. self.new ≡ self.old) }
        ensures ascending { IsAscending K.cmp (entries self.new) × IfOk result (λ rest. IsAscending K.cmp (entries rest)) }
        ensures sound { IsSoundMap self.new × IfOk result (λ rest. IsSoundMap rest) }
        ensures requests { OnOk result (asked.new.requests ≡ asked.old.requests + border_requests self.old) }
        ensures at_most { asked.new.requests ≤ asked.old.requests + border_requests self.old }
        ensures few { HasFewRequests (length (entries self.old) + 1) asked.old asked.new }
        ensures blocks { IfOk result (λ rest. asked.old.requests + (blocks_in self.new + blocks_in rest) ≤ asked.new.requests + blocks_in self.old) }
    {
        let (rest, moved) = try_split_counted(
            self.alloc,
            &mut self.root,
            self.len,
            path.as_slice(),
            asked,
        )?;
        self.len -= moved;
        Ok(BTreeMap {
            root: rest,
            len: moved,
            alloc: self.alloc,
        })
    }
}
