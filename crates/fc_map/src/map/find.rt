//! Look-ups of one key.
ghost use Rattle.std.specs.Prelude.{◌≡◌, ◌+◌, ◌↔◌, [], length, IsTrue, IsSome, IfErr, OnOk, OnErr, None, option_copied};
ghost use Rattle.fc_base.specs.Ascending.{IsAscending};
ghost use Rattle.fc_base.specs.Parts.{at, value_at};
ghost use Rattle.fc_map.specs.Counts.{IsBounded};
ghost use Rattle.fc_map.specs.Entries.{entries, IsSoundMap, now_value, now_pair, passed_in};
ghost use Rattle.fc_map.specs.LendsKey.{path_in};
ghost use Rattle.fc_map.specs.Place.{IsHeldAt, IsOpenAt, TellsRoom};

use super::BTreeMap;
use fc_base::{Count, Handle, Query};
use fc_tree_node::path::Path;
use fc_tree_search::search::{self, NotFound};

impl<K: Ord, V, A: Handle> BTreeMap<K, V, A> {
    /// The value at an equal key, or `None` where there is none. `key` is a `Query`: `get(&key)`, or `get("word")` where the keys are
    /// `String`s. Upstream: `BTreeMap::get`.
    pub fn get<Q: Query<K>>(&self, key: Q) -> Option<&V>
        ensures value { now_value result ≡ value_at Q.order (entries self.now) (Q.sought key) }
        ensures ascending { IsAscending K.cmp (entries self.now) }
    {
        self.get_counted(key, &mut Count::new())
    }

    /// `get`, with its comparisons added to the count: exactly those keys that a search from the left passes. It moves no pair.
    pub fn get_counted<Q: Query<K>>(&self, key: Q, count: &mut Count) -> Option<&V>
        ensures value { now_value result ≡ value_at Q.order (entries self.now) (Q.sought key) }
        ensures ascending { IsAscending K.cmp (entries self.now) }
        ensures comparisons { count.new.comparisons ≡ count.old.comparisons + passed_in Q.order (Q.sought key) self.now }
        ensures moves { count.new.moves ≡ count.old.moves }
        ensures bounded { IsBounded (length (entries self.now)) count.old count.new }
    {
        let pair = self.pair_at(key, count);
        match pair {
            Some(pair) => Some(&pair.1),
            None => None,
        }
    }

    /// The pair with an equal key, or `None` where there is none. Upstream: `BTreeMap::get_key_value`.
    pub fn get_key_value<Q: Query<K>>(&self, key: Q) -> Option<(&K, &V)>
        ensures pair { now_pair result ≡ at Q.order (entries self.now) (Q.sought key) }
        ensures ascending { IsAscending K.cmp (entries self.now) }
    {
        self.get_key_value_counted(key, &mut Count::new())
    }

    /// `get_key_value`, with its comparisons added to the count: exactly those keys that a search from the left passes. It moves
    /// no pair.
    pub fn get_key_value_counted<Q: Query<K>>(&self, key: Q, count: &mut Count) -> Option<(&K, &V)>
        ensures pair { now_pair result ≡ at Q.order (entries self.now) (Q.sought key) }
        ensures ascending { IsAscending K.cmp (entries self.now) }
        ensures comparisons { count.new.comparisons ≡ count.old.comparisons + passed_in Q.order (Q.sought key) self.now }
        ensures moves { count.new.moves ≡ count.old.moves }
        ensures bounded { IsBounded (length (entries self.now)) count.old count.new }
    {
        match self.pair_at(key, count) {
            Some(pair) => Some((&pair.0, &pair.1)),
            None => None,
        }
    }

    /// Whether an equal key is there. Upstream: `BTreeMap::contains_key`.
    pub fn contains_key<Q: Query<K>>(&self, key: Q) -> bool
        ensures there { IsTrue result ↔ IsSome (at Q.order (entries self.now) (Q.sought key)) }
        ensures ascending { IsAscending K.cmp (entries self.now) }
    {
        self.contains_key_counted(key, &mut Count::new())
    }

    /// `contains_key`, with its comparisons added to the count: exactly those keys that a search from the left passes. It moves
    /// no pair.
    pub fn contains_key_counted<Q: Query<K>>(&self, key: Q, count: &mut Count) -> bool
        ensures there { IsTrue result ↔ IsSome (at Q.order (entries self.now) (Q.sought key)) }
        ensures ascending { IsAscending K.cmp (entries self.now) }
        ensures comparisons { count.new.comparisons ≡ count.old.comparisons + passed_in Q.order (Q.sought key) self.now }
        ensures moves { count.new.moves ≡ count.old.moves }
        ensures bounded { IsBounded (length (entries self.now)) count.old count.new }
    {
        self.pair_at(key, count).is_some()
    }

    // Fills `path`, which has no step yet, with the way to where the key stands, or else to where it would go.
    pub(crate) fn locate<Q: Query<K>>(
        &self,
        key: Q,
        path: &mut Path,
        count: &mut Count,
    ) -> Result<(), NotFound>
        requires start { path.old ≡ [] }
        ensures found { OnOk result (IsHeldAt Q.order (Q.sought key) self.now path.new) }
        ensures gap { OnErr result (IsOpenAt Q.order (Q.sought key) self.now path.new) }
        ensures room { IfErr result (λ gap. TellsRoom gap.has_room path.new self.now) }
        ensures path { path.new ≡ path_in Q.order (Q.sought key) self.now }
        ensures present { OnOk result (IsSome (at Q.order (entries self.now) (Q.sought key))) }
        ensures absent { OnErr result (at Q.order (entries self.now) (Q.sought key) ≡ None) }
        ensures sound { IsSoundMap self.now }
        ensures ascending { IsAscending K.cmp (entries self.now) }
        ensures comparisons { count.new.comparisons ≡ count.old.comparisons + passed_in Q.order (Q.sought key) self.now }
        ensures moves { count.new.moves ≡ count.old.moves }
        ensures bounded { IsBounded (length (entries self.now)) count.old count.new }
    {
        match &self.root {
            None => Err(NotFound { has_room: false }),
            Some(root) => search::search(root, key, path, count),
        }
    }

    // The pair with an equal key.
    pub(crate) fn pair_at<Q: Query<K>>(&self, key: Q, count: &mut Count) -> Option<&(K, V)>
        ensures pair { option_copied result ≡ at Q.order (entries self.now) (Q.sought key) }
        ensures ascending { IsAscending K.cmp (entries self.now) }
        ensures comparisons { count.new.comparisons ≡ count.old.comparisons + passed_in Q.order (Q.sought key) self.now }
        ensures moves { count.new.moves ≡ count.old.moves }
        ensures bounded { IsBounded (length (entries self.now)) count.old count.new }
    {
        match &self.root {
            None => None,
            Some(root) => search::get(root, key, count),
        }
    }
}
