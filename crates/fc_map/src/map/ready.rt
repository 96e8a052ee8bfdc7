//! Two-phase insertion: allocate every node, then insert infallibly.
ghost use Rattle.std.specs.Prelude.{◌≡◌, ◌+◌, ◌<◌, ◌≤◌, ◌∷◌, [], length, IsErr, IfOk, IfErr, OnErr, None};
ghost use Rattle.fc_base.specs.Ascending.{IsAscending};
ghost use Rattle.fc_base.specs.Growth.{MayGrowRefuse};
ghost use Rattle.fc_base.specs.OneKey.{put};
ghost use Rattle.fc_map.specs.Entries.{entries, IsSoundMap};
ghost use Rattle.fc_map.specs.Full.{IsFullAt};
ghost use Rattle.fc_map.specs.Requests.{requests_at, HasFewRequests};
ghost use Rattle.fc_map.specs.Place.{IsOpenAt, IsPutIn};
ghost use Rattle.fc_map.specs.Ready.{AreNodesFor, IsReadyAt};
ghost use Rattle.fc_tree_node.specs.Depth.{HasFewMoves};
ghost use Rattle.fc_tree_node.specs.TreePlace.{before_gap_in, after_gap_in};

use super::BTreeMap;
use fc_base::{Asked, Count, Handle, TryReserveError};
use fc_tree_insertion::new_nodes::NewNodes;
use fc_tree_insertion::ready::{first_root, insert_ready, try_first_node, try_nodes_at};
use fc_tree_node::path::Path;

impl<K: Ord + Drop, V: Drop, A: Handle> BTreeMap<K, V, A> {
    // Makes the nodes that an insertion into the gap takes to which the path leads. The map is only read.
    pub(crate) fn try_nodes_at(
        &self,
        path: &Path,
        asked: &mut Asked,
    ) -> Result<NewNodes<K, V, A>, TryReserveError>
        requires { (key : K) × IsOpenAt K.cmp key self.now path.now }
        ensures ok { IfOk result (λ made. AreNodesFor self.now path.now made) }
        ensures error { IfErr result (MayGrowRefuse (length (entries self.now))) }
        ensures only_full { OnErr result (length (entries self.now) < usize.MAX → IsFullAt self.now path.now) }
        ensures full { length (entries self.now) ≡ usize.MAX → IsErr result }
        ensures requests { IfOk result (λ _. asked.new.requests ≡ asked.old.requests + requests_at self.now path.now) }
        ensures at_most { asked.new.requests ≤ asked.old.requests + requests_at self.now path.now }
        ensures room { ¬ IsFullAt self.now path.now → asked.new.requests ≤ asked.old.requests }
        ensures few { HasFewRequests (length (entries self.now) + 1) asked.old asked.new }
    {
        if self.len == usize::MAX {
            return Err(TryReserveError::CapacityOverflow);
        }
        match &self.root {
            None => try_first_node(self.alloc, asked),
            Some(root) => try_nodes_at(self.alloc, root, path, asked),
        }
    }

    // Puts a pair with a new key into the gap that the path leads to, by the nodes that this takes. The path then leads to the pair.
    pub(crate) fn insert_ready(
        &mut self,
        path: &mut Path,
        pair: (K, V),
        new_nodes: NewNodes<K, V, A>,
        count: &mut Count,
    )
        requires { IsReadyAt K.cmp pair.0 self.old path.old new_nodes }
        ensures put { entries self.new ≡ put K.cmp (entries self.old) pair.0 pair.1 }
        ensures place { IsPutIn path.new self.new pair (before_gap_in self.old path.old) (after_gap_in self.old path.old) }
        ensures ascending { IsAscending K.cmp (entries self.new) }
        ensures sound { IsSoundMap self.new }
        ensures comparisons { count.new.comparisons ≡ count.old.comparisons }
        ensures length { length (entries self.new) ≡ length (entries self.old) + 1 }
        ensures moves { HasFewMoves (length (entries self.new)) count.old count.new }
        ensures moved { count.old.moves < count.new.moves }
    {
        let Some(root) = &mut self.root else {
            return self.start(path, pair, new_nodes, count);
        };
        if new_nodes.len() == 0 {
            return self.insert_in_room(path, pair, count);
        }
        insert_ready(root, path, pair, new_nodes, count);
        self.len += 1;
    }

    // Puts the first pair into an empty map. The path, which has no step, then leads to it.
    fn start(
        &mut self,
        path: &mut Path,
        pair: (K, V),
        new_nodes: NewNodes<K, V, A>,
        count: &mut Count,
    )
        requires empty { self.old ≡ None }
        requires start { path.old ≡ [] }
        requires new_nodes { new_nodes ≡ 1 }
        ensures put { entries self.new ≡ pair ∷ [] }
        ensures place { IsPutIn path.new self.new pair [] [] }
        ensures ascending { IsAscending K.cmp (entries self.new) }
        ensures sound { IsSoundMap self.new }
        ensures comparisons { count.new.comparisons ≡ count.old.comparisons }
        ensures moves { HasFewMoves 1 count.old count.new }
        ensures moved { count.old.moves < count.new.moves }
    {
        self.root = Some(first_root(pair, new_nodes, count));
        self.len = 1;
        path.push(0);
    }
}
