//! Reservations: nodes allocated for many insertions, which nothing then refuses.
ghost use Rattle.std.specs.Prelude.{◌≡◌, ℕ, ◌+◌, ◌*◌, ◌<◌, ◌≤◌, length, IsOk, IsErr, IsSome, IfOk, IfErr, MatchOption, None};
ghost use Rattle.fc_base.specs.Ascending.{IsAscending};
ghost use Rattle.fc_base.specs.OneKey.{put};
ghost use Rattle.fc_base.specs.Parts.{at, value_at};
ghost use Rattle.fc_map.specs.Counts.{IsBounded};
ghost use Rattle.fc_map.specs.Entries.{entries, IsSoundMap, passed_in};
ghost use Rattle.fc_map.specs.Place.{IsOpenAt};
ghost use Rattle.fc_map.specs.Ready.{AreNodesFor};
ghost use Rattle.fc_map.specs.Reservation.{reservation_error};
ghost use Rattle.fc_map.specs.Requests.{list_requests, IsFewestOver};

use super::BTreeMap;
use fc_base::{Asked, Count, Handle, TryReserveError};
use fc_tree_insertion::new_nodes::NewNodes;
pub use fc_tree_insertion::reservation::Reservation;
use fc_tree_node::path::Path;

impl<K: Ord + Drop, V: Drop, A: Handle> BTreeMap<K, V, A> {
    /// Takes nodes enough for so many insertions of new keys, whatever the keys, so that `insert_reserved` can't be refused: what `reserve` is for
    /// a vector. A reservation of none takes no memory, and is Ok. The map is only read; the reservation serves any map of fewer pairs than `Reservation::pairs`, so this one until so many keys are put in.
    ///
    /// # Errors
    /// `CapacityOverflow` where the map's pairs and the insertions together pass `usize::MAX`, or a node for each insertion at each level of the
    /// highest tree does, and then always; else `AllocError`, where a request for memory was refused. What was taken is then given back.
    pub fn try_reserve_nodes(
        &self,
        insertions: usize,
    ) -> Result<Reservation<K, V, A>, TryReserveError>
        ensures places { IfOk result (λ reservation. reservation.places ≡ insertions) }
        ensures pairs { IfOk result (λ reservation. reservation.pairs ≡ length (entries self.now) + insertions) }
        ensures none { insertions ≡ 0 → IsOk result }
        ensures error { IfErr result (λ e. e ≡ reservation_error (length (entries self.now)) insertions) }
        ensures overflow { reservation_error (length (entries self.now)) insertions ≡ TryReserveError.CapacityOverflow → IsErr result }
    {
        self.try_reserve_nodes_asked(insertions, &mut Asked::new())
    }

    /// `try_reserve_nodes`, with its requests for memory added to `asked`: none for no insertion, and else one for the list of the nodes and two for each, of
    /// which there are as many for each insertion as the highest tree of these pairs has levels; where it is refused, no more.
    ///
    /// # Errors
    /// As `try_reserve_nodes`.
    pub fn try_reserve_nodes_asked(
        &self,
        insertions: usize,
        asked: &mut Asked,
    ) -> Result<Reservation<K, V, A>, TryReserveError>
        ensures places { IfOk result (λ reservation. reservation.places ≡ insertions) }
        ensures pairs { IfOk result (λ reservation. reservation.pairs ≡ length (entries self.now) + insertions) }
        ensures none { insertions ≡ 0 → IsOk result }
        ensures error { IfErr result (λ e. e ≡ reservation_error (length (entries self.now)) insertions) }
        ensures overflow { reservation_error (length (entries self.now)) insertions ≡ TryReserveError.CapacityOverflow → IsErr result }
        ensures requests { IfOk result (λ _. (levels : ℕ) → IsFewestOver levels (length (entries self.now) + insertions) → asked.new.requests ≡ asked.old.requests + list_requests 2 (insertions * levels)) }
        ensures at_most { (levels : ℕ) → IsFewestOver levels (length (entries self.now) + insertions) → asked.new.requests ≤ asked.old.requests + list_requests 2 (insertions * levels) }
    {
        Reservation::try_new_asked(self.alloc, self.len, insertions, asked)
    }

    /// Puts the value at the key, as `try_insert`, by the reservation's nodes alone, and so without a refusal. The caller shows that the reservation has a
    /// place left (`Reservation::places`), and that the map has fewer pairs than it serves (`Reservation::pairs`). A new key uses a place up, and the answer
    /// is `None`; where an equal key is there, that key stays, no place is used, and the old value is answered. So the pairs of the map and the
    /// places that are left are together as many as before.
    pub fn insert_reserved(
        &mut self,
        reservation: &mut Reservation<K, V, A>,
        key: K,
        value: V,
    ) -> Option<V>
        requires place { 0 < reservation.old.places }
        requires fits { length (entries self.old) < reservation.old.pairs }
        ensures old { result ≡ value_at K.cmp (entries self.old) key }
        ensures put { entries self.new ≡ put K.cmp (entries self.old) key value }
        ensures places { MatchOption result (reservation.new.places + 1 ≡ reservation.old.places) (λ _. reservation.new.places ≡ reservation.old.places) }
        ensures pairs { reservation.new.pairs ≡ reservation.old.pairs }
        ensures total { length (entries self.new) + reservation.new.places ≡ length (entries self.old) + reservation.old.places }
        ensures ascending { IsAscending K.cmp (entries self.new) }
        ensures sound { IsSoundMap self.new }
    {
        self.insert_reserved_counted(reservation, key, value, &mut Count::new())
    }

    /// `insert_reserved`, with its comparisons and moves added to the count: exactly the comparisons of the keys that a search from the
    /// left passes, and for a new pair the moves of its insertion; a value replaced moves no pair.
    pub fn insert_reserved_counted(
        &mut self,
        reservation: &mut Reservation<K, V, A>,
        key: K,
        value: V,
        count: &mut Count,
    ) -> Option<V>
        requires place { 0 < reservation.old.places }
        requires fits { length (entries self.old) < reservation.old.pairs }
        ensures old { result ≡ value_at K.cmp (entries self.old) key }
        ensures put { entries self.new ≡ put K.cmp (entries self.old) key value }
        ensures places { MatchOption result (reservation.new.places + 1 ≡ reservation.old.places) (λ _. reservation.new.places ≡ reservation.old.places) }
        ensures pairs { reservation.new.pairs ≡ reservation.old.pairs }
        ensures total { length (entries self.new) + reservation.new.places ≡ length (entries self.old) + reservation.old.places }
        ensures ascending { IsAscending K.cmp (entries self.new) }
        ensures sound { IsSoundMap self.new }
        ensures comparisons { count.new.comparisons ≡ count.old.comparisons + passed_in K.cmp key self.old }
        ensures no_move { IsSome (at K.cmp (entries self.old) key) → count.new.moves ≡ count.old.moves }
        ensures moved { at K.cmp (entries self.old) key ≡ None → count.old.moves < count.new.moves }
        ensures bounded { IsBounded (length (entries self.new)) count.old count.new }
    {
        let mut path = Path::new();
        match self.locate(&key, &mut path, count) {
            Ok(()) => Some(self.replace_at(&path, &key, value)),
            Err(_gap) => {
                let new_nodes = self.take_nodes(reservation, &path);
                self.insert_ready(&mut path, (key, value), new_nodes, count);
                None
            }
        }
    }

    // Takes out of the reservation what an insertion takes at the gap that the path leads to. The map is only read.
    fn take_nodes(&self, reservation: &mut Reservation<K, V, A>, path: &Path) -> NewNodes<K, V, A>
        requires place { 0 < reservation.old.places }
        requires fits { length (entries self.now) < reservation.old.pairs }
        requires gap { (key : K) × IsOpenAt K.cmp key self.now path.now }
        ensures taken { AreNodesFor self.now path.now result }
        ensures places { reservation.new.places + 1 ≡ reservation.old.places }
        ensures pairs { reservation.new.pairs ≡ reservation.old.pairs }
    {
        match &self.root {
            None => reservation.take_first(),
            Some(root) => reservation.take_for(root, path),
        }
    }
}
