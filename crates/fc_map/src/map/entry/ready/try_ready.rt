//! The nodes made that an insertion into a gap takes.
ghost use Rattle.std.specs.Prelude.{◌≡◌, ◌+◌, ◌<◌, ◌≤◌, length, IsErr, IfOk, IfErr, OnErr, Some};
ghost use Rattle.std.specs.Borrow.{sem};
ghost use Rattle.fc_base.specs.Growth.{MayGrowRefuse};
ghost use Rattle.fc_map.specs.Entries.{entries};
ghost use Rattle.fc_map.specs.Full.{IsFullAt};
ghost use Rattle.fc_map.specs.Requests.{requests_at, HasFewRequests};
ghost use Rattle.fc_map.specs.Entry.{Vacant, entry_key, entry_map, entry_map_ref, entry_path, list_with};
ghost use Rattle.fc_map.specs.ReadyEntry.{ready_map, ready_map_ref, ready_key, ready_list_with, rests_if_not_ready_in};

use super::super::VacantEntry;
use super::ReadyEntry;
use fc_base::{Asked, Handle, TryReserveError};

impl<'a, K: Ord + Drop, V: Drop, A: Handle> VacantEntry<'a, K, V, A> {
    /// Takes every node that the insertion into the gap needs, so that the insertion itself can't be refused. It moves no pair.
    ///
    /// # Errors
    /// As `try_insert`: `CapacityOverflow` where the map holds `usize::MAX` pairs, and then always; else `AllocError`, where a request
    /// for memory was refused, which takes an empty map or a full leaf. The map is then as it was, tree and all, and the key comes back.
    pub fn try_ready(self) -> Result<ReadyEntry<'a, K, V, A>, (K, TryReserveError)>
        ensures* rests { sem 𝓛 (rests_if_not_ready_in K.row V.row A.row A.Allocator self.entry result) }
        ensures same_map { IfOk result (λ e. (ready_map_ref e).ghost_name ≡ (entry_map_ref (Vacant self.entry)).ghost_name) }
        ensures map { IfOk result (λ e. ready_map e ≡ entry_map (Vacant self.entry)) }
        ensures key { IfOk result (λ e. entry_key (Vacant self.entry) ≡ Some (ready_key e)) }
        ensures writes { IfOk result (λ e. (v : V) → ready_list_with e v ≡ list_with (Vacant self.entry) v) }
        ensures back { IfErr result (λ e. entry_key (Vacant self.entry) ≡ Some e.0) }
        ensures error { IfErr result (λ e. MayGrowRefuse (length (entries (entry_map (Vacant self.entry)))) e.1) }
        ensures only_full { OnErr result (length (entries (entry_map (Vacant self.entry))) < usize.MAX → IsFullAt (entry_map (Vacant self.entry)) (entry_path (Vacant self.entry))) }
        ensures full { length (entries (entry_map (Vacant self.entry))) ≡ usize.MAX → IsErr result }
    {
        self.try_ready_asked(&mut Asked::new())
    }

    /// `try_ready`, with its requests for memory added to `asked`: none where the leaf has room, one for a first leaf, and else one for a leaf and two for each
    /// inner node; where it is refused, no more.
    ///
    /// # Errors
    /// As `try_ready`.
    pub fn try_ready_asked(
        self,
        asked: &mut Asked,
    ) -> Result<ReadyEntry<'a, K, V, A>, (K, TryReserveError)>
        ensures* rests { sem 𝓛 (rests_if_not_ready_in K.row V.row A.row A.Allocator self.entry result) }
        ensures same_map { IfOk result (λ e. (ready_map_ref e).ghost_name ≡ (entry_map_ref (Vacant self.entry)).ghost_name) }
        ensures map { IfOk result (λ e. ready_map e ≡ entry_map (Vacant self.entry)) }
        ensures key { IfOk result (λ e. entry_key (Vacant self.entry) ≡ Some (ready_key e)) }
        ensures writes { IfOk result (λ e. (v : V) → ready_list_with e v ≡ list_with (Vacant self.entry) v) }
        ensures back { IfErr result (λ e. entry_key (Vacant self.entry) ≡ Some e.0) }
        ensures error { IfErr result (λ e. MayGrowRefuse (length (entries (entry_map (Vacant self.entry)))) e.1) }
        ensures only_full { OnErr result (length (entries (entry_map (Vacant self.entry))) < usize.MAX → IsFullAt (entry_map (Vacant self.entry)) (entry_path (Vacant self.entry))) }
        ensures full { length (entries (entry_map (Vacant self.entry))) ≡ usize.MAX → IsErr result }
        ensures requests { IfOk result (λ _. asked.new.requests ≡ asked.old.requests + requests_at (entry_map (Vacant self.entry)) (entry_path (Vacant self.entry))) }
        ensures at_most { asked.new.requests ≤ asked.old.requests + requests_at (entry_map (Vacant self.entry)) (entry_path (Vacant self.entry)) }
        ensures room { ¬ IsFullAt (entry_map (Vacant self.entry)) (entry_path (Vacant self.entry)) → asked.new.requests ≤ asked.old.requests }
        ensures few { HasFewRequests (length (entries (entry_map (Vacant self.entry))) + 1) asked.old asked.new }
    {
        let VacantEntry { map, key, path } = self;
        match map.try_nodes_at(&path, asked) {
            Ok(new_nodes) => Ok(ReadyEntry {
                map,
                key,
                path,
                new_nodes,
            }),
            Err(refused) => Err((key, refused)),
        }
    }
}
