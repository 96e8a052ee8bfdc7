//! Reservations: nodes allocated for many insertions, which nothing then refuses.
ghost use Rattle.std.specs.Prelude.{◌≡◌, ℕ, ◌+◌, ◌*◌, ◌<◌, ◌≤◌, ◌↔◌, length, IsTrue, IsSome, IsOk, IsErr, IfOk, IfErr, None, if◌then◌else◌};
ghost use Rattle.fc_map.specs.Counts.{IsBounded};
ghost use Rattle.fc_map.specs.Entries.{IsSoundMap, passed_in};
ghost use Rattle.fc_map.specs.Requests.{list_requests, IsFewestOver};
ghost use Rattle.fc_map.specs.Reservation.{reservation_error};
ghost use Rattle.fc_set.specs.Items.{items, item_at, AreAscending, with_item};

use super::BTreeSet;
use fc_base::{Asked, Count, Handle, TryReserveError};
use fc_map::map::Reservation;

impl<T: Ord + Drop, A: Handle> BTreeSet<T, A> {
    /// Takes the nodes that so many insertions of new items can need, whatever the items, so that `insert_reserved` can't be refused: what
    /// `reserve` is for a vector. A reservation of none takes no memory, and is Ok. The set is only read, and need not be the one that the reservation is used for.
    ///
    /// # Errors
    /// As `BTreeMap::try_reserve_nodes`. What was taken is then given back.
    pub fn try_reserve_nodes(
        &self,
        insertions: usize,
    ) -> Result<Reservation<T, (), A>, TryReserveError>
        ensures places { IfOk result (λ reservation. reservation.places ≡ insertions) }
        ensures pairs { IfOk result (λ reservation. reservation.pairs ≡ length (items self.now) + insertions) }
        ensures none { insertions ≡ 0 → IsOk result }
        ensures error { IfErr result (λ e. e ≡ reservation_error (length (items self.now)) insertions) }
        ensures overflow { reservation_error (length (items self.now)) insertions ≡ TryReserveError.CapacityOverflow → IsErr result }
    {
        self.try_reserve_nodes_asked(insertions, &mut Asked::new())
    }

    /// `try_reserve_nodes`, with its requests for memory added to `asked`, as `BTreeMap::try_reserve_nodes_asked` adds them.
    ///
    /// # Errors
    /// As `try_reserve_nodes`.
    pub fn try_reserve_nodes_asked(
        &self,
        insertions: usize,
        asked: &mut Asked,
    ) -> Result<Reservation<T, (), A>, TryReserveError>
        ensures places { IfOk result (λ reservation. reservation.places ≡ insertions) }
        ensures pairs { IfOk result (λ reservation. reservation.pairs ≡ length (items self.now) + insertions) }
        ensures none { insertions ≡ 0 → IsOk result }
        ensures error { IfErr result (λ e. e ≡ reservation_error (length (items self.now)) insertions) }
        ensures overflow { reservation_error (length (items self.now)) insertions ≡ TryReserveError.CapacityOverflow → IsErr result }
        ensures requests { IfOk result (λ _. (levels : ℕ) → IsFewestOver levels (length (items self.now) + insertions) → asked.new.requests ≡ asked.old.requests + list_requests 2 (insertions * levels)) }
        ensures at_most { (levels : ℕ) → IsFewestOver levels (length (items self.now) + insertions) → asked.new.requests ≤ asked.old.requests + list_requests 2 (insertions * levels) }
    {
        self.map.try_reserve_nodes_asked(insertions, asked)
    }

    /// Puts the item into the set, as `try_insert`, with no memory but the reservation's, and so without a refusal: true where it is new, which uses
    /// one place up. It asks for a place in the reservation (`Reservation::places`) and for fewer items than the pairs that the reservation serves (`Reservation::pairs`).
    pub fn insert_reserved(&mut self, reservation: &mut Reservation<T, (), A>, item: T) -> bool
        requires place { 0 < reservation.old.places }
        requires fits { length (items self.old) < reservation.old.pairs }
        ensures new { IsTrue result ↔ (item_at T.cmp (items self.old) item ≡ None) }
        ensures put { items self.new ≡ with_item T.cmp (items self.old) item }
        ensures places { reservation.new.places + (if result then 1 else 0) ≡ reservation.old.places }
        ensures pairs { reservation.new.pairs ≡ reservation.old.pairs }
        ensures total { length (items self.new) + reservation.new.places ≡ length (items self.old) + reservation.old.places }
        ensures ascending { AreAscending T.cmp (items self.new) }
        ensures sound { IsSoundMap self.new }
    {
        self.insert_reserved_counted(reservation, item, &mut Count::new())
    }

    /// `insert_reserved`, with its comparisons and moves added to the count, as those of `try_insert_counted`.
    pub fn insert_reserved_counted(
        &mut self,
        reservation: &mut Reservation<T, (), A>,
        item: T,
        count: &mut Count,
    ) -> bool
        requires place { 0 < reservation.old.places }
        requires fits { length (items self.old) < reservation.old.pairs }
        ensures new { IsTrue result ↔ (item_at T.cmp (items self.old) item ≡ None) }
        ensures put { items self.new ≡ with_item T.cmp (items self.old) item }
        ensures places { reservation.new.places + (if result then 1 else 0) ≡ reservation.old.places }
        ensures pairs { reservation.new.pairs ≡ reservation.old.pairs }
        ensures total { length (items self.new) + reservation.new.places ≡ length (items self.old) + reservation.old.places }
        ensures ascending { AreAscending T.cmp (items self.new) }
        ensures sound { IsSoundMap self.new }
        ensures comparisons { count.new.comparisons ≡ count.old.comparisons + passed_in T.cmp item self.old }
        ensures no_move { IsSome (item_at T.cmp (items self.old) item) → count.new.moves ≡ count.old.moves }
        ensures moved { item_at T.cmp (items self.old) item ≡ None → count.old.moves < count.new.moves }
        ensures bounded { IsBounded (length (items self.new)) count.old count.new }
    {
        self.map
            .insert_reserved_counted(reservation, item, (), count)
            .is_none()
    }
}
