//! The ordered set: a map whose values take no memory.
ghost use Rattle.std.specs.Prelude.{◌≡◌, ◌+◌, ◌<◌, ◌≤◌, ◌↔◌, ◌⊎◌, [], length, IsTrue, IsSome, IsErr, IfOk, IfErr, OnOk, OnErr, None};
ghost use Rattle.std.specs.Option.{option_map};
ghost use Rattle.fc_base.specs.Growth.{MayGrowRefuse};
ghost use Rattle.fc_map.specs.Counts.{IsBounded};
ghost use Rattle.fc_map.specs.Full.{TakesNode};
ghost use Rattle.fc_map.specs.Kept.{blocks_in, AreAllKept};
ghost use Rattle.fc_map.specs.Requests.{insertion_requests, HasFewRequests};
ghost use Rattle.fc_map.specs.Fewest.{HasFewestMoves};
ghost use Rattle.fc_map.specs.Entries.{IsSoundMap, now_pair, now_value, passed_in};
ghost use Rattle.fc_set.specs.Items.{items, item_at, without, AreAscending, with_item, with_replaced};

mod clones;
mod compare;
mod copied;
mod difference;
mod extend;
mod first_last;
mod intersection;
mod iter;
mod merge;
mod neighbours;
mod operators;
mod peeked;
mod predicates;
mod reservation;
mod retain;
mod retain_range;
mod shown;
mod symmetric_difference;
mod union;
mod whole;

pub use difference::Difference;
use fc_base::{Asked, Count, Handle, Query, TryReserveError, compare};
use fc_map::map::{BTreeMap, for_sets};
pub use intersection::Intersection;
pub use iter::{IntoIter, Iter, Range};
use std::alloc::Global;
use std::cmp::Ordering;
use std::marker::Model;
pub use symmetric_difference::SymmetricDifference;
pub use union::Union;

/// An ordered set: items in strictly ascending order, as the keys of a `BTreeMap`, in a B-tree whose nodes hold 7 to 15 of them. Only
/// calls that answer a `Result` take memory. Upstream: `BTreeSet`.
#[derive(Drop)]
pub struct BTreeSet<T: Ord, A: Handle = Global> {
    map: BTreeMap<T, (), A>,
}

impl<T: Ord, A: Handle> Model for BTreeSet<T, A> {
    ghost use Rattle.std.specs.Prelude.{⊤};
    ghost use Rattle.std.specs.Coded.{coded_option};
    ghost use base.Fml.{ftrue};
    ghost use base.Stored.{coded_unit};
    ghost use borrow.Follows.Maybe.{bare};
    ghost use Rattle.fc_map.specs.Entries.{Map};
    ghost use Rattle.fc_tree_node.specs.contracts.node.Node as node;

    ghost Value = { Map T ⊤ A };

    ghost coded = { coded_option ((node.the_row (bare T T.code) (bare ⊤ coded_unit) (bare A A.code) (record { dealloc_token = λ _ _ _. ftrue })).coded) };

    ghost view = { λ s. s.map };
}

impl<T: Ord, A: Handle> BTreeSet<T, A> {
    /// An empty set, which takes no memory. Later requests go to `alloc`. Upstream: `BTreeSet::new`.
    pub fn new(alloc: A) -> BTreeSet<T, A>
        ensures { items result ≡ [] }
    {
        BTreeSet {
            map: BTreeMap::new(alloc),
        }
    }

    /// An empty set, as `new` makes it. Upstream: `BTreeSet::default`.
    pub fn default(alloc: A) -> BTreeSet<T, A>
        ensures { items result ≡ [] }
    {
        BTreeSet::new(alloc)
    }

    /// The number of items. Upstream: `BTreeSet::len`.
    pub fn len(&self) -> usize
        ensures value { result ≡ length (items self.now) }
        ensures ascending { AreAscending T.cmp (items self.now) }
        ensures sound { IsSoundMap self.now }
    {
        self.map.len()
    }

    /// Whether the set has no item. Upstream: `BTreeSet::is_empty`.
    pub fn is_empty(&self) -> bool
        ensures { IsTrue result ↔ (items self.now ≡ []) }
    {
        self.map.is_empty()
    }

    /// Whether an equal item is there. `item` is a `Query`: `contains(&item)`, or `contains("word")` where the items are `String`s.
    /// Upstream: `BTreeSet::contains`.
    pub fn contains<Q: Query<T>>(&self, item: Q) -> bool
        ensures there { IsTrue result ↔ IsSome (item_at Q.order (items self.now) (Q.sought item)) }
        ensures ascending { AreAscending T.cmp (items self.now) }
    {
        self.contains_counted(item, &mut Count::new())
    }

    /// `contains`, with its comparisons added to the count: exactly those items that a search from the left passes. It moves no
    /// item.
    pub fn contains_counted<Q: Query<T>>(&self, item: Q, count: &mut Count) -> bool
        ensures there { IsTrue result ↔ IsSome (item_at Q.order (items self.now) (Q.sought item)) }
        ensures ascending { AreAscending T.cmp (items self.now) }
        ensures comparisons { count.new.comparisons ≡ count.old.comparisons + passed_in Q.order (Q.sought item) self.now }
        ensures moves { count.new.moves ≡ count.old.moves }
        ensures bounded { IsBounded (length (items self.now)) count.old count.new }
    {
        self.map.contains_key_counted(item, count)
    }

    /// The equal item, or `None` where there is none. Upstream: `BTreeSet::get`.
    pub fn get<Q: Query<T>>(&self, item: Q) -> Option<&T>
        ensures item { now_value result ≡ item_at Q.order (items self.now) (Q.sought item) }
        ensures ascending { AreAscending T.cmp (items self.now) }
    {
        self.get_counted(item, &mut Count::new())
    }

    /// `get`, with its comparisons added to the count: exactly those items that a search from the left passes. It moves no item.
    pub fn get_counted<Q: Query<T>>(&self, item: Q, count: &mut Count) -> Option<&T>
        ensures item { now_value result ≡ item_at Q.order (items self.now) (Q.sought item) }
        ensures ascending { AreAscending T.cmp (items self.now) }
        ensures comparisons { count.new.comparisons ≡ count.old.comparisons + passed_in Q.order (Q.sought item) self.now }
        ensures moves { count.new.moves ≡ count.old.moves }
        ensures bounded { IsBounded (length (items self.now)) count.old count.new }
    {
        lent_item(self.map.get_key_value_counted(item, count))
    }
}

impl<T: Ord + Drop, A: Handle> BTreeSet<T, A> {
    /// Drops all items. It takes no memory. Upstream: `BTreeSet::clear`.
    pub fn clear(&mut self)
        ensures { items self.new ≡ [] }
    {
        self.map.clear();
    }

    /// Puts the item into the set: `Ok(true)` where it is new. Where an equal item is there, that item stays, the given one is
    /// dropped, no memory is asked for, and the answer is `Ok(false)`. Upstream: `BTreeSet::try_insert`.
    ///
    /// # Errors
    /// Only at a new item: `CapacityOverflow` where the set holds `usize::MAX` items, and then always; else `AllocError`, where a
    /// request for memory was refused, which takes an empty set or a full leaf. The set is then as it was, tree and all, and the
    /// item comes back.
    pub fn try_insert(&mut self, item: T) -> Result<bool, (T, TryReserveError)>
        ensures new { IfOk result (λ new. IsTrue new ↔ (item_at T.cmp (items self.old) item ≡ None)) }
        ensures put { IfOk result (λ _. items self.new ≡ with_item T.cmp (items self.old) item) }
        ensures unchanged { IfErr result (λ _. self.new ≡ self.old) }
        ensures new_item { IfErr result (λ _. item_at T.cmp (items self.old) item ≡ None) }
        ensures back { IfErr result (λ e. e.0 ≡ item) }
        ensures error { IfErr result (λ e. MayGrowRefuse (length (items self.old)) e.1) }
        ensures only_full { OnErr result (length (items self.old) < usize.MAX → TakesNode T.cmp item self.old) }
        ensures full { item_at T.cmp (items self.old) item ≡ None → length (items self.old) ≡ usize.MAX → IsErr result }
        ensures ascending { AreAscending T.cmp (items self.new) }
        ensures sound { IsSoundMap self.new }
    {
        self.try_insert_counted(item, &mut Count::new())
    }

    /// `try_insert`, with its comparisons and moves added to the count: exactly the comparisons of the items that a search from the
    /// left passes, and for a new item the moves of its insertion; at an equal item and where it is refused nothing moves.
    ///
    /// # Errors
    /// As `try_insert`.
    pub fn try_insert_counted(
        &mut self,
        item: T,
        count: &mut Count,
    ) -> Result<bool, (T, TryReserveError)>
        ensures new { IfOk result (λ new. IsTrue new ↔ (item_at T.cmp (items self.old) item ≡ None)) }
        ensures put { IfOk result (λ _. items self.new ≡ with_item T.cmp (items self.old) item) }
        ensures unchanged { IfErr result (λ _. self.new ≡ self.old) }
        ensures new_item { IfErr result (λ _. item_at T.cmp (items self.old) item ≡ None) }
        ensures back { IfErr result (λ e. e.0 ≡ item) }
        ensures error { IfErr result (λ e. MayGrowRefuse (length (items self.old)) e.1) }
        ensures only_full { OnErr result (length (items self.old) < usize.MAX → TakesNode T.cmp item self.old) }
        ensures full { item_at T.cmp (items self.old) item ≡ None → length (items self.old) ≡ usize.MAX → IsErr result }
        ensures ascending { AreAscending T.cmp (items self.new) }
        ensures sound { IsSoundMap self.new }
        ensures comparisons { count.new.comparisons ≡ count.old.comparisons + passed_in T.cmp item self.old }
        ensures no_move { IsErr result ⊎ IsSome (item_at T.cmp (items self.old) item) → count.new.moves ≡ count.old.moves }
        ensures moved { OnOk result (item_at T.cmp (items self.old) item ≡ None → count.old.moves < count.new.moves) }
        ensures bounded { IsBounded (length (items self.new)) count.old count.new }
    {
        self.try_insert_asked(item, count, &mut Asked::new())
    }

    /// `try_insert_counted`, with its requests for memory added to `asked`: none where an equal item is there or the leaf has room, one for a first leaf, and
    /// else one for a leaf and two for each inner node that the insertion takes; where it is refused, no more.
    ///
    /// # Errors
    /// As `try_insert`.
    pub fn try_insert_asked(
        &mut self,
        item: T,
        count: &mut Count,
        asked: &mut Asked,
    ) -> Result<bool, (T, TryReserveError)>
        ensures new { IfOk result (λ new. IsTrue new ↔ (item_at T.cmp (items self.old) item ≡ None)) }
        ensures put { IfOk result (λ _. items self.new ≡ with_item T.cmp (items self.old) item) }
        ensures unchanged { IfErr result (λ _. self.new ≡ self.old) }
        ensures new_item { IfErr result (λ _. item_at T.cmp (items self.old) item ≡ None) }
        ensures back { IfErr result (λ e. e.0 ≡ item) }
        ensures error { IfErr result (λ e. MayGrowRefuse (length (items self.old)) e.1) }
        ensures only_full { OnErr result (length (items self.old) < usize.MAX → TakesNode T.cmp item self.old) }
        ensures full { item_at T.cmp (items self.old) item ≡ None → length (items self.old) ≡ usize.MAX → IsErr result }
        ensures ascending { AreAscending T.cmp (items self.new) }
        ensures sound { IsSoundMap self.new }
        ensures comparisons { count.new.comparisons ≡ count.old.comparisons + passed_in T.cmp item self.old }
        ensures no_move { IsErr result ⊎ IsSome (item_at T.cmp (items self.old) item) → count.new.moves ≡ count.old.moves }
        ensures moved { OnOk result (item_at T.cmp (items self.old) item ≡ None → count.old.moves < count.new.moves) }
        ensures bounded { IsBounded (length (items self.new)) count.old count.new }
        ensures requests { OnOk result (item_at T.cmp (items self.old) item ≡ None → asked.new.requests ≡ asked.old.requests + insertion_requests T.cmp item self.old) }
        ensures at_most { asked.new.requests ≤ asked.old.requests + insertion_requests T.cmp item self.old }
        ensures none { IsSome (item_at T.cmp (items self.old) item) → asked.new.requests ≡ asked.old.requests }
        ensures room { ¬ TakesNode T.cmp item self.old → asked.new.requests ≤ asked.old.requests }
        ensures few { HasFewRequests (length (items self.old) + 1) asked.old asked.new }
        ensures kept { OnOk result (AreAllKept self.old self.new asked.old asked.new) }
    {
        match self.map.try_insert_asked(item, (), count, asked) {
            Ok(old) => return Ok(old.is_none()),
            Err((item, _, e)) => return Err((item, e)),
        }
    }

    /// Takes the equal item out and drops it: true where there was one. It takes no memory. Upstream: `BTreeSet::remove`.
    pub fn remove<Q: Query<T>>(&mut self, item: Q) -> bool
        ensures there { IsTrue result ↔ IsSome (item_at Q.order (items self.old) (Q.sought item)) }
        ensures rest { items self.new ≡ without Q.order (items self.old) (Q.sought item) }
        ensures absent { item_at Q.order (items self.old) (Q.sought item) ≡ None → self.new ≡ self.old }
        ensures ascending { AreAscending T.cmp (items self.new) }
        ensures sound { IsSoundMap self.new }
    {
        self.remove_counted(item, &mut Count::new())
    }

    /// `remove`, with its comparisons and moves added to the count: exactly the comparisons of the items that a search from the left
    /// passes, and where there is an equal item the moves of its removal.
    pub fn remove_counted<Q: Query<T>>(&mut self, item: Q, count: &mut Count) -> bool
        ensures there { IsTrue result ↔ IsSome (item_at Q.order (items self.old) (Q.sought item)) }
        ensures rest { items self.new ≡ without Q.order (items self.old) (Q.sought item) }
        ensures absent { item_at Q.order (items self.old) (Q.sought item) ≡ None → self.new ≡ self.old }
        ensures ascending { AreAscending T.cmp (items self.new) }
        ensures sound { IsSoundMap self.new }
        ensures comparisons { count.new.comparisons ≡ count.old.comparisons + passed_in Q.order (Q.sought item) self.old }
        ensures no_move { item_at Q.order (items self.old) (Q.sought item) ≡ None → count.new.moves ≡ count.old.moves }
        ensures moved { IsSome (item_at Q.order (items self.old) (Q.sought item)) → count.old.moves < count.new.moves }
        ensures fewest { HasFewestMoves self.old self.new count.old count.new }
        ensures bounded { IsBounded (length (items self.old)) count.old count.new }
        ensures blocks { blocks_in self.new ≤ blocks_in self.old }
    {
        self.map.remove_counted(item, count).is_some()
    }

    /// Takes the equal item out and answers it, or `None` where there is none, and the set is as it was. It takes no memory.
    /// Upstream: `BTreeSet::take`.
    pub fn take<Q: Query<T>>(&mut self, item: Q) -> Option<T>
        ensures item { result ≡ item_at Q.order (items self.old) (Q.sought item) }
        ensures rest { items self.new ≡ without Q.order (items self.old) (Q.sought item) }
        ensures absent { item_at Q.order (items self.old) (Q.sought item) ≡ None → self.new ≡ self.old }
        ensures ascending { AreAscending T.cmp (items self.new) }
        ensures sound { IsSoundMap self.new }
    {
        self.take_counted(item, &mut Count::new())
    }

    /// `take`, with its comparisons and moves added to the count, as those of `remove_counted`.
    pub fn take_counted<Q: Query<T>>(&mut self, item: Q, count: &mut Count) -> Option<T>
        ensures item { result ≡ item_at Q.order (items self.old) (Q.sought item) }
        ensures rest { items self.new ≡ without Q.order (items self.old) (Q.sought item) }
        ensures absent { item_at Q.order (items self.old) (Q.sought item) ≡ None → self.new ≡ self.old }
        ensures ascending { AreAscending T.cmp (items self.new) }
        ensures sound { IsSoundMap self.new }
        ensures comparisons { count.new.comparisons ≡ count.old.comparisons + passed_in Q.order (Q.sought item) self.old }
        ensures no_move { item_at Q.order (items self.old) (Q.sought item) ≡ None → count.new.moves ≡ count.old.moves }
        ensures moved { IsSome (item_at Q.order (items self.old) (Q.sought item)) → count.old.moves < count.new.moves }
        ensures fewest { HasFewestMoves self.old self.new count.old count.new }
        ensures bounded { IsBounded (length (items self.old)) count.old count.new }
        ensures blocks { blocks_in self.new ≤ blocks_in self.old }
    {
        item_of(for_sets::take(&mut self.map, item, count))
    }

    /// Puts the item in the place of the equal one, which is answered, and asks for no memory; else the item is new, and the answer
    /// is `Ok(None)`. Upstream: `BTreeSet::replace`.
    ///
    /// # Errors
    /// As `try_insert`, only at a new item.
    pub fn replace(&mut self, item: T) -> Result<Option<T>, (T, TryReserveError)>
        ensures old { IfOk result (λ old. old ≡ item_at T.cmp (items self.old) item) }
        ensures put { IfOk result (λ _. items self.new ≡ with_replaced T.cmp (items self.old) item) }
        ensures unchanged { IfErr result (λ _. self.new ≡ self.old) }
        ensures new_item { IfErr result (λ _. item_at T.cmp (items self.old) item ≡ None) }
        ensures back { IfErr result (λ e. e.0 ≡ item) }
        ensures error { IfErr result (λ e. MayGrowRefuse (length (items self.old)) e.1) }
        ensures only_full { OnErr result (length (items self.old) < usize.MAX → TakesNode T.cmp item self.old) }
        ensures full { item_at T.cmp (items self.old) item ≡ None → length (items self.old) ≡ usize.MAX → IsErr result }
        ensures ascending { AreAscending T.cmp (items self.new) }
        ensures sound { IsSoundMap self.new }
    {
        self.replace_counted(item, &mut Count::new())
    }

    /// `replace`, with its comparisons and moves added to the count: exactly the comparisons of the items that a search from the left
    /// passes; the moves of an insertion for a new item, and two in the place of an equal one; a refused call moves nothing.
    ///
    /// # Errors
    /// As `try_insert`, only at a new item.
    pub fn replace_counted(
        &mut self,
        item: T,
        count: &mut Count,
    ) -> Result<Option<T>, (T, TryReserveError)>
        ensures old { IfOk result (λ old. old ≡ item_at T.cmp (items self.old) item) }
        ensures put { IfOk result (λ _. items self.new ≡ with_replaced T.cmp (items self.old) item) }
        ensures unchanged { IfErr result (λ _. self.new ≡ self.old) }
        ensures new_item { IfErr result (λ _. item_at T.cmp (items self.old) item ≡ None) }
        ensures back { IfErr result (λ e. e.0 ≡ item) }
        ensures error { IfErr result (λ e. MayGrowRefuse (length (items self.old)) e.1) }
        ensures only_full { OnErr result (length (items self.old) < usize.MAX → TakesNode T.cmp item self.old) }
        ensures full { item_at T.cmp (items self.old) item ≡ None → length (items self.old) ≡ usize.MAX → IsErr result }
        ensures ascending { AreAscending T.cmp (items self.new) }
        ensures sound { IsSoundMap self.new }
        ensures comparisons { count.new.comparisons ≡ count.old.comparisons + passed_in T.cmp item self.old }
        ensures no_move { IsErr result → count.new.moves ≡ count.old.moves }
        ensures moved { OnOk result (count.old.moves < count.new.moves) }
        ensures exchanged { IsSome (item_at T.cmp (items self.old) item) → count.new.moves ≡ count.old.moves + 2 }
        ensures bounded { IsBounded (length (items self.new)) count.old count.new }
    {
        self.replace_asked(item, count, &mut Asked::new())
    }

    /// `replace_counted`, with its requests for memory added to `asked`, as `try_insert_asked` adds them: none where an equal item is there.
    ///
    /// # Errors
    /// As `try_insert`, only at a new item.
    pub fn replace_asked(
        &mut self,
        item: T,
        count: &mut Count,
        asked: &mut Asked,
    ) -> Result<Option<T>, (T, TryReserveError)>
        ensures old { IfOk result (λ old. old ≡ item_at T.cmp (items self.old) item) }
        ensures put { IfOk result (λ _. items self.new ≡ with_replaced T.cmp (items self.old) item) }
        ensures unchanged { IfErr result (λ _. self.new ≡ self.old) }
        ensures new_item { IfErr result (λ _. item_at T.cmp (items self.old) item ≡ None) }
        ensures back { IfErr result (λ e. e.0 ≡ item) }
        ensures error { IfErr result (λ e. MayGrowRefuse (length (items self.old)) e.1) }
        ensures only_full { OnErr result (length (items self.old) < usize.MAX → TakesNode T.cmp item self.old) }
        ensures full { item_at T.cmp (items self.old) item ≡ None → length (items self.old) ≡ usize.MAX → IsErr result }
        ensures ascending { AreAscending T.cmp (items self.new) }
        ensures sound { IsSoundMap self.new }
        ensures comparisons { count.new.comparisons ≡ count.old.comparisons + passed_in T.cmp item self.old }
        ensures no_move { IsErr result → count.new.moves ≡ count.old.moves }
        ensures moved { OnOk result (count.old.moves < count.new.moves) }
        ensures exchanged { IsSome (item_at T.cmp (items self.old) item) → count.new.moves ≡ count.old.moves + 2 }
        ensures bounded { IsBounded (length (items self.new)) count.old count.new }
        ensures requests { OnOk result (item_at T.cmp (items self.old) item ≡ None → asked.new.requests ≡ asked.old.requests + insertion_requests T.cmp item self.old) }
        ensures at_most { asked.new.requests ≤ asked.old.requests + insertion_requests T.cmp item self.old }
        ensures none { IsSome (item_at T.cmp (items self.old) item) → asked.new.requests ≡ asked.old.requests }
        ensures room { ¬ TakesNode T.cmp item self.old → asked.new.requests ≤ asked.old.requests }
        ensures few { HasFewRequests (length (items self.old) + 1) asked.old asked.new }
        ensures kept { OnOk result (AreAllKept self.old self.new asked.old asked.new) }
    {
        match for_sets::replace(&mut self.map, item, (), count, asked) {
            Ok(old) => return Ok(item_of(old)),
            Err((item, _, e)) => return Err((item, e)),
        }
    }
}

// The item of a pair.
fn item_of<T>(pair: Option<(T, ())>) -> Option<T>
    ensures { result ≡ option_map (λ e. e.0) pair }
{
    let (item, _nothing) = pair?;
    Some(item)
}

// The item of a pair that is lent.
fn lent_item<'a, T>(pair: Option<(&'a T, &'a ())>) -> Option<&'a T>
    ensures { now_value result ≡ option_map (λ e. e.0) (now_pair pair.entry) }
{
    let (item, _nothing) = pair?;
    Some(item)
}

// How two items stand to one another. What a walk over two sets compares is counted by nobody.
fn order_of<T: Ord>(ours: &T, theirs: &T) -> Ordering
    ensures { result ≡ T.cmp ours.now theirs.now }
{
    compare(ours, theirs, &mut Count::new())
}
