//! One side of a book: the orders that rest there, the best first.
ghost use Rattle.std.specs.Prelude.{◌≡◌, ◌+◌, ◌<◌, ◌≤◌, [], length, All, IfSome, IfNone, IfOk, IfErr};
ghost use Rattle.fallible_collections.specs.Words.{entries, put, cut, value_at, reservation_error, Places};
ghost use Rattle.example_orders.specs.Orders.{key_cmp, after_fills, unfilled};
ghost use Rattle.example_orders.specs.Fills.{best_fill, after_fill, fills_of, AreTold};

use fallible_collections::TryReserveError;
use fallible_collections::btree::BTreeMap;
use fallible_collections::btree::map::{Iter, Reservation};
use std::alloc::Global;
use std::marker::Model;

/// Where an order stands on its side: the rank of its price, which is lower the better the price is, and its number, by which earlier orders
/// come before later ones of one price.
pub type Key = (u64, u64);

/// What an order took of one that rests on the other side.
#[derive(Clone, Copy)]
pub struct Fill {
    /// Where the other order rests, or did.
    pub key: Key,
    pub quantity: u64,
}

/// The quantities of the orders that rest on one side, in the order in which they are filled. None is 0.
#[derive(Drop)]
pub struct Ladder {
    orders: BTreeMap<Key, u64>,
}

impl Model for Ladder {
    ghost use Rattle.std.specs.Prelude.{ℕ, ◌<◌, All};
    ghost use Rattle.fallible_collections.specs.Words.{entries};
    ghost use Rattle.example_orders.specs.Orders.{Orders};

    ghost Value = { Orders };

    ghost view = { λ l. entries l.orders };

    ghost invariant = { λ l. All (λ o. 0 < o.1) (entries l.orders) };
}

impl Ladder {
    /// No orders. It takes no memory.
    pub fn new(alloc: Global) -> Ladder
        ensures { result ≡ [] }
    {
        Ladder {
            orders: BTreeMap::new(alloc),
        }
    }

    /// A walk over the orders, the best first.
    pub fn iter(&self) -> Iter<'_, Key, u64>
        ensures orders { result ≡ self.now }
        ensures not_empty { All (λ o. 0 < o.1) result }
    {
        self.orders.iter()
    }

    /// Takes the room for one more order, so that `rest` can't be refused.
    ///
    /// # Errors
    /// `AllocError` where a request for memory was refused, or `CapacityOverflow` beside `usize::MAX` orders.
    pub fn try_reserve_one(&self) -> Result<Reservation<Key, u64>, TryReserveError>
        ensures place { IfOk result (λ reservation. 0 < reservation.places) }
        ensures fits { IfOk result (λ reservation. length self.now < reservation.pairs) }
        ensures error { IfErr result (λ e. e ≡ reservation_error (length self.now) 1) }
    {
        self.orders.try_reserve_nodes(1)
    }

    /// Puts an order in.
    pub fn rest(&mut self, reservation: &mut Reservation<Key, u64>, key: Key, quantity: u64)
        requires place { 0 < reservation.old.places }
        requires fits { length self.old < reservation.old.pairs }
        requires not_empty { 0 < quantity }
        ensures { self.new ≡ put key_cmp self.old key quantity }
    {
        self.orders.insert_reserved(reservation, key, quantity);
    }

    /// Takes an order out and answers what was left of it; `None` where there is none. It takes no memory.
    pub fn cancel(&mut self, key: Key) -> Option<u64>
        ensures quantity { result ≡ value_at key_cmp self.old key }
        ensures rest { self.new ≡ cut key_cmp self.old key }
        ensures unchanged { IfNone result (self.new ≡ self.old) }
    {
        self.orders.remove(&key)
    }

    /// Takes so much from the best order, or all that it has, if its rank is within the limit; `None` where no order's is. It takes no memory.
    pub fn take_best(&mut self, limit: u64, wanted: u64) -> Option<Fill>
        requires { 0 < wanted }
        ensures fill { result ≡ best_fill limit wanted self.old }
        ensures rest { self.new ≡ after_fill limit wanted self.old }
        ensures none { IfNone result (All (λ o. limit < o.0.0) self.old) }
        ensures unchanged { IfNone result (self.new ≡ self.old) }
        ensures some { IfSome result (λ fill. (0 < fill.quantity) × (fill.quantity ≤ wanted)) }
    {
        take_first(&mut self.orders, limit, wanted)
    }

    /// Takes so much from the orders whose rank is within the limit, the best first, tells each fill, and answers what was not to be had.
    /// It takes no memory.
    pub fn take_all<F: FnMut(Fill)>(&mut self, limit: u64, wanted: u64, tell: &mut F) -> u64
        requires { F.IsAlwaysCallable tell.old }
        ensures told { AreTold F.step tell.old (fills_of limit wanted self.old) tell.new }
        ensures callable { F.IsAlwaysCallable tell.new }
        ensures left { result ≡ unfilled limit wanted self.old }
        ensures at_most { result ≤ wanted }
        ensures rest { self.new ≡ after_fills limit wanted self.old }
        ensures above { 0 < result → All (λ o. limit < o.0.0) self.new }
    {
        let mut left = wanted;
        while left > 0 {
            let Some(fill) = self.take_best(limit, left) else {
                return left;
            };
            left -= fill.quantity;
            tell(fill);
        }
        left
    }
}

// Takes so much from the first order, or all that it has, if its rank is within the limit. It searches for nothing.
fn take_first(orders: &mut BTreeMap<Key, u64>, limit: u64, wanted: u64) -> Option<Fill>
    ensures fill { result ≡ best_fill limit wanted (entries orders.old) }
    ensures rest { entries orders.new ≡ after_fill limit wanted (entries orders.old) }
    ensures none { IfNone result (All (λ o. limit < o.0.0) (entries orders.old)) }
    ensures unchanged { IfNone result (orders.new ≡ orders.old) }
{
    let Some(mut first) = orders.first_entry() else {
        return None;
    };
    let (key, held) = (*first.key(), *first.get());
    if key.0 > limit {
        return None;
    }
    if wanted < held {
        first.insert(held - wanted);
        return Some(Fill {
            key,
            quantity: wanted,
        });
    }
    first.remove();
    Some(Fill {
        key,
        quantity: held,
    })
}
