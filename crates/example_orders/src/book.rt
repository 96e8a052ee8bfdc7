//! A book of orders to buy and to sell.
ghost use Rattle.std.specs.Prelude.{◌≡◌, ◌+◌, ◌-◌, ◌^◌, ◌<◌, ◌≤◌, [], length, min, All, IfOk, IfErr, IfNone, OnOk, OnErr};
ghost use Rattle.fallible_collections.specs.Words.{cut, value_at};
ghost use Rattle.example_orders.specs.Orders.{key_cmp, AreApart, AreNumberedBelow};
ghost use Rattle.example_orders.specs.Sides.{Sides};
ghost use Rattle.example_orders.specs.Fills.{fills_of, AreTold};
ghost use Rattle.example_orders.specs.Placing.{rank_of, other_of, limit_at, orders_of, others_of, IsPlaced, IsRefused};

use crate::ladder::{Fill, Key, Ladder};
use fallible_collections::TryReserveError;
use fallible_collections::btree::map::Iter;
use std::alloc::Global;
use std::marker::Model;

/// What an order is to do.
#[derive(Clone, Copy)]
pub enum Side {
    Buy,
    Sell,
}

impl Side {
    /// The rank of a price on this side: the more is bid, or the less is asked, the lower.
    pub fn rank(self, price: u64) -> u64
        ensures { result ≡ rank_of self price }
    {
        match self {
            Side::Buy => u64::MAX - price,
            Side::Sell => price,
        }
    }

    /// The price of a rank on this side.
    pub fn price(self, rank: u64) -> u64
        ensures { rank_of self result ≡ rank }
    {
        match self {
            Side::Buy => u64::MAX - rank,
            Side::Sell => rank,
        }
    }

    /// The side that an order of this side meets.
    pub fn other(self) -> Side
        ensures { result ≡ other_of self }
    {
        match self {
            Side::Buy => Side::Sell,
            Side::Sell => Side::Buy,
        }
    }
}

/// What became of an order.
#[derive(Clone, Copy)]
pub struct Placed {
    pub filled: u64,
    /// What is left of it, and rests under its number if it is not 0.
    pub resting: u64,
    pub number: u64,
}

/// Why an order was not placed.
#[derive(Clone, Copy)]
pub enum NotPlaced {
    /// All numbers are given away.
    NoNumber,
    /// The room that it may need was refused.
    Memory(TryReserveError),
}

/// The orders that rest, each side with the best first. No bid's price reaches that of an ask.
#[derive(Drop)]
pub struct Book {
    bids: Ladder,
    asks: Ladder,
    next: u64,
}

impl Model for Book {
    ghost use Rattle.example_orders.specs.Sides.{Sides, IsBook};

    ghost Value = { Sides };

    ghost view = { λ b. record { bids = b.bids; asks = b.asks; next = b.next } };

    ghost invariant = { λ b. IsBook b.bids b.asks b.next };
}

impl Book {
    /// No orders. It takes no memory.
    pub fn new(alloc: Global) -> Book
        ensures { result ≡ record { bids = []; asks = []; next = 0 } }
    {
        Book {
            bids: Ladder::new(alloc),
            asks: Ladder::new(alloc),
            next: 0,
        }
    }

    /// A walk over the orders of one side, the best first. The book is not crossed: no bid meets an ask.
    pub fn iter(&self, side: Side) -> Iter<'_, Key, u64>
        ensures orders { result ≡ orders_of side self.now }
        ensures not_empty { All (λ o. 0 < o.1) result }
        ensures apart { AreApart self.now.bids self.now.asks }
    {
        match side {
            Side::Buy => self.bids.iter(),
            Side::Sell => self.asks.iter(),
        }
    }

    /// Fills an order by those of the other side that its price reaches, the best first and of one price the earliest, and tells each fill,
    /// once and in that order. What is left of it rests under the next number. Its memory is taken before the first fill.
    ///
    /// # Errors
    /// `NoNumber` where all numbers are given away, and `Memory` where the room for one more order was refused. The book is then as it was,
    /// and no fill was told.
    pub fn try_place<F: FnMut(Fill)>(
        &mut self,
        side: Side,
        price: u64,
        quantity: u64,
        tell: &mut F,
    ) -> Result<Placed, NotPlaced>
        requires { F.IsAlwaysCallable tell.old }
        ensures told { OnOk result (AreTold F.step tell.old (fills_of (limit_at (rank_of side price)) quantity (others_of side self.old)) tell.new) }
        ensures untold { OnErr result (tell.new ≡ tell.old) }
        ensures placed { IfOk result (λ placed. IsPlaced (rank_of side price) quantity (orders_of side self.old) (others_of side self.old) self.old.next placed (orders_of side self.new) (others_of side self.new) self.new.next) }
        ensures error { IfErr result (λ e. IsRefused e (length (orders_of side self.old)) self.old.next) }
        ensures full { self.old.next ≡ 2 ^ 64 - 1 → result ≡ Err NotPlaced.NoNumber }
        ensures unchanged { OnErr result (self.new ≡ self.old) }
        ensures apart { AreApart self.new.bids self.new.asks }
    {
        let rank = side.rank(price);
        match side {
            Side::Buy => place(
                &mut self.bids,
                &mut self.asks,
                &mut self.next,
                rank,
                quantity,
                tell,
            ),
            Side::Sell => place(
                &mut self.asks,
                &mut self.bids,
                &mut self.next,
                rank,
                quantity,
                tell,
            ),
        }
    }

    /// Takes an order out and answers what was left of it; `None` where there is none, and the book is as it was. It takes no memory.
    pub fn cancel(&mut self, side: Side, price: u64, number: u64) -> Option<u64>
        ensures quantity { result ≡ value_at key_cmp (orders_of side self.old) (rank_of side price, number) }
        ensures rest { orders_of side self.new ≡ cut key_cmp (orders_of side self.old) (rank_of side price, number) }
        ensures others { others_of side self.new ≡ others_of side self.old }
        ensures unchanged { IfNone result (self.new ≡ self.old) }
        ensures apart { AreApart self.new.bids self.new.asks }
    {
        let key = (side.rank(price), number);
        match side {
            Side::Buy => self.bids.cancel(key),
            Side::Sell => self.asks.cancel(key),
        }
    }
}

// Fills an order by the others, and lets what is left rest among its own.
fn place<F: FnMut(Fill)>(
    own: &mut Ladder,
    others: &mut Ladder,
    next: &mut u64,
    rank: u64,
    quantity: u64,
    tell: &mut F,
) -> Result<Placed, NotPlaced>
    requires callable { F.IsAlwaysCallable tell.old }
    requires apart { AreApart own.old others.old }
    requires numbered { AreNumberedBelow next.old own.old }
    requires others_numbered { AreNumberedBelow next.old others.old }
    ensures told { OnOk result (AreTold F.step tell.old (fills_of (limit_at rank) quantity others.old) tell.new) }
    ensures untold { OnErr result (tell.new ≡ tell.old) }
    ensures placed { IfOk result (λ placed. IsPlaced rank quantity own.old others.old next.old placed own.new others.new next.new) }
    ensures error { IfErr result (λ e. IsRefused e (length own.old) next.old) }
    ensures full { next.old ≡ 2 ^ 64 - 1 → result ≡ Err NotPlaced.NoNumber }
    ensures unchanged { OnErr result ((own.new ≡ own.old) × (others.new ≡ others.old) × (next.new ≡ next.old)) }
    ensures apart { AreApart own.new others.new }
    ensures numbered { AreNumberedBelow next.new own.new }
    ensures others_numbered { AreNumberedBelow next.new others.new }
{
    let number = *next;
    if number == u64::MAX {
        return Err(NotPlaced::NoNumber);
    }
    let mut reservation = match own.try_reserve_one() {
        Ok(reservation) => reservation,
        Err(e) => return Err(NotPlaced::Memory(e)),
    };
    // Nothing can be refused from here on.
    let resting = others.take_all(u64::MAX - rank, quantity, tell);
    let placed = Placed {
        filled: quantity - resting,
        resting,
        number,
    };
    if resting == 0 {
        return Ok(placed);
    }
    own.rest(&mut reservation, (rank, number), resting);
    *next = number + 1;
    Ok(placed)
}
