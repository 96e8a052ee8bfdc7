//! Counts of comparisons and moves, for proofs alone: a `Count` has no bytes.
//!
//! What adds to a count is a call in this module. Only `compare` adds a comparison, since the function that both numbers
//! grow by is private. `add_moves` is public because lists are in another crate: only the modules `cells` and `slots` of `fc_tree_slots`
//! may call it, and the gate searches the sources for any other caller.
ghost use Rattle.std.specs.Prelude.{◌≡◌, ℕ, ◌+◌};
ghost use Rattle.std.specs.Borrow.{ftrue};

use crate::query::Query;
use std::cmp::Ordering;
use std::marker::{Model, PhantomData};

/// How many comparisons and how many moves were made. Contracts see both numbers, and a program sees none.
#[derive(Drop)]
pub struct Count {
    marker: PhantomData<()>,
    pub ghost comparisons: { ℕ },
    pub ghost moves: { ℕ },
}

impl Model for Count {
    ghost also_owns = { λ _. ftrue };
}

impl Count {
    /// A count of nothing.
    pub fn new() -> Count
        ensures { (result.comparisons ≡ 0) × (result.moves ≡ 0) }
    {
        Count {
            marker: PhantomData,
        }
    }

    // Does nothing at run time. The two proofs of `new` and of this function are all that ties the numbers to code.
    fn record(&mut self, comparisons: u64, moves: u64)
        ensures { (self.new.comparisons ≡ self.old.comparisons + comparisons) × (self.new.moves ≡ self.old.moves + moves) }
    {}
}

/// Adds moves. Only the modules `cells` and `slots` of `fc_tree_slots` may do so.
pub fn add_moves(count: &mut Count, moves: usize)
    ensures comparisons { count.new.comparisons ≡ count.old.comparisons }
    ensures moves { count.new.moves ≡ count.old.moves + moves }
{
    count.record(0, moves as u64)
}

/// How the key stands to the query. It adds one comparison to the count.
///
/// No other call adds a comparison.
pub fn compare<K: Ord, Q: Query<K>>(key: &K, query: Q, count: &mut Count) -> Ordering
    ensures value { result ≡ Q.order key.now (Q.sought query) }
    ensures comparisons { count.new.comparisons ≡ count.old.comparisons + 1 }
    ensures moves { count.new.moves ≡ count.old.moves }
{
    count.record(1, 0);
    query.order_of(key)
}
