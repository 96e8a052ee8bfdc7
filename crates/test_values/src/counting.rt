//! Keys that count their comparisons.
ghost use Rattle.std.specs.Prelude.{◌≡◌, ◌==◌};
ghost use Rattle.std.proofs.Common.{rules};
ghost use Rattle.std.specs.Cmp.{partial_order_from_own_ties};
ghost use Rattle.std.specs.Cmp.Rules.{comparing};
ghost use Rattle.std.specs.Ordering.{nat_cmp, on, as_partial_cmp};

use crate::add_one;
use fc_base::{TryClone, TryReserveError};
use std::cell::Cell;
use std::cmp::Ordering;

/// A number as a key, which counts each of its comparisons.
#[derive(Clone, Copy)]
pub struct CountingKey<'a> {
    pub number: u64,
    pub comparisons: &'a Cell<u64>,
}

impl<'a> CountingKey<'a> {
    /// A key that counts there.
    pub fn new(number: u64, comparisons: &'a Cell<u64>) -> CountingKey<'a>
        ensures { result.number ≡ number }
    {
        CountingKey {
            number,
            comparisons,
        }
    }
}

impl PartialEq for CountingKey<'_> {
    ghost eq = { on (λ key. key.number) ◌==◌ };

    ghost laws = { Prim.search (comparing, rules) };

    fn eq(&self, other: &Self) -> bool {
        add_one(self.comparisons);
        self.number == other.number
    }
}

impl Eq for CountingKey<'_> {
    ghost laws = { Prim.search (comparing, rules) };
}

impl PartialOrd for CountingKey<'_> {
    ghost partial_cmp = { as_partial_cmp (on (λ key. key.number) nat_cmp) };

    ghost laws = { partial_order_from_own_ties (Prim.search (comparing, rules)) (Prim.search (comparing, rules)) };

    fn partial_cmp(&self, other: &Self) -> Option<Ordering> {
        Some(self.cmp(other))
    }
}

impl Ord for CountingKey<'_> {
    ghost cmp = { on (λ key. key.number) nat_cmp };

    ghost total = { Prim.search (comparing, rules) };

    ghost matches_partial_cmp = { Prim.search (comparing, rules) };

    ghost matches_eq = { Prim.search (comparing, rules) };

    fn cmp(&self, other: &Self) -> Ordering {
        add_one(self.comparisons);
        self.number.cmp(&other.number)
    }
}

impl<'a> TryClone for CountingKey<'a> {
    ghost same = { λ source copy. copy.number ≡ source.number };

    fn try_clone(&self) -> Result<CountingKey<'a>, TryReserveError> {
        Ok(*self)
    }
}
