//! Numbers that count how many of them are made and dropped, and of which as many copies are made as a tally allows.
ghost use Rattle.std.specs.Prelude.{◌≡◌};

use crate::add_one;
use fc_base::{TryClone, TryReserveError};
use std::cell::Cell;

/// How many tokens were made, copies among them, and how many were dropped; how many copies are left, and by which error the next one is refused.
#[derive(Drop)]
pub struct Tally {
    pub made: Cell<u64>,
    pub dropped: Cell<u64>,
    pub left: Cell<u64>,
    pub error: TryReserveError,
}

impl Tally {
    /// Nothing is counted yet, and no copy is refused.
    pub fn new() -> Tally {
        Tally::of_copies(u64::MAX, TryReserveError::CapacityOverflow)
    }

    /// So many copies are left, and the next one is refused by this error.
    pub fn of_copies(left: u64, error: TryReserveError) -> Tally {
        Tally {
            made: Cell::new(0),
            dropped: Cell::new(0),
            left: Cell::new(left),
            error,
        }
    }

    /// How many tokens there are.
    pub fn living(&self) -> u64 {
        self.made.get().wrapping_sub(self.dropped.get())
    }

    /// Counts anew what is made and dropped.
    pub fn forget(&self) {
        self.made.set(0);
        self.dropped.set(0);
    }
}

/// A number that is counted when it is made and when it is dropped. Two of one number are equal.
#[derive_where(PartialEq, Eq, PartialOrd, Ord, Hash)]
pub struct Token<'a> {
    pub number: u64,
    #[derive_where(skip)]
    tally: &'a Tally,
}

impl<'a> Token<'a> {
    /// One more token.
    pub fn new(number: u64, tally: &'a Tally) -> Token<'a>
        ensures { result.number ≡ number }
    {
        add_one(&tally.made);
        Token { number, tally }
    }
}

impl Drop for Token<'_> {
    fn drop(self) {
        add_one(&self.tally.dropped);
        let Token {
            number: _,
            tally: _,
        } = self;
    }
}

impl<'a> TryClone for Token<'a> {
    ghost same = { λ source copy. copy.number ≡ source.number };

    fn try_clone(&self) -> Result<Token<'a>, TryReserveError> {
        let left = self.tally.left.get();
        if left == 0 {
            return Err(self.tally.error);
        }
        self.tally.left.set(left - 1);
        Ok(Token::new(self.number, self.tally))
    }
}
