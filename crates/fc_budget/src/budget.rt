//! An allocator over another, with a cap.
ghost use Rattle.std.specs.Prelude.{◌≡◌, ◌≤◌};
ghost use Rattle.fc_budget.specs.Accounts.{cap_of, budget_cap, budget_inner};

use crate::account::Account;
use crate::capped::Capped;
use crate::meter::Meter;
use std::alloc::Allocator;
use std::cell::Cell;

/// An allocator over `inner` with a cap on the bytes that are out at once. Pass `&budget` where an allocator is taken: all that is made over it counts
/// against the one cap, and no more once it is given back.
pub type Budget<B> = Capped<B, Meter<Cell<usize>>>;

impl<B: Allocator> Budget<B> {
    /// A budget of which at most `bytes` bytes can be out at once.
    pub fn new(inner: B, bytes: usize) -> Budget<B>
        ensures cap { budget_cap result ≡ bytes }
        ensures inner { budget_inner result ≡ inner }
    {
        Capped {
            inner,
            meter: Meter::new(Cell::new(0), bytes),
        }
    }

    /// How many bytes are out, and how many may be.
    pub fn account(&self) -> Account
        ensures { cap_of result ≡ budget_cap self.now }
    {
        self.meter.account()
    }

    /// The most bytes that can be out at once.
    pub fn cap(&self) -> usize
        ensures { result ≡ budget_cap self.now }
    {
        self.account().cap()
    }

    /// How many bytes are out.
    pub fn used(&self) -> usize
        ensures { result ≤ budget_cap self.now }
    {
        self.account().used()
    }

    /// How many more bytes can go out.
    pub fn left(&self) -> usize
        ensures { result ≤ budget_cap self.now }
    {
        self.account().left()
    }
}
