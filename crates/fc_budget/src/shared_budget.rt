//! An allocator over another, with a cap, for several threads.
ghost use Rattle.std.specs.Prelude.{◌≡◌, ◌≤◌};
ghost use Rattle.fc_budget.specs.Accounts.{budget_cap, budget_inner};

use crate::capped::Capped;
use crate::meter::Meter;
use std::alloc::Allocator;
use std::sync::atomic::AtomicUsize;

/// An allocator over `inner` with a cap on the bytes that are out at once, which threads may share where they may share `inner`. Pass `&budget` where an
/// allocator is taken: all that is made over it, in any thread, counts against the one cap, and no more once it is given back. A request is refused just
/// where its bytes pass the cap beside those that are out, with those that other threads are just asking the inner allocator for, or giving back to it.
/// No call waits for another thread; one tries again where another thread's count went through in between.
pub type SharedBudget<B> = Capped<B, Meter<AtomicUsize>>;

impl<B: Allocator> SharedBudget<B> {
    /// A budget of which at most `bytes` bytes can be out at once, with nothing out.
    pub fn new(inner: B, bytes: usize) -> SharedBudget<B>
        ensures cap { budget_cap result ≡ bytes }
        ensures inner { budget_inner result ≡ inner }
    {
        Capped {
            inner,
            meter: Meter::new(AtomicUsize::new(0), bytes),
        }
    }

    /// The most bytes that can be out at once.
    pub fn cap(&self) -> usize
        ensures { result ≡ budget_cap self.now }
    {
        self.meter.cap()
    }

    /// How many bytes are out at a moment of the call, with those of requests that are just being answered.
    pub fn used(&self) -> usize
        ensures { result ≤ budget_cap self.now }
    {
        self.meter.used()
    }

    /// How many more bytes could go out at that moment. Another thread may have taken them by the time that the caller asks for them.
    pub fn left(&self) -> usize
        ensures { result ≤ budget_cap self.now }
    {
        self.meter.cap() - self.meter.used()
    }
}
