//! Requests for memory, counted for proofs alone: an `Asked` has no bytes.
//!
//! Only `add_request` adds one, and it stands beside each request that a tree makes: the gate searches the sources for any other caller.
ghost use Rattle.std.specs.Prelude.{◌≡◌, ℕ, ◌+◌};
ghost use Rattle.std.specs.Borrow.{ftrue};

use std::marker::{Model, PhantomData};

/// How many requests for memory were made. Contracts see the number, and a program sees none.
#[derive(Drop)]
pub struct Asked {
    marker: PhantomData<()>,
    pub ghost requests: { ℕ },
}

impl Model for Asked {
    ghost also_owns = { λ _. ftrue };
}

impl Asked {
    /// A count of nothing.
    pub fn new() -> Asked
        ensures { result.requests ≡ 0 }
    {
        Asked {
            marker: PhantomData,
        }
    }

    // Does nothing at run time. The two proofs of `new` and of this function are all that ties the number to code.
    fn record(&mut self, requests: u64)
        ensures { self.new.requests ≡ self.old.requests + requests }
    {}
}

/// Adds a request. Only what makes one may do so, right before it.
pub fn add_request(asked: &mut Asked)
    ensures { asked.new.requests ≡ asked.old.requests + 1 }
{
    asked.record(1)
}
