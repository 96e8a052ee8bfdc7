//! The count of what is out, for one holder that lends it by `&mut`: each call is exact.
ghost use Rattle.std.specs.Prelude.{◌≡◌, ◌+◌, ◌-◌, ◌≤◌, ◌↔◌, IsOk, IfOk, OnErr};

use std::alloc::AllocError;

/// How many bytes are out, and how many may be out at once.
#[derive(Clone, Copy, Debug, PartialEq, Eq)]
pub struct Account {
    used: usize,
    cap: usize,
    ghost within: { used ≤ cap },
}

impl Account {
    ghost use Rattle.fc_budget.specs.Accounts.{used_of, cap_of};

    /// An account with nothing out, of which at most `cap` bytes can be out at once.
    pub fn new(cap: usize) -> Account
        ensures cap { cap_of result ≡ cap }
        ensures none { used_of result ≡ 0 }
    {
        Account { used: 0, cap }
    }

    // The account that has so many bytes out, or all if these are more than the cap.
    pub(crate) fn having(used: usize, cap: usize) -> Account
        ensures cap { cap_of result ≡ cap }
        ensures used { used ≤ cap → used_of result ≡ used }
    {
        Account {
            used: used.min(cap),
            cap,
        }
    }

    /// The most bytes that can be out at once.
    pub fn cap(&self) -> usize
        ensures { result ≡ cap_of self.now }
    {
        self.cap
    }

    /// How many bytes are out.
    pub fn used(&self) -> usize
        ensures used { result ≡ used_of self.now }
        ensures within { result ≤ cap_of self.now }
    {
        self.used
    }

    /// How many more bytes can go out.
    pub fn left(&self) -> usize
        ensures { used_of self.now + result ≡ cap_of self.now }
    {
        self.cap - self.used
    }

    /// Counts so many bytes as out. Refused exactly where they are more than are left, and then nothing is counted.
    pub fn take(&mut self, bytes: usize) -> Result<(), AllocError>
        ensures fits { IsOk result ↔ (used_of self.old + bytes ≤ cap_of self.old) }
        ensures taken { IfOk result (λ _. used_of self.new ≡ used_of self.old + bytes) }
        ensures unchanged { OnErr result (self.new ≡ self.old) }
        ensures cap { cap_of self.new ≡ cap_of self.old }
    {
        if bytes > self.cap - self.used {
            return Err(AllocError);
        }
        self.used += bytes;
        Ok(())
    }

    /// Counts so many bytes as back; if fewer were out, all.
    pub fn give(&mut self, bytes: usize)
        ensures given { used_of self.new ≡ used_of self.old - bytes }
        ensures cap { cap_of self.new ≡ cap_of self.old }
    {
        self.used = self.used.saturating_sub(bytes);
    }
}
