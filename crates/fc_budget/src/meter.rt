//! Counts that many collections share by `&`: in one thread by a cell, in several by an atomic.
ghost use Rattle.std.specs.Prelude.{◌≡◌, ◌≤◌};
ghost use Rattle.fc_budget.specs.Accounts.{cap_of};

use crate::account::Account;
use std::cell::Cell;
use std::sync::atomic::{AtomicUsize, Ordering};

/// What counts bytes against a cap.
pub trait Counting: Drop {
    // Counts so many bytes as out, if as many are left.
    fn charge(&self, bytes: usize) -> bool;

    // Counts so many bytes as back, of which no block was made.
    fn refund(&self, bytes: usize);

    // A block of so many bytes goes back next.
    fn before_free(&self, bytes: usize);

    // A block of so many bytes went back.
    fn after_free(&self, bytes: usize);
}

/// How many bytes are out, and how many may be. No clause sees what the cell or the atomic holds, so what is read of it is held below the cap once more.
#[derive(Drop)]
pub struct Meter<C> {
    used: C,
    cap: usize,
}

impl<C> Meter<C> {
    pub(crate) fn new(used: C, cap: usize) -> Meter<C>
        ensures { result.cap ≡ cap }
    {
        Meter { used, cap }
    }
}

impl Meter<Cell<usize>> {
    pub(crate) fn account(&self) -> Account
        ensures { cap_of result ≡ self.now.cap }
    {
        Account::having(self.used.get(), self.cap)
    }
}

impl Counting for Meter<Cell<usize>> {
    fn charge(&self, bytes: usize) -> bool {
        let mut account = self.account();
        let fits = account.take(bytes).is_ok();
        self.used.set(account.used());
        fits
    }

    fn refund(&self, bytes: usize) {
        let mut account = self.account();
        account.give(bytes);
        self.used.set(account.used());
    }

    fn before_free(&self, bytes: usize) {
        self.refund(bytes);
    }

    fn after_free(&self, _bytes: usize) {}
}

impl Meter<AtomicUsize> {
    pub(crate) fn cap(&self) -> usize
        ensures { result ≡ self.now.cap }
    {
        self.cap
    }

    pub(crate) fn used(&self) -> usize
        ensures { result ≤ self.now.cap }
    {
        self.used.load(Ordering::SeqCst).min(self.cap)
    }
}

impl Counting for Meter<AtomicUsize> {
    // It tries again only where another thread's count went through in between, and not for ever: after 2^64 tries it refuses.
    fn charge(&self, bytes: usize) -> bool {
        let cap = self.cap;
        self.used
            .fetch_update(Ordering::SeqCst, Ordering::SeqCst, |used| {
                if used <= cap && bytes <= cap - used {
                    Some(used + bytes)
                } else {
                    None
                }
            })
            .is_ok()
    }

    fn refund(&self, bytes: usize) {
        self.used.fetch_sub(bytes, Ordering::SeqCst);
    }

    fn before_free(&self, _bytes: usize) {}

    // Only now: another thread that took these bytes at once could find that the block is still out.
    fn after_free(&self, bytes: usize) {
        self.refund(bytes);
    }
}
