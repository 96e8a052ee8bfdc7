//! A sliding window of times for each client.
ghost use Rattle.std.specs.Prelude.{◌≡◌, ℕ, ◌≢◌, [], filter, length, IfOk, OnOk, OnErr};
ghost use Rattle.example_limiter.specs.Decided.{kept, recent, is_recent, IsDecided};

use fallible_collections::{TryHashMap, TryReserveError, TryVec};
use std::alloc::Global;
use std::marker::Model;

/// Which clients made how many requests of late.
#[derive(Drop)]
pub struct Limiter {
    limit: usize,
    window: u64,
    clients: TryHashMap<u64, TryVec<u64>>,
    alloc: Global,
}

impl Model for Limiter {
    ghost use Rattle.example_limiter.specs.Decided.{Limits};

    ghost Value = { Limits };

    ghost view = { λ l. record { limit = l.limit; window = l.window; clients = l.clients.pairs } };
}

impl Limiter {
    /// A limiter that allows each client `limit` requests within a time of `window`. It takes no memory.
    pub fn new(alloc: Global, limit: usize, window: u64) -> Limiter
        ensures rules { (result.limit ≡ limit) × (result.window ≡ window) }
        ensures clients { result.clients ≡ [] }
    {
        Limiter {
            limit,
            window,
            clients: TryHashMap::default(alloc),
            alloc,
        }
    }

    /// Whether a request that the client makes now is allowed: where fewer than `limit` of its allowed requests were less than `window` ago.
    /// Its older ones are forgotten.
    ///
    /// # Errors
    /// Where memory for the time was refused. What is kept of each client is then as it was.
    pub fn allow(&mut self, client: u64, now: u64) -> Result<bool, TryReserveError>
        ensures decided { IfOk result (λ allowed. IsDecided (recent self.old client now) self.old.limit now allowed (kept self.new client)) }
        ensures others { OnOk result ((other : ℕ) → other ≢ client → kept self.new other ≡ kept self.old other) }
        ensures unchanged { OnErr result ((any : ℕ) → kept self.new any ≡ kept self.old any) }
        ensures rules { (self.new.limit ≡ self.old.limit) × (self.new.window ≡ self.old.window) }
    {
        let (limit, window) = (self.limit, self.window);
        match self.clients.get_mut(&client) {
            Some(times) => decide(times, limit, window, now),
            None => self.allow_first(client, now),
        }
    }

    // The first request of a client.
    fn allow_first(&mut self, client: u64, now: u64) -> Result<bool, TryReserveError>
        requires { kept self.old client ≡ [] }
        ensures decided { IfOk result (λ allowed. IsDecided [] self.old.limit now allowed (kept self.new client)) }
        ensures others { OnOk result ((other : ℕ) → other ≢ client → kept self.new other ≡ kept self.old other) }
        ensures unchanged { OnErr result ((any : ℕ) → kept self.new any ≡ kept self.old any) }
        ensures rules { (self.new.limit ≡ self.old.limit) × (self.new.window ≡ self.old.window) }
    {
        if self.limit == 0 {
            return Ok(false);
        }
        let mut times = TryVec::new(self.alloc);
        times.push(now)?;
        self.clients.insert(client, times)?;
        Ok(true)
    }

    /// How many requests of the client are kept.
    pub fn count(&self, client: u64) -> usize
        ensures { result ≡ length (kept self.now client) }
    {
        match self.clients.get(&client) {
            Some(times) => times.len(),
            None => 0,
        }
    }
}

// Room is taken before a time is forgotten, so that nothing changes where it is refused.
fn decide(
    times: &mut TryVec<u64>,
    limit: usize,
    window: u64,
    now: u64,
) -> Result<bool, TryReserveError>
    ensures decided { IfOk result (λ allowed. IsDecided (filter (is_recent window now) times.old.items) limit now allowed times.new.items) }
    ensures unchanged { OnErr result (times.new ≡ times.old) }
{
    times.reserve(1)?;
    times.retain(|time| now.saturating_sub(*time) < window);
    if times.len() >= limit {
        return Ok(false);
    }
    times.push(now).unwrap();
    Ok(true)
}
